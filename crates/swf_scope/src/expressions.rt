// The faults of expressions and of templates.
ghost use Rattle.std.specs.Prelude.{◌≡◌, ◌++◌, OnOk};
ghost use Rattle.swf_document.specs.TemplateNode.{templates_of, fields_of};
ghost use Rattle.swf_scope.specs.Scope.{expression_faults, condition_faults, template_faults, item_faults, field_faults, filled_faults};
ghost use Rattle.swf_scope.specs.Spots.{place_at};
ghost use Rattle.swf_scope.specs.VariablesView.{names_in};

use crate::spot::{Spot, tell_unless};
use crate::variables::{Variables, all_known};
use std::alloc::{AllocError, Global};
use swf_document::{Boxed, FaultKind, Faults, Field, Template, TemplateNode};
use swf_expr::Expr;

/// Tells a variable without a value, once.
pub fn expression(
    alloc: Global,
    variables: &Variables<'_>,
    at: &Spot<'_>,
    expr: &Expr,
    out: &mut Faults,
) -> Result<(), AllocError>
    ensures { OnOk result (out.new ≡ out.old ++ expression_faults (names_in variables.now) (place_at at.now) expr.now) }
{
    tell_unless(
        alloc,
        all_known(expr, variables),
        at,
        FaultKind::UnknownVariable,
        out,
    )
}

/// The faults of a condition, if it is given.
pub fn condition(
    alloc: Global,
    variables: &Variables<'_>,
    at: &Spot<'_>,
    given: &Option<Boxed<Expr>>,
    out: &mut Faults,
) -> Result<(), AllocError>
    ensures { OnOk result (out.new ≡ out.old ++ condition_faults (names_in variables.now) (place_at at.now) given.now) }
{
    match given {
        None => Ok(()),
        Some(given) => expression(alloc, variables, at, given.get(), out),
    }
}

/// The faults of a template.
#[cycle(templates)]
pub fn template(
    alloc: Global,
    variables: &Variables<'_>,
    at: &Spot<'_>,
    given: &Template,
    out: &mut Faults,
) -> Result<(), AllocError>
    ensures { OnOk result (out.new ≡ out.old ++ template_faults (names_in variables.now) (place_at at.now) given.now) }
{
    match given.node() {
        TemplateNode::Const(_) => Ok(()),
        TemplateNode::Run(expr) => expression(alloc, &*variables, &*at, expr, out),
        TemplateNode::List(items) => list_items(alloc, &*variables, &*at, items, out),
        TemplateNode::Object(given) => fields(alloc, &*variables, &*at, given, out),
    }
}

/// The faults of the items of a list.
#[cycle(templates)]
fn list_items(
    alloc: Global,
    variables: &Variables<'_>,
    at: &Spot<'_>,
    items: &[Template],
    out: &mut Faults,
) -> Result<(), AllocError>
    ensures { OnOk result (out.new ≡ out.old ++ item_faults (names_in variables.now) (place_at at.now) 0 (templates_of items.now)) }
{
    for (position, item) in items.iter().enumerate() {
        template(alloc, &*variables, &Spot::Item(&*at, position), item, out)?;
    }
    Ok(())
}

/// The faults of the members of an object.
#[cycle(templates)]
pub fn fields(
    alloc: Global,
    variables: &Variables<'_>,
    at: &Spot<'_>,
    given: &[Field],
    out: &mut Faults,
) -> Result<(), AllocError>
    ensures { OnOk result (out.new ≡ out.old ++ field_faults (names_in variables.now) (place_at at.now) (fields_of given.now)) }
{
    for field in given {
        template(
            alloc,
            &*variables,
            &Spot::Name(&*at, &field.name),
            &field.value,
            out,
        )?;
    }
    Ok(())
}

/// The faults of a template, if it is given.
pub fn filled(
    alloc: Global,
    variables: &Variables<'_>,
    at: &Spot<'_>,
    given: &Option<Template>,
    out: &mut Faults,
) -> Result<(), AllocError>
    ensures { OnOk result (out.new ≡ out.old ++ filled_faults (names_in variables.now) (place_at at.now) given.now) }
{
    match given {
        None => Ok(()),
        Some(given) => template(alloc, variables, at, given, out),
    }
}
