// Templates are filled in.
ghost use Rattle.std.specs.Prelude.{◌≡◌, IfOk, option_map};
ghost use Rattle.swf_document.specs.TemplateNode.{templates_of, fields_of};
ghost use Rattle.swf_document.specs.Template.{list as list_of, object as object_of};
ghost use Rattle.swf_templates.specs.Fill.{is_within, first_of, filled, limited, fill, transformed};

use std::alloc::{AllocError, Global};
use swf_document::{Field, Template, TemplateNode};
use swf_expr::Expr;
use swf_jq_eval::{First, Vars, first_value};
use swf_templates::Got;
use swf_value::{Json, depth, size_within};

/// The greatest size of a value that a task gives.
const MOST_SIZE: u64 = 4_194_304;

/// How deep such a value may nest.
const MOST_DEPTH: u32 = 64;

/// The value of an expression on an input.
pub fn first(alloc: Global, expr: &Expr, vars: &Vars, input: &Json) -> Result<Got<Json>, AllocError>
    ensures { IfOk result (λ g. g ≡ first_of expr.now vars.now input.now) }
{
    match first_value(alloc, expr, vars, input)? {
        First::Value(value) => Ok(Got::Value(value)),
        First::Raised(error) => Ok(Got::Raised(error)),
        First::Limit => Ok(Got::Limit),
    }
}

#[cycle(filled)]
fn filled(
    alloc: Global,
    template: &Template,
    vars: &Vars,
    input: &Json,
) -> Result<Got<Json>, AllocError>
    ensures { IfOk result (λ g. g ≡ filled vars.now input.now template.now) }
{
    match template.node() {
        TemplateNode::Const(value) => Ok(Got::Value(value.copy()?)),
        TemplateNode::Run(expr) => first(alloc, expr, vars, input),
        TemplateNode::List(items) => filled_list(alloc, items, vars, input),
        TemplateNode::Object(fields) => filled_object(alloc, fields, vars, input),
    }
}

// A list of what these templates give, in order, up to the first that gives no value.
#[cycle(filled)]
fn filled_list(
    alloc: Global,
    items: &[Template],
    vars: &Vars,
    input: &Json,
) -> Result<Got<Json>, AllocError>
    ensures { IfOk result (λ g. g ≡ filled vars.now input.now (list_of (templates_of items.now))) }
{
    let mut values = Vec::new(alloc);
    for item in items {
        match filled(alloc, item, vars, input)? {
            Got::Value(value) => values.push(value)?,
            other => return Ok(other),
        }
    }
    Ok(Got::Value(Json::list(alloc, values)?))
}

// An object of what these templates give, up to the first that gives no value.
#[cycle(filled)]
fn filled_object(
    alloc: Global,
    fields: &[Field],
    vars: &Vars,
    input: &Json,
) -> Result<Got<Json>, AllocError>
    ensures { IfOk result (λ g. g ≡ filled vars.now input.now (object_of (fields_of fields.now))) }
{
    let mut object = Json::object(alloc, Vec::new(alloc))?;
    for field in fields {
        match filled(alloc, &field.value, vars, input)? {
            Got::Value(value) => object.put(field.name.copy()?, value)?,
            other => return Ok(other),
        }
    }
    Ok(Got::Value(object))
}

/// Whether a value is within the limits on size and depth of what a task gives. It takes no memory.
#[tactic(auto, using(crate::proofs::Within::cut_le))]
pub fn is_within(value: &Json) -> bool
    ensures { result ≡ is_within value.now }
{
    size_within(value, MOST_SIZE + 1) <= MOST_SIZE && depth(value) <= MOST_DEPTH
}

/// A value, where it is within the limits.
fn limited(value: Json) -> Got<Json>
    ensures { result ≡ limited value }
{
    if is_within(&value) {
        Got::Value(value)
    } else {
        Got::TooLarge
    }
}

/// What a template gives on an input: its expressions become their values, in the order of items and
/// members, up to the first that gives none.
pub fn fill(
    alloc: Global,
    template: &Template,
    vars: &Vars,
    input: &Json,
) -> Result<Got<Json>, AllocError>
    ensures { IfOk result (λ g. g ≡ fill template.now vars.now input.now) }
{
    match filled(alloc, template, vars, input)? {
        Got::Value(value) => Ok(limited(value)),
        other => Ok(other),
    }
}

/// What a template that may be missing gives: without one the input itself.
pub fn transform(
    alloc: Global,
    template: Option<&Template>,
    vars: &Vars,
    input: &Json,
) -> Result<Got<Json>, AllocError>
    ensures { IfOk result (λ g. g ≡ transformed (option_map (λ t. t.now) template.entry) vars.now input.now) }
{
    match template {
        Some(template) => fill(alloc, template, vars, input),
        None => Ok(Got::Value(input.copy()?)),
    }
}
