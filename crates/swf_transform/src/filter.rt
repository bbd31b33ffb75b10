// Which events a filter takes.
ghost use Rattle.std.specs.Prelude.{◌≡◌, IfOk, [], option_map};
ghost use Rattle.swf_evaluation.specs.Operations.{is_same};
ghost use Rattle.swf_templates.specs.Fill.{first_of, fill};
ghost use Rattle.swf_templates.specs.Filter.{is_true_got, is_got, attribute_matches, filter_matches};

use crate::filling::{fill, first};
use std::alloc::{AllocError, Global};
use swf_cloudevents::{Event, attribute};
use swf_document::{Filter, Template, TemplateNode};
use swf_expr::Expr;
use swf_jq_builtins::is_true;
use swf_jq_eval::Vars;
use swf_templates::Got;
use swf_value::Json;

/// No variables. It takes no memory.
pub(crate) fn no_variables(alloc: Global) -> Vars
    ensures { result ≡ [] }
{
    Vars::of(Vec::new(alloc))
}

/// Whether two values are equal.
pub(crate) fn is_same(left: &Json, right: &Json) -> bool
    ensures { result ≡ is_same left.now right.now }
{
    left.is(right)
}

/// Whether an expression is true on a value.
fn is_true_on(alloc: Global, expr: &Expr, value: &Json) -> Result<bool, AllocError>
    ensures { IfOk result (λ b. b ≡ is_true_got (first_of expr.now [] value.now)) }
{
    match first(alloc, expr, &no_variables(alloc), value)? {
        Got::Value(truth) => Ok(is_true(&truth)),
        _ => Ok(false),
    }
}

/// Whether a template that is filled on a value gives that value.
fn gives_itself(alloc: Global, template: &Template, value: &Json) -> Result<bool, AllocError>
    ensures { IfOk result (λ b. b ≡ is_got value.now (fill template.now [] value.now)) }
{
    match fill(alloc, template, &no_variables(alloc), value)? {
        Got::Value(filled) => Ok(is_same(value, &filled)),
        _ => Ok(false),
    }
}

/// Whether an attribute matches, which may be absent.
fn attribute_matches(
    alloc: Global,
    template: &Template,
    value: Option<&Json>,
) -> Result<bool, AllocError>
    ensures { IfOk result (λ b. b ≡ attribute_matches template.now (option_map (λ v. v.now) value.entry)) }
{
    match (template.node(), value) {
        (TemplateNode::Run(expr), Some(value)) => is_true_on(alloc, expr, value),
        (TemplateNode::Run(expr), None) => is_true_on(alloc, expr, &Json::null()),
        (_, None) => Ok(false),
        (TemplateNode::Const(constant), Some(value)) => Ok(is_same(value, constant)),
        (_, Some(value)) => gives_itself(alloc, template, value),
    }
}

/// Whether each attribute that a filter names matches. It looks at no other.
pub fn filter_matches(alloc: Global, filter: &Filter, event: &Event) -> Result<bool, AllocError>
    ensures { IfOk result (λ b. b ≡ filter_matches filter.now event.now) }
{
    for field in filter.with.as_slice() {
        let value = attribute(alloc, event, field.name.as_str())?;
        if !attribute_matches(alloc, &field.value, value.as_ref())? {
            return Ok(false);
        }
    }
    Ok(true)
}
