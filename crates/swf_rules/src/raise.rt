// The error that a `raise` gives (DSL 1.0.0, reference, "Raise" and "Error").
ghost use Rattle.std.specs.Prelude.{◌≡◌, IfOk, option_map};
ghost use Rattle.swf_meaning.specs.Raise.{text_of, part, or_place, raised, error_named, raised_by, raising};
ghost use Rattle.swf_rule.specs.Rules.{line_in};
ghost use Rattle.swf_scene.specs.Halts.{Gives, Makes};

use std::alloc::AllocError;
use swf_document::{ErrorKind, ErrorRef, ErrorSpec, NamedError, Problem, Template};
use swf_jq_eval::Vars;
use swf_rule::Rule;
use swf_scene::{Halt, within};
use swf_stack::Made;
use swf_text::{Text, pointer_text, same_texts};
use swf_transform::fill;
use swf_value::JsonNode;

// The error of a name.
fn error_named<'a>(name: &Text, errors: &'a [NamedError]) -> Option<&'a ErrorSpec>
    ensures { option_map (λ e. e.now) result ≡ error_named name.now errors.now }
{
    for named in errors {
        if same_texts(&named.name, name) {
            return Some(&named.error);
        }
    }
    None
}

// The text that a template gives.
fn text_of(rule: &Rule, vars: &Vars, template: &Template) -> Result<Text, Halt>
    ensures { Gives (text_of rule.now.running.now.task vars.now rule.now.running.now.input template.now) result }
{
    let value = rule.value_of(fill(rule.alloc, template, vars, rule.running.input())?)?;
    match value.node() {
        JsonNode::Text(text) => Ok(text.copy()?),
        _ => Err(rule.fails(ErrorKind::Expression, "cannot raise")),
    }
}

// The text of a part that may be missing.
fn part(rule: &Rule, vars: &Vars, template: &Option<Template>) -> Result<Option<Text>, Halt>
    ensures { Gives (part rule.now.running.now.task vars.now rule.now.running.now.input template.now) result }
{
    match template {
        None => Ok(None),
        Some(template) => Ok(Some(text_of(rule, vars, template)?)),
    }
}

// An instance that is given, or the task's place.
fn or_place(rule: &Rule, instance: Option<Text>) -> Result<Text, AllocError>
    ensures { IfOk result (λ t. t ≡ or_place rule.now.running.now.task instance) }
{
    match instance {
        Some(instance) => Ok(instance),
        None => pointer_text(rule.alloc, &rule.running.task().place(rule.alloc)?),
    }
}

// An error whose parts are filled by ascending name.
fn raised(rule: &Rule, vars: &Vars, error: &ErrorSpec) -> Result<Problem, Halt>
    ensures { Gives (raised rule.now.running.now.task vars.now rule.now.running.now.input error.now) result }
{
    let detail = part(rule, vars, &error.detail)?;
    let instance = part(rule, vars, &error.instance)?;
    let title = part(rule, vars, &error.title)?;
    let uri = text_of(rule, vars, &error.uri)?;
    let instance = Some(or_place(rule, instance)?);
    Ok(Problem {
        uri,
        status: error.status,
        title,
        detail,
        instance,
    })
}

// The error is written there or has a name in the document.
fn raised_by(rule: &Rule, reference: &ErrorRef) -> Result<Problem, Halt>
    ensures { Gives (raised_by (line_in rule.now) rule.now.running.now reference.now) result }
{
    match reference {
        ErrorRef::Written(error) => raised(rule, rule.within()?.vars(), error),
        ErrorRef::Named(name) => {
            let document = rule.scene.setting.document.get().document();
            let Some(error) = error_named(name, document.errors.as_slice()) else {
                return Err(rule.fails(ErrorKind::Configuration, "unknown error"));
            };
            let scene = rule.scene.alone(rule.alloc)?;
            raised(rule, &within(rule.alloc, &scene, rule.running)?, error)
        }
    }
}

/// A `raise` ends in its error.
pub fn raising(rule: &Rule, reference: &ErrorRef) -> Result<Made, Halt>
    ensures { Makes (line_in rule.now) (raising (line_in rule.now) rule.now.running.now reference.now) result }
{
    Err(Halt::Fault(raised_by(rule, reference)?))
}
