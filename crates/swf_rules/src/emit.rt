// An `emit` (DSL 1.0.0, reference, "Emit").
ghost use Rattle.std.specs.Prelude.{◌≡◌, IfOk, Result};
ghost use Rattle.swf_document.specs.declared.error.Problem.{Problem};
ghost use Rattle.swf_meaning.specs.Complete.{Stepped, step_of};
ghost use Rattle.swf_meaning.specs.Emit.{with_own, sending, emits, emitting};
ghost use Rattle.swf_cloudevents.specs.Event.{event_of};
ghost use Rattle.swf_rule.specs.Rules.{line_in, site_in};
ghost use Rattle.swf_scene.specs.Halts.{Makes};
ghost use Rattle.swf_stack.specs.Stack.{stepped_of};

use std::alloc::AllocError;
use swf_cloudevents::{EventFault, read_event};
use swf_document::{Boxed, ErrorKind, Template};
use swf_rule::{Rule, step_of};
use swf_scene::Halt;
use swf_stack::{Made, SentEvent};
use swf_text::word;
use swf_value::{Json, JsonNode};

// With the attributes that the engine gives.
fn with_own(rule: &Rule, mut value: Json) -> Result<Json, AllocError>
    ensures { IfOk result (λ v. v ≡ with_own (site_in rule.now) (line_in rule.now) value) }
{
    if !matches!(value.node(), JsonNode::Object(_)) {
        return Ok(value);
    }
    let version = Json::text(word(rule.alloc, "1.0")?);
    value.put(word(rule.alloc, "specversion")?, version)?;
    value.put(word(rule.alloc, "id")?, Json::text(rule.next_id()?))?;
    Ok(value)
}

// The step of a rule with the event that goes out, which uses a number.
fn with_event(rule: &Rule, given: Result<Made, Halt>, event: SentEvent) -> Result<Made, AllocError>
    ensures { IfOk result (λ made. (m : Result Stepped Problem) → Makes (line_in rule.now) m given → stepped_of (line_in rule.now) made ≡ sending event (step_of (line_in rule.now) m)) }
{
    let made = step_of(rule.alloc, given)?;
    Ok(Made {
        used: 1,
        emitted: Some(event),
        ..made
    })
}

// What is an event goes out, whatever becomes of the task.
fn emits(rule: &Rule, value: &Json) -> Result<Made, Halt>
    ensures { Makes (line_in rule.now) (emits (line_in rule.now) rule.now.running.now (event_of value.now)) result }
{
    match read_event(rule.alloc, value) {
        Ok(event) => {
            let event = Boxed::new(rule.alloc, event)?;
            let given = rule.complete(rule.running.input().copy()?);
            Ok(with_event(rule, given, event)?)
        }
        Err(EventFault::Bad { .. }) => Err(rule.fails(ErrorKind::Validation, "bad event")),
        Err(EventFault::OutOfMemory) => Err(Halt::OutOfMemory),
    }
}

/// An `emit` sends the event of the attributes that its template gives.
pub fn emitting(rule: &Rule, template: &Template) -> Result<Made, Halt>
    ensures { Makes (line_in rule.now) (emitting (site_in rule.now) (line_in rule.now) rule.now.running.now template.now) result }
{
    let value = rule.filled(template)?;
    let value = with_own(rule, value)?;
    emits(rule, &value)
}
