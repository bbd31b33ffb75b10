// Reading a value as an event.
ghost use Rattle.std.specs.Prelude.{◌≡◌, ℕ, List, Ok, Err, IfOk, IsTrue, codes};
ghost use Rattle.swf_text.specs.Same.{is_ascii};
ghost use Rattle.swf_value.specs.Members.{at};
ghost use Rattle.swf_value.specs.Node.{members_of};
ghost use Rattle.swf_value.specs.Value.{Ascending};
ghost use Rattle.swf_cloudevents.specs.Event as spec;
ghost use Rattle.swf_cloudevents.specs.Event.{event_of};
ghost use Rattle.swf_cloudevents.specs.Faults.{attribute};
ghost use Rattle.swf_cloudevents.specs.declared.fault.FaultKind.{FaultKind as TheKind};

use crate::check::{check_members, fault, given, is_apart};
use crate::event::{Event, Payload};
use crate::fault::{EventFault, FaultKind};
use crate::named::NamedValues;
use std::alloc::{AllocError, Global};
use swf_text::{Text, word};
use swf_value::{Json, JsonMap, JsonNode, Member};

/// The event that a value is, or its first fault.
pub fn read_event(alloc: Global, value: &Json) -> Result<Event, EventFault>
    ensures event { IfOk result (λ e. event_of value.now ≡ Ok e) }
    ensures bad { (attribute : List ℕ) (kind : TheKind) → result ≡ Err (EventFault.Bad attribute kind) → event_of value.now ≡ Err (attribute, kind) }
{
    match value.node() {
        JsonNode::Object(members) => {
            check_members(alloc, members)?;
            Ok(event_in(alloc, members)?)
        }
        _ => Err(fault(alloc, "", FaultKind::WrongKind)),
    }
}

/// The event of members that have no fault.
fn event_in(alloc: Global, members: &JsonMap) -> Result<Event, AllocError>
    requires { Ascending members.now }
    ensures { IfOk result (λ e. e ≡ spec.event_in members.now) }
{
    let id = text_in(alloc, members, "id")?;
    let source = text_in(alloc, members, "source")?;
    let kind = text_in(alloc, members, "type")?;
    let attributes = others(alloc, members.as_slice())?;
    let payload = payload_in(members)?;
    Ok(Event {
        id,
        source,
        kind,
        attributes,
        payload,
    })
}

/// The text of an attribute.
fn text_in(alloc: Global, members: &JsonMap, name: &str) -> Result<Text, AllocError>
    requires ascending { Ascending members.now }
    requires ascii { IsTrue (is_ascii name.now) }
    ensures { IfOk result (λ t. t ≡ spec.text_in (attribute name.now members.now)) }
{
    match given(members, name) {
        Some(JsonNode::Text(text)) => text.copy(),
        _ => word(alloc, ""),
    }
}

/// Data as a value, else as base64.
#[tactic(auto, using(swf_text::proofs::SameLemmas::chars_ascii))]
fn payload_in(members: &JsonMap) -> Result<Payload, AllocError>
    requires { Ascending members.now }
    ensures { IfOk result (λ p. p ≡ spec.payload_of (at (codes "data") members.now) (attribute (codes "data_base64") members.now)) }
{
    if let Some(value) = members.find("data") {
        return Ok(Payload::Value(value.copy()?));
    }
    match given(members, "data_base64") {
        Some(JsonNode::Text(text)) => Ok(Payload::Base64(text.copy()?)),
        _ => Ok(Payload::Absent),
    }
}

/// The members that have no place of their own, less those that are null.
fn others(alloc: Global, members: &[Member]) -> Result<NamedValues, AllocError>
    requires { Ascending (members_of members.now) }
    ensures { IfOk result (λ n. n ≡ spec.others (members_of members.now)) }
{
    let mut kept = Vec::new(alloc);
    for member in members {
        if !is_other(member) {
            continue;
        }
        kept.push(member.clone()?)?;
    }
    NamedValues::of(alloc, kept)
}

/// Whether a member is there and has no place of its own.
fn is_other(member: &Member) -> bool
    ensures { result ≡ spec.is_other member.now.name member.now.value }
{
    match member.value.node() {
        JsonNode::Null => false,
        _ => !is_apart(&member.name),
    }
}
