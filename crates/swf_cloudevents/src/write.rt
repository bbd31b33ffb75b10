// Writing an event.
ghost use Rattle.std.specs.Prelude.{◌≡◌, IfOk, IsTrue, chars, option_map};
ghost use Rattle.swf_text.specs.Same.{is_ascii, same};
ghost use Rattle.swf_value.specs.Members.{at, put, member_at};
ghost use Rattle.swf_value.specs.Value.{text};
ghost use Rattle.swf_cloudevents.specs.Event.{event_value, with_payload};

use crate::event::{Event, Payload};
use crate::named::NamedValues;
use std::alloc::{AllocError, Global};
use swf_text::{Text, word};
use swf_value::Json;

/// The value that an event is written as. It copies no values.
pub fn event_json(alloc: Global, event: &Event) -> Result<Json, AllocError>
    ensures { IfOk result (λ v. v ≡ event_value event.now) }
{
    let mut members = event.attributes.copy()?;
    put_payload(alloc, &mut members, &event.payload)?;
    put_text(alloc, &mut members, "type", event.kind.copy()?)?;
    put_text(alloc, &mut members, "specversion", word(alloc, "1.0")?)?;
    put_text(alloc, &mut members, "source", event.source.copy()?)?;
    put_text(alloc, &mut members, "id", event.id.copy()?)?;
    members.to_json(alloc)
}

fn put_payload(
    alloc: Global,
    members: &mut NamedValues,
    payload: &Payload,
) -> Result<(), AllocError>
    ensures { IfOk result (λ _. members.new ≡ with_payload payload.now members.old) }
{
    match payload {
        Payload::Absent => Ok(()),
        Payload::Value(value) => members.put(word(alloc, "data")?, value.copy()?),
        Payload::Base64(text) => put_text(alloc, members, "data_base64", text.copy()?),
    }
}

fn put_text(
    alloc: Global,
    members: &mut NamedValues,
    name: &str,
    content: Text,
) -> Result<(), AllocError>
    requires { IsTrue (is_ascii name.now) }
    ensures { IfOk result (λ _. members.new ≡ put name.now (text content) members.old) }
{
    members.put(word(alloc, name)?, Json::text(content))
}

/// The member of a name of the value that an event is written as, data among them.
#[tactic(auto, using(crate::proofs::Puts::at_put))]
pub fn attribute(alloc: Global, event: &Event, name: &str) -> Result<Option<Json>, AllocError>
    ensures { IfOk result (λ o. o ≡ member_at (chars name.now) (event_value event.now)) }
{
    if is_named(name, "id") {
        text_copy(&event.id)
    } else if is_named(name, "source") {
        text_copy(&event.source)
    } else if is_named(name, "specversion") {
        Ok(Some(Json::text(word(alloc, "1.0")?)))
    } else if is_named(name, "type") {
        text_copy(&event.kind)
    } else {
        optional(event, name)
    }
}

/// The data, or an attribute that need not be there.
#[tactic(auto, using(crate::proofs::Puts::at_put))]
fn optional(event: &Event, name: &str) -> Result<Option<Json>, AllocError>
    ensures { IfOk result (λ o. o ≡ at (chars name.now) (with_payload event.now.payload event.now.attributes)) }
{
    let stored = event.attributes.find(name);
    match &event.payload {
        Payload::Value(value) => {
            if is_named(name, "data") {
                Ok(Some(value.copy()?))
            } else {
                copied(stored)
            }
        }
        Payload::Base64(text) => {
            if is_named(name, "data_base64") {
                text_copy(text)
            } else {
                copied(stored)
            }
        }
        Payload::Absent => copied(stored),
    }
}

fn copied(value: Option<&Json>) -> Result<Option<Json>, AllocError>
    ensures { IfOk result (λ o. o ≡ option_map (λ v. v.now) value.entry) }
{
    match value {
        Some(value) => Ok(Some(value.copy()?)),
        None => Ok(None),
    }
}

fn text_copy(content: &Text) -> Result<Option<Json>, AllocError>
    ensures { IfOk result (λ o. o ≡ Some (text content.now)) }
{
    Ok(Some(Json::text(content.copy()?)))
}

/// Whether a name is an ASCII word.
fn is_named(name: &str, word: &str) -> bool
    requires { IsTrue (is_ascii word.now) }
    ensures { result ≡ same (chars name.now) word.now }
{
    name == word
}

/// By what an event is known: its source and its id. It takes no memory.
pub fn key(event: &Event) -> (&Text, &Text)
    ensures source { result.0.now ≡ event.now.source }
    ensures id { result.1.now ≡ event.now.id }
{
    (&event.source, &event.id)
}

impl Event {
    /// The same once more. It copies no values.
    pub fn copy(&self) -> Result<Event, AllocError>
        ensures { IfOk result (λ e. e ≡ self.now) }
    {
        let id = self.id.copy()?;
        let source = self.source.copy()?;
        let kind = self.kind.copy()?;
        let attributes = self.attributes.copy()?;
        let payload = self.payload.copy()?;
        Ok(Event {
            id,
            source,
            kind,
            attributes,
            payload,
        })
    }
}

impl Payload {
    /// The same once more. It copies no values.
    fn copy(&self) -> Result<Payload, AllocError>
        ensures { IfOk result (λ p. p ≡ self.now) }
    {
        match self {
            Payload::Absent => Ok(Payload::Absent),
            Payload::Value(value) => Ok(Payload::Value(value.copy()?)),
            Payload::Base64(text) => Ok(Payload::Base64(text.copy()?)),
        }
    }
}
