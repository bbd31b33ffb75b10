// When a `listen` is satisfied, and what it gives then (DSL 1.0.0, reference, "Event Consumption Strategy").
ghost use Rattle.std.specs.Prelude.{◌≡◌, IfOk};
ghost use Rattle.swf_meaning.specs.Listen.{data_of, events_of, is_heard, is_satisfied, read_as};

use std::alloc::{AllocError, Global};
use swf_catalog::{TaskRef, Work};
use swf_cloudevents::{Event, Payload, event_json};
use swf_document::{ListenMode, ListenSpec};
use swf_meaning::Heard;
use swf_value::Json;

/// Whether a `listen` has heard all that it waits for.
pub fn is_satisfied(spec: &ListenSpec, heard: &[Heard]) -> bool
    ensures { result ≡ is_satisfied spec.now heard.now }
{
    match spec.mode {
        ListenMode::One | ListenMode::Any => !heard.is_empty(),
        ListenMode::All => heard.len() >= spec.filters.as_slice().len(),
    }
}

/// Whether a task is a `listen` that has heard all that it waits for.
pub fn is_heard(task: &TaskRef, heard: &[Heard]) -> bool
    ensures { result ≡ is_heard task.now heard.now }
{
    match task.work() {
        Work::Listen(spec) => is_satisfied(spec, heard),
        _ => false,
    }
}

// The data of an event.
fn data_of(payload: &Payload) -> Result<Json, AllocError>
    ensures { IfOk result (λ v. v ≡ data_of payload.now) }
{
    match payload {
        Payload::Absent => Ok(Json::null()),
        Payload::Value(value) => value.copy(),
        Payload::Base64(text) => Ok(Json::text(text.copy()?)),
    }
}

// An event whole, or its data.
fn read_as(alloc: Global, envelope: bool, event: &Event) -> Result<Json, AllocError>
    ensures { IfOk result (λ v. v ≡ read_as envelope event.now) }
{
    if envelope {
        event_json(alloc, event)
    } else {
        data_of(&event.payload)
    }
}

/// The events in the order in which they were taken, each whole or its data.
pub fn events_of(alloc: Global, spec: &ListenSpec, heard: &[Heard]) -> Result<Json, AllocError>
    ensures { IfOk result (λ v. v ≡ events_of spec.now heard.now) }
{
    let mut events = Vec::new(alloc);
    for one in heard {
        events.push(read_as(alloc, spec.envelope, &one.event)?)?;
    }
    Json::list(alloc, events)
}
