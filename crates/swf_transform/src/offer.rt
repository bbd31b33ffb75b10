// An event that is offered.
ghost use Rattle.std.specs.Prelude.{◌≡◌, IfOk};
ghost use Rattle.swf_cloudevents.specs.Event.{event_value};

use std::alloc::{AllocError, Global};
use std::marker::Model;
use swf_cloudevents::{Event, event_json};
use swf_value::Json;

/// An event that is offered, with the value of the whole of it, which is made once. Contracts see it as the event.
#[derive(Drop)]
pub struct Offer {
    event: Event,
    envelope: Json,
}

impl Model for Offer {
    ghost use Rattle.std.specs.Prelude.{◌≡◌};
    ghost use Rattle.swf_cloudevents.specs.declared.event.Event.{Event as TheEvent};
    ghost use Rattle.swf_cloudevents.specs.Codes.{event_code};
    ghost use Rattle.swf_cloudevents.specs.Event.{event_value};

    ghost Value = { TheEvent };

    ghost coded = { event_code };

    ghost view = { λ o. o.event };

    ghost invariant = { λ o. o.envelope ≡ event_value o.event };
}

impl Offer {
    /// An offer of an event.
    pub fn new(alloc: Global, event: &Event) -> Result<Offer, AllocError>
        ensures { IfOk result (λ o. o ≡ event.now) }
    {
        let envelope = event_json(alloc, event)?;
        let event = event.copy()?;
        Ok(Offer { event, envelope })
    }

    /// The event.
    pub fn event(&self) -> &Event
        ensures { result.now ≡ self.now }
    {
        &self.event
    }

    /// The value of the whole event.
    pub fn envelope(&self) -> &Json
        ensures { result.now ≡ event_value self.now }
    {
        &self.envelope
    }
}
