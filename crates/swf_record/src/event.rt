// Events as they stand in bytes.
ghost use Rattle.std.specs.Prelude.{◌≡◌, IfOk};
ghost use Rattle.std.specs.Result.{result_ok};
ghost use Rattle.swf_cloudevents.specs.Event.{event_of};
ghost use Rattle.swf_record.specs.Decodes.{told_event};

use std::alloc::{AllocError, Global};
use swf_cloudevents::{Event, EventFault, event_json, read_event};
use swf_value::Json;

/// The event that is written as this value.
#[tactic(auto, unfolding(crate::specs::Decodes::told_event))]
pub(crate) fn told_event(alloc: Global, value: &Json) -> Result<Option<Event>, AllocError>
    ensures { IfOk result (λ o. o ≡ told_event value.now) }
{
    let Some(event) = any_event(alloc, value)? else {
        return Ok(None);
    };
    let written = event_json(alloc, &event)?;
    let same = written.is(value);
    Ok(same.then_some(event))
}

/// The event that a value is, in whatever way it is told.
fn any_event(alloc: Global, value: &Json) -> Result<Option<Event>, AllocError>
    ensures { IfOk result (λ o. o ≡ result_ok (event_of value.now)) }
{
    match read_event(alloc, value) {
        Ok(event) => Ok(Some(event)),
        Err(EventFault::Bad { .. }) => Ok(None),
        Err(EventFault::OutOfMemory) => Err(AllocError),
    }
}
