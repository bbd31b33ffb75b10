// What a `listen` takes (DSL 1.0.0, reference, "Event Consumption Strategy").
ghost use Rattle.std.specs.Prelude.{◌≡◌, ◌++◌, ◌∷◌, [], IfOk, option_map};
ghost use Rattle.swf_meaning.specs.Listen.{is_met, takes};

use std::alloc::{AllocError, Global};
use swf_cloudevents::NamedValues;
use swf_document::ListenSpec;
use swf_meaning::Heard;
use swf_stack::is_satisfied;
use swf_transform::{Offer, correlate};

// Whether the filter of a place has an event.
fn is_met(place: usize, heard: &[Heard]) -> bool
    ensures { result ≡ is_met place heard.now }
{
    for one in heard {
        if place == one.filter {
            return true;
        }
    }
    false
}

/// What a `listen` has bound after an event that is offered and that it takes, and the event with the place of its filter; none where it
/// takes it not.
pub fn takes(
    alloc: Global,
    spec: &ListenSpec,
    bound: &NamedValues,
    heard: &[Heard],
    offer: &Offer,
) -> Result<Option<(NamedValues, Heard)>, AllocError>
    ensures { IfOk result (λ o. option_map (λ p. (p.0, heard.now ++ p.1 ∷ [])) o ≡ takes spec.now bound.now heard.now offer.now) }
{
    if is_satisfied(spec, heard) {
        return Ok(None);
    }
    let filters = spec.filters.as_slice();
    for place in 0..filters.len() {
        if is_met(place, heard) {
            continue;
        }
        if let Some(bound) = correlate(alloc, &filters[place], bound, offer)? {
            let event = offer.event().copy()?;
            return Ok(Some((
                bound,
                Heard {
                    filter: place,
                    event,
                },
            )));
        }
    }
    Ok(None)
}
