// An event that is offered to what stands innermost on a strand (DSL 1.0.0, reference, "Listen").
ghost use Rattle.std.specs.Prelude.{◌≡◌, ◌∷◌, ◌++◌, [], IfOk, nat_lt, option_map};
ghost use Rattle.swf_meaning.specs.Offer.{offered, takes_by};
ghost use Rattle.swf_meaning.specs.Parts.{kind_of, listen_in};
ghost use Rattle.swf_offers.specs.Offers.{IsOffered};
ghost use Rattle.swf_stack.specs.Stack.{top_node};

use crate::listening::takes;
use std::alloc::{AllocError, Global};
use swf_catalog::{TaskRef, Work};
use swf_cloudevents::NamedValues;
use swf_document::Listing;
use swf_meaning::Heard;
use swf_stack::Top;
use swf_transform::Offer;

// What a task has bound after an event that it takes, and the event with the place of its filter.
fn taken(
    alloc: Global,
    task: &TaskRef,
    bound: &NamedValues,
    heard: &[Heard],
    offer: &Offer,
) -> Result<Option<(NamedValues, Heard)>, AllocError>
    ensures { IfOk result (λ o. option_map (λ p. (p.0, heard.now ++ p.1 ∷ [])) o ≡ takes_by (listen_in (kind_of task.now)) bound.now heard.now offer.now) }
{
    match task.work() {
        Work::Listen(spec) => takes(alloc, spec, bound, heard, offer),
        _ => Ok(None),
    }
}

/// Whether what stands innermost takes an event.
pub fn hears(alloc: Global, top: &Top, offer: &Offer) -> Result<bool, AllocError>
    ensures { IfOk result (λ b. b ≡ nat_lt 0 (offered offer.now (top_node top.now)).1) }
{
    match top {
        Top::Hearing {
            running,
            bound,
            heard,
        } => Ok(taken(alloc, running.task(), bound, heard.as_slice(), offer)?.is_some()),
        _ => Ok(false),
    }
}

// What was heard, and one event more. It copies no values.
fn with_heard(alloc: Global, heard: &[Heard], one: Heard) -> Result<Listing<Heard>, AllocError>
    ensures { IfOk result (λ list. list ≡ heard.now ++ one ∷ []) }
{
    let mut copies = Vec::new(alloc);
    for earlier in heard {
        copies.push(earlier.copy()?)?;
    }
    copies.push(one)?;
    Listing::of(alloc, copies)
}

/// What stands innermost after an event that it takes.
pub fn offered(alloc: Global, top: &Top, offer: &Offer) -> Result<Option<Top>, AllocError>
    ensures { IfOk result (λ o. IsOffered top.now offer.now o) }
{
    let Top::Hearing {
        running,
        bound,
        heard,
    } = top
    else {
        return Ok(None);
    };
    let heard = heard.as_slice();
    let Some((bound, one)) = taken(alloc, running.task(), bound, heard, offer)? else {
        return Ok(None);
    };
    let heard = with_heard(alloc, heard, one)?;
    Ok(Some(Top::Hearing {
        running: running.copy()?,
        bound,
        heard,
    }))
}
