// What the events that a filter takes agree in.
ghost use Rattle.std.specs.Prelude.{◌≡◌, IfOk};
ghost use Rattle.swf_value.specs.Members.{at};
ghost use Rattle.swf_templates.specs.Filter.{bound_to, bound_got, bind, bind_all, correlated};

use crate::filling::first;
use crate::filter::{filter_matches, is_same, no_variables};
use crate::offer::Offer;
use std::alloc::{AllocError, Global};
use swf_cloudevents::NamedValues;
use swf_document::{Correlation, Filter};
use swf_templates::Got;
use swf_text::Text;
use swf_value::{Json, JsonNode};

/// The bindings with a value for a name, which has it already or takes it.
fn bound_to(
    name: &Text,
    value: Json,
    mut bound: NamedValues,
) -> Result<Option<NamedValues>, AllocError>
    ensures { IfOk result (λ o. o ≡ bound_to name.now value (at name.now bound) bound) }
{
    match bound.find(name.as_str()) {
        Some(before) if is_same(&value, before) => Ok(Some(bound)),
        Some(_) => Ok(None),
        None => {
            bound.put(name.copy()?, value)?;
            Ok(Some(bound))
        }
    }
}

/// The bindings with a value for a name, which is not null.
fn bound_value(
    name: &Text,
    value: Json,
    bound: NamedValues,
) -> Result<Option<NamedValues>, AllocError>
    ensures { IfOk result (λ o. o ≡ bound_got name.now (Got.Value value) bound) }
{
    match value.node() {
        JsonNode::Null => Ok(None),
        _ => bound_to(name, value, bound),
    }
}

/// The bindings with a correlation on a whole event; none where it does not agree with them.
fn bind(
    alloc: Global,
    correlation: &Correlation,
    envelope: &Json,
    bound: NamedValues,
) -> Result<Option<NamedValues>, AllocError>
    ensures { IfOk result (λ o. o ≡ bind correlation.now envelope.now bound) }
{
    match first(alloc, &correlation.from, &no_variables(alloc), envelope)? {
        Got::Value(value) => bound_value(&correlation.name, value, bound),
        _ => Ok(None),
    }
}

/// The bindings with each of some correlations, in order.
fn bind_all(
    alloc: Global,
    correlations: &[Correlation],
    envelope: &Json,
    mut bound: NamedValues,
) -> Result<Option<NamedValues>, AllocError>
    ensures { IfOk result (λ o. o ≡ bind_all correlations.now envelope.now bound) }
{
    for correlation in correlations {
        match bind(alloc, correlation, envelope, bound)? {
            Some(more) => bound = more,
            None => return Ok(None),
        }
    }
    Ok(Some(bound))
}

/// The bindings after an event that is offered; none where the filter does not take it.
pub fn correlate(
    alloc: Global,
    filter: &Filter,
    bound: &NamedValues,
    offer: &Offer,
) -> Result<Option<NamedValues>, AllocError>
    ensures { IfOk result (λ o. o ≡ correlated filter.now bound.now offer.now) }
{
    if !filter_matches(alloc, filter, offer.event())? {
        return Ok(None);
    }
    bind_all(
        alloc,
        filter.correlate.as_slice(),
        offer.envelope(),
        bound.copy()?,
    )
}
