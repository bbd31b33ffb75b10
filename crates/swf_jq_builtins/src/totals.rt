// The sum of several values.
ghost use Rattle.std.specs.Prelude.{◌≡◌, IfOk, MatchOption, Ok, codes, if◌then◌else◌};
ghost use Rattle.swf_value.specs.Value.{null};
ghost use Rattle.swf_evaluation.specs.Builtins.{summed, total_of, lead};
ghost use Rattle.swf_jq_builtins.specs.Drafts.{drafted};
ghost use Rattle.swf_evaluation.specs.Operations.{sum_of, fails};
ghost use Rattle.swf_jq_builtins.specs.Outcome.{outcome_of};

use crate::fields;
use crate::operations::{append, sum, values_of};
use crate::outcome::{Outcome, cannot, fails};
use std::alloc::{AllocError, Global};
use std::collections::BTreeMap;
use swf_expr::Builtin;
use swf_text::{Text, TextBuilder};
use swf_value::{Json, JsonNode};

/// The sum of the items of a list, or of the values of an object.
#[tactic(auto, using(crate::proofs::Lists::values_of_items_of))]
pub fn total(alloc: Global, value: &Json) -> Result<Outcome, AllocError>
    ensures { IfOk result (λ o. outcome_of o ≡ total_of value.now) }
{
    match value.node() {
        JsonNode::List(items) => { sum_of_all(alloc, items.as_slice()) }
        JsonNode::Object(members) => {
            let values = values_of(alloc, members.as_slice())?;
            sum_of_all(alloc, &values)
        }
        _ => cannot(alloc, Builtin::Add),
    }
}

/// The values added in order to null.
#[tactic(auto, using(crate::proofs::Sums::lead_text, crate::proofs::Sums::lead_list, crate::proofs::Sums::lead_object))]
fn sum_of_all(alloc: Global, values: &[Json]) -> Result<Outcome, AllocError>
    ensures { IfOk result (λ o. outcome_of o ≡ summed null values.now) }
{
    match lead_of(values) {
        None => sum_one_by_one(alloc, values),
        Some(first) => match first.node() {
            JsonNode::Text(_) => sum_onto(alloc, Draft::Text(TextBuilder::new(alloc)), values),
            JsonNode::List(_) => sum_onto(alloc, Draft::List(Vec::new(alloc)), values),
            JsonNode::Object(_) => sum_onto(alloc, Draft::Object(BTreeMap::new(alloc)), values),
            _ => sum_one_by_one(alloc, values),
        },
    }
}

/// The first value other than null.
fn lead_of(values: &[Json]) -> Option<&Json>
    ensures { MatchOption result (lead values.now ≡ null) (λ v. v.now ≡ lead values.now) }
{
    for value in values {
        match value.node() {
            JsonNode::Null => {}
            _ => return Some(value),
        }
    }
    None
}

fn sum_one_by_one(alloc: Global, values: &[Json]) -> Result<Outcome, AllocError>
    ensures { IfOk result (λ o. outcome_of o ≡ summed null values.now) }
{
    let mut total = Json::null();
    for value in values {
        match sum(alloc, &total, value)? {
            Outcome::Value(more) => total = more,
            Outcome::Raised(error) => return Ok(Outcome::Raised(error)),
        }
    }
    Ok(Outcome::Value(total))
}

/// A sum so far.
#[derive(Drop)]
pub enum Draft {
    Text(TextBuilder),
    List(Vec<Json>),
    Object(BTreeMap<Text, Json>),
}

/// The values added in order to a draft.
fn sum_onto(alloc: Global, draft: Draft, values: &[Json]) -> Result<Outcome, AllocError>
    ensures { IfOk result (λ o. outcome_of o ≡ summed (drafted draft) values.now) }
{
    let mut draft = draft;
    for value in values {
        if !add(&mut draft, value)? {
            return fails(alloc, "cannot add");
        }
    }
    Ok(Outcome::Value(finished(alloc, draft)?))
}

/// Adds a value of the same kind or null, and says whether it is one of them.
#[tactic(auto, using(crate::proofs::Lists::values_of_items_of))]
fn add(draft: &mut Draft, value: &Json) -> Result<bool, AllocError>
    ensures { IfOk result
        (λ b. sum_of (drafted draft.old) (value.now)
        ≡ (if b then Ok (drafted draft.new) else fails (codes "cannot add"))) }
{
    match (draft, value.node()) {
        (_, JsonNode::Null) => Ok(true),
        (Draft::Text(text), JsonNode::Text(more)) => {
            text.push_text(more)?;
            Ok(true)
        }
        (Draft::List(items), JsonNode::List(more)) => {
            append(items, more.as_slice())?;
            Ok(true)
        }
        (Draft::Object(map), JsonNode::Object(more)) => {
            fields::put_all(map, more.as_slice())?;
            Ok(true)
        }
        _ => Ok(false),
    }
}

fn finished(alloc: Global, draft: Draft) -> Result<Json, AllocError>
    ensures { IfOk result (λ v. v ≡ drafted draft) }
{
    match draft {
        Draft::Text(text) => Ok(Json::text(text.into_text(alloc)?)),
        Draft::List(items) => Json::list(alloc, items),
        Draft::Object(map) => fields::into_object(alloc, map),
    }
}
