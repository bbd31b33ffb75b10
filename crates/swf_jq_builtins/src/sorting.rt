// Sorting values.
ghost use Rattle.std.specs.Prelude.{◌≡◌, zip, IfOk, OnOk};
ghost use Rattle.std.specs.List.{list_any};
ghost use Rattle.std.specs.List.Sorted.{IsSortedBy};
ghost use Rattle.std.specs.Ordering.{is_lt};
ghost use Rattle.swf_value.specs.Order.{value_cmp};
ghost use Rattle.swf_evaluation.specs.Builtins.{by_keys, sorted, sorted_values, sort_of, unique_of, once};
ghost use Rattle.swf_evaluation.specs.Operations.{is_same};
ghost use Rattle.swf_jq_builtins.specs.Outcome.{outcome_of};

use crate::outcome::{Outcome, cannot, copies};
use std::alloc::{AllocError, Global};
use swf_expr::Builtin;
use swf_value::{Json, JsonNode, compare};

/// The values in the order of their keys, where those of equal keys keep their order.
pub fn sort_by_keys(
    alloc: Global,
    values: Vec<Json>,
    keys: Vec<Json>,
) -> Result<Vec<Json>, AllocError>
    ensures { IfOk result (λ v. v.items ≡ by_keys values.items keys.items) }
{
    let mut pairs = with_keys(alloc, values, keys)?;
    sort_pairs(&mut pairs)?;
    pairs.into_iter().map(|pair| pair.1).collect(alloc)
}

/// Each key with its value.
fn with_keys(
    alloc: Global,
    values: Vec<Json>,
    keys: Vec<Json>,
) -> Result<Vec<(Json, Json)>, AllocError>
    ensures { IfOk result (λ v. v.items ≡ zip keys.items values.items) }
{
    let mut pairs = Vec::with_capacity(alloc, keys.len())?;
    for pair in keys.into_iter().zip(values) {
        pairs.push(pair)?;
    }
    Ok(pairs)
}

/// Puts pairs in the order of their keys.
fn sort_pairs(pairs: &mut Vec<(Json, Json)>) -> Result<(), AllocError>
    ensures { OnOk result (pairs.new.items ≡ sorted (λ p. p.0) pairs.old.items) }
{
    pairs.sort_by(|a, b| compare(&a.0, &b.0))?;
    Ok(())
}

/// Puts values in order.
pub fn sort_values(values: &mut Vec<Json>) -> Result<(), AllocError>
    ensures is { OnOk result (values.new.items ≡ sorted_values values.old.items) }
    ensures ascending { OnOk result (IsSortedBy (λ v w. is_lt (value_cmp v w)) values.new.items) }
{
    values.sort_by(|a, b| compare(a, b))?;
    Ok(())
}

#[tactic(auto, using(crate::proofs::Lists::values_of_items_of))]
pub fn sort(alloc: Global, value: &Json) -> Result<Outcome, AllocError>
    ensures { IfOk result (λ o. outcome_of o ≡ sort_of value.now) }
{
    match value.node() {
        JsonNode::List(items) => {
            let mut values = copies(alloc, items.as_slice())?;
            sort_values(&mut values)?;
            Ok(Outcome::Value(Json::list(alloc, values)?))
        }
        _ => cannot(alloc, Builtin::Sort),
    }
}

#[tactic(auto, using(crate::proofs::Lists::values_of_items_of))]
pub fn unique(alloc: Global, value: &Json) -> Result<Outcome, AllocError>
    ensures { IfOk result (λ o. outcome_of o ≡ unique_of value.now) }
{
    match value.node() {
        JsonNode::List(items) => {
            let mut values = copies(alloc, items.as_slice())?;
            sort_values(&mut values)?;
            Ok(Outcome::Value(Json::list(alloc, once(values))?))
        }
        _ => cannot(alloc, Builtin::Unique),
    }
}

/// The values without those that equal the one before.
fn once(values: Vec<Json>) -> Vec<Json>
    ensures { result.items ≡ once values.items }
{
    let mut values = values;
    values.dedup_by(|value, before| compare(before, value).is_eq());
    values
}

/// Whether a value equals one of some ascending values.
pub fn is_among(values: &[Json], value: &Json) -> bool
    requires { IsSortedBy (λ v w. is_lt (value_cmp v w)) values.now }
    ensures { result ≡ list_any (is_same value.now) values.now }
{
    values
        .binary_search_by(|other| compare(other, value))
        .is_ok()
}
