// Built-ins on lists.
ghost use Rattle.std.specs.Prelude.{◌≡◌, ◌≤◌, ◌<◌, ◌+ℤ◌, pos, IfOk, length, map, reverse};
ghost use Rattle.std.specs.List.{list_any, list_all};
ghost use Rattle.swf_value.specs.Members.{at, member_names};
ghost use Rattle.swf_value.specs.Node.{members_of};
ghost use Rattle.swf_value.specs.Value.{null, text, Ascending, InRange};
ghost use Rattle.swf_evaluation.specs.Builtins.{has, is_there, is_place, length_of, keys_of, any_of, all_of, reverse_of, min_of, max_of, best, better, numbers_from};
ghost use Rattle.swf_evaluation.specs.Operations.{is_true};
ghost use Rattle.swf_jq_builtins.specs.Outcome.{outcome_of};

use crate::outcome::{Outcome, cannot, copies, fails, truth, whole};
use crate::strings::character_count;
use std::alloc::{AllocError, Global};
use std::cmp::Ordering;
use swf_expr::Builtin;
use swf_text::Text;
use swf_value::{Json, JsonMap, JsonNode, Member, compare};

/// The greatest whole number.
const GREATEST: usize = 9007199254740991;

/// False and null are false.
pub fn is_true(value: &Json) -> bool
    ensures { result ≡ is_true value.now }
{
    match value.node() {
        JsonNode::Null => false,
        JsonNode::Bool(value) => *value,
        _ => true,
    }
}

#[tactic(auto, using(crate::proofs::Lists::values_of_items_of, crate::proofs::Lists::length_members))]
pub fn length(alloc: Global, value: &Json) -> Result<Outcome, AllocError>
    ensures { IfOk result (λ o. outcome_of o ≡ length_of value.now) }
{
    match value.node() {
        JsonNode::Null => Ok(Outcome::Value(Json::int(0))),
        JsonNode::Int(number) => whole(alloc, number.unsigned_abs() as i128),
        JsonNode::Text(text) => whole(alloc, character_count(text) as i128),
        JsonNode::List(items) => whole(alloc, items.as_slice().len() as i128),
        JsonNode::Object(members) => whole(alloc, members.as_slice().len() as i128),
        JsonNode::Bool(_) => cannot(alloc, Builtin::Length),
    }
}

#[tactic(auto, using(crate::proofs::Lists::values_of_items_of))]
pub fn keys(alloc: Global, value: &Json) -> Result<Outcome, AllocError>
    ensures { IfOk result (λ o. outcome_of o ≡ keys_of value.now) }
{
    match value.node() {
        JsonNode::Object(members) => {
            let names = names_of(alloc, members.as_slice())?;
            Ok(Outcome::Value(Json::list(alloc, names)?))
        }
        JsonNode::List(items) => {
            let count = items.as_slice().len();
            if count > GREATEST {
                return fails(alloc, "out of range");
            }
            let places = numbers(alloc, 0, count as u64)?;
            Ok(Outcome::Value(Json::list(alloc, places)?))
        }
        _ => cannot(alloc, Builtin::Keys),
    }
}

/// The names of an object, in ascending order.
fn names_of(alloc: Global, members: &[Member]) -> Result<Vec<Json>, AllocError>
    ensures { IfOk result (λ v. v.items ≡ map text (member_names (members_of members.now))) }
{
    let mut names = Vec::with_capacity(alloc, members.len())?;
    for member in members {
        names.push(Json::text(member.name.copy()?))?;
    }
    Ok(names)
}

/// So many numbers from the first on.
pub fn numbers(alloc: Global, first: i64, count: u64) -> Result<Vec<Json>, AllocError>
    requires low { InRange first }
    requires high { InRange (first +ℤ pos count) }
    ensures { IfOk result (λ v. v.items ≡ numbers_from first count) }
{
    let mut values = Vec::new(alloc);
    let mut next = first;
    for _ in 0..count {
        values.push(Json::int(next))?;
        next += 1;
    }
    Ok(values)
}

#[tactic(auto, using(crate::proofs::Lists::values_of_items_of))]
pub fn any(alloc: Global, value: &Json) -> Result<Outcome, AllocError>
    ensures { IfOk result (λ o. outcome_of o ≡ any_of value.now) }
{
    match value.node() {
        JsonNode::List(items) => Ok(truth(some_true(items.as_slice()))),
        _ => cannot(alloc, Builtin::Any),
    }
}

fn some_true(items: &[Json]) -> bool
    ensures { result ≡ list_any is_true items.now }
{
    items.iter().any(is_true)
}

#[tactic(auto, using(crate::proofs::Lists::values_of_items_of))]
pub fn all(alloc: Global, value: &Json) -> Result<Outcome, AllocError>
    ensures { IfOk result (λ o. outcome_of o ≡ all_of value.now) }
{
    match value.node() {
        JsonNode::List(items) => Ok(truth(each_true(items.as_slice()))),
        _ => cannot(alloc, Builtin::All),
    }
}

fn each_true(items: &[Json]) -> bool
    ensures { result ≡ list_all is_true items.now }
{
    items.iter().all(is_true)
}

#[tactic(auto, using(crate::proofs::Lists::values_of_items_of))]
pub fn reverse(alloc: Global, value: &Json) -> Result<Outcome, AllocError>
    ensures { IfOk result (λ o. outcome_of o ≡ reverse_of value.now) }
{
    match value.node() {
        JsonNode::List(items) => {
            let mut values = copies(alloc, items.as_slice())?;
            values.reverse();
            Ok(Outcome::Value(Json::list(alloc, values)?))
        }
        _ => cannot(alloc, Builtin::Reverse),
    }
}

#[tactic(auto, using(crate::proofs::Lists::values_of_items_of))]
pub fn min(alloc: Global, value: &Json) -> Result<Outcome, AllocError>
    ensures { IfOk result (λ o. outcome_of o ≡ min_of value.now) }
{
    match value.node() {
        JsonNode::List(items) => Ok(Outcome::Value(best_of(items.as_slice(), false)?)),
        _ => cannot(alloc, Builtin::Min),
    }
}

#[tactic(auto, using(crate::proofs::Lists::values_of_items_of))]
pub fn max(alloc: Global, value: &Json) -> Result<Outcome, AllocError>
    ensures { IfOk result (λ o. outcome_of o ≡ max_of value.now) }
{
    match value.node() {
        JsonNode::List(items) => Ok(Outcome::Value(best_of(items.as_slice(), true)?)),
        _ => cannot(alloc, Builtin::Max),
    }
}

/// The greatest or the least of some values; null where there is none.
fn best_of(items: &[Json], greatest: bool) -> Result<Json, AllocError>
    ensures { IfOk result (λ v. v ≡ best greatest items.now) }
{
    if items.len() == 0 {
        return Ok(Json::null());
    }
    let mut best = &items[0];
    for i in 1..items.len() {
        best = better(best, &items[i], greatest);
    }
    best.copy()
}

/// The greater or the lesser of two values, and the first where they are equal.
fn better<'v>(a: &'v Json, b: &'v Json, greater: bool) -> &'v Json
    ensures { result.now ≡ better greater a.now b.now }
{
    match (greater, compare(b, a)) {
        (true, Ordering::Greater) | (false, Ordering::Less) => b,
        _ => a,
    }
}

#[tactic(auto, using(crate::proofs::Lists::values_of_items_of))]
pub fn has(alloc: Global, value: &Json, key: &Json) -> Result<Outcome, AllocError>
    ensures { IfOk result (λ o. outcome_of o ≡ has value.now key.now) }
{
    match (value.node(), key.node()) {
        (JsonNode::Object(members), JsonNode::Text(name)) => Ok(truth(
            members.find(name.as_str()).is_some(),
        )),
        (JsonNode::List(items), JsonNode::Int(place)) => Ok(truth(is_place(
            *place,
            items.as_slice().len(),
        ))),
        _ => cannot(alloc, Builtin::Has),
    }
}

fn is_place(place: i64, len: usize) -> bool
    ensures { result ≡ is_place place len }
{
    place >= 0 && place.unsigned_abs() < len as u64
}
