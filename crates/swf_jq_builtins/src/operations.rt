// What operators make of values.
ghost use Rattle.std.specs.Prelude.{◌≡◌, ◌<◌, ◌*ℤ◌, ◌++◌, ◌∷◌, [], int_div, int_rem, List, length, slice_index_or, unwrap_or, IfOk, OnOk, MatchOption, Ok, Some, None, if◌then◌else◌};
ghost use Rattle.std.specs.List.Sorted.{IsSortedBy};
ghost use Rattle.std.specs.Ordering.{is_lt};
ghost use Rattle.swf_value.specs.Members.{at, member_values};
ghost use Rattle.swf_value.specs.Order.{value_cmp};
ghost use Rattle.swf_value.specs.Node.{items_of, members_of};
ghost use Rattle.swf_value.specs.Value.{Value, null, list, object, Ascending};
ghost use Rattle.swf_evaluation.specs.Operations.{is_same, is_zero, item_at, index_of, parts_of, operate, negated, sum_of, difference_of, product_of, quotient_of, rest_of, without, merged};
ghost use Rattle.swf_jq_builtins.specs.Outcome.{outcome_of, several_of};

use crate::fields;
use crate::outcome::{Outcome, Several, copies, error, fails, text, truth, whole};
use crate::sorting::{is_among, sort_values};
use std::alloc::{AllocError, Global};
use std::collections::BTreeMap;
use swf_expr::Op;
use swf_text::{Text, TextBuilder};
use swf_value::{Json, JsonMap, JsonNode, Member, compare};

/// The value at a key.
pub fn index(alloc: Global, value: &Json, key: &Json) -> Result<Outcome, AllocError>
    ensures { IfOk result (λ o. outcome_of o ≡ index_of value.now key.now) }
{
    match (value.node(), key.node()) {
        (JsonNode::Null, JsonNode::Text(_)) => Ok(Outcome::Value(Json::null())),
        (JsonNode::Null, JsonNode::Int(_)) => Ok(Outcome::Value(Json::null())),
        (JsonNode::Object(members), JsonNode::Text(name)) => member_of(members, name),
        (JsonNode::List(items), JsonNode::Int(place)) => item_of(items.as_slice(), *place),
        _ => fails(alloc, "cannot index"),
    }
}

/// The value under a name, or null.
fn member_of(members: &JsonMap, name: &Text) -> Result<Outcome, AllocError>
    requires { Ascending members.now }
    ensures { IfOk result
        (λ o. outcome_of o ≡ Ok (unwrap_or (at name.now members.now) null)) }
{
    match members.find(name.as_str()) {
        Some(value) => Ok(Outcome::Value(value.copy()?)),
        None => Ok(Outcome::Value(Json::null())),
    }
}

/// The item at a place, counted from the end where that is negative, or null.
fn item_of(items: &[Json], place: i64) -> Result<Outcome, AllocError>
    ensures { IfOk result (λ o. outcome_of o ≡ Ok (item_at place items.now)) }
{
    match place_of(items.len(), place) {
        Some(place) => Ok(Outcome::Value(items[place].copy()?)),
        None => Ok(Outcome::Value(Json::null())),
    }
}

/// The place that a number names in a list of this length.
fn place_of(len: usize, place: i64) -> Option<usize>
    ensures { MatchOption result
        ((vs : List Value) → length vs ≡ len → item_at place vs ≡ null)
        (λ i. (i < len)
        × ((vs : List Value) → length vs ≡ len → item_at place vs ≡ slice_index_or vs i null)) }
{
    let distance = place.unsigned_abs();
    if place >= 0 {
        if distance < len as u64 {
            Some(distance as usize)
        } else {
            None
        }
    } else if distance <= len as u64 {
        Some(len - distance as usize)
    } else {
        None
    }
}

/// The items of a list, or the values of an object.
#[tactic(auto, using(crate::proofs::Lists::values_of_items_of))]
pub fn parts(alloc: Global, value: &Json) -> Result<Several, AllocError>
    ensures { IfOk result (λ s. several_of s ≡ parts_of value.now) }
{
    match value.node() {
        JsonNode::List(items) => Ok(Several::Values(copies(alloc, items.as_slice())?)),
        JsonNode::Object(members) => Ok(Several::Values(values_of(alloc, members.as_slice())?)),
        _ => Ok(Several::Raised(error(alloc, "cannot iterate")?)),
    }
}

/// What an operator makes of its left and its right operand.
pub fn operate(alloc: Global, op: Op, left: &Json, right: &Json) -> Result<Outcome, AllocError>
    ensures { IfOk result (λ o. outcome_of o ≡ operate op left.now right.now) }
{
    match op {
        Op::Add => sum(alloc, left, right),
        Op::Subtract => difference(alloc, left, right),
        Op::Multiply => product(alloc, left, right),
        Op::Divide => quotient(alloc, left, right),
        Op::Modulo => rest(alloc, left, right),
        Op::Equal => Ok(truth(compare(left, right).is_eq())),
        Op::NotEqual => Ok(truth(compare(left, right).is_ne())),
        Op::Less => Ok(truth(compare(left, right).is_lt())),
        Op::AtMost => Ok(truth(compare(left, right).is_le())),
        Op::Greater => Ok(truth(compare(left, right).is_gt())),
        Op::AtLeast => Ok(truth(compare(left, right).is_ge())),
    }
}

#[tactic(auto, using(crate::proofs::Lists::values_of_items_of))]
pub fn sum(alloc: Global, left: &Json, right: &Json) -> Result<Outcome, AllocError>
    ensures { IfOk result (λ o. outcome_of o ≡ sum_of left.now right.now) }
{
    match (left.node(), right.node()) {
        (JsonNode::Null, _) => Ok(Outcome::Value(right.copy()?)),
        (_, JsonNode::Null) => Ok(Outcome::Value(left.copy()?)),
        (JsonNode::Int(x), JsonNode::Int(y)) => whole(alloc, *x as i128 + *y as i128),
        (JsonNode::Text(x), JsonNode::Text(y)) => Ok(text(joined_texts(alloc, x, y)?)),
        (JsonNode::List(x), JsonNode::List(y)) => joined_lists(alloc, x.as_slice(), y.as_slice()),
        (JsonNode::Object(x), JsonNode::Object(y)) => merged_objects(alloc, x, y),
        _ => fails(alloc, "cannot add"),
    }
}

/// One text after another.
fn joined_texts(alloc: Global, left: &Text, right: &Text) -> Result<Text, AllocError>
    ensures { IfOk result (λ t. t ≡ left.now ++ right.now) }
{
    let mut draft = TextBuilder::new(alloc);
    draft.push_text(left)?;
    draft.push_text(right)?;
    draft.into_text(alloc)
}

/// One list after another.
fn joined_lists(alloc: Global, left: &[Json], right: &[Json]) -> Result<Outcome, AllocError>
    ensures { IfOk result
        (λ o. outcome_of o ≡ Ok (list (items_of (left.now ++ right.now)))) }
{
    let mut values = copies(alloc, left)?;
    append(&mut values, right)?;
    Ok(Outcome::Value(Json::list(alloc, values)?))
}

/// The members of both, where those of the second replace equal names.
fn merged_objects(alloc: Global, left: &JsonMap, right: &JsonMap) -> Result<Outcome, AllocError>
    requires { Ascending left.now }
    ensures { IfOk result
        (λ o. outcome_of o ≡ Ok (object (merged left.now right.now))) }
{
    let mut map = BTreeMap::new(alloc);
    fields::put_all(&mut map, left.as_slice())?;
    fields::put_all(&mut map, right.as_slice())?;
    Ok(Outcome::Value(fields::into_object(alloc, map)?))
}

#[tactic(auto, using(crate::proofs::Lists::values_of_items_of))]
fn difference(alloc: Global, left: &Json, right: &Json) -> Result<Outcome, AllocError>
    ensures { IfOk result (λ o. outcome_of o ≡ difference_of left.now right.now) }
{
    match (left.node(), right.node()) {
        (JsonNode::Int(x), JsonNode::Int(y)) => whole(alloc, *x as i128 - *y as i128),
        (JsonNode::List(x), JsonNode::List(y)) => remaining_items(
            alloc,
            x.as_slice(),
            y.as_slice(),
        ),
        _ => fails(alloc, "cannot subtract"),
    }
}

/// The items that equal none of the others.
fn remaining_items(alloc: Global, left: &[Json], right: &[Json]) -> Result<Outcome, AllocError>
    ensures { IfOk result
        (λ o. outcome_of o ≡ Ok (list (items_of (without left.now right.now)))) }
{
    let mut others = copies(alloc, right)?;
    sort_values(&mut others)?;
    let kept = remaining(copies(alloc, left)?, &others);
    Ok(Outcome::Value(Json::list(alloc, kept)?))
}

/// The items that equal none of some ascending values.
fn remaining(items: Vec<Json>, others: &[Json]) -> Vec<Json>
    requires { IsSortedBy (λ v w. is_lt (value_cmp v w)) others.now }
    ensures { result.items ≡ without items.items others.now }
{
    let mut items = items;
    items.retain(|item| !is_among(others, item));
    items
}

fn product(alloc: Global, left: &Json, right: &Json) -> Result<Outcome, AllocError>
    ensures { IfOk result (λ o. outcome_of o ≡ product_of left.now right.now) }
{
    match (left.node(), right.node()) {
        (JsonNode::Int(x), JsonNode::Int(y)) => whole(alloc, times(*x, *y)),
        _ => fails(alloc, "cannot multiply"),
    }
}

fn times(x: i64, y: i64) -> i128
    ensures { result ≡ x *ℤ y }
{
    x as i128 * y as i128
}

fn quotient(alloc: Global, left: &Json, right: &Json) -> Result<Outcome, AllocError>
    ensures { IfOk result (λ o. outcome_of o ≡ quotient_of left.now right.now) }
{
    match (left.node(), right.node()) {
        (JsonNode::Int(x), JsonNode::Int(y)) => match exact_quotient(*x, *y) {
            Some(z) => whole(alloc, z),
            None => fails(alloc, "cannot divide"),
        },
        _ => fails(alloc, "cannot divide"),
    }
}

/// The quotient, where nothing is left over.
fn exact_quotient(x: i64, y: i64) -> Option<i128>
    ensures { result
        ≡ (if is_zero y then None else (if is_zero (int_rem x y) then Some (int_div x y) else None)) }
{
    if y == 0 {
        return None;
    }
    if x as i128 % y as i128 == 0 {
        Some(x as i128 / y as i128)
    } else {
        None
    }
}

fn rest(alloc: Global, left: &Json, right: &Json) -> Result<Outcome, AllocError>
    ensures { IfOk result (λ o. outcome_of o ≡ rest_of left.now right.now) }
{
    match (left.node(), right.node()) {
        (JsonNode::Int(x), JsonNode::Int(y)) => match remainder(*x, *y) {
            Some(z) => whole(alloc, z),
            None => fails(alloc, "cannot modulo"),
        },
        _ => fails(alloc, "cannot modulo"),
    }
}

/// What is left over, with the sign of the first; none of a division by zero.
fn remainder(x: i64, y: i64) -> Option<i128>
    ensures { result ≡ (if is_zero y then None else Some (int_rem x y)) }
{
    if y == 0 {
        None
    } else {
        Some(x as i128 % y as i128)
    }
}

/// A number with the other sign.
pub fn negate(alloc: Global, value: &Json) -> Result<Outcome, AllocError>
    ensures { IfOk result (λ o. outcome_of o ≡ negated value.now) }
{
    match value.node() {
        JsonNode::Int(value) => whole(alloc, -(*value as i128)),
        _ => fails(alloc, "cannot negate"),
    }
}

/// Appends copies of values.
pub fn append(out: &mut Vec<Json>, values: &[Json]) -> Result<(), AllocError>
    ensures { OnOk result (out.new.items ≡ out.old.items ++ values.now) }
{
    out.extend_from_slice(values)
}

/// The values of members.
pub fn values_of(alloc: Global, members: &[Member]) -> Result<Vec<Json>, AllocError>
    ensures { IfOk result (λ v. v.items ≡ member_values (members_of members.now)) }
{
    let mut values = Vec::with_capacity(alloc, members.len())?;
    for member in members {
        values.push(member.value.copy()?)?;
    }
    Ok(values)
}
