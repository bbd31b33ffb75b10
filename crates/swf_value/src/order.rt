// The order of values.
ghost use Rattle.std.specs.Prelude.{◌≡◌};
ghost use Rattle.swf_value.specs.Node.{node_value, items_of, members_of};
ghost use Rattle.swf_value.specs.Order.{rank, value_cmp, items_cmp, members_cmp, names_cmp, OrderLaws};

use crate::value::{Json, JsonNode, Member};
use std::cmp::Ordering;

/// The order of two values: null, false, true, numbers, texts by their characters, lists by their
/// items, and objects by their sorted names and then by their values. It takes no memory.
#[cycle(compare)]
pub fn compare(a: &Json, b: &Json) -> Ordering
    ensures { result ≡ value_cmp a.now b.now }
{
    compare_nodes(a.node(), b.node())
}

/// The order of one level.
#[cycle(compare)]
fn compare_nodes(a: &JsonNode, b: &JsonNode) -> Ordering
    ensures { result ≡ value_cmp (node_value a.now) (node_value b.now) }
{
    match (a, b) {
        (JsonNode::Int(x), JsonNode::Int(y)) => x.cmp(y),
        (JsonNode::Text(x), JsonNode::Text(y)) => x.cmp(y),
        (JsonNode::List(x), JsonNode::List(y)) => compare_items(x.as_slice(), y.as_slice()),
        (JsonNode::Object(x), JsonNode::Object(y)) => match compare_names(
            x.as_slice(),
            y.as_slice(),
        ) {
            Ordering::Equal => compare_members(x.as_slice(), y.as_slice()),
            other => other,
        },
        (x, y) => rank_of(x).cmp(&rank_of(y)),
    }
}

/// The place of a level's kind in the order.
fn rank_of(node: &JsonNode) -> u8
    ensures { result ≡ rank (node_value node.now) }
{
    match node {
        JsonNode::Null => 0,
        JsonNode::Bool(value) => { if *value { 2 } else { 1 } }
        JsonNode::Int(_) => 3,
        JsonNode::Text(_) => 4,
        JsonNode::List(_) => 5,
        JsonNode::Object(_) => 6,
    }
}

/// The order of two lists, item by item.
#[cycle(compare)]
fn compare_items(a: &[Json], b: &[Json]) -> Ordering
    ensures { result ≡ items_cmp (items_of a.now) (items_of b.now) }
{
    for (i, x) in a.iter().enumerate() {
        if i >= b.len() {
            return Ordering::Greater;
        }
        match compare(x, &b[i]) {
            Ordering::Equal => {}
            other => return other,
        }
    }
    if a.len() < b.len() {
        Ordering::Less
    } else {
        Ordering::Equal
    }
}

/// The order of two sorted lists of names.
fn compare_names(a: &[Member], b: &[Member]) -> Ordering
    ensures { result ≡ names_cmp (members_of a.now) (members_of b.now) }
{
    for (i, x) in a.iter().enumerate() {
        if i >= b.len() {
            return Ordering::Greater;
        }
        match x.name.cmp(&b[i].name) {
            Ordering::Equal => {}
            other => return other,
        }
    }
    if a.len() < b.len() {
        Ordering::Less
    } else {
        Ordering::Equal
    }
}

/// The order of the values of two objects, by their places.
#[cycle(compare)]
fn compare_members(a: &[Member], b: &[Member]) -> Ordering
    ensures { result ≡ members_cmp (members_of a.now) (members_of b.now) }
{
    for (i, x) in a.iter().enumerate() {
        if i >= b.len() {
            return Ordering::Greater;
        }
        match compare(&x.value, &b[i].value) {
            Ordering::Equal => {}
            other => return other,
        }
    }
    if a.len() < b.len() {
        Ordering::Less
    } else {
        Ordering::Equal
    }
}

/// The order is total, antisymmetric and transitive, and equal are only equal values.
pub fn order_laws()
    ensures { OrderLaws }
{}
