// Every fault of a value that is no document.
ghost use Rattle.std.specs.Prelude.{◌≡◌, ◌++◌, ◌+◌, ◌∷◌, [], IfOk, IsTrue, map, Some, None, Option, List, ℕ, decimal};
ghost use Rattle.swf_value.specs.Value.{text, list, object};
ghost use Rattle.swf_value.specs.Node.{items_of, members_of};
ghost use Rattle.swf_document.specs.declared.fault.Fault.{Fault};
ghost use Rattle.swf_shapes.specs.Row.{row_of, are_ascii};
ghost use Rattle.swf_shapes.specs.Faults.{kind_fault, flag_fault, is_in, number_fault, text_fault, is_some_item, list_fault, item_shape, layout, fault_at, faults_at, missing, faults_in, item_faults, member_faults, read_faults};

use crate::layout::{Layout, closed, has, object_layout, plain, shape_at};
use crate::rows::{Row, rows};
use crate::shape::{Object, Range, Rest, Shape, Table, Top};
use std::alloc::{AllocError, Global};
use swf_document::{FaultKind, Faults};
use swf_forms::{Form, is_duration, text_verdict, unless};
use swf_text::{Place, Text};
use swf_value::{Json, JsonNode, Member};

/// The fault of a value of a kind that the shape says nothing of.
fn kind_fault(shape: Shape) -> Option<FaultKind>
    ensures { result ≡ kind_fault shape }
{
    match shape {
        Shape::Any | Shape::Template => None,
        Shape::Refused(kind) => Some(kind),
        Shape::Duration => Some(FaultKind::BadText),
        Shape::Text(_)
        | Shape::Flag
        | Shape::True
        | Shape::Number(_)
        | Shape::List(_)
        | Shape::Object(_)
        | Shape::TextOr(_, _) => Some(FaultKind::WrongKind),
    }
}

fn flag_fault(shape: Shape, flag: bool) -> Option<FaultKind>
    ensures { result ≡ flag_fault shape flag }
{
    match shape {
        Shape::Flag => None,
        Shape::True => unless(flag, FaultKind::NotInProfile),
        _ => kind_fault(shape),
    }
}

fn is_in(range: Range, number: i64) -> bool
    ensures { result ≡ is_in range number }
{
    match range {
        Range::Status => 100 <= number && number <= 599,
        Range::Count => 0 <= number && number <= 1_000_000,
    }
}

fn number_fault(shape: Shape, number: i64) -> Option<FaultKind>
    ensures { result ≡ number_fault shape number }
{
    match shape {
        Shape::Number(range) => unless(is_in(range, number), FaultKind::BadText),
        _ => kind_fault(shape),
    }
}

fn text_fault(
    alloc: Global,
    shape: Shape,
    value: &Json,
    written: &Text,
) -> Result<Option<FaultKind>, AllocError>
    requires { value.now ≡ text written.now }
    ensures { IfOk result (λ k. k ≡ text_fault shape written.now) }
{
    match shape {
        Shape::Text(form) | Shape::TextOr(form, _) => text_verdict(alloc, form, written),
        Shape::Template => text_verdict(alloc, Form::Template, written),
        Shape::Duration => Ok(unless(is_duration(alloc, value)?, FaultKind::BadText)),
        _ => Ok(kind_fault(shape)),
    }
}

fn is_some_item(items: &[Json]) -> bool
    ensures { result ≡ is_some_item (items_of items.now) }
{
    match items {
        [] => false,
        [_, ..] => true,
    }
}

/// A list of nothing is not in the profile.
fn list_fault(shape: Shape, items: &[Json]) -> Option<FaultKind>
    ensures { result ≡ list_fault shape (items_of items.now) }
{
    match shape {
        Shape::List(_) => unless(is_some_item(items), FaultKind::NotInProfile),
        _ => kind_fault(shape),
    }
}

/// What the items of a list may be.
fn item_shape(shape: Shape) -> Shape
    ensures { result ≡ item_shape shape }
{
    match shape {
        Shape::List(object) => Shape::Object(object),
        Shape::Template => Shape::Template,
        _ => Shape::Any,
    }
}

/// How the members of an object are judged.
fn layout(
    alloc: Global,
    inside: bool,
    shape: Shape,
    value: &Json,
    members: &[Member],
) -> Result<Layout, AllocError>
    requires { value.now ≡ object (members_of members.now) }
    ensures { IfOk result (λ l. l ≡ layout inside shape (members_of members.now)) }
{
    match shape {
        Shape::Object(object) | Shape::TextOr(_, object) => {
            Ok(object_layout(inside, object, value, members))
        }
        Shape::Template => Ok(plain(inside, Table::Top(Top::Empty), Rest::Template)),
        Shape::Duration => {
            let holds = is_duration(alloc, value)?;
            Ok(closed(inside, unless(holds, FaultKind::BadText)))
        }
        _ => Ok(closed(inside, kind_fault(shape))),
    }
}

/// The fault of a value at its place, if it has one.
fn push_fault(
    alloc: Global,
    faults: &mut Faults,
    place: &Place,
    fault: Option<FaultKind>,
) -> Result<(), AllocError>
    ensures { IfOk result (λ _. faults.new ≡ faults.old ++ faults_at place.now fault) }
{
    match fault {
        Some(kind) => faults.push(place.copy(alloc)?, kind),
        None => Ok(()),
    }
}

/// Each required member that an object lacks.
fn push_missing(
    alloc: Global,
    faults: &mut Faults,
    place: &Place,
    rows: &[Row],
    value: &Json,
    members: &[Member],
) -> Result<(), AllocError>
    requires object { value.now ≡ object (members_of members.now) }
    requires ascii { IsTrue (are_ascii rows.now) }
    ensures { IfOk result (λ _. faults.new ≡ faults.old ++ missing place.now (map row_of rows.now) (members_of members.now)) }
{
    for row in rows {
        if row.required && !has(value, row.name) {
            faults.push(place.copy(alloc)?, FaultKind::Missing)?;
        }
    }
    Ok(())
}

/// The text of a position.
pub fn position(alloc: Global, index: usize) -> Result<Text, AllocError>
    ensures { IfOk result (λ t. t ≡ decimal index) }
{
    let digits = format!(in alloc; "{index}")?;
    let text = Text::from_string(alloc, digits)?;
    Ok(text)
}

/// The place one step further in, under a name or at a position.
pub fn child(alloc: Global, place: &Place, part: Text) -> Result<Place, AllocError>
    ensures { IfOk result (λ p. p ≡ place.now ++ part ∷ []) }
{
    let mut child = place.copy(alloc)?;
    child.push(part)?;
    Ok(child)
}

/// The faults of a value at a place: its own, and then those of what is in it.
#[cycle(faults)]
fn push_faults(
    alloc: Global,
    faults: &mut Faults,
    inside: bool,
    shape: Shape,
    place: &Place,
    value: &Json,
) -> Result<(), AllocError>
    ensures { IfOk result (λ _. faults.new ≡ faults.old ++ faults_in inside shape place.now value.now) }
{
    match value.node() {
        JsonNode::Null => push_fault(alloc, faults, place, kind_fault(shape)),
        JsonNode::Bool(flag) => push_fault(alloc, faults, place, flag_fault(shape, *flag)),
        JsonNode::Int(number) => push_fault(alloc, faults, place, number_fault(shape, *number)),
        JsonNode::Text(text) => {
            let fault = text_fault(alloc, shape, value, text)?;
            push_fault(alloc, faults, place, fault)
        }
        JsonNode::List(items) => {
            let items = items.as_slice();
            push_fault(alloc, faults, place, list_fault(shape, items))?;
            push_item_faults(alloc, faults, inside, item_shape(shape), place, items)
        }
        JsonNode::Object(members) => {
            let members = members.as_slice();
            let layout = layout(alloc, inside, shape, value, members)?;
            push_fault(alloc, faults, place, layout.fault)?;
            push_missing(alloc, faults, place, rows(layout.table), value, members)?;
            push_member_faults(alloc, faults, &layout, place, members)
        }
    }
}

#[cycle(faults)]
fn push_item_faults(
    alloc: Global,
    faults: &mut Faults,
    inside: bool,
    shape: Shape,
    place: &Place,
    items: &[Json],
) -> Result<(), AllocError>
    ensures { IfOk result (λ _. faults.new ≡ faults.old ++ item_faults inside shape place.now 0 (items_of items.now)) }
{
    for (index, item) in items.iter().enumerate() {
        let place = child(alloc, place, position(alloc, index)?)?;
        push_faults(alloc, faults, inside, shape, &place, item)?;
    }
    Ok(())
}

#[cycle(faults)]
fn push_member_faults(
    alloc: Global,
    faults: &mut Faults,
    layout: &Layout,
    place: &Place,
    members: &[Member],
) -> Result<(), AllocError>
    ensures { IfOk result (λ _. faults.new ≡ faults.old ++ member_faults layout.now place.now (members_of members.now)) }
{
    for member in members {
        let place = child(alloc, place, member.name.copy()?)?;
        let shape = shape_at(layout, &member.name);
        push_faults(alloc, faults, layout.inside, shape, &place, &member.value)?;
    }
    Ok(())
}

/// The faults of a value as a document, in the order of their places.
pub fn read_faults(alloc: Global, value: &Json) -> Result<Faults, AllocError>
    ensures { IfOk result (λ f. f ≡ read_faults value.now) }
{
    let mut faults = Faults::new(alloc);
    let shape = Shape::Object(Object::Of(Table::Top(Top::Document), Rest::Unknown));
    push_faults(alloc, &mut faults, false, shape, &Place::root(alloc), value)?;
    Ok(faults)
}
