// Objects as lists of their entries.
ghost use Rattle.std.specs.Prelude.{◌≡◌, IfOk, option_map};
ghost use Rattle.swf_value.specs.Node.{members_of};
ghost use Rattle.swf_value.specs.Value.{object, member, no_members, IsBefore};
ghost use Rattle.swf_evaluation.specs.Builtins.{to_entries, from_entries, entries_of, entry_name, entry_value, gathered, text_in};
ghost use Rattle.swf_jq_builtins.specs.Outcome.{outcome_of};

use crate::fields;
use crate::outcome::{Outcome, cannot};
use std::alloc::{AllocError, Global};
use std::collections::BTreeMap;
use swf_expr::Builtin;
use swf_text::Text;
use swf_value::{Json, JsonNode, Member};

#[tactic(auto, using(crate::proofs::Lists::values_of_items_of))]
pub fn to_entries(alloc: Global, value: &Json) -> Result<Outcome, AllocError>
    ensures { IfOk result (λ o. outcome_of o ≡ to_entries value.now) }
{
    match value.node() {
        JsonNode::Object(members) => {
            let entries = entries_of(alloc, members.as_slice())?;
            Ok(Outcome::Value(Json::list(alloc, entries)?))
        }
        _ => cannot(alloc, Builtin::ToEntries),
    }
}

/// An object of the name and the value of each member.
fn entries_of(alloc: Global, members: &[Member]) -> Result<Vec<Json>, AllocError>
    ensures { IfOk result (λ v. v.items ≡ entries_of (members_of members.now)) }
{
    let key = swf_text::word(alloc, "key")?;
    let value = swf_text::word(alloc, "value")?;
    let mut entries = Vec::with_capacity(alloc, members.len())?;
    for member in members {
        let name = Json::text(member.name.copy()?);
        let kept = member.value.copy()?;
        entries.push(pair(alloc, &key, name, &value, kept)?)?;
    }
    Ok(entries)
}

/// An object of two members in order.
fn pair(
    alloc: Global,
    first: &Text,
    name: Json,
    second: &Text,
    value: Json,
) -> Result<Json, AllocError>
    requires { IsBefore first.now second.now }
    ensures { IfOk result
        (λ v. v ≡ object (member first.now name (member second.now value no_members))) }
{
    let mut members = Vec::with_capacity(alloc, 2)?;
    members.push(Member {
        name: first.copy()?,
        value: name,
    })?;
    members.push(Member {
        name: second.copy()?,
        value,
    })?;
    Json::object(alloc, members)
}

#[tactic(auto, using(crate::proofs::Lists::values_of_items_of))]
pub fn from_entries(alloc: Global, value: &Json) -> Result<Outcome, AllocError>
    ensures { IfOk result (λ o. outcome_of o ≡ from_entries value.now) }
{
    match value.node() {
        JsonNode::List(items) => match gathered(alloc, items.as_slice())? {
            Some(object) => Ok(Outcome::Value(object)),
            None => cannot(alloc, Builtin::FromEntries),
        },
        _ => cannot(alloc, Builtin::FromEntries),
    }
}

/// The object of these entries; none where one names no member.
fn gathered(alloc: Global, items: &[Json]) -> Result<Option<Json>, AllocError>
    ensures { IfOk result
        (λ o. o ≡ option_map object (gathered no_members items.now)) }
{
    let mut map = BTreeMap::new(alloc);
    for item in items {
        match entry_name(item)? {
            Some(name) => fields::put(&mut map, name, entry_value(item)?)?,
            None => return Ok(None),
        }
    }
    Ok(Some(fields::into_object(alloc, map)?))
}

/// The text under `key`.
fn entry_name(entry: &Json) -> Result<Option<Text>, AllocError>
    ensures { IfOk result (λ o. o ≡ entry_name entry.now) }
{
    match entry.member("key") {
        Some(name) => text_in(name),
        None => Ok(None),
    }
}

fn text_in(value: &Json) -> Result<Option<Text>, AllocError>
    ensures { IfOk result (λ o. o ≡ text_in value.now) }
{
    match value.node() {
        JsonNode::Text(text) => Ok(Some(text.copy()?)),
        _ => Ok(None),
    }
}

/// What stands under `value`, or null.
fn entry_value(entry: &Json) -> Result<Json, AllocError>
    ensures { IfOk result (λ v. v ≡ entry_value entry.now) }
{
    match entry.member("value") {
        Some(value) => value.copy(),
        None => Ok(Json::null()),
    }
}
