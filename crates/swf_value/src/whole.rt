// What is found of JSON that is read: the value that it is, where it is one, and how deep it nests.
ghost use Rattle.std.specs.Prelude.{◌≡◌, IfOk, IfSome, option_map};
ghost use Rattle.serde_json.specs.Data as json_data;
ghost use Rattle.swf_value.specs.Value.{InRange, IsValue, list, object};
ghost use Rattle.swf_value.specs.Read.{whole_items, whole_members};
ghost use Rattle.swf_value.specs.Found.{IsInt, IsFound, AreFound, MembersFound, deepest_item, deepest_member};

use crate::names::Names;
use crate::value::{Json, Member};
use std::alloc::{AllocError, Global};
use std::collections::BTreeMap;
use swf_text::Text;

/// What is found of one piece of JSON.
#[derive(Drop)]
pub(crate) struct Found {
    /// The value, unless a number in it is a float or out of range.
    pub(crate) value: Option<Json>,
    /// How deep lists and objects nest in it; the greatest number where that is greater still.
    pub(crate) depth: u32,
}

/// What is found of an array, from what is found of its items.
pub(crate) fn found_list(alloc: Global, items: Vec<Found>) -> Result<Found, AllocError>
    ensures { IfOk result (λ f. (ds : json_data.Items) → AreFound ds items.items
        → IsFound (json_data.array ds) f) }
{
    let depth = depth_of_items(&items).saturating_add(1);
    let value = whole_list(alloc, items)?;
    Ok(Found { value, depth })
}

/// What is found of an object, from what is found of its members.
pub(crate) fn found_object(
    alloc: Global,
    names: &mut Names,
    members: BTreeMap<&str, Found>,
) -> Result<Found, AllocError>
    ensures { IfOk result (λ f. (ms : json_data.Members) → MembersFound ms members.entry.entries
        → IsFound (json_data.object ms) f) }
{
    let depth = depth_of_members(&members).saturating_add(1);
    let value = whole_object(alloc, names, members)?;
    Ok(Found { value, depth })
}

/// What is found of a number, from the whole number in range that it is, where it is one.
pub(crate) fn found_number(value: Option<i64>) -> Found
    requires { IfSome value InRange }
    ensures { (n : json_data.Num) → IsInt n value → IsFound (json_data.number n) result }
{
    match value {
        Some(value) => Found {
            value: Some(Json::int(value)),
            depth: 0,
        },
        None => Found {
            value: None,
            depth: 0,
        },
    }
}

/// What is found of a text.
pub(crate) fn found_text(alloc: Global, text: &str) -> Result<Found, AllocError>
    ensures { IfOk result (IsFound (json_data.string text.now)) }
{
    let text = Text::copy_of(alloc, text)?;
    Ok(Found {
        value: Some(Json::text(text)),
        depth: 0,
    })
}

/// The depth of the deepest item.
fn depth_of_items(items: &[Found]) -> u32
    ensures { result ≡ deepest_item items.now }
{
    let mut most = 0;
    for item in items {
        most = item.depth.max(most);
    }
    most
}

/// The depth of the deepest member.
fn depth_of_members(members: &BTreeMap<&str, Found>) -> u32
    ensures { result ≡ deepest_member members.now.entries }
{
    let mut most = 0;
    for (_, member) in members {
        most = member.depth.max(most);
    }
    most
}

/// The list of these items, if each is a value.
fn whole_list(alloc: Global, items: Vec<Found>) -> Result<Option<Json>, AllocError>
    ensures { IfOk result (λ o. (ds : json_data.Items) → AreFound ds items.items
        → (o ≡ option_map list (whole_items ds)) × IfSome o IsValue) }
{
    let mut values = Vec::with_capacity(alloc, items.len())?;
    for item in items {
        let Some(value) = item.value else {
            return Ok(None);
        };
        values.push(value)?;
    }
    Ok(Some(Json::list(alloc, values)?))
}

/// The object of these members, if each is a value.
fn whole_object(
    alloc: Global,
    names: &mut Names,
    members: BTreeMap<&str, Found>,
) -> Result<Option<Json>, AllocError>
    ensures { IfOk result (λ o. (ms : json_data.Members) → MembersFound ms members.entry.entries
        → (o ≡ option_map object (whole_members ms)) × IfSome o IsValue) }
{
    let mut found = Vec::with_capacity(alloc, members.len())?;
    for (name, member) in members {
        let Some(value) = member.value else {
            return Ok(None);
        };
        let name = names.text_of(alloc, name)?;
        found.push(Member { name, value })?;
    }
    Ok(Some(Json::object(alloc, found)?))
}
