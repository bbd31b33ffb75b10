// How large and how deep a value is.
ghost use Rattle.std.specs.Prelude.{◌≡◌, ◌≤◌, ◌^◌, ◌-◌, ◌+◌, min};
ghost use Rattle.swf_text.specs.Size.{bytes_in};
ghost use Rattle.swf_value.specs.Value.{depth, depth_items, depth_members};
ghost use Rattle.swf_value.specs.Node.{items_of, members_of, node_value};
ghost use Rattle.swf_value.specs.Size.{size, size_items, size_members};

use crate::value::{Json, JsonNode, Member};
use swf_text::Text;

/// One for each list, object and other value inside, and one for each byte of the texts and names;
/// the greatest number where that is greater still. It takes no memory.
pub fn size(value: &Json) -> u64
    ensures { result ≡ min (size value.now) (2 ^ 64 - 1) }
{
    size_within(value, u64::MAX)
}

/// A value's size, or `most` where it is larger. It looks no further than that.
pub fn size_within(value: &Json, most: u64) -> u64
    ensures { result ≡ min (size value.now) most }
{
    add_size(0, value, most)
}

/// A sum that goes on no further than `most`.
fn sum_within(sum: u64, more: u64, most: u64) -> u64
    ensures { result ≡ min (sum + more) most }
{
    sum.saturating_add(more).min(most)
}

/// A sum and a value's size.
#[cycle(size)]
fn add_size(sum: u64, value: &Json, most: u64) -> u64
    requires { sum ≤ most }
    ensures { result ≡ min (sum + size value.now) most }
{
    if let Some(size) = value.kept_size() {
        return sum_within(sum, u64::from(size), most);
    }
    let sum = sum_within(sum, 1, most);
    match value.node() {
        JsonNode::Null | JsonNode::Bool(_) | JsonNode::Int(_) => sum,
        JsonNode::Text(text) => sum_within(sum, text.as_str().len() as u64, most),
        JsonNode::List(items) => add_items(sum, items.as_slice(), most),
        JsonNode::Object(members) => add_members(sum, members.as_slice(), most),
    }
}

#[cycle(size)]
fn add_items(sum: u64, items: &[Json], most: u64) -> u64
    requires { sum ≤ most }
    ensures { result ≡ min (sum + size_items (items_of items.now)) most }
{
    let mut sum = sum;
    for item in items {
        if sum == most {
            return most;
        }
        sum = add_size(sum, item, most);
    }
    sum
}

#[cycle(size)]
fn add_members(sum: u64, members: &[Member], most: u64) -> u64
    requires { sum ≤ most }
    ensures { result ≡ min (sum + size_members (members_of members.now)) most }
{
    let mut sum = sum;
    for member in members {
        if sum == most {
            return most;
        }
        let named = sum_within(sum, member.name.as_str().len() as u64, most);
        sum = add_size(named, &member.value, most);
    }
    sum
}

/// The size of a level; the greatest number where it is larger still.
pub(crate) fn size_of_node(node: &JsonNode) -> u32
    ensures { result ≡ min (size (node_value node.now)) (2 ^ 32 - 1) }
{
    let most = u64::from(u32::MAX);
    let size = match node {
        JsonNode::Null | JsonNode::Bool(_) | JsonNode::Int(_) => 1,
        JsonNode::Text(text) => sum_within(1, text.as_str().len() as u64, most),
        JsonNode::List(items) => add_items(1, items.as_slice(), most),
        JsonNode::Object(members) => add_members(1, members.as_slice(), most),
    };
    size as u32
}

/// What a member adds to the size of an object; the greatest number where it is larger still.
pub(crate) fn size_of_member(name: &Text, value: &Json) -> u32
    ensures { result ≡ min (bytes_in name.now + size value.now) (2 ^ 32 - 1) }
{
    let most = u64::from(u32::MAX);
    let named = sum_within(0, name.as_str().len() as u64, most);
    add_size(named, value, most) as u32
}

/// How deep lists and objects nest, which is 0 for the other values; the greatest number where that
/// is greater still. It takes no memory.
pub fn depth(value: &Json) -> u32
    ensures { result ≡ min (depth value.now) (2 ^ 32 - 1) }
{
    value.depth()
}

/// The greatest depth of the items.
pub(crate) fn depth_of_items(items: &[Json]) -> u32
    ensures { result ≡ min (depth_items (items_of items.now)) (2 ^ 32 - 1) }
{
    let mut most: u32 = 0;
    for item in items {
        most = most.max(item.depth());
    }
    most
}

/// The greatest depth of the members' values.
pub(crate) fn depth_of_members(members: &[Member]) -> u32
    ensures { result ≡ min (depth_members (members_of members.now)) (2 ^ 32 - 1) }
{
    let mut most: u32 = 0;
    for member in members {
        most = most.max(member.value.depth());
    }
    most
}
