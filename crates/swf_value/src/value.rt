// A JSON value: one level is a `JsonNode`, and the `Json` round it keeps what holds of each level.
ghost use Rattle.std.specs.Prelude.{◌≡◌, ◌↔◌, ◌-◌, ◌^◌, min, IfOk, IfErr, IfSome, IsTrue, None, false, option_map, chars};
ghost use Rattle.swf_value.specs.Members.{member_at};
ghost use Rattle.swf_value.specs.Node.{node_value};
ghost use Rattle.swf_value.specs.Grow.{IsList, IsObject, with_item, with_put};
ghost use Rattle.swf_value.specs.Size.{size};
ghost use Rattle.swf_value.specs.Value.{IsLevel, depth};

use crate::list::JsonList;
use crate::map::JsonMap;
use crate::measure::{depth_of_items, depth_of_members, size_of_member, size_of_node};
use crate::order::compare;
use std::alloc::{AllocError, Global};
use std::marker::Model;
use swf_text::Text;

/// A JSON value. Contracts see it as a `Value`.
#[cycle(json)]
pub struct Json {
    node: JsonNode,
    /// How deep lists and objects nest in it; the greatest number where that is greater still.
    depth: u32,
    /// How large it is; the greatest number where it is larger still.
    size: u32,
}

impl Drop for Json {
    #[cycle(json)]
    fn drop(self) {
        let Json {
            node: _node,
            depth: _,
            size: _,
        } = self;
    }
}

/// One level of a value.
#[cycle(json)]
#[derive(Drop)]
pub enum JsonNode {
    Null,
    Bool(bool),
    /// A whole number of at most 9007199254740991 either side of zero.
    Int(i64),
    Text(Text),
    List(JsonList),
    Object(JsonMap),
}

/// A member of an object.
#[cycle(json)]
#[derive(Drop)]
pub struct Member {
    pub name: Text,
    pub value: Json,
}

impl Model for Json {
    ghost use Rattle.swf_value.specs.Value.{Value as JsonValue};
    ghost use Rattle.swf_value.specs.ValueCode.{value_code};

    ghost Value = { JsonValue };

    ghost coded = { value_code };

    ghost use Rattle.swf_value.specs.Node.{node_value, weight, IsKept};

    ghost view = { λ j. node_value j.node };

    ghost invariant = { λ j. IsKept j.depth j.size (node_value j.node) };

    ghost size = { weight };

    ghost use Rattle.swf_value.specs.NodeFalls.{falls};

    ghost size_decreases = { λ a h. falls a.node };
}

impl Json {
    ghost use Rattle.std.specs.Prelude.{◌-◌, ◌^◌, min, chars};
    ghost use Rattle.swf_value.specs.Value.{Value as JsonValue, null, boolean, int, text, list, object, InRange, Ascending, IsLevel, depth};
    ghost use Rattle.swf_value.specs.Node.{node_value, items_of, members_of};
    ghost use Rattle.swf_value.specs.Members.{member_at};

    pub fn null() -> Json
        ensures { result ≡ null }
    {
        Json {
            node: JsonNode::Null,
            depth: 0,
            size: 1,
        }
    }

    pub fn boolean(value: bool) -> Json
        ensures { result ≡ boolean value }
    {
        Json {
            node: JsonNode::Bool(value),
            depth: 0,
            size: 1,
        }
    }

    /// A whole number of at most 9007199254740991 either side of zero.
    pub fn int(value: i64) -> Json
        requires { InRange value }
        ensures { result ≡ int value }
    {
        Json {
            node: JsonNode::Int(value),
            depth: 0,
            size: 1,
        }
    }

    pub fn text(value: Text) -> Json
        ensures { result ≡ text value }
    {
        Json::of(JsonNode::Text(value))
    }

    pub fn list(alloc: Global, items: Vec<Json>) -> Result<Json, AllocError>
        ensures { IfOk result (λ v. v ≡ list (items_of items.items)) }
    {
        let items = JsonList::new(alloc, items)?;
        Ok(Json::of(JsonNode::List(items)))
    }

    /// An object of these members, which stand by ascending name.
    pub fn object(alloc: Global, members: Vec<Member>) -> Result<Json, AllocError>
        requires { Ascending (members_of members.items) }
        ensures { IfOk result (λ v. v ≡ object (members_of members.items)) }
    {
        let members = JsonMap::new(alloc, members)?;
        Ok(Json::of(JsonNode::Object(members)))
    }

    /// The value of a level.
    fn of(node: JsonNode) -> Json
        requires { IsLevel (node_value node) }
        ensures { result ≡ node_value node }
    {
        let depth = depth_of_node(&node);
        let size = size_of_node(&node);
        Json { node, depth, size }
    }

    /// How deep lists and objects nest in it; the greatest number where that is greater still.
    pub(crate) fn depth(&self) -> u32
        ensures { result ≡ min (depth self.now) (2 ^ 32 - 1) }
    {
        self.depth
    }

    /// How large it is, unless that is too large for it to be kept.
    pub(crate) fn kept_size(&self) -> Option<u32>
        ensures { IfSome result (λ n. n ≡ size self.now) }
    {
        if self.size < u32::MAX {
            Some(self.size)
        } else {
            None
        }
    }

    /// The level at the top.
    pub fn node(&self) -> &JsonNode
        ensures value { node_value result.now ≡ self.now }
        ensures level { IsLevel self.now }
    {
        &self.node
    }

    /// The value of a member, where this is an object that has it.
    pub fn member(&self, name: &str) -> Option<&Json>
        ensures { option_map (λ v. v.now) result ≡ member_at (chars name.now) self.now }
    {
        match &self.node {
            JsonNode::Object(members) => members.find(name),
            _ => None,
        }
    }

    /// Whether it equals another value.
    pub fn is(&self, other: &Json) -> bool
        ensures { IsTrue result ↔ (self.now ≡ other.now) }
    {
        compare(self, other).is_eq()
    }

    /// The same value once more. It copies nothing that is inside.
    pub fn copy(&self) -> Result<Json, AllocError>
        ensures { IfOk result (λ v. v ≡ self.now) }
    {
        let node = match &self.node {
            JsonNode::Null => JsonNode::Null,
            JsonNode::Bool(value) => JsonNode::Bool(*value),
            JsonNode::Int(value) => JsonNode::Int(*value),
            JsonNode::Text(text) => JsonNode::Text(text.copy()?),
            JsonNode::List(items) => JsonNode::List(items.copy()?),
            JsonNode::Object(members) => JsonNode::Object(members.copy()?),
        };
        Ok(Json {
            node,
            depth: self.depth,
            size: self.size,
        })
    }

    /// One more item at the end of a list: in place where this is the list's only owner.
    #[tactic(auto, using(crate::proofs::Grown::kept_with_item))]
    pub fn push(&mut self, item: Json) -> Result<(), AllocError>
        requires { IsList self.old }
        ensures ok { IfOk result (λ _. self.new ≡ with_item self.old item) }
        ensures err { IfErr result (λ _. self.new ≡ self.old) }
    {
        let depth = item.depth.saturating_add(1);
        let size = item.size;
        push_item(&mut self.node, item)?;
        self.depth = self.depth.max(depth);
        self.size = self.size.saturating_add(size);
        Ok(())
    }

    /// Puts a member into an object, where it replaces one of the same name: in place where this
    /// is the object's only owner.
    #[tactic(auto, using(crate::proofs::Grown::level_with_put, crate::proofs::Grown::kept_with_new))]
    pub fn put(&mut self, name: Text, value: Json) -> Result<(), AllocError>
        requires { IsObject self.old }
        ensures ok { IfOk result (λ _. self.new ≡ with_put self.old name value) }
        ensures err { IfErr result (λ _. self.new ≡ self.old) }
    {
        let depth = value.depth.saturating_add(1);
        let size = size_of_member(&name, &value);
        if put_member(&mut self.node, name, value)? {
            self.depth = depth_of_node(&self.node);
            self.size = size_of_node(&self.node);
        } else {
            self.depth = self.depth.max(depth);
            self.size = self.size.saturating_add(size);
        }
        Ok(())
    }
}

impl Clone for Json {
    ghost is_clone = { λ a b. b ≡ a };

    fn clone(&self) -> Result<Json, AllocError> {
        self.copy()
    }
}

impl Clone for Member {
    ghost is_clone = { λ a b. b ≡ a };

    fn clone(&self) -> Result<Member, AllocError> {
        let name = self.name.copy()?;
        let value = self.value.copy()?;
        Ok(Member { name, value })
    }
}

/// One more item at the end of a list.
#[tactic(auto, using(crate::proofs::Grown::items_with_item))]
fn push_item(node: &mut JsonNode, item: Json) -> Result<(), AllocError>
    requires { IsList (node_value node.old) }
    ensures ok { IfOk result (λ _. node_value node.new ≡ with_item (node_value node.old) item) }
    ensures err { IfErr result (λ _. node_value node.new ≡ node_value node.old) }
{
    match node {
        JsonNode::List(items) => items.push(item),
        _ => Err(AllocError),
    }
}

/// Puts a member into an object, and says whether it replaced one.
fn put_member(node: &mut JsonNode, name: Text, value: Json) -> Result<bool, AllocError>
    requires object { IsObject (node_value node.old) }
    requires level { IsLevel (node_value node.old) }
    ensures ok { IfOk result (λ _. node_value node.new ≡ with_put (node_value node.old) name value) }
    ensures new { IfOk result (λ replaced. replaced ≡ false → member_at name (node_value node.old) ≡ None) }
    ensures err { IfErr result (λ _. node_value node.new ≡ node_value node.old) }
{
    match node {
        JsonNode::Object(members) => members.put(name, value),
        _ => Err(AllocError),
    }
}

/// How deep lists and objects nest in a level; the greatest number where that is greater still.
fn depth_of_node(node: &JsonNode) -> u32
    ensures { result ≡ min (depth (node_value node.now)) (2 ^ 32 - 1) }
{
    match node {
        JsonNode::Null | JsonNode::Bool(_) | JsonNode::Int(_) | JsonNode::Text(_) => 0,
        JsonNode::List(items) => depth_of_items(items.as_slice()).saturating_add(1),
        JsonNode::Object(members) => depth_of_members(members.as_slice()).saturating_add(1),
    }
}

fn crosses<T: Send + Sync>(_value: &T) {}

/// A value may be moved to another thread, and be looked at by several at once.
pub fn may_cross(value: &Json) {
    crosses(value);
}
