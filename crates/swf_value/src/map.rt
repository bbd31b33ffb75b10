// The members of an object, which several values share.
ghost use Rattle.std.specs.Prelude.{◌≡◌, IfOk, IfErr, None, false, option_map, chars};
ghost use Rattle.std.specs.Ordering.{nat_cmp};
ghost use Rattle.std.specs.Cmp.Lexicographic.{slice_cmp};
ghost use Rattle.swf_value.specs.Members.{at, put};
ghost use Rattle.swf_value.specs.Place.{IsPlaceOf};
ghost use Rattle.swf_value.specs.Value.{Ascending};
ghost use Rattle.swf_value.specs.Node.{members_of};

use crate::value::{Json, Member};
use std::alloc::{AllocError, Global};
use std::cmp::Ordering;
use std::marker::Model;
use std::sync::Arc;
use swf_text::{Text, compare_strs};

/// The members of an object, by ascending name, each name once. A copy shares them. Contracts see
/// `Members`.
#[cycle(json)]
#[derive(Drop)]
pub struct JsonMap {
    shared: Arc<Vec<Member>>,
}

impl Model for JsonMap {
    ghost use Rattle.std.specs.Arc.{arc_value};
    ghost use Rattle.swf_value.specs.Value.{Members};
    ghost use Rattle.swf_value.specs.ValueCode.{members_code};

    ghost Value = { Members };

    ghost coded = { members_code };

    ghost use Rattle.swf_value.specs.Node.{members_of};

    ghost view = { λ s. members_of (arc_value s.shared).items };

    ghost use Rattle.swf_value.specs.Weight.{weight_map};

    ghost size = { weight_map };

    ghost use Rattle.swf_value.specs.NodeFalls.{falls_map};

    ghost size_decreases = { λ a h. falls_map (arc_value a.shared).items };
}

impl JsonMap {
    pub fn new(alloc: Global, members: Vec<Member>) -> Result<JsonMap, AllocError>
        ensures { IfOk result (λ map. map ≡ members_of members.items) }
    {
        let shared = Arc::new(alloc, members)?;
        Ok(JsonMap { shared })
    }

    /// The same members once more. It copies nothing that is inside.
    pub fn copy(&self) -> Result<JsonMap, AllocError>
        ensures { IfOk result (λ map. map ≡ self.now) }
    {
        let shared = Arc::try_clone(&self.shared)?;
        Ok(JsonMap { shared })
    }

    pub fn as_slice(&self) -> &[Member]
        ensures { members_of result.now ≡ self.now }
    {
        self.shared.as_slice()
    }

    /// The value under a name, which is looked up by halves.
    pub fn find(&self, name: &str) -> Option<&Json>
        requires { Ascending self.now }
        ensures { option_map (λ v. v.now) result ≡ at (chars name.now) self.now }
    {
        let members = self.as_slice();
        match place_of(members, name) {
            Ok(place) => Some(&members[place].value),
            Err(_) => None,
        }
    }

    /// Puts a member among the others, where it replaces one of the same name: in place where this is
    /// the only owner, else on a new vector.
    pub fn insert(&mut self, name: Text, value: Json) -> Result<(), AllocError>
        requires { Ascending self.old }
        ensures ok { IfOk result (λ _. self.new ≡ put name value self.old) }
        ensures err { IfErr result (λ _. self.new ≡ self.old) }
    {
        self.put(name, value)?;
        Ok(())
    }

    /// Puts a member among the others, and says whether it replaced one.
    pub(crate) fn put(&mut self, name: Text, value: Json) -> Result<bool, AllocError>
        requires { Ascending self.old }
        ensures ok { IfOk result (λ _. self.new ≡ put name value self.old) }
        ensures new { IfOk result (λ replaced. replaced ≡ false → at name self.old ≡ None) }
        ensures err { IfErr result (λ _. self.new ≡ self.old) }
    {
        insert_into(Arc::make_mut(&mut self.shared)?, name, value)
    }
}

/// Puts a member among ascending members, and says whether it replaced one.
fn insert_into(members: &mut Vec<Member>, name: Text, value: Json) -> Result<bool, AllocError>
    requires { Ascending (members_of members.old.items) }
    ensures ok { IfOk result (λ _. members_of members.new.items ≡ put name value (members_of members.old.items)) }
    ensures new { IfOk result (λ replaced. replaced ≡ false → at name (members_of members.old.items) ≡ None) }
    ensures err { IfErr result (λ _. members.new.items ≡ members.old.items) }
{
    match place_of(members, name.as_str()) {
        Ok(place) => {
            members[place] = Member { name, value };
            Ok(true)
        }
        Err(place) => {
            members.insert(place, Member { name, value })?;
            Ok(false)
        }
    }
}

/// Where a name stands among ascending members, or else where it would stand.
fn place_of(members: &[Member], name: &str) -> Result<usize, usize>
    requires { Ascending (members_of members.now) }
    ensures { IsPlaceOf (chars name.now) members.now result }
{
    members.binary_search_by(
        |member: &Member| -> Ordering
            ensures { result ≡ slice_cmp nat_cmp member.now.name (chars name.entry.now) }
        { compare_strs(member.name.as_str(), name) },
    )
}
