// Members put in order.
ghost use Rattle.std.specs.Prelude.{◌≡◌, OnOk, IfOk};
ghost use Rattle.swf_value.specs.Members.{put};
ghost use Rattle.swf_value.specs.Node.{members_of};
ghost use Rattle.swf_value.specs.Value.{object};
ghost use Rattle.swf_jq_builtins.specs.MapMembers.{entries_members};
ghost use Rattle.swf_evaluation.specs.Operations.{merged};

use std::alloc::{AllocError, Global};
use std::collections::BTreeMap;
use swf_text::Text;
use swf_value::{Json, Member};

/// Puts a member among others, where it replaces one of the same name.
pub fn put(map: &mut BTreeMap<Text, Json>, name: Text, value: Json) -> Result<(), AllocError>
    ensures { OnOk result
        (entries_members map.new.entries ≡ put name value (entries_members map.old.entries)) }
{
    map.insert(name, value)?;
    Ok(())
}

/// Puts the members of an object among others, where they replace those of the same names.
pub fn put_all(map: &mut BTreeMap<Text, Json>, members: &[Member]) -> Result<(), AllocError>
    ensures { OnOk result
        (entries_members map.new.entries
        ≡ merged (entries_members map.old.entries) (members_of members.now)) }
{
    for member in members {
        put(map, member.name.copy()?, member.value.copy()?)?;
    }
    Ok(())
}

/// The object of these members.
pub fn into_object(alloc: Global, map: BTreeMap<Text, Json>) -> Result<Json, AllocError>
    ensures { IfOk result (λ v. v ≡ object (entries_members map.entries)) }
{
    let mut members = Vec::with_capacity(alloc, map.len())?;
    for (name, value) in map {
        members.push(Member { name, value })?;
    }
    Json::object(alloc, members)
}
