// Values by name.
ghost use Rattle.std.specs.Prelude.{◌≡◌, IfOk, IfErr, option_map, chars};
ghost use Rattle.swf_value.specs.Members.{at, put};
ghost use Rattle.swf_value.specs.Node.{members_of};
ghost use Rattle.swf_value.specs.Value.{no_members, object, Ascending};

use std::alloc::{AllocError, Global};
use std::marker::Model;
use swf_text::Text;
use swf_value::{Json, JsonMap, Member};

/// Values by ascending name, each name once. A copy shares them. Contracts see `Members`.
#[derive(Drop)]
pub struct NamedValues {
    members: JsonMap,
}

impl Model for NamedValues {
    ghost use Rattle.swf_value.specs.Value.{Members, Ascending};
    ghost use Rattle.swf_value.specs.ValueCode.{members_code};

    ghost Value = { Members };

    ghost coded = { members_code };

    ghost view = { λ n. n.members };

    ghost invariant = { λ n. Ascending n.members };
}

impl NamedValues {
    /// None.
    pub fn none(alloc: Global) -> Result<NamedValues, AllocError>
        ensures { IfOk result (λ n. n ≡ no_members) }
    {
        let members = JsonMap::new(alloc, Vec::new(alloc))?;
        Ok(NamedValues { members })
    }

    /// These members, which stand by ascending name.
    pub fn of(alloc: Global, members: Vec<Member>) -> Result<NamedValues, AllocError>
        requires { Ascending (members_of members.items) }
        ensures { IfOk result (λ n. n ≡ members_of members.items) }
    {
        let members = JsonMap::new(alloc, members)?;
        Ok(NamedValues { members })
    }

    /// The same once more. It copies no values.
    pub fn copy(&self) -> Result<NamedValues, AllocError>
        ensures { IfOk result (λ n. n ≡ self.now) }
    {
        let members = self.members.copy()?;
        Ok(NamedValues { members })
    }

    /// An object of these members. It copies no values.
    pub fn to_json(&self, alloc: Global) -> Result<Json, AllocError>
        ensures { IfOk result (λ v. v ≡ object self.now) }
    {
        let mut members = Vec::new(alloc);
        for member in self.as_slice() {
            members.push(member.clone()?)?;
        }
        Json::object(alloc, members)
    }

    pub fn as_slice(&self) -> &[Member]
        ensures members { members_of result.now ≡ self.now }
        ensures order { Ascending self.now }
    {
        self.members.as_slice()
    }

    /// The value of a name, which is looked up by halves.
    pub fn find(&self, name: &str) -> Option<&Json>
        ensures { option_map (λ v. v.now) result ≡ at (chars name.now) self.now }
    {
        self.members.find(name)
    }

    /// Puts a value under a name, in place of the one that stood there.
    #[tactic(auto, using(swf_value::proofs::Places::ascending_put))]
    pub fn put(&mut self, name: Text, value: Json) -> Result<(), AllocError>
        ensures ok { IfOk result (λ _. self.new ≡ put name value self.old) }
        ensures err { IfErr result (λ _. self.new ≡ self.old) }
    {
        self.members.insert(name, value)
    }
}
