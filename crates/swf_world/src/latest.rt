// The label of an outcome.
ghost use Rattle.std.specs.Prelude.{◌≡◌, IfOk};
ghost use Rattle.swf_world.specs.Latest.{label_of};

use crate::world::World;
use std::alloc::AllocError;
use swf_meaning::{Label, Outcome};

impl World {
    /// The label of an outcome: a start of the version `latest` gets the last one that was loaded of its namespace
    /// and name, and stays as it is where there is none. Only such a start goes through the documents.
    pub fn label_of(&self, outcome: Outcome) -> Result<Label, AllocError>
        ensures { IfOk result (λ l. l ≡ label_of self.now.world outcome) }
    {
        match outcome {
            Outcome::Load(value) => Ok(Label::Load(value)),
            Outcome::Start { id, key, input } => {
                let key = self.documents.resolved(key)?;
                Ok(Label::Start { id, key, input })
            }
            Outcome::Event(event) => Ok(Label::Event(event)),
            Outcome::Reply { activity, reply } => Ok(Label::Reply { activity, reply }),
            Outcome::Moment(moment) => Ok(Label::Moment(moment)),
        }
    }
}
