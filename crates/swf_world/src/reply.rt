// A reply: the call of an open activity gets its answer, once.
ghost use Rattle.std.specs.Prelude.{◌≡◌, ◌<◌, IfOk};
ghost use Rattle.swf_meaning.specs.declared.label.Label.{Label};
ghost use Rattle.swf_runs.specs.After.{with_answer};
ghost use Rattle.swf_world.specs.Changes.{SuitsReply};
ghost use Rattle.swf_world.specs.Prepares.{Prepares, reply_of};

use crate::change::{Change, ChangeKind, ready, untold};
use crate::refusal::{PrepareFault, Refusal};
use crate::world::World;
use std::alloc::{AllocError, Global};
use swf_calls::CallReply;
use swf_meaning::Key;
use swf_registry::Sought;
use swf_text::Text;

impl World {
    pub(crate) fn prepare_reply(
        &self,
        activity: &Text,
        reply: &CallReply,
    ) -> Result<Change, PrepareFault>
        ensures { Prepares self.now.world (Label.Reply activity.now reply.now) result }
    {
        if let Some(place) = self.used.place(Sought::Activity(activity)) {
            return Err(PrepareFault::Refused(Refusal::Duplicate { place }));
        }
        match self.instances.awaiting(activity) {
            Ok(Some(number)) => ready(reply_change(self.alloc, number, activity, reply)),
            Ok(None) => Err(PrepareFault::Refused(Refusal::Stale)),
            Err(_) => Err(PrepareFault::OutOfMemory),
        }
    }

    pub(crate) fn install_reply(&mut self, number: usize, activity: Text, reply: CallReply)
        requires suits { SuitsReply self.old.world number activity }
        requires room { 0 < self.old.room }
        ensures { self.new.world ≡ with_answer self.old.world activity reply }
    {
        self.instances.reply(number, &activity, reply);
        self.used.add(Key::Activity(activity), self.count);
        self.count += 1;
    }
}

// The change that answers a call of the instance of a number.
fn reply_change(
    alloc: Global,
    number: usize,
    activity: &Text,
    reply: &CallReply,
) -> Result<Change, AllocError>
    ensures { IfOk result (λ c. c ≡ reply_of number activity.now reply.now) }
{
    let activity = activity.copy()?;
    let reply = reply.copy(alloc)?;
    Ok(untold(ChangeKind::Reply {
        number,
        activity,
        reply,
    }))
}
