// An answer goes to the instance with whose id the name of its activity begins.
ghost use Rattle.std.specs.Prelude.{◌≡◌, IfOk, IfSome, is_some, map, true};
ghost use Rattle.swf_meaning.specs.Reply.{before_last, is_open, with_reply};
ghost use Rattle.swf_runs.specs.After.{replied_one};
ghost use Rattle.swf_instances.specs.Replies.{is_open_among, IsOpenAt};

use crate::instances::Instances;
use std::alloc::{AllocError, Global};
use swf_calls::CallReply;
use swf_tasks::Machine;
use swf_text::Text;

impl Instances {
    /// The number of the instance in which an activity is open: a call that has no answer yet.
    pub fn awaiting(&self, activity: &Text) -> Result<Option<usize>, AllocError>
        ensures open { IfOk result (λ o. is_some o ≡ is_open_among activity.now self.now.instances) }
        ensures there { IfOk result (λ o. IfSome o (IsOpenAt activity.now self.now.instances)) }
    {
        let Some(id) = caller(self.alloc, activity)? else {
            return Ok(None);
        };
        let Some(number) = self.number_of(&id) else {
            return Ok(None);
        };
        if self.at(number).is_open(activity) {
            Ok(Some(number))
        } else {
            Ok(None)
        }
    }

    /// The call that an activity is of the instance of a number gets its answer, and the instance joins the queue. It takes no memory.
    pub fn reply(&mut self, number: usize, activity: &Text, reply: CallReply)
        requires { IsOpenAt activity.now self.old.instances number }
        ensures instances { self.new.instances ≡ map (replied_one activity.now reply) self.old.instances }
        ensures moment { self.new.moment ≡ self.old.moment }
    {
        self.queue.put(number);
        self.stale.put(number);
        let instance = &mut self.machines[number];
        answer(instance, activity, reply);
        self.alarms.set(number, instance.alarm());
    }
}

// An open call of an instance gets its answer.
fn answer(instance: &mut Machine, activity: &Text, reply: CallReply)
    requires { is_open activity.now instance.old.node ≡ true }
    ensures { instance.new ≡ record instance.old { node = with_reply activity.now reply instance.old.node } }
{
    match instance.deliver_reply(activity, reply) {
        Ok(()) => {}
        Err(_) => unreachable!(),
    }
}

// What stands before the last `/` of an activity's name: the id of its instance.
fn caller(alloc: Global, activity: &Text) -> Result<Option<Text>, AllocError>
    ensures { IfOk result (λ id. id ≡ before_last 47 activity.now) }
{
    match activity.as_str().rsplit_once('/') {
        Some((id, _)) => Ok(Some(Text::copy_of(alloc, id)?)),
        None => Ok(None),
    }
}
