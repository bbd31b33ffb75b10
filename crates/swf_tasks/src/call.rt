// The calls of an instance, and what one is answered (DSL 1.0.0, reference, "HTTP Call").
ghost use Rattle.std.specs.Prelude.{◌≡◌, IfErr, IfOk, OnErr, OnOk, false, true};
ghost use Rattle.swf_meaning.specs.Pending.{open_calls};
ghost use Rattle.swf_meaning.specs.Reply.{is_open, with_reply};

use crate::machine::Machine;
use std::alloc::{AllocError, Global};
use swf_calls::{CallReply, CallRequest};
use swf_offers::{answer_in, is_open_in, list_calls};
use swf_text::Text;

impl Machine {
    /// Whether an activity is open: its call has no answer yet. It takes no memory.
    pub fn is_open(&self, activity: &Text) -> bool
        ensures { result ≡ is_open activity.now self.now.node }
    {
        is_open_in(&self.forest, self.forest.root(), activity)
    }

    /// Puts the answer of an open activity into its call; hands it back where the activity is not open. It takes no memory.
    pub fn deliver_reply(&mut self, activity: &Text, reply: CallReply) -> Result<(), CallReply>
        ensures ok { OnOk result ((is_open activity.now self.old.node ≡ true) × (self.new ≡ record self.old { node = with_reply activity.now reply self.old.node })) }
        ensures closed { IfErr result (λ back. (is_open activity.now self.old.node ≡ false) × (back ≡ reply)) }
        ensures err { OnErr result (self.new ≡ self.old) }
    {
        let root = self.forest.root();
        if let Some(reply) = answer_in(&mut self.forest, root, activity, reply) {
            return Err(reply);
        }
        Ok(())
    }

    /// The calls that await an answer, ascending by strand, each with its activity. It copies no values.
    pub fn open_activities(&self, alloc: Global) -> Result<Vec<(Text, CallRequest)>, AllocError>
        ensures { IfOk result (λ calls. calls.items ≡ open_calls self.now.node) }
    {
        let mut calls = Vec::new(alloc);
        list_calls(alloc, &self.forest, self.forest.root(), &mut calls)?;
        Ok(calls)
    }
}
