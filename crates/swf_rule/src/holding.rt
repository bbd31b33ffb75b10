// A task that runs its list.
ghost use Rattle.std.specs.Prelude.{◌≡◌, ◌<◌, ◌-◌, ◌^◌, IfOk};
ghost use Rattle.swf_meaning.specs.Complete.{becomes};
ghost use Rattle.swf_meaning.specs.Node.{Live, At};
ghost use Rattle.swf_rule.specs.Rules.{line_in};
ghost use Rattle.swf_catalog.specs.Rounds.{round_of};
ghost use Rattle.swf_stack.specs.Stack.{made_node, stepped_of};

use crate::rule::Rule;
use std::alloc::AllocError;
use swf_catalog::Round;
use swf_document::Boxed;
use swf_stack::{Frame, Made, Top};

impl Rule<'_> {
    /// The task runs its list in a round, and this stands at a place of it.
    pub fn holding(&self, round: Round, place: usize, top: Top) -> Result<Made, AllocError>
        requires { place < 2 ^ 64 - 1 }
        ensures { IfOk result (λ m. stepped_of (line_in self.now) m ≡ becomes (line_in self.now) (Live self.now.running.now (At (round_of round) place (made_node top)))) }
    {
        let running = self.running.copy()?;
        let frame = Frame {
            running,
            round,
            place,
        };
        Ok(Made {
            frame: Some(Boxed::new(self.alloc, frame)?),
            top: Boxed::new(self.alloc, top)?,
            context: None,
            used: 0,
            emitted: None,
        })
    }
}
