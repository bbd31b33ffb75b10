// The next step: of the first instance in the queue that can take one.
ghost use Rattle.std.specs.Prelude.{◌≡◌, ◌<◌, Ok, true, false, IfOk, IfSome, None};
ghost use Rattle.swf_instances.specs.Queued.{CanGoAt};
ghost use Rattle.swf_runs.specs.Runs.{is_quiet};
ghost use Rattle.swf_world.specs.Prepares.{IsPreparedStep};

use crate::change::Change;
use crate::step::step_change;
use crate::world::World;
use std::alloc::AllocError;
use swf_meaning::Label;
use swf_text::Strand;

impl World {
    /// The next step that can be taken, where there is one, and its change, for which the world has room. The instance that takes it goes
    /// behind all others in the queue.
    pub fn prepare_next(&mut self) -> Result<Option<(Label, Change)>, AllocError>
        ensures same { self.new.world ≡ self.old.world }
        ensures none { result ≡ Ok None → is_quiet self.new.world ≡ true }
        ensures loud { IfOk result (λ o. IfSome o (λ _. is_quiet self.new.world ≡ false)) }
        ensures some { IfOk result (λ o. IfSome o (IsPreparedStep self.new.world)) }
        ensures room { IfOk result (λ o. IfSome o (λ _. 0 < self.new.room)) }
    {
        let Some((number, strand)) = self.instances.next_step(self.alloc)? else {
            return Ok(None);
        };
        self.make_room()?;
        let step = self.step_at(number, strand)?;
        Ok(Some(step))
    }

    /// Whether no strand can take a step.
    pub fn is_quiet(&mut self) -> bool
        ensures same { self.new.world ≡ self.old.world }
        ensures quiet { result ≡ is_quiet self.new.world }
    {
        self.instances.is_quiet()
    }

    // The step of a strand of the instance of a number, and its change.
    fn step_at(&self, number: usize, strand: Strand) -> Result<(Label, Change), AllocError>
        requires { CanGoAt self.now.world.now self.now.world.instances number strand }
        ensures { IfOk result (IsPreparedStep self.now.world) }
    {
        let id = self.instances.at(number).id().copy()?;
        let (instances, documents) = (&self.instances, &self.documents);
        let change = step_change(self.alloc, number, instances, &strand, documents)?;
        Ok((Label::Step { id, strand }, change))
    }
}
