// A moment: it is reached where it is above the one that was reached last.
ghost use Rattle.std.specs.Prelude.{◌≡◌, ◌<◌};
ghost use Rattle.swf_meaning.specs.declared.label.Label.{Label};
ghost use Rattle.swf_world.specs.Changes.{SuitsMoment, with_moment};
ghost use Rattle.swf_world.specs.Prepares.{Prepares};
ghost use Rattle.swf_world.specs.Refusals.{refusal_of_moment, refused_by};

use crate::change::{Change, ChangeKind, untold};
use crate::refusal::{PrepareFault, Refusal};
use crate::world::World;
use swf_duration::Moment;
use swf_meaning::Key;

impl World {
    // Whether a moment is above the one that was reached.
    pub(crate) fn reachable(&self, moment: Moment) -> Result<(), Refusal>
        ensures { refused_by result ≡ refusal_of_moment self.now.world moment }
    {
        let now = self.now();
        if moment.milliseconds() <= now.milliseconds() {
            return Err(Refusal::Past { now });
        }
        Ok(())
    }

    pub(crate) fn prepare_moment(&self, moment: Moment) -> Result<Change, PrepareFault>
        ensures { Prepares self.now.world (Label.Moment moment) result }
    {
        match self.reachable(moment) {
            Err(refusal) => Err(PrepareFault::Refused(refusal)),
            Ok(()) => Ok(untold(ChangeKind::Moment(moment.milliseconds()))),
        }
    }

    // The instances whose wait is over join the queue.
    pub(crate) fn install_moment(&mut self, milliseconds: u64)
        requires suits { SuitsMoment self.old.world milliseconds }
        requires room { 0 < self.old.room }
        ensures { self.new.world ≡ with_moment self.old.world milliseconds }
    {
        self.instances.reach(Moment::new(milliseconds));
        self.used.add(Key::Moment(milliseconds), self.count);
        self.count += 1;
    }
}
