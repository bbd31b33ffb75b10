// Any label: whether it is taken, the change that it makes, and how the change is made.
ghost use Rattle.std.specs.Prelude.{◌≡◌, ◌≤◌, ◌<◌, ◌^◌, Err, IfOk, OnOk, None, Some};
ghost use Rattle.std.specs.List.{AllByRecursion};
ghost use Rattle.swf_world.specs.declared.refusal.Refusal.{Refusal};
ghost use Rattle.swf_runs.specs.After.{after, taken_by};
ghost use Rattle.swf_world.specs.Early.{IsEarly, IsEarlyRefusal};
ghost use Rattle.swf_world.specs.Changes.{Suits, changed};
ghost use Rattle.swf_world.specs.Refusals.{refusal};

use crate::change::{Change, ChangeKind, Installed};
use crate::refusal::PrepareFault;
use crate::world::World;
use std::alloc::AllocError;
use swf_catalog::Documents;
use swf_instances::Instances;
use swf_meaning::Label;
use swf_registry::UsedKeys;

/// How many labels a world takes.
const MOST_LABELS: u64 = 1 << 40;

impl World {
    /// Makes room for a label's change, or says why it is not taken. The world stays as it was.
    pub fn prepare(&mut self, label: &Label) -> Result<Change, PrepareFault>
        ensures same { self.new.world ≡ self.old.world }
        ensures ready { IfOk result (λ c. Suits self.new.world c × (after self.old.world label.now ≡ Some (changed self.old.world c)) × (0 < self.new.room)) }
        ensures refused { (r : Refusal) → result ≡ Err (PrepareFault.Refused r) → (refusal self.old.world label.now ≡ Some r) × (after self.old.world label.now ≡ None) }
        ensures taken { IfOk result (λ _. refusal self.old.world label.now ≡ None) }
        ensures listens { IfOk result (λ c. c.taken ≡ taken_by self.old.world label.now) }
        ensures early { (r : Refusal) → result ≡ Err (PrepareFault.Refused r) → IsEarlyRefusal r }
    {
        if self.make_room().is_err() {
            return Err(PrepareFault::OutOfMemory);
        }
        match label {
            Label::Load(value) => self.prepare_load(value),
            Label::Start { id, key, input } => self.prepare_start(id, key, input),
            Label::Event(event) => self.prepare_event(event),
            Label::Reply { activity, reply } => self.prepare_reply(activity, reply),
            Label::Moment(moment) => self.prepare_moment(*moment),
            Label::Step { id, strand } => self.prepare_step(id, strand),
        }
    }

    /// Makes a change that was prepared on this world. It takes no memory.
    pub fn install(&mut self, change: Change) -> Installed
        requires suits { Suits self.old.world change }
        requires room { 0 < self.old.room }
        ensures world { self.new.world ≡ changed self.old.world change }
        ensures place { result.place ≡ self.old.world.count }
        ensures taken { result.taken ≡ change.taken }
        ensures few { result.place ≤ 2 ^ 40 }
    {
        let place = self.count;
        let taken = change.taken;
        match change.kind {
            ChangeKind::Load { key, used, loaded } => self.install_load(key, used, loaded),
            ChangeKind::Start { id, used, instance } => self.install_start(id, used, instance),
            ChangeKind::Event { used, heard } => self.install_event(used, heard),
            ChangeKind::Reply {
                number,
                activity,
                reply,
            } => self.install_reply(number, activity, reply),
            ChangeKind::Moment(moment) => self.install_moment(moment),
            ChangeKind::Step {
                number,
                prepared,
                heard,
            } => self.install_step(number, prepared, heard),
        }
        Installed { place, taken }
    }

    // Makes room for one change more.
    pub(crate) fn make_room(&mut self) -> Result<(), AllocError>
        ensures same { self.new.world ≡ self.old.world }
        ensures room { OnOk result (0 < self.new.room) }
        ensures early { AllByRecursion IsEarly self.new.world.keys }
    {
        if self.count >= MOST_LABELS {
            return Err(AllocError);
        }
        reserve_parts(&mut self.documents, &mut self.instances, &mut self.used)?;
        self.outbox.reserve(1)
    }
}

// Makes room for one more in each part.
fn reserve_parts(
    documents: &mut Documents,
    instances: &mut Instances,
    used: &mut UsedKeys,
) -> Result<(), AllocError>
    ensures documents { documents.new.documents ≡ documents.old.documents }
    ensures instances { instances.new.instances ≡ instances.old.instances }
    ensures moment { instances.new.moment ≡ instances.old.moment }
    ensures used { used.new.keys ≡ used.old.keys }
    ensures room { OnOk result ((0 < documents.new.room) × (0 < instances.new.room) × (0 < used.new.room)) }
{
    documents.reserve()?;
    instances.reserve()?;
    used.reserve()
}
