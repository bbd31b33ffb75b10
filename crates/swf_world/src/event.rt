// An event: it is told to all instances, once.
ghost use Rattle.std.specs.Prelude.{◌≡◌, ◌<◌, IfOk};
ghost use Rattle.swf_meaning.specs.declared.label.Label.{Label};
ghost use Rattle.swf_world.specs.Changes.{SuitsEvent, with_heard};
ghost use Rattle.swf_world.specs.Prepares.{Prepares, IsTelling};
ghost use Rattle.swf_world.specs.Refusals.{refusal, refused_by};

use crate::change::{Change, ChangeKind, ready};
use crate::refusal::{PrepareFault, Refusal};
use crate::world::World;
use std::alloc::{AllocError, Global};
use swf_cloudevents::{Event, key};
use swf_instances::{Hearing, Instances, Offered};
use swf_meaning::Key;
use swf_registry::Sought;

impl World {
    // Whether an event is new.
    pub(crate) fn tellable(&self, event: &Event) -> Result<(), Refusal>
        ensures { refused_by result ≡ refusal self.now.world (Label.Event event.now) }
    {
        let (source, id) = key(event);
        match self.used.place(Sought::Event(source, id)) {
            Some(place) => Err(Refusal::Duplicate { place }),
            None => Ok(()),
        }
    }

    pub(crate) fn prepare_event(&self, event: &Event) -> Result<Change, PrepareFault>
        ensures { Prepares self.now.world (Label.Event event.now) result }
    {
        match self.tellable(event) {
            Err(refusal) => Err(PrepareFault::Refused(refusal)),
            Ok(()) => ready(event_change(self.alloc, event, &self.instances)),
        }
    }

    pub(crate) fn install_event(&mut self, used: Key, heard: Vec<Hearing>)
        requires suits { SuitsEvent self.old.world used heard.items }
        requires room { 0 < self.old.room }
        ensures { self.new.world ≡ with_heard self.old.world used heard.items }
    {
        self.instances.hear(heard);
        self.used.add(used, self.count);
        self.count += 1;
    }
}

// The change that tells an event to all instances.
fn event_change(alloc: Global, event: &Event, instances: &Instances) -> Result<Change, AllocError>
    ensures { IfOk result (IsTelling instances.now.instances event.now) }
{
    let used = Key::Event(event.source.copy()?, event.id.copy()?);
    let Offered { heard, taken } = instances.offer(alloc, event, instances.len())?;
    let kind = ChangeKind::Event { used, heard };
    Ok(Change { kind, taken })
}
