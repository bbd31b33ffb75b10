// A start: an instance of a loaded document is added whose id is new.
ghost use Rattle.std.specs.Prelude.{◌≡◌, ◌<◌, IfOk, Some};
ghost use Rattle.swf_meaning.specs.World.{new_instance};
ghost use Rattle.swf_meaning.specs.declared.key.Key.TheVariants as keys;
ghost use Rattle.swf_meaning.specs.declared.label.Label.{Label};
ghost use Rattle.swf_meaning.specs.Documents.{document_at};
ghost use Rattle.swf_runs.specs.After.{with_instance};
ghost use Rattle.swf_registry.specs.UsedKey.{used_at};
ghost use Rattle.swf_world.specs.Changes.{SuitsStart};
ghost use Rattle.swf_world.specs.Prepares.{Prepares, start_of};
ghost use Rattle.swf_world.specs.Refusals.{duplicate, refusal_of_start, refused_by};

use crate::change::{Change, ChangeKind, ready, untold};
use crate::refusal::{PrepareFault, Refusal};
use crate::world::World;
use std::alloc::{AllocError, Global};
use swf_catalog::SharedDocument;
use swf_document::{Boxed, DocKey};
use swf_duration::Moment;
use swf_meaning::Key;
use swf_registry::Sought;
use swf_tasks::{BoxedMachine, Machine};
use swf_text::Text;
use swf_value::Json;

/// How many instances may be started.
const MOST_INSTANCES: usize = 10_000;

impl World {
    // The document of an instance that can be started, or why it cannot.
    pub(crate) fn startable(&self, id: &Text, key: &DocKey) -> Result<&SharedDocument, Refusal>
        ensures refused { refused_by result ≡ duplicate (used_at (keys.Instance id.now) self.now.world.keys) (refusal_of_start self.now.world (document_at key.now self.now.world.documents)) }
        ensures found { IfOk result (λ d. document_at key.now self.now.world.documents ≡ Some d.now) }
    {
        if let Some(place) = self.used.place(Sought::Instance(id)) {
            return Err(Refusal::Duplicate { place });
        }
        let Some(document) = self.documents.get(key) else {
            return Err(Refusal::UnknownDocument);
        };
        if self.instances.len() >= MOST_INSTANCES {
            return Err(Refusal::Full);
        }
        Ok(document)
    }

    pub(crate) fn prepare_start(
        &self,
        id: &Text,
        key: &DocKey,
        input: &Json,
    ) -> Result<Change, PrepareFault>
        ensures { Prepares self.now.world (Label.Start id.now key.now input.now) result }
    {
        let now = self.now();
        match self.startable(id, key) {
            Err(refusal) => Err(PrepareFault::Refused(refusal)),
            Ok(document) => ready(start_change(self.alloc, id, document, input, now)),
        }
    }

    pub(crate) fn install_start(&mut self, id: Text, used: Key, instance: BoxedMachine)
        requires suits { SuitsStart self.old.world id used instance }
        requires room { 0 < self.old.room }
        ensures { self.new.world ≡ with_instance self.old.world instance }
    {
        self.instances.add(id, instance);
        self.used.add(used, self.count);
        self.count += 1;
    }
}

// The change that adds an instance which has not begun.
fn start_change(
    alloc: Global,
    id: &Text,
    document: &SharedDocument,
    input: &Json,
    now: Moment,
) -> Result<Change, AllocError>
    ensures { IfOk result (λ c. c ≡ start_of id.now document.now input.now now) }
{
    let used = Key::Instance(id.copy()?);
    let instance = begun(alloc, id, document, input, now)?;
    let id = id.copy()?;
    Ok(untold(ChangeKind::Start { id, used, instance }))
}

// An instance that has just begun.
fn begun(
    alloc: Global,
    id: &Text,
    document: &SharedDocument,
    input: &Json,
    now: Moment,
) -> Result<BoxedMachine, AllocError>
    ensures { IfOk result (λ b. b ≡ new_instance id.now input.now now document.now) }
{
    let (document, input) = (document.copy()?, input.copy()?);
    let machine = Machine::begin(alloc, id.copy()?, document, input, now)?;
    Boxed::new(alloc, machine)
}
