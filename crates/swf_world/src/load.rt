// A load: a document is added whose key is new.
ghost use Rattle.std.specs.Prelude.{◌≡◌, ◌<◌, List, IfOk, Some};
ghost use Rattle.swf_document.specs.declared.document.Document.{Document as Read};
ghost use Rattle.swf_document.specs.declared.fault.Fault.{Fault};
ghost use Rattle.swf_meaning.specs.declared.label.Label.{Label};
ghost use Rattle.swf_runs.specs.After.{with_document};
ghost use Rattle.swf_world.specs.Changes.{SuitsLoad};
ghost use Rattle.swf_world.specs.Prepares.{Prepares, load_of};
ghost use Rattle.swf_world.specs.Refusals.{refusal_of_load, refused_by};

use crate::change::{Change, ChangeKind, ready, untold};
use crate::refusal::{PrepareFault, Refusal};
use crate::world::World;
use std::alloc::{AllocError, Global};
use swf_catalog::Loaded;
use swf_document::DocKey;
use swf_meaning::Key;
use swf_reader::ReadFault;
use swf_registry::Sought;
use swf_validate::{Accepted, accept};
use swf_value::Json;

/// How many documents may be loaded.
const MOST_DOCUMENTS: usize = 1000;

impl World {
    // Whether a document of this key can be added, or why not.
    fn loadable(&self, key: &DocKey) -> Result<(), Refusal>
        ensures { (fs : List Fault) (d : Read) → d.key ≡ key.now → refused_by result ≡ refusal_of_load self.now.world fs (Some d) }
    {
        if let Some(place) = self.used.place(Sought::Document(key)) {
            return Err(Refusal::Duplicate { place });
        }
        if self.documents.len() >= MOST_DOCUMENTS {
            return Err(Refusal::Full);
        }
        Ok(())
    }

    pub(crate) fn prepare_load(&self, value: &Json) -> Result<Change, PrepareFault>
        ensures { Prepares self.now.world (Label.Load value.now) result }
    {
        let accepted = match accept(self.alloc, value) {
            Ok(document) => document,
            Err(ReadFault::Faults(faults)) => {
                return Err(PrepareFault::Refused(Refusal::Refused(faults)));
            }
            Err(ReadFault::OutOfMemory) => return Err(PrepareFault::OutOfMemory),
        };
        match self.loadable(&accepted.document().key) {
            Err(refusal) => Err(PrepareFault::Refused(refusal)),
            Ok(()) => ready(load_change(self.alloc, value, &accepted)),
        }
    }

    pub(crate) fn install_load(&mut self, key: DocKey, used: Key, loaded: Loaded)
        requires suits { SuitsLoad self.old.world key used loaded }
        requires room { 0 < self.old.room }
        ensures { self.new.world ≡ with_document self.old.world loaded.value loaded.document }
    {
        self.documents.add(key, loaded);
        self.used.add(used, self.count);
        self.count += 1;
    }
}

// The change that adds a document.
fn load_change(alloc: Global, value: &Json, document: &Accepted) -> Result<Change, AllocError>
    ensures { IfOk result (λ c. c ≡ load_of value.now document.now) }
{
    let loaded = Loaded::new(alloc, value.copy()?, document.shared()?)?;
    let key = document.document().key.copy()?;
    let used = Key::Document(key.copy()?);
    Ok(untold(ChangeKind::Load { key, used, loaded }))
}
