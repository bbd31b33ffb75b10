// The engine: a world, and the journal of the labels that made it.
ghost use Rattle.std.specs.Prelude.{◌≡◌, ℕ, List, Err, IfOk, IsOk, is_some, slice_get, option_map};
ghost use Rattle.std.specs.Option.{ForSome};
ghost use Rattle.swf_store.specs.Disk.{NothingNew};
ghost use Rattle.swf_store.specs.Stops.{LeavesOnly};
ghost use Rattle.swf_store.specs.declared.image.File.TheVariants.{Journal as JournalFile};
ghost use Rattle.swf_meaning.specs.declared.label.Label.{Label};
ghost use Rattle.swf_record.specs.Encodes.{Nests};
ghost use Rattle.swf_world.specs.Answers.{IsOfWorld};
ghost use Rattle.swf_world.specs.Latest.{label_of};
ghost use Rattle.swf_world.specs.Waits.{is_due};
ghost use Rattle.swf_engine.specs.Answers.{Submits, IsSmall};
ghost use Rattle.swf_engine.specs.Causes.{EngineCause, WhereUsable};
ghost use Rattle.swf_engine.specs.Core.{IsEngineOf, StandFor, most_bytes};
ghost use Rattle.swf_engine.specs.EngineCalls.{SubmitCalls, QueryCalls};
ghost use Rattle.swf_engine.specs.Retelling.{Queries, AnswersQuery};

use crate::EngineFault;
use crate::add::add_label;
use crate::queries::answer;
use crate::retelling::retell;
use std::alloc::Global;
use std::marker::Model;
use swf_duration::Moment;
use swf_journal::Journal;
use swf_meaning::{Answer, Outcome, Query};
use swf_store::Store;
use swf_text::Text;
use swf_world::{Installed, QueryFault, Refusal, World};

/// What handing an outcome in did.
#[derive(Drop)]
pub enum Submitted {
    /// Its label was added.
    Accepted(Installed),
    /// Nothing was added.
    Refused(Refusal),
}

/// An engine over a store that each call names. Contracts see its world and the place of the journal's next gate.
pub struct Engine {
    pub(crate) alloc: Global,
    pub(crate) world: World,
    pub(crate) journal: Journal,
}

impl Drop for Engine {
    fn drop(self) {
        let Engine {
            alloc: _alloc,
            world: _world,
            journal: _journal,
        } = self;
    }
}

impl Model for Engine {
    ghost use Rattle.std.specs.Prelude.{◌≡◌, ◌^◌};
    ghost use Rattle.swf_store.specs.declared.image.File.TheVariants.{Journal as JournalFile};
    ghost use Rattle.swf_engine.specs.Core.{Core, core_code};

    ghost Value = { Core };

    ghost coded = { core_code };

    ghost view = { λ e. record { world = e.world.world; gate = e.journal.at } };

    ghost invariant = { λ e. (e.journal.file ≡ JournalFile) × (e.journal.limit ≡ 2 ^ 40) };
}

impl Engine {
    pub(crate) fn of(alloc: Global, world: World, journal: Journal) -> Engine
        requires file { journal.file ≡ JournalFile }
        requires limit { journal.limit ≡ most_bytes }
        ensures { result ≡ record { world = world.world; gate = journal.at } }
    {
        Engine {
            alloc,
            world,
            journal,
        }
    }

    /// Hands an outcome in. Its label is added in a frame of its own, or refused for the first cause that there is. Want of
    /// memory comes before the frame, and changes nothing. The calls of the store are those of one append, or none.
    pub fn submit<S: Store>(
        &mut self,
        store: &mut S,
        outcome: Outcome,
    ) -> Result<Submitted, EngineFault>
        requires place { IsEngineOf (S.seen store.old) self.old }
        requires nests { Nests (label_of self.old.world outcome) }
        ensures place { WhereUsable result (IsEngineOf (S.seen store.new) self.new) }
        ensures submits { Submits S.moment S.left_since S.said S.may_leave S.seen store.old store.new self.old self.new (label_of self.old.world outcome) result }
        ensures small { IfOk result IsSmall }
        ensures calls { SubmitCalls (S.calls store.old) (S.calls store.new) self.old.gate self.new.gate (label_of self.old.world outcome) result }
        ensures said { S.said store.new ≡ S.said store.old }
        ensures beside { S.beside store.new ≡ S.beside store.old }
        ensures honest { is_some (S.seen store.new) ≡ is_some (S.seen store.old) }
        ensures cause { EngineCause (S.store_faults store.old) (S.store_faults store.new) result }
    {
        let label = self.world.label_of(outcome)?;
        add_label(self.alloc, &mut self.world, &mut self.journal, store, label)
    }

    /// Answers a query. A history is told from the journal, whose frames are read again; no other query makes a call of the store.
    pub fn query<S: Store>(
        &mut self,
        store: &mut S,
        query: &Query,
    ) -> Result<Result<Answer, QueryFault>, EngineFault>
        requires place { IsEngineOf (S.seen store.old) self.old }
        ensures place { IsEngineOf (S.seen store.new) self.new }
        ensures engine { self.new ≡ self.old }
        ensures queries { ForSome (S.seen store.old) (λ image. Queries image.journal query.now result) }
        ensures answers { ForSome (S.seen store.old) (λ image. (history : List Label) → StandFor image (S.may_leave store.old) self.old history → AnswersQuery history self.old.world query.now result) }
        ensures calls { QueryCalls query.now (S.calls store.old) (S.calls store.new) result }
        ensures of_world { IsOfWorld query.now → (store.new ≡ store.old) × IsOk result × ((history : List Label) → AnswersQuery history self.old.world query.now result) }
        ensures full { (size : ℕ) → result ≡ Err (EngineFault.Full size) → ⊥ }
        ensures seen { S.seen store.new ≡ S.seen store.old }
        ensures stop { NothingNew (S.may_leave store.old) (S.may_leave store.new) }
        ensures any_moment { LeavesOnly S.moment S.left_since S.said store.old store.new (S.may_leave store.old) }
        ensures said { S.said store.new ≡ S.said store.old }
        ensures beside { S.beside store.new ≡ S.beside store.old }
        ensures cause { EngineCause (S.store_faults store.old) (S.store_faults store.new) result }
    {
        match query {
            Query::History(from) => match retell(self.alloc, store, *from) {
                Ok(value) => Ok(Ok(Answer::History(value))),
                Err(fault) => Err(fault),
            },
            Query::Status(_) => Ok(answer(self.alloc, &self.world, query)),
            Query::Pending => Ok(answer(self.alloc, &self.world, query)),
            Query::Outbox(_) => Ok(answer(self.alloc, &self.world, query)),
        }
    }

    /// The moment that was reached last. It takes no memory.
    pub fn now(&self) -> Moment
        ensures { result ≡ self.now.world.now }
    {
        self.world.now()
    }

    /// Whether a moment, in milliseconds, is above now, and some strand waits until it, or until one before it. It takes no memory.
    pub fn due(&self, moment: u64) -> bool
        ensures { result ≡ is_due self.now.world moment }
    {
        self.world.due(moment)
    }

    /// The id of the instance of that number, from 0, in start order. It takes no memory.
    pub fn instance(&self, number: u64) -> Option<&Text>
        ensures { option_map (λ id. id.now) result ≡ option_map (λ i. i.id) (slice_get self.now.world.instances number) }
    {
        self.world.instance(number)
    }
}
