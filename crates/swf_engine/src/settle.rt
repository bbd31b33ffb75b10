// A settling: steps are taken, and a board is asked for the calls that are open then.
ghost use Rattle.std.specs.Prelude.{◌≡◌, [], false, List, is_some};
ghost use Rattle.swf_engine.specs.Answers.{Steps, Asks, Settles};
ghost use Rattle.swf_engine.specs.Causes.{EngineCause, WhereUsable};
ghost use Rattle.swf_engine.specs.Core.{IsEngineOf};
ghost use Rattle.swf_engine.specs.Settling.{Called, AreAsked, AsksBoard, IsAwaited, calls_in};

use crate::add::{add_label, add_prepared};
use crate::queries::open_calls;
use crate::{Engine, EngineFault, Submitted};
use swf_calls::CallRequest;
use swf_connect::{Parties, Switchboard};
use swf_meaning::Label;
use swf_store::Store;
use swf_text::Text;

/// How a settling ended.
#[derive(Clone, Copy)]
pub struct Settled {
    /// How many steps were taken.
    pub steps: u64,
    /// No strand is enabled any more, and no call is open that a board answers.
    pub quiet: bool,
}

impl Engine {
    // Takes one step, where one can be taken, and says whether it was.
    fn step<S: Store>(&mut self, store: &mut S) -> Result<bool, EngineFault>
        requires place { IsEngineOf (S.seen store.old) self.old }
        ensures place { WhereUsable result (IsEngineOf (S.seen store.new) self.new) }
        ensures steps { Steps S.moment S.left_since S.said S.may_leave S.seen S.calls store.old store.new self.old self.new result }
        ensures said { S.said store.new ≡ S.said store.old }
        ensures beside { S.beside store.new ≡ S.beside store.old }
        ensures honest { is_some (S.seen store.new) ≡ is_some (S.seen store.old) }
        ensures cause { EngineCause (S.store_faults store.old) (S.store_faults store.new) result }
    {
        let Some(prepared) = self.world.prepare_next()? else {
            return Ok(false);
        };
        let (label, change) = prepared;
        match add_prepared(
            self.alloc,
            &mut self.world,
            &mut self.journal,
            store,
            label,
            change,
        ) {
            Ok(_) => Ok(true),
            Err(fault) => Err(fault),
        }
    }

    // Takes steps until no strand is enabled, and at most so many, each in a frame of its own.
    fn take_steps<S: Store>(&mut self, store: &mut S, limit: u64) -> Result<Settled, EngineFault>
        requires place { IsEngineOf (S.seen store.old) self.old }
        ensures place { WhereUsable result (IsEngineOf (S.seen store.new) self.new) }
        ensures settles { Settles S.moment S.left_since S.said S.may_leave S.seen S.calls false [] store.old store.new self.old self.new limit result }
        ensures said { S.said store.new ≡ S.said store.old }
        ensures beside { S.beside store.new ≡ S.beside store.old }
        ensures honest { is_some (S.seen store.new) ≡ is_some (S.seen store.old) }
        ensures cause { EngineCause (S.store_faults store.old) (S.store_faults store.new) result }
    {
        for steps in 0..limit {
            match self.step(store) {
                Ok(true) => {}
                Ok(false) => return Ok(Settled { steps, quiet: true }),
                Err(fault) => return Err(fault),
            }
        }
        Ok(Settled {
            steps: limit,
            quiet: self.world.is_quiet(),
        })
    }

    // Asks the board for one call, and adds the reply in a frame of its own. A reply that is not taken is let go.
    fn ask<S: Store>(
        &mut self,
        store: &mut S,
        board: &mut Switchboard,
        activity: Text,
        request: &CallRequest,
    ) -> Result<(), EngineFault>
        requires place { IsEngineOf (S.seen store.old) self.old }
        requires awaited { IsAwaited self.old.world (activity, request.now) }
        ensures place { WhereUsable result (IsEngineOf (S.seen store.new) self.new) }
        ensures asks { (called : List Called) × AreAsked called (⟦<Switchboard as Parties>⟧.parties board.old) (⟦<Switchboard as Parties>⟧.parties board.new)
            × Asks S.moment S.left_since S.said S.may_leave S.seen S.calls called store.old store.new self.old self.new result }
        ensures said { S.said store.new ≡ S.said store.old }
        ensures beside { S.beside store.new ≡ S.beside store.old }
        ensures honest { is_some (S.seen store.new) ≡ is_some (S.seen store.old) }
        ensures cause { EngineCause (S.store_faults store.old) (S.store_faults store.new) result }
    {
        let reply = board.perform(request)?;
        let label = Label::Reply { activity, reply };
        match add_label(self.alloc, &mut self.world, &mut self.journal, store, label) {
            Ok(Submitted::Accepted(_)) => Ok(()),
            Ok(Submitted::Refused(_)) => Err(EngineFault::OutOfMemory),
            Err(fault) => Err(fault),
        }
    }

    // Asks the board for each of these calls, which are open.
    fn ask_all<S: Store>(
        &mut self,
        store: &mut S,
        board: &mut Switchboard,
        awaited: Vec<(Text, CallRequest)>,
    ) -> Result<(), EngineFault>
        requires place { IsEngineOf (S.seen store.old) self.old }
        requires awaited { awaited.items ≡ calls_in self.old.world }
        ensures place { WhereUsable result (IsEngineOf (S.seen store.new) self.new) }
        ensures asks { (called : List Called) × AreAsked called (⟦<Switchboard as Parties>⟧.parties board.old) (⟦<Switchboard as Parties>⟧.parties board.new)
            × Asks S.moment S.left_since S.said S.may_leave S.seen S.calls called store.old store.new self.old self.new result }
        ensures said { S.said store.new ≡ S.said store.old }
        ensures beside { S.beside store.new ≡ S.beside store.old }
        ensures honest { is_some (S.seen store.new) ≡ is_some (S.seen store.old) }
        ensures cause { EngineCause (S.store_faults store.old) (S.store_faults store.new) result }
    {
        for (activity, request) in awaited {
            match self.ask(store, board, activity, &request) {
                Ok(()) => {}
                Err(fault) => return Err(fault),
            }
        }
        Ok(())
    }

    /// Takes steps until no strand is enabled, and at most so many, each in a frame of its own. Where `calls` is true, the board is
    /// asked for each call that is open then, its reply is added, and the settling goes on until none is open; else the board stays as
    /// it was. What was added before memory ran out stands. The calls of the store are those of one append after the other.
    pub fn settle<S: Store>(
        &mut self,
        store: &mut S,
        limit: u64,
        board: &mut Switchboard,
        calls: bool,
    ) -> Result<Settled, EngineFault>
        requires place { IsEngineOf (S.seen store.old) self.old }
        ensures place { WhereUsable result (IsEngineOf (S.seen store.new) self.new) }
        ensures settles { (called : List Called) × AsksBoard calls called (⟦<Switchboard as Parties>⟧.parties board.old) (⟦<Switchboard as Parties>⟧.parties board.new)
            × Settles S.moment S.left_since S.said S.may_leave S.seen S.calls calls called store.old store.new self.old self.new limit result }
        ensures by_hand { calls ≡ false → board.new ≡ board.old }
        ensures said { S.said store.new ≡ S.said store.old }
        ensures beside { S.beside store.new ≡ S.beside store.old }
        ensures honest { is_some (S.seen store.new) ≡ is_some (S.seen store.old) }
        ensures cause { EngineCause (S.store_faults store.old) (S.store_faults store.new) result }
    {
        let mut steps = 0;
        for _ in 0..u64::MAX {
            let taken = self.take_steps(store, limit - steps)?;
            steps += taken.steps;
            if !(calls && taken.quiet) {
                return Ok(Settled {
                    steps,
                    quiet: taken.quiet,
                });
            }
            let awaited = open_calls(self.alloc, &self.world)?;
            if awaited.is_empty() {
                return Ok(Settled { steps, quiet: true });
            }
            self.ask_all(store, board, awaited)?;
        }
        Err(EngineFault::OutOfMemory)
    }
}
