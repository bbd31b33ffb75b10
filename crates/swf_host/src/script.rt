// A script that a host follows, and all that was taken and said.
ghost use Rattle.std.specs.Prelude.{◌≡◌, ◌⊎◌, IfErr, IfOk, OnOk, OnErr, option_map};
ghost use Rattle.swf_host.specs.Script.{at_hand, coming, failed, half, lacked, play, first_play, input_taken, job_given, piece_said, AfterNext, AfterSaid};
ghost use Rattle.swf_store.specs.Faults.{HasCause, RoseOnce};

use crate::{CopyIn, Input};
use std::alloc::{AllocError, Global};
use swf_store::Failed;
use swf_text::Bytes;

/// One turn of a script.
#[derive(Drop)]
pub enum Turn<W> {
    /// The next input.
    In(Input<W>),
}

/// A piece that was said to a connection, and how many inputs had been taken and calls of the store made before it.
#[derive(Drop)]
pub struct Said {
    pub conn: u64,
    pub bytes: Bytes,
    pub inputs: u64,
    pub calls: u64,
}

// The turns, how far they were followed, and what came of them.
#[derive(Drop)]
pub(crate) struct Script<G, W> {
    turns: Vec<Turn<W>>,
    at: usize,
    failing_next: Vec<u64>,
    failing_say: Vec<u64>,
    nexts: u64,
    says: u64,
    pub(crate) taken: Vec<Input<W>>,
    pub(crate) said: Vec<Said>,
    pub(crate) given: Vec<G>,
    faults: u64,
    pub(crate) lacks: u64,
}

impl<G: Drop, W: CopyIn> Script<G, W> {
    pub(crate) fn new(
        alloc: Global,
        turns: Vec<Turn<W>>,
        failing_next: Vec<u64>,
        failing_say: Vec<u64>,
    ) -> Script<G, W>
        ensures { play result ≡ first_play turns.items failing_next.items failing_say.items }
    {
        Script {
            turns,
            at: 0,
            failing_next,
            failing_say,
            nexts: 0,
            says: 0,
            taken: Vec::new(alloc),
            said: Vec::new(alloc),
            given: Vec::new(alloc),
            faults: 0,
            lacks: 0,
        }
    }

    // The input of the next turn, where the call waits for such a one.
    fn at_hand(&self, only_work: bool) -> Option<&Input<W>>
        ensures { option_map (λ i. i.now) result ≡ at_hand only_work (play self.now) }
    {
        match self.turns.get(self.at) {
            Some(Turn::In(input)) if input.is_awaited(only_work) => Some(input),
            _ => None,
        }
    }

    // Copies the next input.
    fn coming(&self, alloc: Global, only_work: bool) -> Result<Input<W>, AllocError>
        ensures { IfOk result (λ i. i ≡ coming only_work (play self.now)) }
    {
        match self.at_hand(only_work) {
            Some(input) => input.copy(alloc),
            None if only_work => Ok(Input::Idle),
            None => Ok(Input::Closed),
        }
    }

    // Takes the next input, and keeps a copy of it.
    fn take(&mut self, alloc: Global, only_work: bool) -> Result<Input<W>, AllocError>
        ensures ok { IfOk result (λ i. (i ≡ coming only_work (play self.old)) × (play self.new ≡ input_taken only_work i (play self.old))) }
        ensures err { OnErr result (play self.new ≡ play self.old) }
    {
        let input = self.coming(alloc, only_work)?;
        let kept = self.coming(alloc, only_work)?;
        let used = self.at_hand(only_work).is_some();
        self.taken.push(kept)?;
        if used {
            self.at = self.at.saturating_add(1);
        }
        Ok(input)
    }

    // Keeps what is said after so many calls of the store.
    fn keep(&mut self, alloc: Global, conn: u64, bytes: &[u8], calls: u64) -> Result<(), AllocError>
        ensures ok { OnOk result (play self.new ≡ piece_said conn bytes.now calls (play self.old)) }
        ensures err { OnErr result (play self.new ≡ play self.old) }
    {
        let bytes = Bytes::copy_of(alloc, bytes)?;
        let inputs = self.taken.len() as u64;
        self.said.push(Said {
            conn,
            bytes,
            inputs,
            calls,
        })?;
        Ok(())
    }

    // A call that finds no memory fails.
    fn lack(&mut self) -> Failed
        ensures play { play self.new ≡ lacked (play self.old) }
        ensures rose { RoseOnce self.old.faults self.new.faults }
    {
        self.lacks = self.lacks.saturating_add(1);
        self.faults = self.faults.saturating_add(1);
        Failed
    }

    // A call that fails says the first half of its bytes.
    fn cut(&mut self, alloc: Global, conn: u64, bytes: &[u8], calls: u64) -> Failed
        ensures play { (play self.new ≡ failed (piece_said conn (half bytes.now) calls (play self.old))) ⊎ (play self.new ≡ lacked (play self.old)) }
        ensures rose { RoseOnce self.old.faults self.new.faults }
    {
        match self.keep(alloc, conn, &bytes[..bytes.len() / 2], calls) {
            Ok(()) => {
                self.faults = self.faults.saturating_add(1);
                Failed
            }
            Err(_) => self.lack(),
        }
    }

    pub(crate) fn next(&mut self, alloc: Global, only_work: bool) -> Result<Input<W>, Failed>
        ensures play { AfterNext only_work (play self.old) result (play self.new) }
        ensures cause { HasCause self.old.faults self.new.faults result }
    {
        let call = self.nexts;
        self.nexts = call.saturating_add(1);
        if self.failing_next.contains(&call) {
            self.faults = self.faults.saturating_add(1);
            return Err(Failed);
        }
        match self.take(alloc, only_work) {
            Ok(input) => Ok(input),
            Err(_) => Err(self.lack()),
        }
    }

    // Keeps a job, or hands it back where no memory is found.
    pub(crate) fn give(&mut self, job: G) -> Result<(), G>
        ensures ok { OnOk result (play self.new ≡ job_given job (play self.old)) }
        ensures err { IfErr result (λ back. (back ≡ job) × (play self.new ≡ play self.old)) }
    {
        match self.given.push(job) {
            Ok(()) => Ok(()),
            Err(refused) => Err(refused.value),
        }
    }

    pub(crate) fn say(
        &mut self,
        alloc: Global,
        conn: u64,
        bytes: &[u8],
        calls: u64,
    ) -> Result<(), Failed>
        ensures play { AfterSaid conn bytes.now calls (play self.old) result (play self.new) }
        ensures cause { HasCause self.old.faults self.new.faults result }
    {
        let call = self.says;
        self.says = call.saturating_add(1);
        if self.failing_say.contains(&call) {
            return Err(self.cut(alloc, conn, bytes, calls));
        }
        match self.keep(alloc, conn, bytes, calls) {
            Ok(()) => Ok(()),
            Err(_) => Err(self.lack()),
        }
    }
}
