// A host in memory over a store in memory. It follows a script, and tells everything.
ghost use Rattle.std.specs.Prelude.{◌≡◌, length, IfErr, OnOk};
ghost use Rattle.std.specs.Option.{ForSome};
ghost use Rattle.swf_store.specs.Faults.{HasCause};
ghost use Rattle.swf_store.specs.Memory.{state_of};
ghost use Rattle.swf_store.specs.Replay.{IsLeft};
ghost use Rattle.swf_store.specs.Said.{AfterSay, MayHaveSaid};
ghost use Rattle.swf_store.specs.Stops.{Elapses};
ghost use Rattle.swf_host.specs.Hosted.{pieces_of};
ghost use Rattle.swf_host.specs.Script.{first_play, job_given, AfterNext, AfterSaid};

use crate::script::{Said, Script, Turn};
use crate::{CopyIn, Host, Input};
use std::alloc::Global;
use std::marker::Model;
use swf_store::{Call, Failed, File, MemoryStore, Store};

/// A host that gives the inputs of a script, and `Closed` at its end.
pub struct MemoryHost<G, W> {
    alloc: Global,
    store: MemoryStore,
    script: Script<G, W>,
}

impl<G: Drop, W: Drop> Drop for MemoryHost<G, W> {
    fn drop(self) {
        let MemoryHost {
            alloc: _alloc,
            store: _store,
            script: _script,
        } = self;
    }
}

impl<G, W> Model for MemoryHost<G, W> {
    ghost use Rattle.swf_host.specs.Hosted.{Hosted};

    ghost Value = { Hosted G W };

    ghost use Rattle.swf_host.specs.HostedView.{hosted_view, IsHosted};

    ghost view = { hosted_view };

    ghost invariant = { IsHosted };
}

impl<G: Drop, W: CopyIn> MemoryHost<G, W> {
    /// A host of this store and script. The calls of `next` and of `say` that the two lists number from 0 fail; such a
    /// `next` uses up no turn, and such a `say` says the first half of its bytes. Besides they fail where no memory is found to
    /// keep what they tell.
    pub fn new(
        alloc: Global,
        store: MemoryStore,
        script: Vec<Turn<W>>,
        failing_next: Vec<u64>,
        failing_say: Vec<u64>,
    ) -> MemoryHost<G, W>
        ensures play { result.play ≡ first_play script.items failing_next.items failing_say.items }
        ensures store { result.store ≡ store }
    {
        MemoryHost {
            alloc,
            store,
            script: Script::new(alloc, script, failing_next, failing_say),
        }
    }

    /// The store.
    pub fn store(&self) -> &MemoryStore
        ensures { result.now ≡ self.now.store }
    {
        &self.store
    }

    /// The pieces that were said, in order.
    pub fn said(&self) -> &[Said]
        ensures { result.now ≡ self.now.play.said }
    {
        self.script.said.as_slice()
    }

    /// The jobs that were given and kept, in order.
    pub fn given(&self) -> &[G]
        ensures { result.now ≡ self.now.play.given }
    {
        self.script.given.as_slice()
    }

    /// The inputs that were taken, in order.
    pub fn taken(&self) -> &[Input<W>]
        ensures { result.now ≡ self.now.play.taken }
    {
        self.script.taken.as_slice()
    }

    /// How many calls failed because no memory was found to keep what is told.
    pub fn lacks(&self) -> u64
        ensures { result ≡ self.now.play.lacks }
    {
        self.script.lacks
    }
}

impl<G: Drop, W: CopyIn> Store for MemoryHost<G, W> {
    ghost use Rattle.std.specs.Prelude.{Some, ◌+◌, length};
    ghost use Rattle.swf_store.specs.Laws.{reads_may_be_left_lem};
    ghost use Rattle.swf_store.specs.Memory.{state_of, faults_of};
    ghost use Rattle.swf_store.specs.Replay.{reads, IsLeft};
    ghost use Rattle.swf_host.specs.Hosted.{StopsSince, pieces_of};
    ghost use Rattle.swf_host.specs.HostedLaws.{stops_count_now, stops_only_now};
    ghost use Rattle.swf_host.specs.Script.{Play};

    ghost seen = { λ host. Some (reads (state_of host.store)) };

    ghost said = { λ host. Some (pieces_of host.play.said) };

    ghost calls = { λ host. Some host.store.calls };

    ghost store_faults = { λ host. faults_of host.store };

    ghost moment = { λ host. length host.store.calls + length host.play.said };

    ghost may_leave = { λ host image. IsLeft (state_of host.store) image };

    ghost left_since = { λ host t image pieces. StopsSince host.store host.play.said t image pieces };

    ghost Beside = { Play G W };

    ghost beside = { λ host. host.play };

    ghost counts_now = { λ host t image pieces le may said. stops_count_now host.store host.play.said t image pieces le may said };

    ghost only_now = { λ host image pieces since. stops_only_now host.store host.play.said image pieces since };

    ghost reads_may_be_left = { λ host image is. reads_may_be_left_lem host.store image is };

    fn size(&mut self, file: File) -> Result<u64, Failed> {
        self.store.measure(file)
    }

    fn read_at(&mut self, file: File, at: u64, into: &mut [u8]) -> Result<usize, Failed> {
        self.store.read(file, at, into)
    }

    fn write_at(&mut self, file: File, at: u64, bytes: &[u8]) -> Result<(), Failed> {
        self.store.write(file, at, bytes)
    }

    fn sync(&mut self) -> Result<(), Failed> {
        self.store.list(Call::Sync)
    }
}

impl<G: Drop, W: CopyIn> Host<G, W> for MemoryHost<G, W> {
    ghost use Rattle.std.specs.Prelude.{Some};
    ghost use Rattle.std.proofs.Common.{ap};

    ghost taken = { λ host. Some host.play.taken };

    ghost given = { λ host. Some host.play.given };

    ghost host_faults = { λ host. host.play.faults };

    ghost beside_taken = { λ a b same. ap (λ play. Some play.taken) same };

    ghost beside_given = { λ a b same. ap (λ play. Some play.given) same };

    ghost beside_faults = { λ a b same. ap (λ play. play.faults) same };

    fn next(&mut self, only_work: bool) -> Result<Input<W>, Failed>
        ensures cause { HasCause self.old.play.faults self.new.play.faults result }
        ensures play { AfterNext only_work self.old.play result self.new.play }
        ensures store { self.new.store ≡ self.old.store }
    {
        self.script.next(self.alloc, only_work)
    }

    fn say(&mut self, conn: u64, bytes: &[u8]) -> Result<(), Failed>
        ensures cause { HasCause self.old.play.faults self.new.play.faults result }
        ensures time { Elapses (⟦<MemoryHost<G, W> as Store>⟧.moment self.old) (⟦<MemoryHost<G, W> as Store>⟧.moment self.new) (⟦<MemoryHost<G, W> as Store>⟧.left_since self.old) (⟦<MemoryHost<G, W> as Store>⟧.left_since self.new) (IsLeft (state_of self.new.store)) (MayHaveSaid conn bytes.now (Some self.old.play.taken) (Some (pieces_of self.old.play.said))) }
        ensures said { ForSome (Some self.old.play.taken) (λ inputs. ForSome (Some (pieces_of self.old.play.said)) (λ before. AfterSay conn bytes.now (length inputs) result before (Some (pieces_of self.new.play.said)))) }
        ensures play { AfterSaid conn bytes.now (length self.old.store.calls) self.old.play result self.new.play }
        ensures store { self.new.store ≡ self.old.store }
    {
        let calls = self.store.calls().len() as u64;
        self.script.say(self.alloc, conn, bytes, calls)
    }

    fn give(&mut self, job: G) -> Result<(), G>
        ensures given { OnOk result (self.new.play ≡ job_given job self.old.play) }
        ensures back { IfErr result (λ back. (back ≡ job) × (self.new.play ≡ self.old.play)) }
        ensures store { self.new.store ≡ self.old.store }
    {
        self.script.give(job)
    }
}
