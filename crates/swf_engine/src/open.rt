// How an engine is opened: the frames of its journal are read, and their labels replayed.
ghost use Rattle.std.specs.Prelude.{◌≡◌, ◌≤◌, ℕ, true, false, List, [], length, Ok, Err, IfOk, IfErr, OnOk, OnErr, is_some};
ghost use Rattle.std.specs.Option.{ForSome};
ghost use Rattle.swf_store.specs.declared.image.File.TheVariants.{Journal as JournalFile};
ghost use Rattle.swf_store.specs.Disk.{NothingNew};
ghost use Rattle.swf_store.specs.Stops.{LeavesOnly};
ghost use Rattle.swf_journal.specs.Opening.{IsUntouched};
ghost use Rattle.swf_journal.specs.Place.{IsReadingOf, HasRead};
ghost use Rattle.swf_meaning.specs.declared.label.Label.{Label};
ghost use Rattle.swf_engine.specs.Causes.{EngineCause};
ghost use Rattle.swf_engine.specs.Core.{IsEngineOf, most_bytes};
ghost use Rattle.swf_engine.specs.Damage.{IsDamaged};
ghost use Rattle.swf_engine.specs.EngineCalls.{OpenCalls, AllRead, ReadingBegun, FrameCalls};
ghost use Rattle.swf_engine.specs.History.{IsHistory};
ghost use Rattle.swf_engine.specs.Opening.{OpensHistory, IsOpened};
ghost use Rattle.swf_engine.specs.Reading.{HasReplayed, HasReadAll, Reads, ReadsAll};
ghost use Rattle.swf_meaning.specs.World.{World as OneWorld};

use crate::replay::replay;
use crate::{Engine, EngineFault};
use std::alloc::Global;
use swf_journal::{Reading, begin};
use swf_store::Store;
use swf_world::World;

/// More frames than an engine has labels.
const MOST_FRAMES: u64 = 1 << 41;

impl Engine {
    /// Opens the engine of a store: it reads all frames, each once, and replays their labels. A journal that is too short for a frame
    /// gets its header.
    pub fn open_on<S: Store>(alloc: Global, store: &mut S) -> Result<Engine, EngineFault>
        ensures place { IfOk result (λ engine. IsEngineOf (S.seen store.new) engine) }
        ensures opened { ForSome (S.seen store.old) (λ image. IfOk result (λ engine. IsOpened S.moment S.left_since S.said S.may_leave S.seen image store.new engine)) }
        // A journal that has room for a frame is only read, whether damage is found or not.
        ensures untouched { ForSome (S.seen store.old) (λ image. 25 ≤ length image.journal → IsUntouched S.moment S.left_since S.said S.may_leave S.seen store.old store.new) }
        // Until its first sync has succeeded a stop leaves what it might have left before, and from then on the same history.
        ensures any_moment { ForSome (S.seen store.old) (λ image. (history : List Label) → IsHistory image history → OpensHistory S.moment S.left_since S.said S.may_leave S.seen store.old store.new history) }
        ensures damaged { ForSome (S.seen store.old) (λ image. (at : ℕ) → result ≡ Err (EngineFault.Damaged at) → IsDamaged image at) }
        ensures full { (size : ℕ) → result ≡ Err (EngineFault.Full size) → ⊥ }
        ensures calls { OpenCalls (S.calls store.old) (S.calls store.new) result }
        ensures honest { is_some (S.seen store.new) ≡ is_some (S.seen store.old) }
        ensures said { S.said store.new ≡ S.said store.old }
        ensures beside { S.beside store.new ≡ S.beside store.old }
        ensures cause { EngineCause (S.store_faults store.old) (S.store_faults store.new) result }
    {
        match begin(store) {
            Ok(reading) => read_all(alloc, store, reading, World::new(alloc)),
            Err(fault) => Err(EngineFault::from(fault)),
        }
    }
}

// Reads the frames from a reading on, whose labels go on from a world.
fn read_all<S: Store>(
    alloc: Global,
    store: &mut S,
    reading: Reading,
    world: World,
) -> Result<Engine, EngineFault>
    requires place { IsReadingOf (S.seen store.old) reading }
    requires file { reading.file ≡ JournalFile }
    requires limit { reading.limit ≡ most_bytes }
    ensures place { IfOk result (λ engine. IsEngineOf (S.seen store.new) engine) }
    ensures reads { ForSome (S.seen store.old) (λ image. (front : List ℕ) → HasRead image.journal reading front [] → ReadsAll image.journal front world.world result) }
    ensures all_read { IfOk result (λ engine. AllRead [] reading.gate engine.gate (S.calls store.old) (S.calls store.new)) }
    ensures begun { OnErr result (ReadingBegun [] reading.gate (S.calls store.old) (S.calls store.new)) }
    ensures full { (size : ℕ) → result ≡ Err (EngineFault.Full size) → ⊥ }
    ensures seen { S.seen store.new ≡ S.seen store.old }
    ensures stop { NothingNew (S.may_leave store.old) (S.may_leave store.new) }
    ensures any_moment { LeavesOnly S.moment S.left_since S.said store.old store.new (S.may_leave store.old) }
    ensures said { S.said store.new ≡ S.said store.old }
    ensures beside { S.beside store.new ≡ S.beside store.old }
    ensures cause { EngineCause (S.store_faults store.old) (S.store_faults store.new) result }
{
    let mut reading = reading;
    let mut world = world;
    match read_frames(alloc, store, &mut reading, &mut world) {
        Ok(()) => Ok(Engine::of(alloc, world, reading.finish())),
        Err(fault) => Err(fault),
    }
}

// Reads the frames that are left and replays their labels.
fn read_frames<S: Store>(
    alloc: Global,
    store: &mut S,
    reading: &mut Reading,
    world: &mut World,
) -> Result<(), EngineFault>
    requires place { IsReadingOf (S.seen store.old) reading.old }
    requires file { reading.old.file ≡ JournalFile }
    ensures place { IsReadingOf (S.seen store.new) reading.new }
    ensures file { reading.new.file ≡ JournalFile }
    ensures limit { reading.new.limit ≡ reading.old.limit }
    ensures ended { IfOk result (λ _. reading.new.ended ≡ true) }
    ensures read { ForSome (S.seen store.old) (λ image. (front : List ℕ) (first : OneWorld) → HasReplayed image.journal front first reading.old world.old.world → IfOk result (λ _. HasReadAll image.journal front first reading.new world.new.world)) }
    ensures stays { ForSome (S.seen store.old) (λ image. (front : List ℕ) (first : OneWorld) → HasReplayed image.journal front first reading.old world.old.world → IfErr result (λ fault. Reads image.journal front first reading.new world.new.world (Err fault))) }
    ensures all_read { OnOk result (AllRead [] reading.old.gate reading.new.gate (S.calls store.old) (S.calls store.new)) }
    ensures begun { OnErr result (ReadingBegun [] reading.old.gate (S.calls store.old) (S.calls store.new)) }
    ensures full { (size : ℕ) → result ≡ Err (EngineFault.Full size) → ⊥ }
    ensures seen { S.seen store.new ≡ S.seen store.old }
    ensures stop { NothingNew (S.may_leave store.old) (S.may_leave store.new) }
    ensures any_moment { LeavesOnly S.moment S.left_since S.said store.old store.new (S.may_leave store.old) }
    ensures said { S.said store.new ≡ S.said store.old }
    ensures beside { S.beside store.new ≡ S.beside store.old }
    ensures cause { EngineCause (S.store_faults store.old) (S.store_faults store.new) result }
{
    for _ in 0..MOST_FRAMES {
        match read_one(alloc, store, reading, world) {
            Ok(true) => {}
            Ok(false) => return Ok(()),
            Err(fault) => return Err(fault),
        }
    }
    Err(EngineFault::OutOfMemory)
}

// Reads the next frame and replays its labels, or says that there is none.
fn read_one<S: Store>(
    alloc: Global,
    store: &mut S,
    reading: &mut Reading,
    world: &mut World,
) -> Result<bool, EngineFault>
    requires place { IsReadingOf (S.seen store.old) reading.old }
    requires file { reading.old.file ≡ JournalFile }
    ensures place { IsReadingOf (S.seen store.new) reading.new }
    ensures file { reading.new.file ≡ reading.old.file }
    ensures limit { reading.new.limit ≡ reading.old.limit }
    ensures ended { result ≡ Ok false → reading.new.ended ≡ true }
    ensures reads { ForSome (S.seen store.old) (λ image. (front : List ℕ) (first : OneWorld) → HasReplayed image.journal front first reading.old world.old.world → Reads image.journal front first reading.new world.new.world result) }
    ensures calls { FrameCalls reading.old.gate reading.new.gate (S.calls store.old) (S.calls store.new) result }
    ensures full { (size : ℕ) → result ≡ Err (EngineFault.Full size) → ⊥ }
    ensures seen { S.seen store.new ≡ S.seen store.old }
    ensures stop { NothingNew (S.may_leave store.old) (S.may_leave store.new) }
    ensures any_moment { LeavesOnly S.moment S.left_since S.said store.old store.new (S.may_leave store.old) }
    ensures said { S.said store.new ≡ S.said store.old }
    ensures beside { S.beside store.new ≡ S.beside store.old }
    ensures cause { EngineCause (S.store_faults store.old) (S.store_faults store.new) result }
{
    let gate = reading.gate();
    match reading.next_frame(alloc, store) {
        Ok(Some(body)) => match replay(alloc, world, gate, body.as_slice()) {
            Ok(()) => Ok(true),
            Err(fault) => Err(fault),
        },
        Ok(None) => Ok(false),
        Err(fault) => Err(EngineFault::from(fault)),
    }
}
