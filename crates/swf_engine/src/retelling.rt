// How a history is told again: the frames of the journal are read once more, and their labels printed from a place on.
ghost use Rattle.std.specs.Prelude.{◌≡◌, ◌+◌, ◌<◌, ◌^◌, ◌∷◌, ◌++◌, [], ℕ, false, List, Ok, Err, OnOk, OnErr, IfOk, IsErrOf, length};
ghost use Rattle.std.specs.Option.{ForSome};
ghost use Rattle.swf_store.specs.declared.image.File.TheVariants.{Journal as JournalFile};
ghost use Rattle.swf_store.specs.Disk.{NothingNew};
ghost use Rattle.swf_store.specs.Stops.{LeavesOnly};
ghost use Rattle.swf_journal.specs.Place.{IsReadingOf, HasRead};
ghost use Rattle.swf_journal.specs.Frames.{header};
ghost use Rattle.swf_journal.specs.JournalCalls.{header_calls};
ghost use Rattle.swf_meaning.specs.declared.label.Label.{Label as OneLabel};
ghost use Rattle.swf_record.specs.Encodes.{Encodes};
ghost use Rattle.swf_engine.specs.Causes.{EngineCause};
ghost use Rattle.swf_engine.specs.Damage.{IsMisspelled};
ghost use Rattle.swf_engine.specs.EngineCalls.{SomeRead, ReadingBegun, FrameCalls};
ghost use Rattle.swf_engine.specs.Retelling.{IsTold, HasTold, TellsFrame, ListsValues, Retells};
ghost use Rattle.swf_meaning.specs.Printed.{labels_value};

use crate::EngineFault;
use std::alloc::{AllocError, Global};
use swf_journal::{Reading, begin_again};
use swf_meaning::Label;
use swf_printing::print_label;
use swf_record::{RecordFault, decode_labels};
use swf_store::Store;
use swf_value::{Json, member};

/// How many labels are told at most.
const MOST_TOLD: usize = 100;

/// More frames than a journal has.
const MOST_FRAMES: u64 = 1 << 41;

/// Where a frame's body stands behind its gate.
const BODY: u64 = 9;

/// What is told so far.
#[derive(Drop)]
struct Told {
    /// How many labels more are passed over.
    pass: u64,
    /// Labels as they print.
    values: Vec<Json>,
}

// Tells one label more, or passes over it.
fn tell_label(alloc: Global, told: &mut Told, label: &Label) -> Result<(), AllocError>
    ensures { OnOk result ((place : ℕ) (labels : List OneLabel) → IsTold place labels told.old.pass told.old.values.items → IsTold place (labels ++ label.now ∷ []) told.new.pass told.new.values.items) }
{
    if told.pass > 0 {
        told.pass -= 1;
        return Ok(());
    }
    if told.values.len() < MOST_TOLD {
        told.values.push(print_label(alloc, label)?)?;
    }
    Ok(())
}

// Tells the labels in the body of the frame at a gate, or says where it spells none.
fn tell_body(alloc: Global, told: &mut Told, gate: u64, body: &[u8]) -> Result<(), EngineFault>
    requires fits { gate + 10 + length body.now < 2 ^ 64 }
    ensures ok { OnOk result ((labels : List OneLabel) × Encodes labels body.now
        × ((place : ℕ) (before : List OneLabel) → IsTold place before told.old.pass told.old.values.items → IsTold place (before ++ labels) told.new.pass told.new.values.items)) }
    ensures damaged { (at : ℕ) → result ≡ Err (EngineFault.Damaged at) → IsMisspelled gate body.now at }
    ensures stored { IsErrOf result EngineFault.Store → ⊥ }
    ensures full { (size : ℕ) → result ≡ Err (EngineFault.Full size) → ⊥ }
{
    let decoded = match decode_labels(alloc, body) {
        Ok(labels) => labels,
        Err(RecordFault::Bad { at }) => {
            return Err(EngineFault::Damaged {
                at: gate + BODY + at,
            });
        }
        Err(RecordFault::OutOfMemory) => return Err(EngineFault::OutOfMemory),
    };
    for label in decoded.as_slice() {
        tell_label(alloc, told, label)?;
    }
    Ok(())
}

// Tells the labels of the next frame, or says that there is none.
fn tell_frame<S: Store>(
    alloc: Global,
    store: &mut S,
    reading: &mut Reading,
    told: &mut Told,
) -> Result<bool, EngineFault>
    requires place { IsReadingOf (S.seen store.old) reading.old }
    requires file { reading.old.file ≡ JournalFile }
    ensures place { IsReadingOf (S.seen store.new) reading.new }
    ensures file { reading.new.file ≡ reading.old.file }
    ensures tells { ForSome (S.seen store.old) (λ image. (front : List ℕ) (place : ℕ) → HasTold image.journal front reading.old place told.old.pass told.old.values.items → length told.old.values.items < 100
        → TellsFrame image.journal front reading.new place told.new.pass told.new.values.items result) }
    ensures calls { FrameCalls reading.old.gate reading.new.gate (S.calls store.old) (S.calls store.new) result }
    ensures full { (size : ℕ) → result ≡ Err (EngineFault.Full size) → ⊥ }
    ensures seen { S.seen store.new ≡ S.seen store.old }
    ensures stop { NothingNew (S.may_leave store.old) (S.may_leave store.new) }
    ensures any_moment { LeavesOnly S.moment S.left_since S.said store.old store.new (S.may_leave store.old) }
    ensures said { S.said store.new ≡ S.said store.old }
    ensures beside { S.beside store.new ≡ S.beside store.old }
    ensures cause { EngineCause (S.store_faults store.old) (S.store_faults store.new) result }
{
    let gate = reading.gate();
    match reading.next_frame(alloc, store) {
        Ok(Some(body)) => match tell_body(alloc, told, gate, body.as_slice()) {
            Ok(()) => Ok(true),
            Err(fault) => Err(fault),
        },
        Ok(None) => Ok(false),
        Err(fault) => Err(EngineFault::from(fault)),
    }
}

// What is told of the labels.
fn history_json(alloc: Global, values: Vec<Json>) -> Result<Json, AllocError>
    ensures { IfOk result (λ v. v ≡ labels_value values.items) }
{
    let labels = Json::list(alloc, values)?;
    let mut members = Vec::new(alloc);
    members.push(member(alloc, "labels", labels)?)?;
    Json::object(alloc, members)
}

// The answer once all is told.
fn told_history(alloc: Global, values: Vec<Json>) -> Result<Json, EngineFault>
    ensures { ListsValues values.items result }
{
    match history_json(alloc, values) {
        Ok(history) => Ok(history),
        Err(_) => Err(EngineFault::OutOfMemory),
    }
}

// Tells frames from a reading on, until as many labels are told as are told at most, or there is no frame more.
fn tell_frames<S: Store>(
    alloc: Global,
    store: &mut S,
    reading: Reading,
    from: u64,
) -> Result<Json, EngineFault>
    requires place { IsReadingOf (S.seen store.old) reading }
    requires file { reading.file ≡ JournalFile }
    ensures retells { ForSome (S.seen store.old) (λ image. (front : List ℕ) → HasRead image.journal reading front [] → Retells image.journal front from result) }
    ensures some_read { OnOk result (SomeRead [] reading.gate (S.calls store.old) (S.calls store.new)) }
    ensures begun { OnErr result (ReadingBegun [] reading.gate (S.calls store.old) (S.calls store.new)) }
    ensures full { (size : ℕ) → result ≡ Err (EngineFault.Full size) → ⊥ }
    ensures seen { S.seen store.new ≡ S.seen store.old }
    ensures stop { NothingNew (S.may_leave store.old) (S.may_leave store.new) }
    ensures any_moment { LeavesOnly S.moment S.left_since S.said store.old store.new (S.may_leave store.old) }
    ensures said { S.said store.new ≡ S.said store.old }
    ensures beside { S.beside store.new ≡ S.beside store.old }
    ensures cause { EngineCause (S.store_faults store.old) (S.store_faults store.new) result }
{
    let mut reading = reading;
    let mut told = Told {
        pass: from,
        values: Vec::new(alloc),
    };
    for _ in 0..MOST_FRAMES {
        if told.values.len() >= MOST_TOLD {
            return told_history(alloc, told.values);
        }
        match tell_frame(alloc, store, &mut reading, &mut told) {
            Ok(true) => {}
            Ok(false) => return told_history(alloc, told.values),
            Err(fault) => return Err(fault),
        }
    }
    Err(EngineFault::OutOfMemory)
}

/// Tells the labels of a journal from a place on, at most a hundred, as its frames hold them. It only reads.
pub fn retell<S: Store>(alloc: Global, store: &mut S, from: u64) -> Result<Json, EngineFault>
    ensures retells { ForSome (S.seen store.old) (λ image. Retells image.journal header from result) }
    ensures some_read { OnOk result (SomeRead (header_calls false) 16 (S.calls store.old) (S.calls store.new)) }
    ensures begun { OnErr result (ReadingBegun (header_calls false) 16 (S.calls store.old) (S.calls store.new)) }
    ensures full { (size : ℕ) → result ≡ Err (EngineFault.Full size) → ⊥ }
    ensures seen { S.seen store.new ≡ S.seen store.old }
    ensures stop { NothingNew (S.may_leave store.old) (S.may_leave store.new) }
    ensures any_moment { LeavesOnly S.moment S.left_since S.said store.old store.new (S.may_leave store.old) }
    ensures said { S.said store.new ≡ S.said store.old }
    ensures beside { S.beside store.new ≡ S.beside store.old }
    ensures cause { EngineCause (S.store_faults store.old) (S.store_faults store.new) result }
{
    match begin_again(store) {
        Ok(reading) => tell_frames(alloc, store, reading, from),
        Err(fault) => Err(EngineFault::from(fault)),
    }
}
