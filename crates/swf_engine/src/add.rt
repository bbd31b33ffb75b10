// How a label is added: its change is prepared, its frame appended, and then the change is made.
ghost use Rattle.std.specs.Prelude.{◌≡◌, ◌<◌, ◌∷◌, [], Some, None, OnOk, IfOk, length, is_some};
ghost use Rattle.swf_store.specs.declared.image.File.TheVariants.{Journal as JournalFile};
ghost use Rattle.swf_journal.specs.Place.{IsJournalOf};
ghost use Rattle.swf_record.specs.Encodes.{Nests, Encodes};
ghost use Rattle.swf_runs.specs.After.{after, taken_by};
ghost use Rattle.swf_world.specs.Changes.{Suits, changed};
ghost use Rattle.swf_world.specs.Refusals.{refusal};
ghost use Rattle.swf_engine.specs.Answers.{Submits, IsSmall, unprepared};
ghost use Rattle.swf_engine.specs.Causes.{EngineCause, WhereUsable};
ghost use Rattle.swf_engine.specs.Core.{most_bytes};
ghost use Rattle.swf_engine.specs.EngineCalls.{SubmitCalls};

use crate::{EngineFault, Submitted};
use std::alloc::{AllocError, Global};
use swf_journal::{FrameBytes, Journal, build};
use swf_meaning::Label;
use swf_record::encode_labels;
use swf_store::Store;
use swf_world::{Change, PrepareFault, World};

// The frame of one label.
fn frame_of(alloc: Global, label: &Label) -> Result<FrameBytes, AllocError>
    requires { Nests label.now }
    ensures { IfOk result (λ frame. Encodes (label.now ∷ []) frame) }
{
    let body = encode_labels(alloc, std::slice::from_ref(label))?;
    match build(alloc, &body) {
        Ok(frame) => Ok(frame),
        Err(_) => Err(AllocError),
    }
}

// What a label is answered whose change was not prepared.
fn not_prepared(fault: PrepareFault) -> Result<Submitted, EngineFault>
    ensures { result ≡ unprepared fault }
{
    match fault {
        PrepareFault::Refused(refusal) => Ok(Submitted::Refused(refusal)),
        PrepareFault::OutOfMemory => Err(EngineFault::OutOfMemory),
    }
}

// A change that is not made is let go, beside a fault.
fn let_go(_change: Change, fault: EngineFault) -> EngineFault
    ensures { result ≡ fault }
{
    fault
}

// Adds a label that the caller keeps, whose change was prepared.
fn append_change<S: Store>(
    alloc: Global,
    world: &mut World,
    journal: &mut Journal,
    store: &mut S,
    label: &Label,
    change: Change,
) -> Result<Submitted, EngineFault>
    requires place { IsJournalOf (S.seen store.old) journal.old }
    requires file { journal.old.file ≡ JournalFile }
    requires limit { journal.old.limit ≡ most_bytes }
    requires nests { Nests label.now }
    requires suits { Suits world.old.world change }
    requires room { 0 < world.old.room }
    requires leads { after world.old.world label.now ≡ Some (changed world.old.world change) }
    requires free { refusal world.old.world label.now ≡ None }
    requires taken { change.taken ≡ taken_by world.old.world label.now }
    ensures place { WhereUsable result (IsJournalOf (S.seen store.new) journal.new) }
    ensures file { journal.new.file ≡ JournalFile }
    ensures limit { journal.new.limit ≡ most_bytes }
    ensures submits { Submits S.moment S.left_since S.said S.may_leave S.seen store.old store.new
        (record { world = world.old.world; gate = journal.old.at }) (record { world = world.new.world; gate = journal.new.at }) label.now result }
    ensures small { IfOk result IsSmall }
    ensures calls { SubmitCalls (S.calls store.old) (S.calls store.new) journal.old.at journal.new.at label.now result }
    ensures said { S.said store.new ≡ S.said store.old }
    ensures beside { S.beside store.new ≡ S.beside store.old }
    ensures honest { is_some (S.seen store.new) ≡ is_some (S.seen store.old) }
    ensures cause { EngineCause (S.store_faults store.old) (S.store_faults store.new) result }
{
    let frame = match frame_of(alloc, label) {
        Ok(frame) => frame,
        Err(_) => return Err(let_go(change, EngineFault::OutOfMemory)),
    };
    match journal.append(store, &frame) {
        Ok(()) => Ok(Submitted::Accepted(world.install(change))),
        Err(fault) => Err(let_go(change, EngineFault::from(fault))),
    }
}

// Adds a label that the caller keeps.
fn append_label<S: Store>(
    alloc: Global,
    world: &mut World,
    journal: &mut Journal,
    store: &mut S,
    label: &Label,
) -> Result<Submitted, EngineFault>
    requires place { IsJournalOf (S.seen store.old) journal.old }
    requires file { journal.old.file ≡ JournalFile }
    requires limit { journal.old.limit ≡ most_bytes }
    requires nests { Nests label.now }
    ensures place { WhereUsable result (IsJournalOf (S.seen store.new) journal.new) }
    ensures file { journal.new.file ≡ JournalFile }
    ensures limit { journal.new.limit ≡ most_bytes }
    ensures submits { Submits S.moment S.left_since S.said S.may_leave S.seen store.old store.new
        (record { world = world.old.world; gate = journal.old.at }) (record { world = world.new.world; gate = journal.new.at }) label.now result }
    ensures small { IfOk result IsSmall }
    ensures calls { SubmitCalls (S.calls store.old) (S.calls store.new) journal.old.at journal.new.at label.now result }
    ensures said { S.said store.new ≡ S.said store.old }
    ensures beside { S.beside store.new ≡ S.beside store.old }
    ensures honest { is_some (S.seen store.new) ≡ is_some (S.seen store.old) }
    ensures cause { EngineCause (S.store_faults store.old) (S.store_faults store.new) result }
{
    let change = match world.prepare(label) {
        Ok(change) => change,
        Err(fault) => return not_prepared(fault),
    };
    append_change(alloc, world, journal, store, label, change)
}

/// Adds a label in a frame of its own, or says why it is not taken. Memory is found before the frame is written.
pub fn add_label<S: Store>(
    alloc: Global,
    world: &mut World,
    journal: &mut Journal,
    store: &mut S,
    label: Label,
) -> Result<Submitted, EngineFault>
    requires place { IsJournalOf (S.seen store.old) journal.old }
    requires file { journal.old.file ≡ JournalFile }
    requires limit { journal.old.limit ≡ most_bytes }
    requires nests { Nests label }
    ensures place { WhereUsable result (IsJournalOf (S.seen store.new) journal.new) }
    ensures file { journal.new.file ≡ JournalFile }
    ensures limit { journal.new.limit ≡ most_bytes }
    ensures submits { Submits S.moment S.left_since S.said S.may_leave S.seen store.old store.new
        (record { world = world.old.world; gate = journal.old.at }) (record { world = world.new.world; gate = journal.new.at }) label result }
    ensures small { IfOk result IsSmall }
    ensures calls { SubmitCalls (S.calls store.old) (S.calls store.new) journal.old.at journal.new.at label result }
    ensures said { S.said store.new ≡ S.said store.old }
    ensures beside { S.beside store.new ≡ S.beside store.old }
    ensures honest { is_some (S.seen store.new) ≡ is_some (S.seen store.old) }
    ensures cause { EngineCause (S.store_faults store.old) (S.store_faults store.new) result }
{
    append_label(alloc, world, journal, store, &label)
}

/// Adds a label in a frame of its own whose change was prepared, for which the world has room.
pub fn add_prepared<S: Store>(
    alloc: Global,
    world: &mut World,
    journal: &mut Journal,
    store: &mut S,
    label: Label,
    change: Change,
) -> Result<Submitted, EngineFault>
    requires place { IsJournalOf (S.seen store.old) journal.old }
    requires file { journal.old.file ≡ JournalFile }
    requires limit { journal.old.limit ≡ most_bytes }
    requires nests { Nests label }
    requires suits { Suits world.old.world change }
    requires room { 0 < world.old.room }
    requires leads { after world.old.world label ≡ Some (changed world.old.world change) }
    requires free { refusal world.old.world label ≡ None }
    requires taken { change.taken ≡ taken_by world.old.world label }
    ensures place { WhereUsable result (IsJournalOf (S.seen store.new) journal.new) }
    ensures file { journal.new.file ≡ JournalFile }
    ensures limit { journal.new.limit ≡ most_bytes }
    ensures submits { Submits S.moment S.left_since S.said S.may_leave S.seen store.old store.new
        (record { world = world.old.world; gate = journal.old.at }) (record { world = world.new.world; gate = journal.new.at }) label result }
    ensures small { IfOk result IsSmall }
    ensures calls { SubmitCalls (S.calls store.old) (S.calls store.new) journal.old.at journal.new.at label result }
    ensures said { S.said store.new ≡ S.said store.old }
    ensures beside { S.beside store.new ≡ S.beside store.old }
    ensures honest { is_some (S.seen store.new) ≡ is_some (S.seen store.old) }
    ensures cause { EngineCause (S.store_faults store.old) (S.store_faults store.new) result }
{
    append_change(alloc, world, journal, store, &label, change)
}
