// How the labels of a frame are replayed in a world.
ghost use Rattle.std.specs.Prelude.{◌≡◌, ◌+◌, ◌<◌, ◌≤◌, ◌⊎◌, ◌∷◌, ◌++◌, [], ◌^◌, ℕ, List, Some, None, Ok, OnOk, Err, IfOk, IsErrOf, length, drop, take};
ghost use Rattle.std.specs.List.{AllByRecursion};
ghost use Rattle.swf_meaning.specs.declared.label.Label.{Label as OneLabel};
ghost use Rattle.swf_runs.specs.After.{after};
ghost use Rattle.swf_runs.specs.Runs.{run_from};
ghost use Rattle.swf_record.specs.Decodes.{decoded};
ghost use Rattle.swf_record.specs.Encodes.{Encodes, Nests, label_place};
ghost use Rattle.swf_engine.specs.Damage.{IsBadBody};
ghost use Rattle.swf_engine.specs.Reading.{IsTaken};

use crate::EngineFault;
use std::alloc::{AllocError, Global};
use swf_meaning::Label;
use swf_record::{RecordFault, decode_labels, encode_labels};
use swf_world::{PrepareFault, World};

/// Where a frame's body stands behind its gate.
const BODY: u64 = 9;

/// Where the first label of a body stands.
const FIRST_LABEL: u64 = 4;

// The place in a body of the label behind these.
fn place_of(alloc: Global, before: &[Label]) -> Result<u64, AllocError>
    requires few { length before.now < 2 ^ 32 }
    requires nest { AllByRecursion Nests before.now }
    ensures { IfOk result (λ place. place ≡ label_place before.now) }
{
    if before.is_empty() {
        return Ok(FIRST_LABEL);
    }
    let bytes = encode_labels(alloc, before)?;
    Ok(bytes.as_slice().len() as u64)
}

// Why the label behind these is none of the journal, whose frame is at this gate.
fn illegal(alloc: Global, gate: u64, before: &[Label]) -> EngineFault
    requires few { length before.now < 2 ^ 32 }
    requires nest { AllByRecursion Nests before.now }
    requires fits { gate + 9 + label_place before.now < 2 ^ 64 }
    ensures { (result ≡ EngineFault.OutOfMemory) ⊎ (result ≡ EngineFault.Damaged (gate + 9 + label_place before.now)) }
{
    match place_of(alloc, before) {
        Ok(place) => EngineFault::Damaged {
            at: gate + BODY + place,
        },
        Err(_) => EngineFault::OutOfMemory,
    }
}

// Takes one label.
fn take_label(world: &mut World, label: &Label) -> Result<bool, AllocError>
    ensures taken { IfOk result (λ taken. IsTaken taken world.old.world label.now world.new.world) }
{
    match world.prepare(label) {
        Ok(change) => {
            world.install(change);
            Ok(true)
        }
        Err(PrepareFault::Refused(_)) => Ok(false),
        Err(PrepareFault::OutOfMemory) => Err(AllocError),
    }
}

/// Replays the labels in the body of the frame at a gate, or says where the body is bad.
pub fn replay(alloc: Global, world: &mut World, gate: u64, body: &[u8]) -> Result<(), EngineFault>
    requires fits { gate + 10 + length body.now < 2 ^ 64 }
    ensures ok { OnOk result ((labels : List OneLabel) × Encodes labels body.now × (run_from world.old.world labels ≡ Some world.new.world)) }
    ensures damaged { (at : ℕ) → result ≡ Err (EngineFault.Damaged at) → IsBadBody world.old.world gate body.now at }
    ensures stored { IsErrOf result EngineFault.Store → ⊥ }
    ensures full { (size : ℕ) → result ≡ Err (EngineFault.Full size) → ⊥ }
{
    let decoded = match decode_labels(alloc, body) {
        Ok(labels) => labels,
        Err(RecordFault::Bad { at }) => {
            return Err(EngineFault::Damaged {
                at: gate + BODY + at,
            });
        }
        Err(RecordFault::OutOfMemory) => return Err(EngineFault::OutOfMemory),
    };
    let labels = decoded.as_slice();
    for (number, label) in labels.iter().enumerate() {
        if !take_label(world, label)? {
            return Err(illegal(alloc, gate, &labels[..number]));
        }
    }
    Ok(())
}
