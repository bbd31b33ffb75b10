// How frames are read one after another.
ghost use Rattle.std.specs.Prelude.{◌≡◌, ◌≤◌, ◌<◌, ◌+◌, ◌∷◌, Bool, ◌++◌, [], ℕ, true, false, List, Some, length, take, drop, is_none, ◌^◌, IfOk, OnErr, IfSome, IsErrOf, Err, MatchOption};
ghost use Rattle.std.specs.Int.{w64, from_be_bytes};
ghost use Rattle.std.specs.Option.{ForSome};
ghost use Rattle.swf_store.specs.Calls.{IsListed, Makes};
ghost use Rattle.swf_store.specs.Disk.{NothingNew};
ghost use Rattle.swf_store.specs.Faults.{HasCause};
ghost use Rattle.swf_store.specs.Files.{bytes_of};
ghost use Rattle.swf_store.specs.Stops.{LeavesOnly};
ghost use Rattle.swf_journal.specs.Causes.{OpenCause};
ghost use Rattle.swf_journal.specs.JournalCalls.{IsFrameRead};
ghost use Rattle.swf_journal.specs.Opening.{IsHead, IsNext, IsFrame, IsDamage};
ghost use Rattle.swf_journal.specs.Place.{HasRead, IsReady, IsReadingOf};
ghost use Rattle.swf_journal.specs.Stands.{IsShutAfter};

use crate::{Journal, OpenFault};
use std::alloc::Global;
use std::marker::Model;
use swf_store::{Call, Failed, File, Store};

const OPEN_GATE: u8 = 0xA5;

/// A journal that is being read: a place in a file, the file's size, and the most bytes that the file may have.
#[derive(Drop)]
pub struct Reading {
    file: File,
    gate: u64,
    size: u64,
    limit: u64,
    ended: bool,
}

impl Model for Reading {
    ghost use Rattle.std.specs.Prelude.{◌+◌, ◌<◌, ◌^◌};
    ghost use Rattle.swf_journal.specs.Place.{Place};

    ghost Value = { Place };

    ghost view = { λ reading. record { file = reading.file; gate = reading.gate; size = reading.size; limit = reading.limit; ended = reading.ended } };

    ghost invariant = { λ reading. (reading.gate + 1 < 2 ^ 64) × (reading.limit + 1 < 2 ^ 64) };
}

impl Reading {
    ghost use Rattle.std.specs.Prelude.{None};

    pub(crate) fn at(file: File, gate: u64, size: u64, limit: u64) -> Reading
        requires { (gate + 1 < 2 ^ 64) × (limit + 1 < 2 ^ 64) }
        ensures { result ≡ record { file = file; gate = gate; size = size; limit = limit; ended = false } }
    {
        Reading {
            file,
            gate,
            size,
            limit,
            ended: false,
        }
    }

    /// The place of the next gate.
    pub fn gate(&self) -> u64
        ensures { result ≡ self.now.gate }
    {
        self.gate
    }

    /// The body of the next frame, or none exactly where the next gate is not open. It reads no byte twice.
    pub fn next_frame<S: Store>(
        &mut self,
        alloc: Global,
        store: &mut S,
    ) -> Result<Option<Vec<u8>>, OpenFault>
        requires { IsReadingOf (S.seen store.old) self.old }
        ensures stands { IsReadingOf (S.seen store.new) self.new }

        ensures next { ForSome (S.seen store.old) (λ image. (front : List ℕ) (frames : List (List ℕ)) → HasRead (bytes_of image self.old.file) self.old front frames
            → IfOk result (λ next. MatchOption next (HasRead (bytes_of image self.old.file) self.new front frames × IsShutAfter front (bytes_of image self.old.file) frames) (λ body. HasRead (bytes_of image self.old.file) self.new front (frames ++ body.items ∷ [])))) }
        ensures damaged { ForSome (S.seen store.old) (λ image. (at : ℕ) → result ≡ Err (OpenFault.Damaged at) → (at ≡ self.old.gate + 1) × IsDamage (drop self.old.gate (bytes_of image self.old.file))) }
        ensures whole { ForSome (S.seen store.old) (λ image. (front : List ℕ) (read frames : List (List ℕ)) → HasRead (bytes_of image self.old.file) self.old front read → IsShutAfter front (bytes_of image self.old.file) frames → (at : ℕ) → result ≡ Err (OpenFault.Damaged at) → ⊥) }
        // Memory is taken only for a body that is there.
        ensures enough { ForSome (S.seen store.old) (λ image. IsErrOf result OpenFault.OutOfMemory → (body : List ℕ) × (after : List ℕ) × IsFrame (drop self.old.gate (bytes_of image self.old.file)) body after) }
        ensures place { IfOk result (λ next. self.new ≡ record self.old { gate = self.new.gate; ended = is_none next }) }
        ensures moves { IfOk result (λ next. MatchOption next (self.new.gate ≡ self.old.gate) (λ body. self.new.gate ≡ self.old.gate + 9 + length body.items)) }
        ensures bound { IfOk result (λ next. IfSome next (λ body. self.old.gate + 10 + length body.items < 2 ^ 64)) }
        ensures err { OnErr result (self.new ≡ self.old) }

        // It only reads.
        ensures seen { S.seen store.new ≡ S.seen store.old }
        ensures stop { NothingNew (S.may_leave store.old) (S.may_leave store.new) }
        ensures any_moment { LeavesOnly S.moment S.left_since S.said store.old store.new (S.may_leave store.old) }
        ensures said { S.said store.new ≡ S.said store.old }
        ensures beside { S.beside store.new ≡ S.beside store.old }
        ensures calls { IsFrameRead self.old.file self.old.gate (S.calls store.old) (S.calls store.new) result }
        ensures cause { OpenCause (S.store_faults store.old) (S.store_faults store.new) result }
    {
        match read_frame(alloc, store, self.file, self.gate, self.size)? {
            Some(body) => {
                self.gate = self.gate + 9 + body.len() as u64;
                self.ended = false;
                Ok(Some(body))
            }
            None => {
                self.ended = true;
                Ok(None)
            }
        }
    }

    /// The journal that is ready for frames, after the last answer was none.
    pub fn finish(self) -> Journal
        requires { self.ended ≡ true }
        ensures gate { result ≡ record { file = self.file; at = self.gate; limit = self.limit } }
        ensures ready { (bytes front : List ℕ) (frames : List (List ℕ)) → HasRead bytes self front frames → IsReady bytes result.at front frames }
    {
        let Reading {
            file,
            gate,
            limit,
            ..
        } = self;
        Journal::at(file, gate, limit)
    }
}

// What the nine bytes from a gate on begin.
enum Head {
    // The gate is not open.
    Shut,
    // The gate is open, and fewer than nine bytes are there.
    Cut,
    // The gate is open, before a body of this length.
    Open(u64),
}

fn length_of(bytes: &[u8]) -> u64
    requires { length bytes.now ≡ 8 }
    ensures { result ≡ from_be_bytes w64 bytes.now }
{
    u64::from_be_bytes([
        bytes[0], bytes[1], bytes[2], bytes[3], bytes[4], bytes[5], bytes[6], bytes[7],
    ])
}

fn head_of(bytes: &[u8]) -> Head
    requires { length bytes.now ≤ 9 }
    ensures { IsHead bytes.now result }
{
    match bytes {
        [OPEN_GATE, len @ ..] => {
            if len.len() < 8 {
                Head::Cut
            } else {
                Head::Open(length_of(len))
            }
        }
        _ => Head::Shut,
    }
}

fn read_head<S: Store>(store: &mut S, file: File, gate: u64) -> Result<Head, Failed>
    ensures head { ForSome (S.seen store.old) (λ image. IfOk result (IsHead (take 9 (drop gate (bytes_of image file))))) }
    ensures seen { S.seen store.new ≡ S.seen store.old }
    ensures stop { NothingNew (S.may_leave store.old) (S.may_leave store.new) }
    ensures any_moment { LeavesOnly S.moment S.left_since S.said store.old store.new (S.may_leave store.old) }
    ensures said { S.said store.new ≡ S.said store.old }
    ensures beside { S.beside store.new ≡ S.beside store.old }
    ensures listed { IsListed (Call.Read file gate 9) (S.calls store.old) (S.calls store.new) result }
    ensures cause { HasCause (S.store_faults store.old) (S.store_faults store.new) result }
{
    let mut bytes = [0; 9];
    let count = store.read_at(file, gate, &mut bytes)?;
    Ok(head_of(&bytes[..count]))
}

// What stands at a gate of a file of this size.
fn read_frame<S: Store>(
    alloc: Global,
    store: &mut S,
    file: File,
    gate: u64,
    size: u64,
) -> Result<Option<Vec<u8>>, OpenFault>
    requires size { ForSome (S.seen store.old) (λ image. size ≡ length (bytes_of image file)) }
    requires within { ForSome (S.seen store.old) (λ image. gate < length (bytes_of image file)) }
    requires fits { gate + 1 < 2 ^ 64 }
    ensures next { ForSome (S.seen store.old) (λ image. IfOk result (IsNext (drop gate (bytes_of image file)))) }
    ensures bound { IfOk result (λ next. IfSome next (λ body. gate + 9 + length body.items < size)) }
    ensures damaged { ForSome (S.seen store.old) (λ image. (at : ℕ) → result ≡ Err (OpenFault.Damaged at) → (at ≡ gate + 1) × IsDamage (drop gate (bytes_of image file))) }
    ensures enough { ForSome (S.seen store.old) (λ image. IsErrOf result OpenFault.OutOfMemory → (body : List ℕ) × (after : List ℕ) × IsFrame (drop gate (bytes_of image file)) body after) }
    ensures seen { S.seen store.new ≡ S.seen store.old }
    ensures stop { NothingNew (S.may_leave store.old) (S.may_leave store.new) }
    ensures any_moment { LeavesOnly S.moment S.left_since S.said store.old store.new (S.may_leave store.old) }
    ensures said { S.said store.new ≡ S.said store.old }
    ensures beside { S.beside store.new ≡ S.beside store.old }
    ensures calls { IsFrameRead file gate (S.calls store.old) (S.calls store.new) result }
    ensures cause { OpenCause (S.store_faults store.old) (S.store_faults store.new) result }
{
    match read_head(store, file, gate)? {
        Head::Shut => Ok(None),
        Head::Cut => Err(OpenFault::Damaged { at: gate + 1 }),
        Head::Open(len) => {
            // Memory is taken only where as many bytes are there.
            if size.saturating_sub(gate).saturating_sub(9) <= len {
                return Err(OpenFault::Damaged { at: gate + 1 });
            }
            Ok(Some(read_body(alloc, store, file, gate, len)?))
        }
    }
}

// The body of a frame that is there.
fn read_body<S: Store>(
    alloc: Global,
    store: &mut S,
    file: File,
    gate: u64,
    len: u64,
) -> Result<Vec<u8>, OpenFault>
    requires within { ForSome (S.seen store.old) (λ image. gate + 9 + len < length (bytes_of image file)) }
    requires fits { gate + 9 + len < 2 ^ 64 }
    ensures body { ForSome (S.seen store.old) (λ image. IfOk result (λ body. body.items ≡ take len (drop (gate + 9) (bytes_of image file)))) }
    ensures len { IfOk result (λ body. length body.items ≡ len) }
    ensures not_damaged { ForSome (S.seen store.old) (λ image. (at : ℕ) → result ≡ Err (OpenFault.Damaged at) → ⊥) }
    ensures seen { S.seen store.new ≡ S.seen store.old }
    ensures stop { NothingNew (S.may_leave store.old) (S.may_leave store.new) }
    ensures any_moment { LeavesOnly S.moment S.left_since S.said store.old store.new (S.may_leave store.old) }
    ensures said { S.said store.new ≡ S.said store.old }
    ensures beside { S.beside store.new ≡ S.beside store.old }
    ensures calls { Makes (Call.Read file (gate + 9) len ∷ []) (S.calls store.old) (S.calls store.new) result }
    ensures cause { OpenCause (S.store_faults store.old) (S.store_faults store.new) result }
{
    let mut body = vec![in alloc; 0; len as usize]?;
    let count = store.read_at(file, gate + 9, body.as_mut_slice())?;
    if count < body.len() {
        return Err(OpenFault::Damaged { at: gate + 1 });
    }
    Ok(body)
}
