// A journal that is ready, and how a frame is appended to it.
ghost use Rattle.std.specs.Prelude.{◌≡◌, ◌+◌, ◌<◌, ◌≤◌, ◌^◌, ◌↔◌, ◌∷◌, ◌++◌, [], ℕ, List, length, is_some, Some, IfSome, OnOk, OnErr, Err};
ghost use Rattle.std.specs.Option.{ForSome};
ghost use Rattle.swf_store.specs.Calls.{Makes};
ghost use Rattle.swf_store.specs.Faults.{HasCause};
ghost use Rattle.swf_store.specs.Files.{bytes_of};
ghost use Rattle.swf_store.specs.Stops.{LeavesOnly};
ghost use Rattle.swf_journal.specs.Appending.{appended, BeforeOrAfter};
ghost use Rattle.swf_journal.specs.Causes.{AppendCause};
ghost use Rattle.swf_journal.specs.JournalCalls.{append_calls};
ghost use Rattle.swf_journal.specs.Place.{IsSettled, IsJournalOf};

use crate::write::write_and_sync;
use crate::{AppendFault, FrameBytes};
use std::marker::Model;
use swf_store::{Failed, File, Store};

const OPEN_GATE: [u8; 1] = [0xA5];

/// A journal that is ready for frames: the place of the next gate in a file, and the most bytes that the file may have.
#[derive(Drop)]
pub struct Journal {
    file: File,
    gate: u64,
    limit: u64,
}

impl Model for Journal {
    ghost use Rattle.std.specs.Prelude.{◌+◌, ◌<◌, ◌^◌};
    ghost use Rattle.swf_journal.specs.Place.{Gate};

    ghost Value = { Gate };

    ghost view = { λ journal. record { file = journal.file; at = journal.gate; limit = journal.limit } };

    ghost invariant = { λ journal. (journal.gate + 1 < 2 ^ 64) × (journal.limit + 1 < 2 ^ 64) };
}

impl Journal {
    pub(crate) fn at(file: File, gate: u64, limit: u64) -> Journal
        requires { (gate + 1 < 2 ^ 64) × (limit + 1 < 2 ^ 64) }
        ensures { result ≡ record { file = file; at = gate; limit = limit } }
    {
        Journal { file, gate, limit }
    }

    /// The size of the journal: the place of its next gate, plus one.
    pub fn size(&self) -> u64
        ensures { result ≡ self.now.at + 1 }
    {
        self.gate + 1
    }

    /// Appends a frame. At `Ok` it is acknowledged: from then on each stop leaves a journal that has it.
    /// `AppendFault::Full` comes before any write. After `AppendFault::Store` the journal is opened again.
    pub fn append<S: Store>(&mut self, store: &mut S, frame: &FrameBytes) -> Result<(), AppendFault>
        requires { IsJournalOf (S.seen store.old) self.old }
        ensures stands { OnOk result (IsJournalOf (S.seen store.new) self.new) }

        ensures written { ForSome (S.seen store.old) (λ image. OnOk result (S.seen store.new ≡ Some (appended self.old.file self.old.at frame.now image))) }
        ensures acknowledged { ForSome (S.seen store.old) (λ image. (front : List ℕ) (frames : List (List ℕ)) → IsSettled image (S.may_leave store.old) self.old.file self.old.at front frames
            → OnOk result (IsSettled (appended self.old.file self.old.at frame.now image) (S.may_leave store.new) self.old.file self.new.at front (frames ++ frame.now ∷ []))) }
        ensures honest { is_some (S.seen store.new) ≡ is_some (S.seen store.old) }

        // A stop at any moment of the call leaves the frames from before it, with the new one or without.
        ensures any_moment { ForSome (S.seen store.old) (λ image. (front : List ℕ) (frames : List (List ℕ)) → IsSettled image (S.may_leave store.old) self.old.file self.old.at front frames
            → LeavesOnly S.moment S.left_since S.said store.old store.new (BeforeOrAfter self.old.file front image frames frame.now)) }

        ensures next { OnOk result (self.new ≡ record self.old { at = self.old.at + 9 + length frame.now }) }
        ensures err { OnErr result (self.new ≡ self.old) }
        ensures full { (size : ℕ) → (result ≡ Err (AppendFault.Full size)) ↔ ((self.old.limit < self.old.at + 10 + length frame.now) × (size ≡ self.old.at + 1)) }
        ensures untouched { self.old.limit < self.old.at + 10 + length frame.now → store.new ≡ store.old }

        ensures said { S.said store.new ≡ S.said store.old }
        ensures beside { S.beside store.new ≡ S.beside store.old }
        ensures calls { Makes (append_calls self.old.file self.old.at frame.now) (S.calls store.old) (S.calls store.new) result }
        ensures cause { AppendCause (S.store_faults store.old) (S.store_faults store.new) result }
    {
        let end = (self.gate + 1).saturating_add(frame.tail().len() as u64);
        if end > self.limit {
            return Err(AppendFault::Full {
                size: self.gate + 1,
            });
        }
        write_frame(store, self.file, self.gate, frame)?;
        self.gate = end - 1;
        Ok(())
    }
}

// The frame behind its closed gate, and then the gate.
fn write_frame<S: Store>(
    store: &mut S,
    file: File,
    gate: u64,
    frame: &FrameBytes,
) -> Result<(), Failed>
    requires within { ForSome (S.seen store.old) (λ image. gate < length (bytes_of image file)) }
    requires fits { gate + 10 + length frame.now < 2 ^ 64 }
    ensures written { ForSome (S.seen store.old) (λ image. OnOk result (S.seen store.new ≡ Some (appended file gate frame.now image))) }
    ensures acknowledged { ForSome (S.seen store.old) (λ image. (front : List ℕ) (frames : List (List ℕ)) → IsSettled image (S.may_leave store.old) file gate front frames
        → OnOk result (IsSettled (appended file gate frame.now image) (S.may_leave store.new) file (gate + 9 + length frame.now) front (frames ++ frame.now ∷ []))) }
    ensures honest { is_some (S.seen store.new) ≡ is_some (S.seen store.old) }
    ensures any_moment { ForSome (S.seen store.old) (λ image. (front : List ℕ) (frames : List (List ℕ)) → IsSettled image (S.may_leave store.old) file gate front frames
        → LeavesOnly S.moment S.left_since S.said store.old store.new (BeforeOrAfter file front image frames frame.now)) }
    ensures said { S.said store.new ≡ S.said store.old }
    ensures beside { S.beside store.new ≡ S.beside store.old }
    ensures calls { Makes (append_calls file gate frame.now) (S.calls store.old) (S.calls store.new) result }
    ensures cause { HasCause (S.store_faults store.old) (S.store_faults store.new) result }
{
    write_and_sync(store, file, gate + 1, frame.tail())?;
    write_and_sync(store, file, gate, &OPEN_GATE)?;
    Ok(())
}
