// How a journal is opened: its header, which is made anew where the file is too short for a frame.
ghost use Rattle.std.specs.Prelude.{◌≡◌, ◌≢◌, ◌≤◌, ◌<◌, ◌↔◌, ◌∷◌, ◌++◌, ◌^◌, [], ℕ, Bool, false, List, Some, length, take, nat_lt, is_some, IsTrue, IfOk, OnOk, OnErr, IsErrOf, IsOkUnless, Err};
ghost use Rattle.std.specs.Option.{ForSome};
ghost use Rattle.swf_store.specs.declared.image.File.TheVariants.{Journal as JournalFile};
ghost use Rattle.swf_store.specs.Calls.{IsListed, Makes, Begins, and_calls};
ghost use Rattle.swf_store.specs.Disk.{Only, NothingNew, TornIn};
ghost use Rattle.swf_store.specs.Faults.{HasCause};
ghost use Rattle.swf_store.specs.Files.{with_bytes};
ghost use Rattle.swf_store.specs.Put.{put};
ghost use Rattle.swf_store.specs.Stops.{LeavesOnly};
ghost use Rattle.swf_journal.specs.Causes.{OpenCause};
ghost use Rattle.swf_journal.specs.Frames.{header};
ghost use Rattle.swf_journal.specs.JournalCalls.{IsBegun, IsBegunSynced, header_calls};
ghost use Rattle.swf_journal.specs.Opening.{begun, opened, HasNoHeader, IsUntouched, KeepsFrames, Opens};
ghost use Rattle.swf_journal.specs.Place.{HasRead, IsReadingOf};
ghost use Rattle.swf_journal.specs.Stands.{Stands, IsShutAfter};

use crate::write::write_and_sync;
use crate::{OpenFault, Reading};
use swf_store::{Call, Failed, File, Store};

/// The most bytes that a journal of this format has.
const LIMIT: u64 = 1 << 40;

/// A journal with a frame has at least so many bytes.
const LEAST_SIZE: u64 = 25;

/// The place of the first gate.
const BEHIND_HEADER: u64 = 16;

const HEADER: [u8; 16] = *b"SWFJRNL1\0\0\0\0\0\0\0\0";

// The header and a closed gate.
const NEW_JOURNAL: [u8; 17] = *b"SWFJRNL1\0\0\0\0\0\0\0\0\0";

/// Syncs, and makes the header anew exactly where the journal has fewer than 25 bytes. The reading stands behind the header.
pub fn begin<S: Store>(store: &mut S) -> Result<Reading, OpenFault>
    ensures stands { IfOk result (IsReadingOf (S.seen store.new)) }
    ensures format { IfOk result (λ reading. (reading.file ≡ JournalFile) × (reading.limit ≡ 2 ^ 40) × (reading.ended ≡ false)) }
    ensures gate { IfOk result (λ reading. reading.gate ≡ 16) }
    ensures reading { ForSome (S.seen store.old) (λ image. IfOk result (λ reading. HasRead (begun image.journal) reading header [])) }
    ensures opened { ForSome (S.seen store.old) (λ image. OnOk result (S.seen store.new ≡ Some (opened image))) }
    ensures durable { ForSome (S.seen store.old) (λ image. OnOk result (Only (opened image) (S.may_leave store.new))) }
    ensures same { ForSome (S.seen store.old) (λ image. (frames : List (List ℕ)) → Stands image frames → IsShutAfter header (begun image.journal) frames) }
    ensures honest { is_some (S.seen store.new) ≡ is_some (S.seen store.old) }

    // Until its first sync has succeeded a stop leaves what it might have left before,
    // and from then on a journal that stands for the same frames.
    ensures any_moment { ForSome (S.seen store.old) (Opens S.moment S.left_since S.said S.may_leave store.old store.new) }
    // A journal that has room for a frame is only read.
    ensures untouched { ForSome (S.seen store.old) (λ image. 25 ≤ length image.journal → IsUntouched S.moment S.left_since S.said S.may_leave S.seen store.old store.new) }

    ensures damaged { ForSome (S.seen store.old) (λ image. (at : ℕ) → result ≡ Err (OpenFault.Damaged at) → (at ≡ 0) × (25 ≤ length image.journal) × (take 16 image.journal ≢ header)) }
    ensures enough { IsErrOf result OpenFault.OutOfMemory → ⊥ }
    ensures said { S.said store.new ≡ S.said store.old }
    ensures beside { S.beside store.new ≡ S.beside store.old }
    ensures calls { IsBegun (S.calls store.old) (S.calls store.new) result }
    ensures cause { OpenCause (S.store_faults store.old) (S.store_faults store.new) result }
{
    sync_first(store)?;
    begin_synced(store)
}

/// Begins to read once more a journal that was opened. It only reads. A journal that has no header with a gate behind it is damaged
/// at 0.
pub fn begin_again<S: Store>(store: &mut S) -> Result<Reading, OpenFault>
    ensures stands { IfOk result (IsReadingOf (S.seen store.new)) }
    ensures format { IfOk result (λ reading. (reading.file ≡ JournalFile) × (reading.limit ≡ 2 ^ 40) × (reading.ended ≡ false)) }
    ensures gate { IfOk result (λ reading. reading.gate ≡ 16) }
    ensures reading { ForSome (S.seen store.old) (λ image. IfOk result (λ reading. HasRead image.journal reading header [])) }
    ensures damaged { ForSome (S.seen store.old) (λ image. (at : ℕ) → result ≡ Err (OpenFault.Damaged at) → (at ≡ 0) × HasNoHeader image.journal) }
    ensures enough { IsErrOf result OpenFault.OutOfMemory → ⊥ }
    ensures seen { S.seen store.new ≡ S.seen store.old }
    ensures stop { NothingNew (S.may_leave store.old) (S.may_leave store.new) }
    ensures any_moment { LeavesOnly S.moment S.left_since S.said store.old store.new (S.may_leave store.old) }
    ensures said { S.said store.new ≡ S.said store.old }
    ensures beside { S.beside store.new ≡ S.beside store.old }
    ensures calls { Makes (header_calls false) (S.calls store.old) (S.calls store.new) result }
    ensures cause { OpenCause (S.store_faults store.old) (S.store_faults store.new) result }
{
    let size = journal_size(store)?;
    let right = has_header(store)?;
    if !right || size <= BEHIND_HEADER {
        return Err(OpenFault::Damaged { at: 0 });
    }
    Ok(Reading::at(File::Journal, BEHIND_HEADER, size, LIMIT))
}

fn sync_first<S: Store>(store: &mut S) -> Result<(), Failed>
    ensures durable { ForSome (S.seen store.old) (λ image. OnOk result (Only image (S.may_leave store.new))) }
    ensures seen { S.seen store.new ≡ S.seen store.old }
    ensures stop { NothingNew (S.may_leave store.old) (S.may_leave store.new) }
    ensures any_moment { LeavesOnly S.moment S.left_since S.said store.old store.new (S.may_leave store.old) }
    ensures said { S.said store.new ≡ S.said store.old }
    ensures beside { S.beside store.new ≡ S.beside store.old }
    ensures listed { IsListed Call.Sync (S.calls store.old) (S.calls store.new) result }
    ensures cause { HasCause (S.store_faults store.old) (S.store_faults store.new) result }
{
    store.sync()
}

// What comes after the first sync: the header is made or read.
fn begin_synced<S: Store>(store: &mut S) -> Result<Reading, OpenFault>
    requires { ForSome (S.seen store.old) (λ image. Only image (S.may_leave store.old)) }
    ensures stands { IfOk result (IsReadingOf (S.seen store.new)) }
    ensures format { IfOk result (λ reading. (reading.file ≡ JournalFile) × (reading.limit ≡ 2 ^ 40) × (reading.ended ≡ false)) }
    ensures gate { IfOk result (λ reading. reading.gate ≡ 16) }
    ensures reading { ForSome (S.seen store.old) (λ image. IfOk result (λ reading. HasRead (begun image.journal) reading header [])) }
    ensures opened { ForSome (S.seen store.old) (λ image. OnOk result (S.seen store.new ≡ Some (opened image))) }
    ensures durable { ForSome (S.seen store.old) (λ image. OnOk result (Only (opened image) (S.may_leave store.new))) }
    ensures honest { is_some (S.seen store.new) ≡ is_some (S.seen store.old) }
    ensures any_moment { ForSome (S.seen store.old) (λ image. LeavesOnly S.moment S.left_since S.said store.old store.new (KeepsFrames image)) }
    ensures untouched { ForSome (S.seen store.old) (λ image. 25 ≤ length image.journal → IsUntouched S.moment S.left_since S.said S.may_leave S.seen store.old store.new) }
    ensures damaged { ForSome (S.seen store.old) (λ image. (at : ℕ) → result ≡ Err (OpenFault.Damaged at) → (at ≡ 0) × (25 ≤ length image.journal) × (take 16 image.journal ≢ header)) }
    ensures enough { IsErrOf result OpenFault.OutOfMemory → ⊥ }
    ensures said { S.said store.new ≡ S.said store.old }
    ensures beside { S.beside store.new ≡ S.beside store.old }
    ensures calls { IsBegunSynced (S.calls store.old) (S.calls store.new) result }
    ensures cause { OpenCause (S.store_faults store.old) (S.store_faults store.new) result }
{
    let size = journal_size(store)?;
    if size < LEAST_SIZE {
        write_header(store)?;
        return Ok(Reading::at(File::Journal, BEHIND_HEADER, size.max(17), LIMIT));
    }
    if !has_header(store)? {
        return Err(OpenFault::Damaged { at: 0 });
    }
    Ok(Reading::at(File::Journal, BEHIND_HEADER, size, LIMIT))
}

fn journal_size<S: Store>(store: &mut S) -> Result<u64, Failed>
    ensures size { ForSome (S.seen store.old) (λ image. IfOk result (λ size. size ≡ length image.journal)) }
    ensures seen { S.seen store.new ≡ S.seen store.old }
    ensures stop { NothingNew (S.may_leave store.old) (S.may_leave store.new) }
    ensures any_moment { LeavesOnly S.moment S.left_since S.said store.old store.new (S.may_leave store.old) }
    ensures said { S.said store.new ≡ S.said store.old }
    ensures beside { S.beside store.new ≡ S.beside store.old }
    ensures listed { IsListed (Call.Size JournalFile) (S.calls store.old) (S.calls store.new) result }
    ensures cause { HasCause (S.store_faults store.old) (S.store_faults store.new) result }
{
    store.size(File::Journal)
}

// The header and a closed gate.
#[tactic(auto, unfolding(crate::specs::Frames::header))]
fn write_header<S: Store>(store: &mut S) -> Result<(), Failed>
    ensures written { ForSome (S.seen store.old) (λ image. OnOk result (S.seen store.new ≡ Some (with_bytes image JournalFile (put image.journal 0 (header ++ 0 ∷ []))))) }
    ensures durable { ForSome (S.seen store.old) (λ image. OnOk result (Only (with_bytes image JournalFile (put image.journal 0 (header ++ 0 ∷ []))) (S.may_leave store.new))) }
    ensures honest { is_some (S.seen store.new) ≡ is_some (S.seen store.old) }
    ensures any_moment { ForSome (S.seen store.old) (λ image. Only image (S.may_leave store.old) → LeavesOnly S.moment S.left_since S.said store.old store.new (TornIn JournalFile 0 17 image)) }
    ensures said { S.said store.new ≡ S.said store.old }
    ensures beside { S.beside store.new ≡ S.beside store.old }
    ensures calls { Makes (Call.Write JournalFile 0 (header ++ 0 ∷ []) ∷ Call.Sync ∷ []) (S.calls store.old) (S.calls store.new) result }
    ensures cause { HasCause (S.store_faults store.old) (S.store_faults store.new) result }
{
    write_and_sync(store, File::Journal, 0, &NEW_JOURNAL)
}

#[tactic(auto, unfolding(crate::specs::Frames::header))]
fn is_header(bytes: &[u8]) -> bool
    ensures { IsTrue result ↔ (bytes.now ≡ header) }
{
    bytes == HEADER.as_slice()
}

fn has_header<S: Store>(store: &mut S) -> Result<bool, Failed>
    ensures header { ForSome (S.seen store.old) (λ image. IfOk result (λ right. IsTrue right ↔ (take 16 image.journal ≡ header))) }
    ensures seen { S.seen store.new ≡ S.seen store.old }
    ensures stop { NothingNew (S.may_leave store.old) (S.may_leave store.new) }
    ensures any_moment { LeavesOnly S.moment S.left_since S.said store.old store.new (S.may_leave store.old) }
    ensures said { S.said store.new ≡ S.said store.old }
    ensures beside { S.beside store.new ≡ S.beside store.old }
    ensures listed { IsListed (Call.Read JournalFile 0 16) (S.calls store.old) (S.calls store.new) result }
    ensures cause { HasCause (S.store_faults store.old) (S.store_faults store.new) result }
{
    let mut bytes = [0; 16];
    let count = store.read_at(File::Journal, 0, &mut bytes)?;
    Ok(is_header(&bytes[..count]))
}
