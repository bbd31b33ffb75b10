// A store as the engine sees it: what a read gives, and what a stop may leave.
ghost use Rattle.std.specs.Prelude.{◌≡◌, ◌≤◌, ◌+◌, ◌-◌, ◌++◌, ℕ, List, Option, Some, is_some, length, take, drop, min, IfOk, OnOk};
ghost use Rattle.std.specs.Option.{ForSome};
ghost use Rattle.swf_store.specs.declared.image.Image.{Image as Three};
ghost use Rattle.swf_store.specs.declared.call.Call.{Call as Made};
ghost use Rattle.swf_store.specs.Calls.{IsListed};
ghost use Rattle.swf_store.specs.Disk.{TornIn, Follows, NothingNew, Only};
ghost use Rattle.swf_store.specs.Faults.{HasCause};
ghost use Rattle.swf_store.specs.Files.{bytes_of, with_bytes};
ghost use Rattle.swf_store.specs.Put.{put};
ghost use Rattle.swf_store.specs.declared.said.Piece.{Piece};
ghost use Rattle.swf_store.specs.Said.{IsSaid};
ghost use Rattle.swf_store.specs.Stops.{ElapsesSilent};

use crate::{Call, Failed, File};

/// Three files. A store is honest where it tells what a read gives.
pub trait Store {
    /// What reads give, where the store is honest.
    ghost seen: { Self → Option Three };

    /// What was said by now, where it is told. No call of a store says anything.
    ghost said: { Self → Option (List Piece) };

    /// The calls that were made, where the store tells them.
    ghost calls: { Self → Option (List Made) };

    /// How many calls have failed. It never falls.
    ghost store_faults: { Self → ℕ };

    /// The moment, as a number that never falls.
    ghost moment: { Self → ℕ };

    /// What a stop at this moment may leave.
    ghost may_leave: { Self → Three → Type 0 };

    /// What a stop at some moment since that one may leave, and what had been said by then.
    ghost left_since: { Self → ℕ → Three → List Piece → Type 0 };

    /// All that there is besides the store: its type, and what it is now. No call of a store changes it.
    ghost Beside: { Type 0 };

    ghost beside: { Self → Beside };

    /// The size of a file.
    fn size(&mut self, file: File) -> Result<u64, Failed>
        ensures size { ForSome (seen self.old) (λ image. IfOk result (λ size. size ≡ length (bytes_of image file))) }
        ensures seen { seen self.new ≡ seen self.old }
        ensures said { said self.new ≡ said self.old }
        ensures beside { beside self.new ≡ beside self.old }
        ensures stop { NothingNew (may_leave self.old) (may_leave self.new) }
        ensures time { ElapsesSilent (moment self.old) (moment self.new) (left_since self.old) (left_since self.new) (may_leave self.new) (said self.old) }
        ensures listed { IsListed (Call.Size file) (calls self.old) (calls self.new) result }
        ensures cause { HasCause (store_faults self.old) (store_faults self.new) result };

    /// As many bytes as the file has from a place, at most as many as there is room for.
    fn read_at(&mut self, file: File, at: u64, into: &mut [u8]) -> Result<usize, Failed>
        ensures bound { IfOk result (λ n. n ≤ length into.old) }
        ensures count { ForSome (seen self.old) (λ image. IfOk result (λ n. n ≡ min (length into.old) (length (bytes_of image file) - at))) }
        ensures bytes { ForSome (seen self.old) (λ image. IfOk result (λ n. into.new ≡ take n (drop at (bytes_of image file)) ++ drop n into.old)) }
        ensures seen { seen self.new ≡ seen self.old }
        ensures said { said self.new ≡ said self.old }
        ensures beside { beside self.new ≡ beside self.old }
        ensures stop { NothingNew (may_leave self.old) (may_leave self.new) }
        ensures time { ElapsesSilent (moment self.old) (moment self.new) (left_since self.old) (left_since self.new) (may_leave self.new) (said self.old) }
        ensures listed { IsListed (Call.Read file at (length into.old)) (calls self.old) (calls self.new) result }
        ensures cause { HasCause (store_faults self.old) (store_faults self.new) result };

    /// Writes over what is there, and past the end. Until a sync a stop may leave any bytes in the range.
    fn write_at(&mut self, file: File, at: u64, bytes: &[u8]) -> Result<(), Failed>
        requires { ForSome (seen self.old) (λ image. at ≤ length (bytes_of image file)) }
        ensures written { ForSome (seen self.old) (λ image. OnOk result (seen self.new ≡ Some (with_bytes image file (put (bytes_of image file) at bytes.now)))) }
        ensures honest { is_some (seen self.new) ≡ is_some (seen self.old) }
        ensures said { said self.new ≡ said self.old }
        ensures beside { beside self.new ≡ beside self.old }
        ensures stop { Follows (TornIn file at (length bytes.now)) (may_leave self.old) (may_leave self.new) }
        ensures time { ElapsesSilent (moment self.old) (moment self.new) (left_since self.old) (left_since self.new) (may_leave self.new) (said self.old) }
        ensures listed { IsListed (Call.Write file at bytes.now) (calls self.old) (calls self.new) result }
        ensures cause { HasCause (store_faults self.old) (store_faults self.new) result };

    /// After it, a stop leaves what reads give.
    fn sync(&mut self) -> Result<(), Failed>
        ensures durable { ForSome (seen self.old) (λ image. OnOk result (Only image (may_leave self.new))) }
        ensures seen { seen self.new ≡ seen self.old }
        ensures said { said self.new ≡ said self.old }
        ensures beside { beside self.new ≡ beside self.old }
        ensures stop { NothingNew (may_leave self.old) (may_leave self.new) }
        ensures time { ElapsesSilent (moment self.old) (moment self.new) (left_since self.old) (left_since self.new) (may_leave self.new) (said self.old) }
        ensures listed { IsListed Call.Sync (calls self.old) (calls self.new) result }
        ensures cause { HasCause (store_faults self.old) (store_faults self.new) result };

    /// This moment is one of those since an earlier one.
    ghost counts_now: { (store : Self) (t : ℕ) (image : Three) (pieces : List Piece) → t ≤ moment store → may_leave store image → IsSaid (said store) pieces → left_since store t image pieces };

    /// Since this moment there is no other.
    ghost only_now: { (store : Self) (image : Three) (pieces : List Piece) → left_since store (moment store) image pieces → may_leave store image × IsSaid (said store) pieces };

    /// What reads give is something that a stop may leave.
    ghost reads_may_be_left: { (store : Self) (image : Three) → seen store ≡ Some image → may_leave store image };
}
