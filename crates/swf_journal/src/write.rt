// A write that is made sure of before anything else is written.
ghost use Rattle.std.specs.Prelude.{◌≡◌, ◌≤◌, ◌∷◌, [], is_some, length, Some, OnOk};
ghost use Rattle.std.specs.Option.{ForSome};
ghost use Rattle.swf_store.specs.Calls.{Makes};
ghost use Rattle.swf_store.specs.Disk.{Only, TornIn};
ghost use Rattle.swf_store.specs.Faults.{HasCause};
ghost use Rattle.swf_store.specs.Files.{bytes_of, with_bytes};
ghost use Rattle.swf_store.specs.Put.{put};
ghost use Rattle.swf_store.specs.Stops.{LeavesOnly};

use swf_store::{Call, Failed, File, Store};

pub(crate) fn write_and_sync<S: Store>(
    store: &mut S,
    file: File,
    at: u64,
    bytes: &[u8],
) -> Result<(), Failed>
    requires { ForSome (S.seen store.old) (λ image. at ≤ length (bytes_of image file)) }

    ensures written { ForSome (S.seen store.old) (λ image. OnOk result (S.seen store.new ≡ Some (with_bytes image file (put (bytes_of image file) at bytes.now)))) }
    ensures durable { ForSome (S.seen store.old) (λ image. OnOk result (Only (with_bytes image file (put (bytes_of image file) at bytes.now)) (S.may_leave store.new))) }
    ensures honest { is_some (S.seen store.new) ≡ is_some (S.seen store.old) }

    // A stop at any moment leaves the write torn.
    ensures any_moment { ForSome (S.seen store.old) (λ image. Only image (S.may_leave store.old) → LeavesOnly S.moment S.left_since S.said store.old store.new (TornIn file at (length bytes.now) image)) }
    ensures said { S.said store.new ≡ S.said store.old }
    ensures beside { S.beside store.new ≡ S.beside store.old }
    ensures calls { Makes (Call.Write file at bytes.now ∷ Call.Sync ∷ []) (S.calls store.old) (S.calls store.new) result }
    ensures cause { HasCause (S.store_faults store.old) (S.store_faults store.new) result }
{
    store.write_at(file, at, bytes)?;
    store.sync()
}
