// A call of a store, as a store that keeps a list of its calls tells it.
use crate::File;
use swf_text::Bytes;

/// A call: the size of a file; a read of so many bytes from a place; a write at a place; a sync of all files.
#[derive(Drop)]
pub enum Call {
    Size(File),
    Read(File, u64, u64),
    Write(File, u64, Bytes),
    Sync,
}
