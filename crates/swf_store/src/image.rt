// The three files of a store, as a read gives them or a stop leaves them.
ghost use Rattle.std.specs.Prelude.{◌≡◌, ◌≤◌, ◌+◌, ◌-◌, ◌++◌, [], length, take, drop, replicate, IfOk, OnOk, OnErr};
ghost use Rattle.swf_store.specs.Put.{put};
ghost use Rattle.swf_store.specs.Files.{bytes_of, with_bytes};

use std::alloc::{AllocError, Global};
use std::mem;
use swf_text::Bytes;

/// One of the three files of a store.
#[derive(Clone, Copy, Debug, PartialEq, Eq)]
pub enum File {
    Journal,
    Snap0,
    Snap1,
}

/// The bytes of the three files.
#[derive(Drop)]
pub struct Image {
    pub journal: Bytes,
    pub snap0: Bytes,
    pub snap1: Bytes,
}

impl Image {
    /// The image of a store that was never written.
    pub fn empty(alloc: Global) -> Image
        ensures { (result.journal ≡ []) × (result.snap0 ≡ []) × (result.snap1 ≡ []) }
    {
        Image {
            journal: Bytes::of(Vec::new(alloc)),
            snap0: Bytes::of(Vec::new(alloc)),
            snap1: Bytes::of(Vec::new(alloc)),
        }
    }

    pub fn copy(&self, alloc: Global) -> Result<Image, AllocError>
        ensures { IfOk result (λ image. image ≡ self.now) }
    {
        Ok(Image {
            journal: self.journal.copy(alloc)?,
            snap0: self.snap0.copy(alloc)?,
            snap1: self.snap1.copy(alloc)?,
        })
    }

    pub fn file(&self, file: File) -> &[u8]
        ensures { result.now ≡ bytes_of self.now file }
    {
        match file {
            File::Journal => self.journal.as_slice(),
            File::Snap0 => self.snap0.as_slice(),
            File::Snap1 => self.snap1.as_slice(),
        }
    }

    /// Writes over what a file holds and past its end. A gap gets zeros.
    pub(crate) fn put(
        &mut self,
        alloc: Global,
        file: File,
        at: usize,
        piece: &[u8],
    ) -> Result<(), AllocError>
        ensures ok { OnOk result (self.new ≡ with_bytes self.old file (put (bytes_of self.old file) at piece.now)) }
        ensures err { OnErr result (self.new ≡ self.old) }
    {
        match file {
            File::Journal => put_into(alloc, &mut self.journal, at, piece),
            File::Snap0 => put_into(alloc, &mut self.snap0, at, piece),
            File::Snap1 => put_into(alloc, &mut self.snap1, at, piece),
        }
    }
}

fn put_into(alloc: Global, bytes: &mut Bytes, at: usize, piece: &[u8]) -> Result<(), AllocError>
    ensures ok { OnOk result (bytes.new ≡ put bytes.old at piece.now) }
    ensures err { OnErr result (bytes.new ≡ bytes.old) }
{
    let mut items = mem::replace(bytes, Bytes::of(Vec::new(alloc))).into_vec();
    let result = put_items(&mut items, at, piece);
    *bytes = Bytes::of(items);
    result
}

fn put_items(items: &mut Vec<u8>, at: usize, piece: &[u8]) -> Result<(), AllocError>
    ensures ok { OnOk result (items.new.items ≡ put items.old.items at piece.now) }
    ensures err { OnErr result (items.new.items ≡ items.old.items) }
{
    let end = at.checked_add(piece.len()).ok_or(AllocError)?;
    widen(items, end)?;
    overwrite(items.as_mut_slice(), at, piece);
    Ok(())
}

// Puts zeros at the end of a list that is shorter.
fn widen(items: &mut Vec<u8>, len: usize) -> Result<(), AllocError>
    ensures ok { OnOk result (items.new.items ≡ items.old.items ++ replicate (len - length items.old.items) 0) }
    ensures err { OnErr result (items.new.items ≡ items.old.items) }
{
    if items.len() < len {
        items.resize(len, 0)?;
    }
    Ok(())
}

fn overwrite(bytes: &mut [u8], at: usize, piece: &[u8])
    requires { at + length piece.now ≤ length bytes.old }
    ensures { bytes.new ≡ take at bytes.old ++ piece.now ++ drop (at + length piece.now) bytes.old }
{
    bytes[at..at + piece.len()].copy_from_slice(piece);
}
