// The files after some calls, computed again from the first of them, and the images that a stop may leave then.
ghost use Rattle.std.specs.Prelude.{◌≡◌, ◌++◌, [], IfOk, OnOk};
ghost use Rattle.swf_store.specs.Images.{images_of, harmed_by, with_harm, harms, harmed};
ghost use Rattle.swf_store.specs.Replay.{step, replay as replayed, and_write, whole};

use crate::memory::fails;
use crate::{Call, File, Image};
use std::alloc::{AllocError, Global};
use std::marker::Model;
use swf_text::Bytes;

/// A write of a file, and whether it was done. One that failed may have reached the file in part.
#[derive(Drop)]
pub struct Change {
    pub file: File,
    pub at: u64,
    pub bytes: Bytes,
    pub done: bool,
}

/// The files as the last sync left them, and the writes since.
#[derive(Drop)]
pub(crate) struct Files {
    synced: Image,
    unsynced: Vec<Change>,
}

impl Model for Files {
    ghost use Rattle.swf_store.specs.Replay.{Writing};

    ghost Value = { Writing };

    ghost view = { λ files. record { synced = files.synced; unsynced = files.unsynced.items } };
}

// How one write is harmed by a stop: absent where it was done and whole where it failed, cut, or filled.
#[derive(Clone, Copy)]
enum Harm {
    Turned,
    Cut,
    Filled,
}

fn write_all(alloc: Global, image: &mut Image, changes: &[Change]) -> Result<(), AllocError>
    ensures { OnOk result (image.new ≡ whole image.old changes.now) }
{
    for change in changes {
        if change.done {
            image.put(
                alloc,
                change.file,
                change.at as usize,
                change.bytes.as_slice(),
            )?;
        }
    }
    Ok(())
}

fn write_harmed(
    alloc: Global,
    image: &mut Image,
    change: &Change,
    harm: Harm,
) -> Result<(), AllocError>
    ensures { OnOk result (image.new ≡ and_write image.old (harmed_by harm change.now)) }
{
    let bytes = change.bytes.as_slice();
    let at = change.at as usize;
    match harm {
        Harm::Turned if change.done => Ok(()),
        Harm::Turned => image.put(alloc, change.file, at, bytes),
        Harm::Cut => image.put(alloc, change.file, at, &bytes[..bytes.len() / 2]),
        Harm::Filled => {
            let filled = vec![in alloc; 0xA5; bytes.len()]?;
            image.put(alloc, change.file, at, filled.as_slice())
        }
    }
}

// The files with one write harmed, and the writes before and after it as reads give them.
fn harmed_image(
    alloc: Global,
    synced: &Image,
    before: &[Change],
    change: &Change,
    after: &[Change],
    harm: Harm,
) -> Result<Image, AllocError>
    ensures { IfOk result (λ image. image ≡ with_harm synced.now before.now change.now after.now harm) }
{
    let mut image = synced.copy(alloc)?;
    write_all(alloc, &mut image, before)?;
    write_harmed(alloc, &mut image, change, harm)?;
    write_all(alloc, &mut image, after)?;
    Ok(image)
}

fn push_harmed(
    alloc: Global,
    images: &mut Vec<Image>,
    synced: &Image,
    before: &[Change],
    change: &Change,
    after: &[Change],
) -> Result<(), AllocError>
    ensures { OnOk result (images.new.items ≡ images.old.items ++ harms synced.now before.now change.now after.now) }
{
    images.push(harmed_image(alloc, synced, before, change, after, Harm::Turned)?)?;
    images.push(harmed_image(alloc, synced, before, change, after, Harm::Cut)?)?;
    images.push(harmed_image(alloc, synced, before, change, after, Harm::Filled)?)?;
    Ok(())
}

fn push_all_harmed(
    alloc: Global,
    images: &mut Vec<Image>,
    synced: &Image,
    changes: &[Change],
) -> Result<(), AllocError>
    ensures { OnOk result (images.new.items ≡ images.old.items ++ harmed synced.now [] changes.now) }
{
    let mut number = 0;
    let mut after = changes;
    while let [change, rest @ ..] = after {
        push_harmed(alloc, images, synced, &changes[..number], change, rest)?;
        number += 1;
        after = rest;
    }
    Ok(())
}

impl Files {
    // A call that is done, or fails.
    fn take(&mut self, alloc: Global, call: &Call, fails: bool) -> Result<(), AllocError>
        ensures { OnOk result (self.new ≡ step fails call.now self.old) }
    {
        match call {
            Call::Size(_) | Call::Read(_, _, _) => {}
            Call::Write(file, at, bytes) => self.unsynced.push(Change {
                file: *file,
                at: *at,
                bytes: bytes.copy(alloc)?,
                done: !fails,
            })?,
            Call::Sync => {
                if !fails {
                    write_all(alloc, &mut self.synced, &self.unsynced)?;
                    self.unsynced.clear();
                }
            }
        }
        Ok(())
    }

    /// As reads give them, and with one of the writes harmed.
    pub(crate) fn images(&self, alloc: Global) -> Result<Vec<Image>, AllocError>
        ensures { IfOk result (λ images. images.items ≡ images_of self.now) }
    {
        let mut whole = self.synced.copy(alloc)?;
        write_all(alloc, &mut whole, &self.unsynced)?;
        let mut images = Vec::new(alloc);
        images.push(whole)?;
        push_all_harmed(alloc, &mut images, &self.synced, &self.unsynced)?;
        Ok(images)
    }
}

/// The files after these calls, of which those whose number is on the list fail.
pub(crate) fn replay(
    alloc: Global,
    first: &Image,
    failing: &[u64],
    calls: &[Call],
) -> Result<Files, AllocError>
    ensures { IfOk result (λ files. files ≡ replayed failing.now 0 calls.now (record { synced = first.now; unsynced = [] })) }
{
    let mut files = Files {
        synced: first.copy(alloc)?,
        unsynced: Vec::new(alloc),
    };
    let mut number = 0;
    let mut rest = calls;
    while let [call, after @ ..] = rest {
        files.take(alloc, call, fails(failing, number))?;
        number += 1;
        rest = after;
    }
    Ok(files)
}
