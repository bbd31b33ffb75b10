// A store in memory. It keeps the files that it began with and each call, and so what a stop at any moment may leave.
ghost use Rattle.std.specs.Prelude.{◌≡◌, ◌-◌, ◌++◌, List, length, take, drop, min, not, unwrap_or, Some, IfOk, OnOk, OnErr, if◌then◌else◌};
ghost use Rattle.swf_store.specs.Files.{bytes_of, with_bytes};
ghost use Rattle.swf_store.specs.Put.{put};
ghost use Rattle.swf_store.specs.Replay.{is_in};

use crate::replay::{Files, replay};
use crate::{Call, Failed, File, Image, OutOfMemory, Store};
use std::alloc::{AllocError, Global};
use std::marker::Model;
use swf_text::Bytes;

/// Three files in memory. The calls whose numbers, from 0, are on its list fail, and so do those that find no memory.
pub struct MemoryStore {
    alloc: Global,
    first: Image,
    failing: Vec<u64>,
    calls: Vec<Call>,
    // What reads give, once something was written.
    written: Option<Image>,
    lacks: u64,
}

impl Drop for MemoryStore {
    fn drop(self) {
        let MemoryStore {
            alloc: _alloc,
            first: _first,
            failing: _failing,
            calls: _calls,
            written: _written,
            lacks: _lacks,
        } = self;
    }
}

impl Model for MemoryStore {
    ghost use Rattle.swf_store.specs.Memory.{Memory};

    ghost Value = { Memory };

    ghost use Rattle.swf_store.specs.MemoryView.{memory_view, IsMemory};

    ghost view = { memory_view };

    ghost invariant = { IsMemory };
}

// Whether the call of this number is one that fails.
pub(crate) fn fails(failing: &[u64], number: usize) -> bool
    ensures { result ≡ is_in failing.now number }
{
    failing.contains(&(number as u64))
}

// Writes into what reads give, which is a copy of the first files until then, unless the write fails.
fn write_into(
    alloc: Global,
    first: &Image,
    written: &mut Option<Image>,
    fails: bool,
    change: (File, u64, &[u8]),
) -> Result<(), AllocError>
    ensures ok { OnOk result (unwrap_or written.new first.now ≡ (if fails then unwrap_or written.old first.now else with_bytes (unwrap_or written.old first.now) change.entry.0 (put (bytes_of (unwrap_or written.old first.now) change.entry.0) change.entry.1 change.entry.2.now))) }
    ensures err { OnErr result (unwrap_or written.new first.now ≡ unwrap_or written.old first.now) }
{
    if fails {
        return Ok(());
    }
    let mut image = match written.take() {
        Some(image) => image,
        None => first.copy(alloc)?,
    };
    let (file, at, bytes) = change;
    let result = image.put(alloc, file, at as usize, bytes);
    *written = Some(image);
    result
}

fn copy_from(bytes: &[u8], at: u64, into: &mut [u8]) -> usize
    ensures count { result ≡ min (length into.old) (length bytes.now - at) }
    ensures bytes { into.new ≡ take result (drop at bytes.now) ++ drop result into.old }
{
    let at = at as usize;
    if at >= bytes.len() {
        return 0;
    }
    let count = into.len().min(bytes.len() - at);
    into[..count].copy_from_slice(&bytes[at..at + count]);
    count
}

impl MemoryStore {
    ghost use Rattle.std.specs.Prelude.{All, Bool, [], ◌∷◌, true, false, Ok};
    ghost use Rattle.swf_store.specs.Images.{images_of};
    ghost use Rattle.swf_store.specs.Memory.{Takes, state_of, state_after, and_listed, fails_next};
    ghost use Rattle.swf_store.specs.Replay.{Writing, IsLeft, reads, step};

    /// A store with these files, of which the calls with these numbers fail.
    pub fn new(alloc: Global, image: Image, failing: Vec<u64>) -> MemoryStore
        ensures first { result.first ≡ image }
        ensures failing { result.failing ≡ failing.items }
        ensures calls { result.calls ≡ [] }
        ensures lacks { result.lacks ≡ 0 }
    {
        MemoryStore {
            alloc,
            first: image,
            failing,
            calls: Vec::new(alloc),
            written: None,
            lacks: 0,
        }
    }

    /// How many calls found no memory.
    pub fn lacks(&self) -> u64
        ensures { result ≡ self.now.lacks }
    {
        self.lacks
    }

    /// The calls that were made.
    pub fn calls(&self) -> &[Call]
        ensures { result.now ≡ self.now.calls }
    {
        self.calls.as_slice()
    }

    /// What reads give.
    pub fn image(&self) -> &Image
        ensures { result.now ≡ reads (state_of self.now) }
    {
        match &self.written {
            Some(image) => image,
            None => &self.first,
        }
    }

    /// What a stop may leave after so many calls: the image that reads give, and for each unsynced write those with it
    /// absent or, where it failed, whole, with it cut in its middle, and with it filled with 0xA5, and the others as reads
    /// give them. A gap holds zeros.
    pub fn images(&self, alloc: Global, after: u64) -> Result<Vec<Image>, OutOfMemory>
        ensures images { IfOk result (λ images. images.items ≡ images_of (state_after self.now after)) }
        ensures left { IfOk result (λ images. All (IsLeft (state_after self.now after)) images.items) }
    {
        let files = self.files_after(alloc, after)?;
        Ok(files.images(alloc)?)
    }

    fn files_after(&self, alloc: Global, after: u64) -> Result<Files, AllocError>
        ensures { IfOk result (λ files. files ≡ state_after self.now after) }
    {
        let number = self.calls.len().min(after as usize);
        replay(alloc, &self.first, &self.failing, &self.calls[..number])
    }

    /// Takes a call that changes nothing that a read gives.
    pub fn list(&mut self, call: Call) -> Result<(), Failed>
        requires { (fails : Bool) (writing : Writing) → reads (step fails call writing) ≡ reads writing }
        ensures takes { Takes call self.old self.new result }
        ensures same { reads (state_of self.new) ≡ reads (state_of self.old) }
    {
        let fails = fails(&self.failing, self.calls.len());
        if self.calls.push(call).is_err() {
            self.lacks = self.lacks.saturating_add(1);
            return Err(Failed);
        }
        if fails { Err(Failed) } else { Ok(()) }
    }

    // Whether the write was done, which is listed in either case.
    fn try_write(&mut self, file: File, at: u64, bytes: &[u8]) -> Result<bool, AllocError>
        ensures listed { OnOk result (self.new ≡ and_listed (Call.Write file at bytes.now) self.old) }
        ensures done { IfOk result (λ done. done ≡ not (fails_next self.old)) }
        ensures err { OnErr result (self.new ≡ self.old) }
    {
        let copy = Bytes::of(bytes.to_vec(self.alloc)?);
        self.calls.reserve(1)?;
        let fails = fails(&self.failing, self.calls.len());
        let change = (file, at, bytes);
        write_into(self.alloc, &self.first, &mut self.written, fails, change)?;
        self.calls.push_reserved(Call::Write(file, at, copy));
        Ok(!fails)
    }

    /// Takes a write.
    pub fn write(&mut self, file: File, at: u64, bytes: &[u8]) -> Result<(), Failed>
        ensures { Takes (Call.Write file at bytes.now) self.old self.new result }
    {
        match self.try_write(file, at, bytes) {
            Ok(true) => Ok(()),
            Ok(false) => Err(Failed),
            Err(_) => {
                self.lacks = self.lacks.saturating_add(1);
                Err(Failed)
            }
        }
    }

    /// Takes a call for a size.
    pub fn measure(&mut self, file: File) -> Result<u64, Failed>
        ensures takes { Takes (Call.Size file) self.old self.new result }
        ensures size { IfOk result (λ size. size ≡ length (bytes_of (reads (state_of self.old)) file)) }
    {
        self.list(Call::Size(file))?;
        Ok(self.image().file(file).len() as u64)
    }

    /// Takes a read.
    pub fn read(&mut self, file: File, at: u64, into: &mut [u8]) -> Result<usize, Failed>
        ensures takes { Takes (Call.Read file at (length into.old)) self.old self.new result }
        ensures count { IfOk result (λ n. n ≡ min (length into.old) (length (bytes_of (reads (state_of self.old)) file) - at)) }
        ensures bytes { IfOk result (λ n. into.new ≡ take n (drop at (bytes_of (reads (state_of self.old)) file)) ++ drop n into.old) }
    {
        self.list(Call::Read(file, at, into.len() as u64))?;
        Ok(copy_from(self.image().file(file), at, into))
    }
}

impl Store for MemoryStore {
    ghost use Rattle.std.specs.Prelude.{Some, [], length};
    ghost use Rattle.swf_store.specs.Laws.{counts_now_lem, only_now_lem, reads_may_be_left_lem};
    ghost use Rattle.swf_store.specs.Memory.{state_of, faults_of, LeftSince};
    ghost use Rattle.swf_store.specs.Replay.{reads, IsLeft};

    ghost seen = { λ memory. Some (reads (state_of memory)) };

    ghost said = { λ _. Some [] };

    ghost calls = { λ memory. Some memory.calls };

    ghost store_faults = { faults_of };

    ghost moment = { λ memory. length memory.calls };

    ghost may_leave = { λ memory image. IsLeft (state_of memory) image };

    ghost left_since = { LeftSince };

    ghost Beside = { Unit {0} };

    ghost beside = { λ _. tt };

    ghost counts_now = { counts_now_lem };

    ghost only_now = { only_now_lem };

    ghost reads_may_be_left = { reads_may_be_left_lem };

    fn size(&mut self, file: File) -> Result<u64, Failed> {
        self.measure(file)
    }

    fn read_at(&mut self, file: File, at: u64, into: &mut [u8]) -> Result<usize, Failed> {
        self.read(file, at, into)
    }

    fn write_at(&mut self, file: File, at: u64, bytes: &[u8]) -> Result<(), Failed> {
        self.write(file, at, bytes)
    }

    fn sync(&mut self) -> Result<(), Failed> {
        self.list(Call::Sync)
    }
}
