// A store over three files of a folder. It tells nothing of what they hold.
ghost use Rattle.std.specs.Prelude.{◌≡◌, ◌<◌, ◌≤◌, false, length, IfOk, IsErr, Ok, OnOk};
ghost use Rattle.swf_store.specs.Disk.{TornIn, Follows};
ghost use Rattle.swf_store.specs.Faults.{HasCause};
ghost use Rattle.swf_store.specs.FileState.{faults_of, opened_as, AllSynced, IsSynced, AnyImage};

use crate::opened::Opened;
use crate::{Failed, File, Store, StoreFault};
use std::alloc::Global;
use std::fs::{Files, OpenFile, OpenOptions};
use std::io::{self, ErrorKind};
use std::os::fd::AsRawFd;
use std::os::unix::fs::FileExt;

// The three files.
#[derive(Drop)]
struct Folder<F> {
    journal: Opened<F>,
    snap0: Opened<F>,
    snap1: Opened<F>,
}

// A call that fails closes the files; then so many calls have failed since.
#[derive(Drop)]
enum State<F> {
    Open(Folder<F>),
    Closed(u64),
}

/// Three files of a folder, `swf.journal`, `swf.snap0` and `swf.snap1`, which no other process has as a store. After a
/// call that failed they are closed, and each later call fails: a folder is opened again by another store.
#[derive(Drop)]
pub struct FileStore<R: Files> {
    state: State<R::File>,
}

impl<R: Files> FileStore<R>
where
    R::File: FileExt + AsRawFd,
{
    /// Opens the files of a folder, the working one where it is empty, and makes those that are missing. All are for the
    /// owner alone, and the folder has their names. `Failed` where another store has them, or a name stands for anything
    /// but a regular file.
    pub fn in_folder(rt: R, alloc: Global, folder: &str) -> Result<FileStore<R>, StoreFault>
    where
        R: Drop,
        ensures open { IfOk result (λ store. faults_of store.state ≡ 0) }
        ensures synced { IfOk result (λ store. IsSynced store.state) }
    {
        let folder = if folder.is_empty() { "." } else { folder };
        let files = Folder {
            journal: open_in(&rt, alloc, folder, "swf.journal")?,
            snap0: open_in(&rt, alloc, folder, "swf.snap0")?,
            snap1: open_in(&rt, alloc, folder, "swf.snap1")?,
        };
        sync_names(&rt, folder)?;
        Ok(FileStore {
            state: State::Open(files),
        })
    }

    // What a call of the system gave. One that failed closes the files.
    fn settle<T: Drop>(&mut self, outcome: io::Result<T>) -> Result<T, Failed>
        ensures cause { HasCause (faults_of self.old.state) (faults_of self.new.state) result }
        ensures value { IfOk result (λ value. outcome ≡ Ok value) }
        ensures kept { OnOk result (self.new.state ≡ self.old.state) }
    {
        match outcome {
            Ok(value) => Ok(value),
            Err(_) => {
                self.state = State::Closed(match self.state {
                    State::Open(_) => 0,
                    State::Closed(later) => later.saturating_add(1),
                });
                Err(Failed)
            }
        }
    }
}

impl<F: OpenFile + FileExt + AsRawFd + Drop> Folder<F> {
    fn file(&mut self, file: File) -> &mut Opened<F>
        ensures { result.now ≡ opened_as self.old file }
    {
        match file {
            File::Journal => &mut self.journal,
            File::Snap0 => &mut self.snap0,
            File::Snap1 => &mut self.snap1,
        }
    }

    fn sync(&mut self) -> io::Result<()>
        ensures { OnOk result (AllSynced self.new) }
    {
        self.journal.sync()?;
        self.snap0.sync()?;
        self.snap1.sync()
    }
}

// What a call of a closed store gives.
fn closed() -> io::Error {
    ErrorKind::NotConnected.into()
}

fn open_in<R: Files>(
    rt: &R,
    alloc: Global,
    folder: &str,
    name: &str,
) -> Result<Opened<R::File>, StoreFault>
where
    R::File: FileExt + AsRawFd,
    ensures { IfOk result (λ opened. opened.unsynced ≡ false) }
{
    let path = format!(in alloc; "{folder}/{name}")?;
    Ok(Opened::at(rt, path.as_str())?)
}

// Makes sure of the names in a folder.
fn sync_names<R: Files>(rt: &R, folder: &str) -> io::Result<()> {
    OpenOptions::new().read(true).open(rt, folder)?.sync_all()
}

impl<R: Files> Store for FileStore<R>
where
    R::File: FileExt + AsRawFd,
{
    ghost use Rattle.std.specs.Prelude.{None};
    ghost use Rattle.swf_store.specs.Said.{untold};

    ghost seen = { λ _. None };

    ghost said = { λ _. None };

    ghost calls = { λ _. None };

    ghost store_faults = { λ store. faults_of store.state };

    ghost moment = { λ _. 0 };

    ghost may_leave = { λ _. AnyImage };

    ghost left_since = { λ _ _ _ _. Unit {0} };

    ghost Beside = { Unit {0} };

    ghost beside = { λ _. tt };

    ghost counts_now = { λ _ _ _ _ _ _ _. tt };

    ghost only_now = { λ _ _ pieces _. (tt, untold pieces) };

    ghost reads_may_be_left = { λ _ _ _. tt };

    fn size(&mut self, file: File) -> Result<u64, Failed>
        ensures cause { HasCause (faults_of self.old.state) (faults_of self.new.state) result }
        ensures ended { 0 < faults_of self.old.state → IsErr result }
    {
        let outcome = match &mut self.state {
            State::Open(folder) => folder.file(file).size(),
            State::Closed(_) => Err(closed()),
        };
        self.settle(outcome)
    }

    fn read_at(&mut self, file: File, at: u64, into: &mut [u8]) -> Result<usize, Failed>
        ensures bound { IfOk result (λ n. n ≤ length into.old) }
        ensures cause { HasCause (faults_of self.old.state) (faults_of self.new.state) result }
        ensures ended { 0 < faults_of self.old.state → IsErr result }
    {
        let outcome = match &mut self.state {
            State::Open(folder) => folder.file(file).read_at(at, into),
            State::Closed(_) => Err(closed()),
        };
        self.settle(outcome)
    }

    fn write_at(&mut self, file: File, at: u64, bytes: &[u8]) -> Result<(), Failed>
        ensures stop { Follows (TornIn file at (length bytes.now)) AnyImage AnyImage }
        ensures cause { HasCause (faults_of self.old.state) (faults_of self.new.state) result }
        ensures ended { 0 < faults_of self.old.state → IsErr result }
    {
        let outcome = match &mut self.state {
            State::Open(folder) => folder.file(file).write_at(at, bytes),
            State::Closed(_) => Err(closed()),
        };
        self.settle(outcome)
    }

    fn sync(&mut self) -> Result<(), Failed>
        ensures synced { OnOk result (IsSynced self.new.state) }
        ensures cause { HasCause (faults_of self.old.state) (faults_of self.new.state) result }
        ensures ended { 0 < faults_of self.old.state → IsErr result }
    {
        let outcome = match &mut self.state {
            State::Open(folder) => folder.sync(),
            State::Closed(_) => Err(closed()),
        };
        self.settle(outcome)
    }
}
