// One open file of a folder, as a store holds it: opened safely, locked, and read and written whole.
ghost use Rattle.std.specs.Prelude.{◌≡◌, ◌≤◌, true, false, length, IfOk, OnOk};

use std::fs::{Files, OpenFile, OpenOptions, Permissions};
use std::io::{self, Error, ErrorKind};
use std::os::fd::{AsRawFd, RawFd};
use std::os::unix::fs::{FileExt, MetadataExt, OpenOptionsExt, PermissionsExt};

const OWNER_ALONE: u32 = 0o600;

// An open file that this process alone holds, and whether it may hold what no sync has made sure of.
#[derive(Drop)]
pub(crate) struct Opened<F> {
    file: F,
    unsynced: bool,
}

impl<F: OpenFile + FileExt + AsRawFd + Drop> Opened<F> {
    // Opens a file, or makes it, for this process and the owner alone. Reads give what the disk has.
    pub(crate) fn at<R: Files<File = F>>(rt: &R, path: &str) -> io::Result<Opened<F>>
        ensures { IfOk result (λ opened. opened.unsynced ≡ false) }
    {
        let mut file = open_or_make(rt, path)?;
        // What is meant for a standard stream that is closed must not land in the file.
        if file.as_raw_fd() <= 2 {
            file = again(|| file.try_clone())?;
        }
        again(|| lock(file.as_raw_fd()))?;
        let found = again(|| file.metadata())?;
        let named = again(|| rt.symlink_metadata(path))?;
        if !found.is_file() || found.dev() != named.dev() || found.ino() != named.ino() {
            return Err(ErrorKind::InvalidInput.into());
        }
        if found.mode() & 0o7777 != OWNER_ALONE {
            file.set_permissions(Permissions::from_mode(OWNER_ALONE))?;
        }
        let mut opened = Opened {
            file,
            unsynced: true,
        };
        opened.make_sure()?;
        Ok(opened)
    }

    // Makes sure that the disk has what earlier runs wrote, and that reads give what the disk has: pages that a sync of
    // theirs could not write count as clean.
    fn make_sure(&mut self) -> io::Result<()>
        ensures { OnOk result (self.new.unsynced ≡ false) }
    {
        self.file.sync_all()?;
        again(|| drop_pages(self.file.as_raw_fd()))?;
        self.unsynced = false;
        Ok(())
    }

    pub(crate) fn size(&self) -> io::Result<u64> {
        Ok(again(|| self.file.metadata())?.len())
    }

    pub(crate) fn read_at(&self, at: u64, into: &mut [u8]) -> io::Result<usize>
        ensures { IfOk result (λ n. n ≤ length into.old) }
    {
        let mut count = 0;
        for _ in 0..u64::MAX {
            if count >= into.len() {
                return Ok(into.len());
            }
            let from = at.saturating_add(count as u64);
            match self.file.read_at(&mut into[count..], from) {
                Ok(0) => return Ok(count),
                Ok(more) => count += more,
                Err(error) if error.kind() == ErrorKind::Interrupted => {}
                Err(error) => return Err(error),
            }
        }
        Err(ErrorKind::Interrupted.into())
    }

    pub(crate) fn write_at(&mut self, at: u64, bytes: &[u8]) -> io::Result<()>
        ensures { self.new.unsynced ≡ true }
    {
        self.unsynced = true;
        self.file.write_all_at(bytes, at)
    }

    pub(crate) fn sync(&mut self) -> io::Result<()>
        ensures { OnOk result (self.new.unsynced ≡ false) }
    {
        if self.unsynced {
            self.file.sync_data()?;
            self.unsynced = false;
        }
        Ok(())
    }
}

// Opens a regular file that stands at a path, or makes one; a link is not followed.
fn open_or_make<R: Files>(rt: &R, path: &str) -> io::Result<R::File> {
    let mut options = OpenOptions::new();
    options
        .read(true)
        .write(true)
        .create_new(true)
        .mode(OWNER_ALONE);
    match options.open(rt, path) {
        Err(error) if error.kind() == ErrorKind::AlreadyExists => {
            // To open a pipe or a device may act on it.
            if !again(|| rt.symlink_metadata(path))?.is_file() {
                return Err(ErrorKind::InvalidInput.into());
            }
            options.create_new(false).open(rt, path)
        }
        made => made,
    }
}

// Takes the lock of an open file, and does not wait for it.
fn lock(fd: RawFd) -> io::Result<()> {
    if libc::flock(fd, libc::LOCK_EX | libc::LOCK_NB) == 0 {
        Ok(())
    } else {
        Err(Error::from_raw_os_error(os::errno()))
    }
}

// Has the kernel let go its copies of a file, so that reads come from the disk.
fn drop_pages(fd: RawFd) -> io::Result<()> {
    match libc::posix_fadvise(fd, 0, 0, libc::POSIX_FADV_DONTNEED) {
        0 => Ok(()),
        error => Err(Error::from_raw_os_error(error)),
    }
}

// Makes a call again where a signal interrupted it.
fn again<T: Drop, C: Fn() -> io::Result<T> + Drop>(call: C) -> io::Result<T>
    requires { C.IsAlwaysCallable call }
{
    for _ in 0..u64::MAX {
        match call() {
            Err(error) if error.kind() == ErrorKind::Interrupted => {}
            answer => return answer,
        }
    }
    Err(ErrorKind::Interrupted.into())
}
