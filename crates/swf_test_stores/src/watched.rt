// The real file system, watched: which files hold what no sync made sure of, and which call fails.
ghost use Rattle.std.specs.Prelude.{◌≤◌};

use std::alloc::{AllocError, Allocator};
use std::cell::Cell;
use std::fs::{self, Files, Metadata, OpenFile, OpenOptions, Permissions};
use std::io::{self, Empty, ErrorKind, Read, Seek, SeekFrom, Write};
use std::os::fd::{AsRawFd, RawFd};
use std::os::unix::fs::FileExt;
use std::rc::Rc;

/// No open file has this descriptor, though it is not one of a standard stream.
const NO_DESCRIPTOR: RawFd = 1_000_000_000;

/// What becomes of calls: the one of a number fails; where they are grudging, every other one is interrupted, and the others
/// do less than asked; and where they are hidden, a file gives no descriptor once a sync has made sure of it.
#[derive(Clone, Copy)]
pub(crate) struct Manner {
    pub failing: u64,
    pub is_grudging: bool,
    pub is_hidden: bool,
}

impl Manner {
    /// No call fails.
    pub(crate) fn usual() -> Manner {
        Manner {
            failing: u64::MAX,
            is_grudging: false,
            is_hidden: false,
        }
    }

    /// What becomes of the call of this number.
    pub(crate) fn call(self, number: u64) -> io::Result<()> {
        if number == self.failing {
            return Err(ErrorKind::Other.into());
        }
        if self.is_grudging && number % 2 == 0 {
            return Err(ErrorKind::Interrupted.into());
        }
        Ok(())
    }

    /// How many of so many bytes a call takes.
    pub(crate) fn share(self, len: usize, most: usize) -> usize
        ensures { result ≤ len }
    {
        if self.is_grudging { len.min(most) } else { len }
    }
}

// What of a store is opened.
#[derive(Clone, Copy)]
enum Place {
    Journal,
    Snap0,
    Snap1,
    Folder,
}

impl Place {
    fn of(path: &str) -> Place {
        if path.ends_with("/swf.journal") {
            Place::Journal
        } else if path.ends_with("/swf.snap0") {
            Place::Snap0
        } else if path.ends_with("/swf.snap1") {
            Place::Snap1
        } else {
            Place::Folder
        }
    }
}

// Which files may hold what no sync has made sure of. What an earlier run wrote is such.
#[derive(Drop)]
pub(crate) struct Watch {
    manner: Manner,
    pub(crate) calls: Cell<u64>,
    journal: Cell<bool>,
    snap0: Cell<bool>,
    snap1: Cell<bool>,
    folder: Cell<bool>,
}

impl Watch {
    pub(crate) fn new(manner: Manner) -> Watch {
        Watch {
            manner,
            calls: Cell::new(0),
            journal: Cell::new(true),
            snap0: Cell::new(true),
            snap1: Cell::new(true),
            folder: Cell::new(true),
        }
    }

    // The folder and each file are synced.
    pub(crate) fn is_synced(&self) -> bool {
        !(self.journal.get() || self.snap0.get() || self.snap1.get() || self.folder.get())
    }

    fn unsynced(&self, place: Place) -> &Cell<bool> {
        match place {
            Place::Journal => &self.journal,
            Place::Snap0 => &self.snap0,
            Place::Snap1 => &self.snap1,
            Place::Folder => &self.folder,
        }
    }

    // The call was made that was to fail.
    pub(crate) fn has_failed(&self) -> bool {
        self.manner.failing < self.calls.get()
    }

    fn call(&self) -> io::Result<()> {
        let number = self.calls.get();
        self.calls.set(number.wrapping_add(1));
        self.manner.call(number)
    }
}

#[derive(Drop)]
pub(crate) struct Watched {
    host: HostRuntime,
    watch: Rc<Watch>,
}

impl Watched {
    pub(crate) fn new(host: HostRuntime, watch: &Rc<Watch>) -> Result<Watched, AllocError> {
        let watch = Rc::clone(watch)?;
        Ok(Watched { host, watch })
    }
}

#[derive(Drop)]
pub(crate) struct WatchedFile {
    file: fs::File,
    watch: Rc<Watch>,
    place: Place,
}

impl FileExt for WatchedFile {
    fn read_at(&self, buf: &mut [u8], offset: u64) -> io::Result<usize> {
        self.watch.call()?;
        let share = self.watch.manner.share(buf.len(), 1);
        self.file.read_at(&mut buf[..share], offset)
    }

    fn write_at(&self, buf: &[u8], offset: u64) -> io::Result<usize> {
        self.watch.call()?;
        self.watch.unsynced(self.place).set(true);
        let share = self.watch.manner.share(buf.len(), 1);
        self.file.write_at(&buf[..share], offset)
    }
}

impl OpenFile for WatchedFile {
    fn metadata(&self) -> io::Result<Metadata> {
        self.watch.call()?;
        self.file.metadata()
    }

    fn set_len(&self, size: u64) -> io::Result<()> {
        self.file.set_len(size)
    }

    fn sync_all(&self) -> io::Result<()> {
        if !self.watch.manner.is_grudging {
            self.watch.call()?;
        }
        self.watch.unsynced(self.place).set(false);
        self.file.sync_all()
    }

    fn sync_data(&self) -> io::Result<()> {
        self.sync_all()
    }

    fn set_permissions(&self, perm: Permissions) -> io::Result<()> {
        self.file.set_permissions(perm)
    }

    fn try_clone(&self) -> io::Result<WatchedFile> {
        Ok(WatchedFile {
            file: self.file.try_clone()?,
            watch: Rc::clone(&self.watch)?,
            place: self.place,
        })
    }
}

impl AsRawFd for WatchedFile {
    fn as_raw_fd(&self) -> RawFd {
        if self.watch.manner.is_hidden && !self.watch.unsynced(self.place).get() {
            return NO_DESCRIPTOR;
        }
        self.file.as_raw_fd()
    }
}

impl Read for WatchedFile {
    fn read(&mut self, buf: &mut [u8]) -> io::Result<usize> {
        self.file.read(buf)
    }
}

impl Write for WatchedFile {
    fn write(&mut self, buf: &[u8]) -> io::Result<usize> {
        self.file.write(buf)
    }

    fn flush(&mut self) -> io::Result<()> {
        Ok(())
    }
}

impl Seek for WatchedFile {
    fn seek(&mut self, to: SeekFrom) -> io::Result<u64> {
        self.file.seek(to)
    }
}

impl Files for Watched {
    type File = WatchedFile;

    type Dir = Empty;

    fn open_file(&self, how: &OpenOptions, path: &str) -> io::Result<WatchedFile> {
        Ok(WatchedFile {
            file: self.host.open_file(how, path)?,
            watch: Rc::clone(&self.watch)?,
            place: Place::of(path),
        })
    }

    fn metadata(&self, path: &str) -> io::Result<Metadata> {
        self.host.metadata(path)
    }

    fn symlink_metadata(&self, path: &str) -> io::Result<Metadata> {
        self.host.symlink_metadata(path)
    }

    // What a store has no use for.
    fn open_dir(&self, _path: &str) -> io::Result<Empty> {
        Err(ErrorKind::Unsupported.into())
    }

    fn copy(&self, _from: &str, _to: &str) -> io::Result<u64> {
        Err(ErrorKind::Unsupported.into())
    }

    fn rename(&self, _from: &str, _to: &str) -> io::Result<()> {
        Err(ErrorKind::Unsupported.into())
    }

    fn remove_file(&self, _path: &str) -> io::Result<()> {
        Err(ErrorKind::Unsupported.into())
    }

    fn create_dir(&self, _path: &str) -> io::Result<()> {
        Err(ErrorKind::Unsupported.into())
    }

    fn remove_dir(&self, _path: &str) -> io::Result<()> {
        Err(ErrorKind::Unsupported.into())
    }

    fn remove_dir_all<B: Allocator>(&self, _alloc: B, _path: &str) -> io::Result<()> {
        Err(ErrorKind::Unsupported.into())
    }
}
