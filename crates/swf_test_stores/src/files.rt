// Blocks of rows on a store over files: what is done in its folder, and what the store and its host answer.
//
// Each block works in a folder of its own. `! grudging` has every other call interrupted and the others do less than asked,
// `! hidden` has files give no descriptor behind a sync, so that the kernel can not be asked to let go its copies of them,
// `! fail-read 2` a read of the input fail, and `! room 4` leaves so much room for the output. `open .` opens a store in a
// folder, `console .` a host whose input is the file `input` and whose output is the file `output`, and `close` lets it go;
// `try .` only tells whether a store could be opened. `synced` tells whether a sync made sure of all that was written.
// `each-failure` has each call fail in turn. The other rows act on files by their names.
use crate::calls::called;
use crate::watched::{Manner, Watch, Watched};
use std::alloc::Global;
use std::env;
use std::fs::{self, Permissions};
use std::io::{self, BufReader, Read, Write};
use std::os::unix::fs::{PermissionsExt, symlink};
use std::rc::Rc;
use swf_host::ConsoleHost;
use swf_store::{Failed, File, FileStore, Store};
use swf_test_tables::{bytes_of, no_meaning, number_of, split};

/// The input of a host.
#[derive(Drop)]
struct Source {
    file: Option<fs::File>,
    manner: Manner,
    reads: u64,
}

impl Read for Source {
    fn read(&mut self, buf: &mut [u8]) -> io::Result<usize> {
        let number = self.reads;
        self.reads = number.wrapping_add(1);
        self.manner.call(number)?;
        let share = self.manner.share(buf.len(), 3);
        match &mut self.file {
            Some(file) => file.read(&mut buf[..share]),
            None => Ok(0),
        }
    }
}

/// The output of a host, and how many bytes there is still room for.
#[derive(Drop)]
struct Sink {
    file: Option<fs::File>,
    room: usize,
}

impl Write for Sink {
    fn write(&mut self, buf: &[u8]) -> io::Result<usize> {
        let share = buf.len().min(self.room);
        self.room = self.room.saturating_sub(share);
        match &mut self.file {
            Some(file) => file.write(&buf[..share]),
            None => Ok(0),
        }
    }

    fn flush(&mut self) -> io::Result<()> {
        Ok(())
    }
}

type Console = ConsoleHost<Watched, BufReader<Source>, Sink>;

/// What a block works with.
#[derive(Drop)]
struct Work {
    rt: HostRuntime,
    files: Manner,
    reads: Manner,
    room: usize,
    watch: Rc<Watch>,
    host: Option<Console>,
}

impl Work {
    fn new(rt: HostRuntime) -> io::Result<Work> {
        Ok(Work {
            rt,
            files: Manner::usual(),
            reads: Manner::usual(),
            room: usize::MAX,
            watch: Rc::new(rt.alloc(), Watch::new(Manner::usual()))?,
            host: None,
        })
    }

    // Does what stands behind a `!`.
    fn follow(&mut self, order: &str) -> io::Result<()> {
        let (word, rest) = order.split_once(' ').unwrap_or((order, ""));
        match word {
            "grudging" => {
                self.files.is_grudging = true;
                self.reads.is_grudging = true;
            }
            "hidden" => self.files.is_hidden = true,
            "fail-read" => self.reads.failing = number_of(rest)?,
            "room" => self.room = number_of(rest)? as usize,
            _ => return Err(no_meaning()),
        }
        Ok(())
    }

    // The files of the input and of the output.
    fn streams(&self) -> io::Result<(Option<fs::File>, Option<fs::File>)> {
        let input = fs::open(&self.rt, "input")?;
        let output = fs::create(&self.rt, "output")?;
        Ok((Some(input), Some(output)))
    }

    // The input that a host reads.
    fn reader(&self, file: Option<fs::File>) -> io::Result<BufReader<Source>> {
        let source = Source {
            file,
            manner: self.reads,
            reads: 0,
        };
        Ok(BufReader::with_capacity(self.rt.alloc(), 1000, source)?)
    }

    // A host over a store.
    fn console(&self, store: FileStore<Watched>, has_streams: bool) -> io::Result<Console> {
        let (input, output) = if has_streams {
            self.streams()?
        } else {
            (None, None)
        };
        let sink = Sink {
            file: output,
            room: self.room,
        };
        let reader = self.reader(input)?;
        Ok(ConsoleHost::new(self.rt.alloc(), store, reader, sink))
    }

    // Opens a store in a folder, and lets go of another.
    fn open(&mut self, folder: &str, has_streams: bool) -> io::Result<String> {
        let alloc = self.rt.alloc();
        self.host = None;
        self.watch = Rc::new(alloc, Watch::new(self.files))?;
        let rt = Watched::new(self.rt, &self.watch)?;
        let Ok(store) = FileStore::in_folder(rt, alloc, folder) else {
            return Ok(String::from_str(alloc, "refused")?);
        };
        self.host = Some(self.console(store, has_streams)?);
        Ok(String::from_str(alloc, "open")?)
    }

    // What the host answers to a call.
    fn called(&mut self, row: &str) -> io::Result<String> {
        let alloc = self.rt.alloc();
        if let Some(host) = &mut self.host {
            if let Some(answer) = called(alloc, host, row)? {
                return Ok(answer);
            }
        }
        Err(no_meaning())
    }

    // What comes of a row.
    fn answer(&mut self, row: &str) -> io::Result<String> {
        let alloc = self.rt.alloc();
        let (word, rest) = row.split_once(' ').unwrap_or((row, ""));
        match word {
            "open" => self.open(rest, false),
            "console" => self.open(rest, true),
            "close" => {
                self.host = None;
                Ok(String::from_str(alloc, "closed")?)
            }
            "try" => try_open(self.rt, rest),
            "synced" => Ok(format!(in alloc; "{}", self.watch.is_synced())?),
            "each-failure" => each_failure(self.rt),
            "cat" | "exists" | "mode" => look(self.rt, word, rest),
            "size" | "read" | "write" | "sync" | "next" | "next-work" | "say" | "give" =>
                self.called(row),
            _ => change(self.rt, word, rest),
        }
    }
}

// Whether a store could be opened in a folder.
fn try_open(rt: HostRuntime, folder: &str) -> io::Result<String> {
    let alloc = rt.alloc();
    let told = match FileStore::in_folder(rt, alloc, folder) {
        Ok(_) => "open",
        Err(_) => "refused",
    };
    Ok(String::from_str(alloc, told)?)
}

// What there is of a name.
fn look(rt: HostRuntime, word: &str, name: &str) -> io::Result<String> {
    let alloc = rt.alloc();
    Ok(match word {
        "cat" => hex::encode(alloc, fs::read(&rt, name)?.as_slice())?,
        "exists" => format!(in alloc; "{}", fs::exists(&rt, name)?)?,
        "mode" => {
            let mode = fs::metadata(&rt, name)?.permissions().mode() & 0o7777;
            format!(in alloc; "{mode:o}")?
        }
        _ => return Err(no_meaning()),
    })
}

// Adds a piece to a file, so often.
fn add(rt: HostRuntime, row: &str) -> io::Result<()> {
    let (name, rest) = split(row)?;
    let (count, piece) = split(rest)?;
    let piece = bytes_of(rt.alloc(), piece)?;
    let mut bytes = Vec::new(rt.alloc());
    for _ in 0..number_of(count)? {
        bytes.extend_from_slice(&piece)?;
    }
    let mut options = fs::OpenOptions::new();
    options.append(true).create(true);
    options.open(&rt, name)?.write_all(&bytes)
}

// Gives a file other permissions.
fn permit(rt: HostRuntime, row: &str) -> io::Result<()> {
    let (name, mode) = split(row)?;
    match u32::from_str_radix(mode, 8) {
        Ok(mode) => fs::set_permissions(&rt, name, Permissions::from_mode(mode)),
        Err(_) => Err(no_meaning()),
    }
}

// Makes, changes or removes what has a name, or closes a standard stream.
fn change(rt: HostRuntime, word: &str, rest: &str) -> io::Result<String> {
    let alloc = rt.alloc();
    match word {
        "add" => add(rt, rest)?,
        "chmod" => permit(rt, rest)?,
        "link" => {
            let (target, name) = split(rest)?;
            symlink(&rt, target, name)?;
        }
        "remove" => fs::remove_file(&rt, rest)?,
        "mkdir" => fs::create_dir(&rt, rest)?,
        "rmdir" => fs::remove_dir(&rt, rest)?,
        "close-input" => return Ok(format!(in alloc; "{}", libc::close(0))?),
        "close-errors" => return Ok(format!(in alloc; "{}", libc::close(2))?),
        _ => return Err(no_meaning()),
    }
    Ok(String::from_str(alloc, "done")?)
}

const FILES: [File; 3] = [File::Journal, File::Snap0, File::Snap1];

// Writes each file at its start and syncs after each; it gives how many were acknowledged by a sync.
fn write_all<S: Store>(store: &mut S, text: &[u8]) -> usize {
    for (done, file) in FILES.into_iter().enumerate() {
        if store.write_at(file, 0, text).is_err() || store.sync().is_err() {
            return done;
        }
    }
    FILES.len()
}

// What a file has from its third byte on.
fn rest_of<S: Store>(alloc: Global, store: &mut S, file: File) -> io::Result<Vec<u8>> {
    let mut into = vec![in alloc; 0; 16]?;
    match store.read_at(file, 2, into.as_mut_slice()) {
        Ok(count) => {
            into.truncate(count);
            Ok(into)
        }
        Err(_) => Err(no_meaning()),
    }
}

// Each call of the store fails.
fn has_ended<S: Store>(store: &mut S) -> bool {
    FILES.into_iter().all(|file| {
        store.size(file) == Err(Failed)
            && store.read_at(file, 0, &mut [0]) == Err(Failed)
            && store.write_at(file, 0, b"z") == Err(Failed)
            && store.sync() == Err(Failed)
    })
}

/// What became of a run in which the call of some number fails, if there is one.
#[derive(Drop)]
struct Ending {
    failed: bool,
    // How many writes were acknowledged.
    done: usize,
    // The store ended with that call, and asked for no more.
    is_right: bool,
}

// Writes files, where the call of a number fails.
fn run_failing(rt: HostRuntime, number: u64, text: &[u8]) -> io::Result<Ending> {
    let manner = Manner {
        failing: number,
        ..Manner::usual()
    };
    let watch = Rc::new(rt.alloc(), Watch::new(manner))?;
    let mut done = 0;
    let mut is_right = true;
    if let Ok(mut store) = FileStore::in_folder(Watched::new(rt, &watch)?, rt.alloc(), "") {
        done = write_all(&mut store, text);
        let calls = watch.calls.get();
        if watch.has_failed() {
            is_right = done < 3 && has_ended(&mut store) && watch.calls.get() == calls;
        } else {
            is_right = done == 3;
        }
    }
    let failed = watch.has_failed();
    Ok(Ending {
        failed,
        done,
        is_right,
    })
}

// Whether another store reads the first files as they were written.
fn reads_again(rt: HostRuntime, done: usize, text: &[u8]) -> io::Result<bool> {
    let Ok(mut again) = FileStore::in_folder(rt, rt.alloc(), "") else {
        return Ok(false);
    };
    let rest = text.get(2..).unwrap_or(&[]);
    let mut is_right = true;
    for file in FILES.into_iter().take(done) {
        is_right &= rest_of(rt.alloc(), &mut again, file)?.as_slice() == rest;
    }
    Ok(is_right)
}

// Has one call fail after the other, until none does: how many runs were not right, and whether there were ten or more.
fn each_failure(rt: HostRuntime) -> io::Result<String> {
    let mut wrong = 0u64;
    for number in 0..100u64 {
        let text = [b'a' + (number % 26) as u8; 5];
        let ending = run_failing(rt, number, text.as_slice())?;
        let again = reads_again(rt, ending.done, text.as_slice())?;
        wrong = wrong.saturating_add(u64::from(!ending.is_right || !again));
        if !ending.failed {
            let are_ten = number >= 10;
            return Ok(format!(in rt.alloc(); "{wrong} wrong, ten or more {are_ten}")?);
        }
    }
    Err(no_meaning())
}

// A row with what came of it, on a line of its own.
fn add_row(work: &mut Work, row: &str, all: &mut String) -> io::Result<()> {
    if let Some(order) = row.strip_prefix("! ") {
        work.follow(order)?;
    }
    if row.starts_with('#') || row.starts_with('!') {
        all.push_str(row)?;
        all.push_str("\n")?;
    } else if !row.is_empty() {
        let answer = work.answer(row)?;
        let line = format!(in work.rt.alloc(); "{row} => {answer}\n")?;
        all.push_str(line.as_str())?;
    }
    Ok(())
}

fn add_rows(work: &mut Work, block: &str, all: &mut String) -> io::Result<()> {
    for row in block.split('\n') {
        add_row(work, row, all)?;
    }
    Ok(())
}

/// The rows of a block, each with what came of it.
pub(crate) fn told(rt: HostRuntime, block: &str) -> io::Result<String> {
    let mut work = Work::new(rt)?;
    let mut all = String::new(rt.alloc());
    add_rows(&mut work, block, &mut all)?;
    Ok(all)
}

/// The rows of a block, in a folder of their own.
pub(crate) fn told_in(rt: HostRuntime, folder: &str, block: &str) -> io::Result<String> {
    fs::create_dir(&rt, folder)?;
    env::set_current_dir(&rt, folder)?;
    let told = told(rt, block)?;
    env::set_current_dir(&rt, "..")?;
    Ok(told)
}
