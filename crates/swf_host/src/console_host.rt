// A host over three files, a reader and a writer: one line an input, one line a reply.
ghost use Rattle.std.specs.Prelude.{◌≡◌, true, false, IfOk};
ghost use Rattle.swf_host.specs.Console.{files_of, console_faults};
ghost use Rattle.swf_host.specs.Taken.{is_awaited};

use crate::{Host, Input};
use std::alloc::{AllocError, Global};
use std::fs::Files;
use std::io::{self, BufRead, ErrorKind, Write};
use std::os::fd::AsRawFd;
use std::os::unix::fs::FileExt;
use swf_store::{Failed, File, FileStore, Store};
use swf_text::Bytes;

/// The most bytes that a line may have, its newline left out.
pub const MOST_LINE: usize = 1_048_576;

/// A host over files and over a buffered reader and a writer, as standard input and output. It tells nothing of contents.
#[derive(Drop)]
pub struct ConsoleHost<F: Files, R, W> {
    alloc: Global,
    store: FileStore<F>,
    reader: R,
    writer: W,
    faults: u64,
}

// How far a line has been read.
enum Reading {
    /// The line goes on.
    More,
    /// Its newline was read.
    Whole,
    /// The reader is at its end.
    End,
}

impl<F: Files, R: BufRead, W: Write> ConsoleHost<F, R, W>
where
    F::File: FileExt + AsRawFd,
{
    /// A host over these three. It takes no memory.
    pub fn new(alloc: Global, store: FileStore<F>, reader: R, writer: W) -> ConsoleHost<F, R, W>
        ensures store { files_of result ≡ store }
        ensures faults { console_faults result ≡ 0 }
    {
        ConsoleHost {
            alloc,
            store,
            reader,
            writer,
            faults: 0,
        }
    }
}

// Reads up to the newline of a line. No more of it is kept than a line may have.
fn read_line<W, R: BufRead>(alloc: Global, reader: &mut R) -> io::Result<Input<W>>
    ensures { IfOk result (λ input. is_awaited false input ≡ true) }
{
    let mut line = Vec::new(alloc);
    let mut begun = false;
    let mut too_long = false;
    for _ in 0..u64::MAX {
        let reading = read_part(reader, &mut line, &mut begun, &mut too_long)?;
        match reading {
            Reading::More => {}
            Reading::Whole => break,
            Reading::End => {
                if !begun {
                    return Ok(Input::Closed);
                }
                break;
            }
        }
    }
    if too_long {
        return Ok(Input::TooLong(0));
    }
    Ok(Input::Ask(0, Bytes::of(line)))
}

fn write_out<W: Write>(writer: &mut W, bytes: &[u8]) -> io::Result<()> {
    writer.write_all(bytes)?;
    writer.flush()
}

// Keeps a part of a line, unless the line becomes too long with it.
fn keep_part(part: &[u8], line: &mut Vec<u8>, too_long: &mut bool) -> Result<(), AllocError> {
    if *too_long || part.len() > MOST_LINE.saturating_sub(line.len()) {
        *too_long = true;
        line.clear();
        return Ok(());
    }
    line.extend_from_slice(part)?;
    Ok(())
}

// Reads what the reader has at hand of a line, which is nothing where a signal interrupted it.
fn read_part<R: BufRead>(
    reader: &mut R,
    line: &mut Vec<u8>,
    begun: &mut bool,
    too_long: &mut bool,
) -> io::Result<Reading> {
    let at_hand = match reader.fill_buf() {
        Ok(bytes) => bytes,
        Err(error) if error.kind() == ErrorKind::Interrupted => return Ok(Reading::More),
        Err(error) => return Err(error),
    };
    if at_hand.is_empty() {
        return Ok(Reading::End);
    }
    *begun = true;
    let end = at_hand.iter().position(|b| *b == b'\n');
    let part = match end {
        Some(place) => &at_hand[..place],
        None => at_hand,
    };
    let used = part.len();
    keep_part(part, line, too_long)?;
    match end {
        Some(_) => {
            reader.consume(used.saturating_add(1));
            Ok(Reading::Whole)
        }
        None => {
            reader.consume(used);
            Ok(Reading::More)
        }
    }
}

impl<F: Files, R: BufRead, W: Write> Store for ConsoleHost<F, R, W>
where
    F::File: FileExt + AsRawFd,
{
    ghost use Rattle.std.specs.Prelude.{ℕ, None};
    ghost use Rattle.swf_store.specs.FileState.{AnyImage};
    ghost use Rattle.swf_store.specs.Said.{untold};
    ghost use Rattle.swf_host.specs.Console.{files_of, console_faults};

    ghost seen = { λ _. None };

    ghost said = { λ _. None };

    ghost calls = { λ _. None };

    ghost store_faults = { λ host. ⟦<FileStore<F> as Store>⟧.store_faults (files_of host) };

    ghost moment = { λ _. 0 };

    ghost may_leave = { λ _. AnyImage };

    ghost left_since = { λ _ _ _ _. Unit {0} };

    ghost Beside = { ℕ };

    ghost beside = { console_faults };

    ghost counts_now = { λ _ _ _ _ _ _ _. tt };

    ghost only_now = { λ _ _ pieces _. (tt, untold pieces) };

    ghost reads_may_be_left = { λ _ _ _. tt };

    fn size(&mut self, file: File) -> Result<u64, Failed> {
        self.store.size(file)
    }

    fn read_at(&mut self, file: File, at: u64, into: &mut [u8]) -> Result<usize, Failed> {
        self.store.read_at(file, at, into)
    }

    fn write_at(&mut self, file: File, at: u64, bytes: &[u8]) -> Result<(), Failed> {
        self.store.write_at(file, at, bytes)
    }

    fn sync(&mut self) -> Result<(), Failed> {
        self.store.sync()
    }
}

impl<G: Drop, D: Drop, F: Files, R: BufRead, W: Write> Host<G, D> for ConsoleHost<F, R, W>
where
    F::File: FileExt + AsRawFd,
{
    ghost use Rattle.std.specs.Prelude.{None, Some, [], refl};
    ghost use Rattle.swf_host.specs.Console.{console_faults};

    ghost taken = { λ _. None };

    ghost given = { λ _. Some [] };

    ghost host_faults = { console_faults };

    ghost beside_taken = { λ _ _ _. refl };

    ghost beside_given = { λ _ _ _. refl };

    ghost beside_faults = { λ _ _ same. same };

    fn next(&mut self, only_work: bool) -> Result<Input<D>, Failed> {
        if only_work {
            return Ok(Input::Idle);
        }
        match read_line(self.alloc, &mut self.reader) {
            Ok(input) => Ok(input),
            Err(_) => {
                self.faults = self.faults.saturating_add(1);
                Err(Failed)
            }
        }
    }

    fn say(&mut self, _conn: u64, bytes: &[u8]) -> Result<(), Failed> {
        match write_out(&mut self.writer, bytes) {
            Ok(()) => Ok(()),
            Err(_) => {
                self.faults = self.faults.saturating_add(1);
                Err(Failed)
            }
        }
    }

    fn give(&mut self, job: G) -> Result<(), G> {
        Err(job)
    }
}
