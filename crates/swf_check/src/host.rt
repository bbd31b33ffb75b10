// A host over a reader and a writer, without a store: all that is read is one Ask.
ghost use Rattle.std.specs.Prelude.{◌≡◌, true, false, IfOk};
ghost use Rattle.swf_store.specs.Faults.{RoseOnce};
ghost use Rattle.swf_host.specs.Taken.{is_awaited};
ghost use Rattle.swf_check.specs.WholeHost.{own_faults, missed};

use std::alloc::Global;
use std::io::{self, BufRead, ErrorKind, Write};
use swf_host::{Host, Input, MOST_LINE};
use swf_store::{Failed, File, Store};
use swf_text::Bytes;

/// A host over a buffered reader and a writer, as standard input and output. Its store fails at every call. It tells nothing
/// of contents.
#[derive(Drop)]
pub struct WholeHost<R, W> {
    alloc: Global,
    reader: R,
    writer: W,
    faults: u64,
    /// How often its store was called.
    missed: u64,
}

impl<R: BufRead, W: Write> WholeHost<R, W> {
    /// A host over these two. It takes no memory.
    pub fn new(alloc: Global, reader: R, writer: W) -> WholeHost<R, W>
        ensures faults { own_faults result ≡ 0 }
        ensures missed { missed result ≡ 0 }
    {
        WholeHost {
            alloc,
            reader,
            writer,
            faults: 0,
            missed: 0,
        }
    }

    fn miss(&mut self) -> Failed
        ensures own { own_faults self.new ≡ own_faults self.old }
        ensures rose { RoseOnce (missed self.old) (missed self.new) }
    {
        self.missed = self.missed.saturating_add(1);
        Failed
    }
}

// Reads to the end, unless that is more than a document may have.
fn read_whole<W, R: BufRead>(alloc: Global, reader: &mut R) -> io::Result<Input<W>>
    ensures { IfOk result (λ input. is_awaited false input ≡ true) }
{
    let mut bytes = Vec::new(alloc);
    for _ in 0..u64::MAX {
        let at_hand = match reader.fill_buf() {
            Ok(at_hand) => at_hand,
            Err(error) if error.kind() == ErrorKind::Interrupted => continue,
            Err(error) => return Err(error),
        };
        if at_hand.is_empty() {
            break;
        }
        if at_hand.len() > MOST_LINE.saturating_sub(bytes.len()) {
            return Ok(Input::TooLong(0));
        }
        bytes.extend_from_slice(at_hand)?;
        let used = at_hand.len();
        reader.consume(used);
    }
    Ok(Input::Ask(0, Bytes::of(bytes)))
}

fn write_out<W: Write>(writer: &mut W, bytes: &[u8]) -> io::Result<()> {
    writer.write_all(bytes)?;
    writer.flush()
}

impl<R: BufRead, W: Write> Store for WholeHost<R, W> {
    ghost use Rattle.std.specs.Prelude.{ℕ, None};
    ghost use Rattle.swf_store.specs.FileState.{AnyImage};
    ghost use Rattle.swf_store.specs.Said.{untold};
    ghost use Rattle.swf_check.specs.WholeHost.{own_faults, missed};

    ghost seen = { λ _. None };

    ghost said = { λ _. None };

    ghost calls = { λ _. None };

    ghost store_faults = { missed };

    ghost moment = { λ _. 0 };

    ghost may_leave = { λ _. AnyImage };

    ghost left_since = { λ _ _ _ _. Unit {0} };

    ghost Beside = { ℕ };

    ghost beside = { own_faults };

    ghost counts_now = { λ _ _ _ _ _ _ _. tt };

    ghost only_now = { λ _ _ pieces _. (tt, untold pieces) };

    ghost reads_may_be_left = { λ _ _ _. tt };

    fn size(&mut self, _file: File) -> Result<u64, Failed> {
        Err(self.miss())
    }

    fn read_at(&mut self, _file: File, _at: u64, _into: &mut [u8]) -> Result<usize, Failed> {
        Err(self.miss())
    }

    fn write_at(&mut self, _file: File, _at: u64, _bytes: &[u8]) -> Result<(), Failed> {
        Err(self.miss())
    }

    fn sync(&mut self) -> Result<(), Failed> {
        Err(self.miss())
    }
}

impl<G: Drop, D: Drop, R: BufRead, W: Write> Host<G, D> for WholeHost<R, W> {
    ghost use Rattle.std.specs.Prelude.{None, Some, [], refl};
    ghost use Rattle.swf_check.specs.WholeHost.{own_faults};

    ghost taken = { λ _. None };

    ghost given = { λ _. Some [] };

    ghost host_faults = { own_faults };

    ghost beside_taken = { λ _ _ _. refl };

    ghost beside_given = { λ _ _ _. refl };

    ghost beside_faults = { λ _ _ same. same };

    fn next(&mut self, only_work: bool) -> Result<Input<D>, Failed> {
        if only_work {
            return Ok(Input::Idle);
        }
        match read_whole(self.alloc, &mut self.reader) {
            Ok(input) => Ok(input),
            Err(_) => {
                self.faults = self.faults.saturating_add(1);
                Err(Failed)
            }
        }
    }

    fn say(&mut self, _conn: u64, bytes: &[u8]) -> Result<(), Failed> {
        match write_out(&mut self.writer, bytes) {
            Ok(()) => Ok(()),
            Err(_) => {
                self.faults = self.faults.saturating_add(1);
                Err(Failed)
            }
        }
    }

    fn give(&mut self, job: G) -> Result<(), G> {
        Err(job)
    }
}
