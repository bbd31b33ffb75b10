// Blocks of rows on a host in memory: how it is made, and the rows that look at it and at what a stop may leave.
//
// `! journal A5` gives the bytes of its journal, `! fail store 3` has a call fail, `! ask 7 78`, `! too-long 8` and `! work 9` are inputs.
// `holds` is the journal as reads give it; `calls`, `inputs` and `lacks` are counts; `jobs` is each job that was given; `said` is each
// piece with its connection, and how many inputs and calls came before. `images 3` and `frames 3` tell of each image that a stop after three calls may
// leave: its journal, and how many frames that has. `stops-again 3` opens each image that a stop after three calls or later
// leaves, appends a frame, and opens each that a stop of this leaves.
use crate::calls::{Number, called};
use crate::journal::{append_frames, open};
use std::alloc::{AllocError, Global};
use std::io;
use swf_host::{Input, MemoryHost, Turn};
use swf_store::{File, Image, MemoryStore};
use swf_test_tables::{bytes_of, no_meaning, number_of, split};
use swf_text::Bytes;

type TestHost = MemoryHost<Number, Number>;

/// What a host is made of.
#[derive(Drop)]
struct Setup {
    journal: Vec<u8>,
    failing_store: Vec<u64>,
    failing_next: Vec<u64>,
    failing_say: Vec<u64>,
    script: Vec<Turn<Number>>,
}

impl Setup {
    fn new(alloc: Global) -> Setup {
        Setup {
            journal: Vec::new(alloc),
            failing_store: Vec::new(alloc),
            failing_next: Vec::new(alloc),
            failing_say: Vec::new(alloc),
            script: Vec::new(alloc),
        }
    }

    fn fail(&mut self, row: &str) -> io::Result<()> {
        let (kind, number) = split(row)?;
        let number = number_of(number)?;
        match kind {
            "store" => self.failing_store.push(number)?,
            "next" => self.failing_next.push(number)?,
            "say" => self.failing_say.push(number)?,
            _ => return Err(no_meaning()),
        }
        Ok(())
    }

    fn ask(&mut self, alloc: Global, row: &str) -> io::Result<()> {
        let (connection, line) = split(row)?;
        let line = Bytes::of(bytes_of(alloc, line)?);
        let input = Input::Ask(number_of(connection)?, line);
        Ok(self.script.push(Turn::In(input))?)
    }

    fn add(&mut self, alloc: Global, row: &str) -> io::Result<()> {
        let (word, rest) = row.split_once(' ').unwrap_or((row, ""));
        match word {
            "journal" => {
                self.journal = bytes_of(alloc, rest)?;
                Ok(())
            }
            "fail" => self.fail(rest),
            "ask" => self.ask(alloc, rest),
            "too-long" => {
                let input = Input::TooLong(number_of(rest)?);
                Ok(self.script.push(Turn::In(input))?)
            }
            "work" => {
                let input = Input::Work(Number(number_of(rest)?));
                Ok(self.script.push(Turn::In(input))?)
            }
            _ => Err(no_meaning()),
        }
    }
}

// The host that the rows of a block make.
fn host_of(alloc: Global, block: &str) -> io::Result<TestHost> {
    let mut setup = Setup::new(alloc);
    for row in block.split('\n') {
        if let Some(order) = row.strip_prefix("! ") {
            setup.add(alloc, order)?;
        }
    }
    let mut image = Image::empty(alloc);
    image.journal = Bytes::of(setup.journal);
    let store = MemoryStore::new(alloc, image, setup.failing_store);
    Ok(MemoryHost::new(
        alloc,
        store,
        setup.script,
        setup.failing_next,
        setup.failing_say,
    ))
}

fn add_piece(text: &mut String, piece: &str) -> Result<(), AllocError> {
    text.push_str(piece)?;
    text.push_str(";")
}

// The pieces that were said.
fn said(alloc: Global, host: &TestHost) -> Result<String, AllocError> {
    let mut all = String::new(alloc);
    for piece in host.said() {
        let bytes = hex::encode(alloc, piece.bytes.as_slice())?;
        let piece = format!(in alloc; "{} {bytes} {} {}", piece.conn, piece.inputs, piece.calls)?;
        add_piece(&mut all, piece.as_str())?;
    }
    Ok(all)
}

// The jobs that were given.
fn jobs(alloc: Global, host: &TestHost) -> Result<String, AllocError> {
    let mut all = String::new(alloc);
    for Number(number) in host.given() {
        let number = format!(in alloc; "{number}")?;
        add_piece(&mut all, number.as_str())?;
    }
    Ok(all)
}

// What a stop after so many calls may leave.
fn images_after(alloc: Global, store: &MemoryStore, calls: u64) -> Result<Vec<Image>, AllocError> {
    match store.images(alloc, calls) {
        Ok(images) => Ok(images),
        Err(_) => Err(AllocError),
    }
}

fn images(alloc: Global, store: &MemoryStore, calls: u64) -> Result<String, AllocError> {
    let mut all = String::new(alloc);
    for image in images_after(alloc, store, calls)?.iter() {
        let journal = hex::encode(alloc, image.file(File::Journal))?;
        add_piece(&mut all, journal.as_str())?;
    }
    Ok(all)
}

// A store over a copy of an image.
fn store_over(alloc: Global, image: &Image) -> Result<MemoryStore, AllocError> {
    Ok(MemoryStore::new(alloc, image.copy(alloc)?, Vec::new(alloc)))
}

// How many frames the journal of an image has; the greatest number where it is not opened.
fn frames_in(alloc: Global, image: &Image) -> Result<u64, AllocError> {
    let mut store = store_over(alloc, image)?;
    match open(alloc, &mut store) {
        Ok(opened) => Ok(opened.1),
        Err(_) => Ok(u64::MAX),
    }
}

fn frames(alloc: Global, store: &MemoryStore, calls: u64) -> Result<String, AllocError> {
    let mut all = String::new(alloc);
    for image in images_after(alloc, store, calls)?.iter() {
        let frames = frames_in(alloc, image)?;
        let frames = format!(in alloc; "{frames}")?;
        add_piece(&mut all, frames.as_str())?;
    }
    Ok(all)
}

/// How many images were opened, and how many of them had other frames than they may.
#[derive(Clone, Copy)]
struct Tried {
    images: u64,
    wrong: u64,
}

impl Tried {
    fn nothing() -> Tried {
        Tried {
            images: 0,
            wrong: 0,
        }
    }

    // One image more, which may have so many frames, or one more.
    fn count(&mut self, found: u64, frames: u64) {
        self.images = self.images.saturating_add(1);
        if found != frames && found != frames.saturating_add(1) {
            self.wrong = self.wrong.saturating_add(1);
        }
    }
}

// Opens what a stop after each call of a store leaves, which had so many frames before its last append.
fn count_stops(
    alloc: Global,
    store: &MemoryStore,
    frames: u64,
    tried: &mut Tried,
) -> Result<(), AllocError> {
    for calls in 0..store.calls().len() {
        for left in images_after(alloc, store, calls as u64)?.iter() {
            tried.count(frames_in(alloc, left)?, frames);
        }
    }
    Ok(())
}

// Opens an image of two frames or three, appends one, and opens what each stop of that leaves.
fn stop_again(alloc: Global, image: &Image, tried: &mut Tried) -> Result<(), AllocError> {
    let mut store = store_over(alloc, image)?;
    let Ok(session) = append_frames(alloc, &mut store, 1, b"more".as_slice()) else {
        tried.count(u64::MAX, 0);
        return Ok(());
    };
    tried.count(session.found, 2);
    count_stops(alloc, &store, session.found, tried)
}

// The same of each image that a stop after so many calls, or after more, leaves.
fn stops_again(alloc: Global, store: &MemoryStore, from: u64) -> Result<String, AllocError> {
    let mut tried = Tried::nothing();
    for calls in from..store.calls().len() as u64 {
        for image in images_after(alloc, store, calls)?.iter() {
            stop_again(alloc, image, &mut tried)?;
        }
    }
    let Tried { images, wrong } = tried;
    format!(in alloc; "{images} images, {wrong} wrong")
}

fn count_text(alloc: Global, count: usize) -> Result<String, AllocError> {
    format!(in alloc; "{count}")
}

// What a row tells of a host.
fn look(alloc: Global, host: &TestHost, row: &str) -> io::Result<String> {
    let (word, rest) = row.split_once(' ').unwrap_or((row, ""));
    let store = host.store();
    let told = match word {
        "holds" => hex::encode(alloc, store.image().file(File::Journal))?,
        "calls" => count_text(alloc, store.calls().len())?,
        "inputs" => count_text(alloc, host.taken().len())?,
        "jobs" => jobs(alloc, host)?,
        "lacks" => format!(in alloc; "{} {}", host.lacks(), store.lacks())?,
        "said" => said(alloc, host)?,
        "images" => images(alloc, store, number_of(rest)?)?,
        "frames" => frames(alloc, store, number_of(rest)?)?,
        "stops-again" => stops_again(alloc, store, number_of(rest)?)?,
        _ => return Err(no_meaning()),
    };
    Ok(told)
}

fn answer(alloc: Global, host: &mut TestHost, row: &str) -> io::Result<String> {
    match called(alloc, host, row)? {
        Some(answer) => Ok(answer),
        None => look(alloc, host, row),
    }
}

// A row with what came of it, on a line of its own.
fn add_row(alloc: Global, host: &mut TestHost, row: &str, all: &mut String) -> io::Result<()> {
    if row.starts_with('#') || row.starts_with('!') {
        all.push_str(row)?;
        all.push_str("\n")?;
    } else if !row.is_empty() {
        let answer = answer(alloc, host, row)?;
        let line = format!(in alloc; "{row} => {answer}\n")?;
        all.push_str(line.as_str())?;
    }
    Ok(())
}

fn add_rows(alloc: Global, host: &mut TestHost, block: &str, all: &mut String) -> io::Result<()> {
    for row in block.split('\n') {
        add_row(alloc, host, row, all)?;
    }
    Ok(())
}

/// The rows of a block, each with what came of it.
pub(crate) fn told(alloc: Global, block: &str) -> io::Result<String> {
    let mut host = host_of(alloc, block)?;
    let mut all = String::new(alloc);
    add_rows(alloc, &mut host, block, &mut all)?;
    Ok(all)
}
