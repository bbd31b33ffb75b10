// Rows that are calls of a host, and what is answered. `append 2 78` opens the journal and appends two frames of this body, and
// `append-long 9 78` one whose body has nine such pieces.
use crate::journal::{append_frames, turns};
use std::alloc::{AllocError, Global};
use std::io;
use swf_host::{CopyIn, Host, Input};
use swf_store::{Failed, File, Store};
use swf_test_tables::{bytes_of, no_meaning, number_of, split};

/// What a row asks of a host.
#[derive(Drop)]
enum Row {
    /// The size of a file.
    Size(File),
    /// So many bytes of a file, from a place.
    Read(File, u64, u64),
    /// Some bytes at a place of a file. Where that is not its start, the file is measured before, and nothing is written past
    /// its end.
    Write(File, u64, Vec<u8>),
    Sync,
    Next,
    /// The next work.
    Work,
    /// Gives a job.
    Give(Number),
    /// Some bytes to a connection.
    Say(u64, Vec<u8>),
    /// Opens the journal, and appends so many frames of this body.
    Append(u64, Vec<u8>),
    /// Opens the journal, and takes two turns.
    Turns,
}

fn file_of(name: &str) -> io::Result<File> {
    match name {
        "journal" => Ok(File::Journal),
        "snap0" => Ok(File::Snap0),
        "snap1" => Ok(File::Snap1),
        _ => Err(no_meaning()),
    }
}

// A number, and the bytes behind it.
fn numbered(alloc: Global, row: &str) -> io::Result<(u64, Vec<u8>)> {
    let (number, bytes) = split(row)?;
    let number = number_of(number)?;
    Ok((number, bytes_of(alloc, bytes)?))
}

// A body of so many equal pieces.
fn long_of(alloc: Global, row: &str) -> io::Result<Vec<u8>> {
    let (times, piece) = numbered(alloc, row)?;
    let mut body = Vec::new(alloc);
    for _ in 0..times {
        body.extend_from_slice(&piece)?;
    }
    Ok(body)
}

fn read_of(row: &str) -> io::Result<Row> {
    let (file, rest) = split(row)?;
    let (at, count) = split(rest)?;
    Ok(Row::Read(file_of(file)?, number_of(at)?, number_of(count)?))
}

fn write_of(alloc: Global, row: &str) -> io::Result<Row> {
    let (file, rest) = split(row)?;
    let (at, bytes) = numbered(alloc, rest)?;
    Ok(Row::Write(file_of(file)?, at, bytes))
}

// The call that a row is, if it is one.
fn row_of(alloc: Global, text: &str) -> io::Result<Option<Row>> {
    let (word, rest) = text.split_once(' ').unwrap_or((text, ""));
    Ok(Some(match word {
        "size" => Row::Size(file_of(rest)?),
        "read" => read_of(rest)?,
        "write" => write_of(alloc, rest)?,
        "sync" => Row::Sync,
        "next" => Row::Next,
        "next-work" => Row::Work,
        "give" => Row::Give(Number(number_of(rest)?)),
        "say" => {
            let (connection, bytes) = numbered(alloc, rest)?;
            Row::Say(connection, bytes)
        }
        "append" => {
            let (count, body) = numbered(alloc, rest)?;
            Row::Append(count, body)
        }
        "append-long" => Row::Append(1, long_of(alloc, rest)?),
        "turns" => Row::Turns,
        _ => return Ok(None),
    }))
}

// Whether a call was done.
fn done(alloc: Global, outcome: Result<(), Failed>) -> Result<String, AllocError> {
    String::from_str(alloc, if outcome.is_ok() { "done" } else { "failed" })
}

fn size<S: Store>(alloc: Global, store: &mut S, file: File) -> Result<String, AllocError> {
    match store.size(file) {
        Ok(size) => format!(in alloc; "{size}"),
        Err(_) => String::from_str(alloc, "failed"),
    }
}

fn read<S: Store>(
    alloc: Global,
    store: &mut S,
    file: File,
    at: u64,
    count: u64,
) -> Result<String, AllocError> {
    let mut into = vec![in alloc; 0; count as usize]?;
    match store.read_at(file, at, into.as_mut_slice()) {
        Ok(count) => {
            into.truncate(count);
            hex::encode(alloc, into.as_slice())
        }
        Err(_) => String::from_str(alloc, "failed"),
    }
}

fn write<S: Store>(store: &mut S, file: File, at: u64, bytes: &[u8]) -> Result<(), Failed> {
    if at == 0 {
        return store.write_at(file, 0, bytes);
    }
    let size = store.size(file)?;
    if size < at {
        return Err(Failed);
    }
    store.write_at(file, at, bytes)
}

// Some bytes: many equal ones by their number.
fn shown(alloc: Global, bytes: &[u8]) -> Result<String, AllocError> {
    match bytes.first() {
        Some(first) if bytes.len() > 64 && bytes.iter().all(|byte| *byte == *first) => {
            format!(in alloc; "{} times {first:02x}", bytes.len())
        }
        _ => hex::encode(alloc, bytes),
    }
}

/// The work of these tests: a job is a number, and so is what comes of one.
#[derive(Clone, Copy)]
pub(crate) struct Number(pub(crate) u64);

impl CopyIn for Number {
    fn copy(work: Option<&Number>, _alloc: Global) -> Result<Option<Number>, AllocError> {
        Ok(work.copied())
    }
}

// An input in words.
fn told(alloc: Global, input: &Input<Number>) -> Result<String, AllocError> {
    match input {
        Input::Ask(connection, bytes) => {
            let bytes = shown(alloc, bytes.as_slice())?;
            format!(in alloc; "ask {connection} {bytes}")
        }
        Input::TooLong(connection) => format!(in alloc; "too-long {connection}"),
        Input::Work(Number(number)) => format!(in alloc; "work {number}"),
        Input::Idle => String::from_str(alloc, "idle"),
        Input::Closed => String::from_str(alloc, "closed"),
    }
}

fn next<H: Host<Number, Number>>(
    alloc: Global,
    host: &mut H,
    only_work: bool,
) -> Result<String, AllocError> {
    match host.next(only_work) {
        Ok(input) => told(alloc, &input),
        Err(_) => String::from_str(alloc, "failed"),
    }
}

fn give<H: Host<Number, Number>>(
    alloc: Global,
    host: &mut H,
    job: Number,
) -> Result<String, AllocError> {
    match host.give(job) {
        Ok(()) => String::from_str(alloc, "given"),
        Err(Number(number)) => format!(in alloc; "handed back {number}"),
    }
}

// How many frames the journal had, how many were appended then, and its size in the end; or why it was not opened.
fn append<S: Store>(
    alloc: Global,
    store: &mut S,
    count: u64,
    body: &[u8],
) -> Result<String, AllocError> {
    if body.is_empty() {
        return String::from_str(alloc, "no body");
    }
    match append_frames(alloc, store, count, body) {
        Ok(session) => format!(in alloc;
            "found {}, appended {}, size {}",
            session.found, session.appended, session.size
        ),
        Err(fault) => format!(in alloc; "{fault}"),
    }
}

// What a host answers to a call.
fn answer<H: Host<Number, Number>>(
    alloc: Global,
    host: &mut H,
    row: Row,
) -> Result<String, AllocError> {
    match row {
        Row::Size(file) => size(alloc, host, file),
        Row::Read(file, at, count) => read(alloc, host, file, at, count),
        Row::Write(file, at, bytes) => done(alloc, write(host, file, at, &bytes)),
        Row::Sync => done(alloc, host.sync()),
        Row::Next => next(alloc, host, false),
        Row::Work => next(alloc, host, true),
        Row::Give(job) => give(alloc, host, job),
        Row::Say(connection, bytes) => done(alloc, host.say(connection, &bytes)),
        Row::Append(count, body) => append(alloc, host, count, &body),
        Row::Turns => turns(alloc, host),
    }
}

/// What a host answers to a row, if that is a call.
pub(crate) fn called<H: Host<Number, Number>>(
    alloc: Global,
    host: &mut H,
    text: &str,
) -> io::Result<Option<String>> {
    match row_of(alloc, text)? {
        Some(row) => Ok(Some(answer(alloc, host, row)?)),
        None => Ok(None),
    }
}
