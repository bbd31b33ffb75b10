//! Runs the documents and the sessions of its folder over a host in memory, and prints a transcript of them; and what comes of
//! a whole session in which a call fails, and of a stop.
//!
//! A line of documents.txt is a document, and is followed by what `check` prints. The sessions of sessions.txt, events.txt,
//! events-read.txt, script.txt, forks.txt and the files on calls have empty lines between them; each line is a command, followed by its reply, or begins with
//! `!` (`src/session.rt` has the words), and `! reopen` ends the input and opens the store again. A line of faults.txt names a
//! call that fails or the calls before a stop (`src/faults.rt`). A session of stops.txt is stopped after each call of its store,
//! and given once more. A line that begins with `#` names what follows, and stands in the transcript as it is.
#![tactic(auto)]

mod board;
mod faults;
mod session;
mod stops;

use crate::board::{Answerers, Answering, asked};
use std::alloc::{AllocError, Global};
use std::fs;
use std::io::{self, ErrorKind};
use swf_cli::swf_run;
use swf_connect::{Connector, Switchboard};
use swf_host::{Input, MemoryHost, NoWork, Turn};
use swf_store::{Image, MemoryStore};
use swf_test_tables::add_line;
use swf_text::Bytes;

/// A line of a session that stops it and opens it again.
const REOPEN: &str = "! reopen\n";

/// A host of a program that gives no work.
type TestHost = MemoryHost<NoWork, NoWork>;

/// The numbers of the calls that fail.
#[derive(Drop)]
struct Failing {
    store: Vec<u64>,
    next: Vec<u64>,
    say: Vec<u64>,
}

impl Failing {
    fn none(alloc: Global) -> Failing {
        Failing {
            store: Vec::new(alloc),
            next: Vec::new(alloc),
            say: Vec::new(alloc),
        }
    }
}

/// What a run ended with, its host, and how often each of those who answer calls was asked.
#[derive(Drop)]
struct Ran {
    status: u8,
    host: TestHost,
    asked: String,
}

// The words of a command line, which have commas between them.
fn words_of(alloc: Global, text: &str) -> Result<Vec<String>, AllocError> {
    let mut words = Vec::new(alloc);
    if !text.is_empty() {
        for word in text.split(',') {
            words.push(String::from_str(alloc, word)?)?;
        }
    }
    Ok(words)
}

// Runs the program with these words over the files of an image, where these answer calls.
fn run_over(
    alloc: Global,
    words: &str,
    image: Image,
    failing: Failing,
    script: Vec<Turn<NoWork>>,
    answering: Answering<'_>,
) -> Result<Ran, AllocError> {
    let words = words_of(alloc, words)?;
    let store = MemoryStore::new(alloc, image, failing.store);
    let mut host = TestHost::new(alloc, store, script, failing.next, failing.say);
    let Answerers { http, silent } = answering.connectors(alloc)?;
    let mut connectors: Vec<Box<dyn Connector + Send>> = Vec::new(alloc);
    if let Some(http) = http {
        connectors.push(Box::new(alloc, http)?)?;
    }
    for connector in silent {
        connectors.push(Box::new(alloc, connector)?)?;
    }
    let mut board = Switchboard::new(connectors);
    let status = swf_run(alloc, &words, &mut host, &mut board);
    let asked = asked(alloc, board)?;
    Ok(Ran {
        status,
        host,
        asked,
    })
}

// Runs the program with these words over the files of an image, where nobody answers calls.
fn run(
    alloc: Global,
    words: &str,
    image: Image,
    failing: Failing,
    script: Vec<Turn<NoWork>>,
) -> Result<Ran, AllocError> {
    let nobody = Answering::nobody(alloc);
    run_over(alloc, words, image, failing, script, nobody)
}

// An input of a connection.
fn ask(conn: u64, line: Vec<u8>) -> Turn<NoWork> {
    Turn::In(Input::Ask(conn, Bytes::of(line)))
}

// A script of lines, each from a connection of its own, whose number is the line's place.
fn script(alloc: Global, lines: &[&str]) -> Result<Vec<Turn<NoWork>>, AllocError> {
    let mut script = Vec::new(alloc);
    for (place, line) in lines.iter().enumerate() {
        script.push(ask(place as u64, line.as_bytes().to_vec(alloc)?))?;
    }
    Ok(script)
}

// Adds a line that says how a run ended, where that is not as it should.
fn add_status(
    alloc: Global,
    transcript: &mut Vec<u8>,
    status: u8,
    expected: u8,
) -> Result<(), AllocError> {
    if status != expected {
        let line = format!(in alloc; "! status {status}\n")?;
        transcript.extend_from_slice(line.as_str().as_bytes())?;
    }
    Ok(())
}

// All that a host was given to say.
fn printed(alloc: Global, host: &TestHost) -> Result<Vec<u8>, AllocError> {
    let mut printed = Vec::new(alloc);
    for piece in host.said() {
        printed.extend_from_slice(piece.bytes.as_slice())?;
    }
    Ok(printed)
}

// Adds what is printed for a document, whose status is 0 exactly where that is the word `accepted`.
fn add_document(alloc: Global, transcript: &mut Vec<u8>, document: &str) -> Result<(), AllocError> {
    let script = script(alloc, &[document])?;
    let ran = run(
        alloc,
        "check",
        Image::empty(alloc),
        Failing::none(alloc),
        script,
    )?;
    let printed = printed(alloc, &ran.host)?;
    transcript.extend_from_slice(printed.as_slice())?;
    let expected = if printed.as_slice() == b"accepted\n".as_slice() {
        0
    } else {
        1
    };
    add_status(alloc, transcript, ran.status, expected)
}

// Adds all documents, one a line.
fn add_documents(alloc: Global, transcript: &mut Vec<u8>, text: &str) -> Result<(), AllocError> {
    for line in text.split('\n') {
        if line.starts_with('#') {
            add_line(transcript, "", line)?;
        } else if !line.is_empty() {
            add_document(alloc, transcript, line)?;
        }
    }
    Ok(())
}

// Adds all sessions, between which empty lines stand.
fn add_sessions(alloc: Global, transcript: &mut Vec<u8>, text: &str) -> io::Result<()> {
    for block in text.split("\n\n") {
        session::add_session(alloc, transcript, block)?;
    }
    Ok(())
}

// Adds what comes of what stands in a file.
fn add_file(
    alloc: Global,
    rt: HostRuntime,
    transcript: &mut Vec<u8>,
    name: &str,
) -> io::Result<()> {
    let text = fs::read_to_string(&rt, name)?;
    let text = text.as_str();
    match name {
        "documents.txt" => Ok(add_documents(alloc, transcript, text)?),
        "faults.txt" => faults::add_faults(alloc, transcript, text),
        "stops.txt" => stops::add_stops(alloc, transcript, text),
        _ => add_sessions(alloc, transcript, text),
    }
}

/// The files with documents, sessions and rows.
const FILES: [&str; 13] = [
    "documents.txt",
    "sessions.txt",
    "events.txt",
    "events-read.txt",
    "script.txt",
    "forks.txt",
    "calls.txt",
    "calls-functions.txt",
    "calls-workflows.txt",
    "calls-in-tasks.txt",
    "calls-http.txt",
    "faults.txt",
    "stops.txt",
];

fn main(rt: HostRuntime) -> io::Result<()> {
    let alloc = rt.alloc();
    let mut transcript = Vec::new(alloc);
    for name in FILES {
        add_file(alloc, rt, &mut transcript, name)?;
    }
    match String::from_utf8(transcript) {
        Ok(text) => print!(rt; "{text}"),
        Err(_) => Err(io::Error::from(ErrorKind::InvalidData)),
    }
}
