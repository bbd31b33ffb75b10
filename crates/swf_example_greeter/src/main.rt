//! An example of a program that embeds the engine, with a connector of its own: a workflow calls `greet:world`, and is answered.
//!
//! The session's lines stand below, its journal is kept in memory, and what was said is printed, with how often the connector was
//! asked.
#![tactic(auto)]

mod greeter;

use crate::greeter::Greeter;
use std::alloc::{AllocError, Global};
use std::io::{self, ErrorKind};
use swf_cli::swf_run;
use swf_connect::{Connector, Switchboard};
use swf_host::{Input, MemoryHost, NoWork, Turn};
use swf_store::{Image, MemoryStore};
use swf_text::Bytes;

/// The words of the command line.
const WORDS: [&str; 3] = ["--calls", "http", "session"];

/// The lines of the session.
const LINES: [&str; 5] = [
    "load {\"document\":{\"dsl\":\"1.0.0\",\"namespace\":\"t\",\"name\":\"hello\",\"version\":\"1.0.0\"},\"do\":[{\"ask\":{\"call\":\"http\",\"with\":{\"method\":\"get\",\"endpoint\":\"greet:{name}\"}}}]}",
    "start i t hello 1.0.0 {\"name\":\"world\"}",
    "settle",
    "status i",
    "quit",
];

// A host without a folder: it gives the lines, and keeps the journal and what is said.
fn host(alloc: Global) -> Result<MemoryHost<NoWork, NoWork>, AllocError> {
    let store = MemoryStore::new(alloc, Image::empty(alloc), Vec::new(alloc));
    let mut script = Vec::new(alloc);
    for line in LINES {
        let line = Bytes::of(line.as_bytes().to_vec(alloc)?);
        script.push(Turn::In(Input::Ask(0, line)))?;
    }
    let none = Vec::new(alloc);
    Ok(MemoryHost::new(alloc, store, script, Vec::new(alloc), none))
}

fn words(alloc: Global) -> Result<Vec<String>, AllocError> {
    let mut words = Vec::new(alloc);
    for word in WORDS {
        words.push(String::from_str(alloc, word)?)?;
    }
    Ok(words)
}

// Runs the session, and answers its status, all that was said, and how many calls the connectors tell. They stand in the order in which they
// are asked whether they take a call.
fn run(alloc: Global) -> Result<(u8, Vec<u8>, u64), AllocError> {
    let words = words(alloc)?;
    let mut host = host(alloc)?;
    let mut connectors: Vec<Box<dyn Connector + Send>> = Vec::new(alloc);
    connectors.push(Box::new(alloc, Greeter::new(alloc))?)?;
    let mut board = Switchboard::new(connectors);
    let status = swf_run(alloc, &words, &mut host, &mut board);
    let mut said = Vec::new(alloc);
    for piece in host.said() {
        said.extend_from_slice(piece.bytes.as_slice())?;
    }
    Ok((status, said, asked(board)))
}

// How many calls the connectors of a board tell.
fn asked(board: Switchboard) -> u64 {
    let mut asked = 0u64;
    for connector in board.close().as_slice() {
        asked = asked.saturating_add(connector.told().unwrap_or(0));
    }
    asked
}

fn main(rt: HostRuntime) -> io::Result<()> {
    let alloc = rt.alloc();
    let (status, said, asked) = run(alloc)?;
    match String::from_utf8(said) {
        Ok(said) => print!(rt; "{said}status {status}, asked {asked}\n"),
        Err(_) => Err(io::Error::from(ErrorKind::InvalidData)),
    }
}
