//! Reads the rows of three tables, and prints each with what came of it: responses (responses.txt), requests (requests.txt), and
//! messages that are written (writes.txt).
//!
//! A row that begins with `#` names what follows, and stands in the transcript as it is. Any other row is a word and the bytes
//! of a message in the form of `src/escapes.rt`: `get` and `head` before a response to a request of that method, `read` before
//! a request, `answer` before a response and `send` before a request that is read and written again.
#![tactic(auto)]

mod cuts;
mod escapes;
mod messages;
mod writes;

use crate::messages::Kind;
use std::alloc::Global;
use std::fs;
use std::io::{self, ErrorKind};
use swf_test_tables::{add_line, no_meaning, split};

/// The files that have the rows.
const TABLES: [&str; 3] = ["responses.txt", "requests.txt", "writes.txt"];

// Adds a row, and what came of it.
fn add_row(alloc: Global, transcript: &mut Vec<u8>, row: &str) -> io::Result<()> {
    let (word, message) = split(row)?;
    let bytes = escapes::bytes_in(alloc, message)?;
    match word {
        "get" => cuts::add_message(alloc, transcript, row, Kind::Response, &bytes),
        "head" => cuts::add_message(alloc, transcript, row, Kind::ResponseToHead, &bytes),
        "read" => cuts::add_message(alloc, transcript, row, Kind::Request, &bytes),
        "answer" => writes::add_response(alloc, transcript, row, &bytes),
        "send" => writes::add_request(alloc, transcript, row, &bytes),
        _ => Err(no_meaning()),
    }
}

// Adds each row of a table, and what came of it.
fn add_rows(alloc: Global, transcript: &mut Vec<u8>, rows: &str) -> io::Result<()> {
    for row in rows.lines() {
        if row.starts_with('#') {
            add_line(transcript, "", row)?;
        } else {
            add_row(alloc, transcript, row)?;
        }
    }
    Ok(())
}

fn main(rt: HostRuntime) -> io::Result<()> {
    let mut transcript = Vec::new(rt.alloc());
    for name in TABLES {
        let rows = fs::read_to_string(&rt, name)?;
        add_rows(rt.alloc(), &mut transcript, rows.as_str())?;
    }
    match String::from_utf8(transcript) {
        Ok(text) => print!(rt; "{text}"),
        Err(_) => Err(io::Error::from(ErrorKind::InvalidData)),
    }
}
