//! Reads the rows of a table (jobs.txt), and prints each with what came of it: the lines of a job, and who is told what at a desk.
//!
//! A row that begins with `#` names what follows, and stands in the transcript as it is. Any other row is a word and what it is about:
//! `lines TURNS` tells how many lines a job has, `line TURNS NUMBER` that line, and `desk WORD..` what comes of clients that ask, by name, and of connections to which something is said, by number.
#![tactic(auto)]

mod desks;
mod jobs;

use std::alloc::Global;
use std::fs;
use std::io::{self, ErrorKind};
use swf_test_tables::{add_line, add_outcome, no_meaning, split};

/// What comes of a row.
fn outcome_of(alloc: Global, row: &str) -> io::Result<String> {
    let (word, rest) = split(row)?;
    match word {
        "lines" => jobs::count_told(alloc, rest),
        "line" => jobs::line_told(alloc, rest),
        "desk" => desks::told(alloc, rest),
        _ => Err(no_meaning()),
    }
}

/// Adds each row, and what came of it.
fn add_rows(alloc: Global, transcript: &mut Vec<u8>, rows: &str) -> io::Result<()> {
    for row in rows.lines() {
        if row.starts_with('#') {
            add_line(transcript, "", row)?;
        } else {
            let outcome = outcome_of(alloc, row)?;
            add_outcome(transcript, row, outcome.as_str())?;
        }
    }
    Ok(())
}

fn main(rt: HostRuntime) -> io::Result<()> {
    let mut transcript = Vec::new(rt.alloc());
    let rows = fs::read_to_string(&rt, "jobs.txt")?;
    add_rows(rt.alloc(), &mut transcript, rows.as_str())?;
    match String::from_utf8(transcript) {
        Ok(text) => print!(rt; "{text}"),
        Err(_) => Err(io::Error::from(ErrorKind::InvalidData)),
    }
}
