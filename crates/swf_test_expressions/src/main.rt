//! Reads the rows of two tables, and prints each with what came of it: expressions on inputs (values.txt), and the texts of
//! expressions (texts.txt).
//!
//! A row that begins with `#` names what follows, and stands in the transcript as it is. Any other row is a word and what it is
//! about, in the form of `src/repeats.rt`. On an expression and its input: `values` tells all outputs, `end` the last seven bytes of
//! that, `first` the first output, `names` all outputs where names have values, `threads` all outputs in two threads at once. On
//! a text: `text` tells the tree that it is read as, printed, or its fault, and `reads` only that it is read.
#![tactic(auto)]

mod repeats;
mod texts;
mod values;

use std::alloc::{AllocError, Global};
use std::fs;
use std::io::{self, ErrorKind};
use std::thread::{self, Threads};
use swf_test_tables::{add_line, add_outcome, no_meaning, split};

/// The files that have the rows.
const TABLES: [&str; 2] = ["values.txt", "texts.txt"];

/// What comes of an expression on an input in two threads at once, where both tell the same.
fn told_by_threads<R: Threads>(
    alloc: Global,
    rt: &R,
    expression: &str,
    input: &str,
) -> Result<String, AllocError> {
    let (here, there) = thread::join(
        rt,
        || values::told(alloc, expression, input),
        || values::told(alloc, expression, input),
    );
    let told = here?;
    if told.as_str() == there?.as_str() {
        Ok(told)
    } else {
        String::from_str(alloc, "the threads differ")
    }
}

/// What comes of an expression on its input.
fn told_of<R: Threads>(alloc: Global, rt: &R, word: &str, row: &str) -> io::Result<String> {
    let Some((expression, input)) = row.split_once(" => ") else {
        return Err(no_meaning());
    };
    let told = match word {
        "values" => values::told(alloc, expression, input)?,
        "end" => values::end_of(alloc, values::told(alloc, expression, input)?.as_str())?,
        "first" => values::first_told(alloc, expression, input)?,
        "names" => values::told_with_names(alloc, expression, input)?,
        "threads" => told_by_threads(alloc, rt, expression, input)?,
        _ => return Err(no_meaning()),
    };
    Ok(told)
}

/// What comes of a row.
fn outcome_of<R: Threads>(alloc: Global, rt: &R, row: &str) -> io::Result<String> {
    let (word, rest) = split(row)?;
    let whole = repeats::whole(alloc, rest)?;
    match word {
        "text" => Ok(texts::told(alloc, whole.as_str())?),
        "reads" => Ok(texts::told_if_read(alloc, whole.as_str())?),
        _ => told_of(alloc, rt, word, whole.as_str()),
    }
}

/// Adds each row of a table, and what came of it.
fn add_rows<R: Threads>(
    alloc: Global,
    rt: &R,
    transcript: &mut Vec<u8>,
    rows: &str,
) -> io::Result<()> {
    for row in rows.split('\n') {
        if row.starts_with('#') {
            add_line(transcript, "", row)?;
        } else if !row.is_empty() {
            let outcome = outcome_of(alloc, rt, row)?;
            add_outcome(transcript, row, outcome.as_str())?;
        }
    }
    Ok(())
}

fn main(rt: HostRuntime) -> io::Result<()> {
    let mut transcript = Vec::new(rt.alloc());
    for name in TABLES {
        let rows = fs::read_to_string(&rt, name)?;
        add_rows(rt.alloc(), &rt, &mut transcript, rows.as_str())?;
    }
    match String::from_utf8(transcript) {
        Ok(text) => print!(rt; "{text}"),
        Err(_) => Err(io::Error::from(ErrorKind::InvalidData)),
    }
}
