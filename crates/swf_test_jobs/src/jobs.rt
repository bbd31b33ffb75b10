//! The lines of a job.
use std::alloc::Global;
use std::io::{self, ErrorKind};
use swf_make::{generated_line, generated_lines};
use swf_test_tables::{no_meaning, number_of, split};

/// A number of 32 bits.
fn small(text: &str) -> io::Result<u32> {
    match u32::try_from(number_of(text)?) {
        Ok(number) => Ok(number),
        Err(_) => Err(no_meaning()),
    }
}

/// Bytes as text.
fn text_of(bytes: Vec<u8>) -> io::Result<String> {
    match String::from_utf8(bytes) {
        Ok(text) => Ok(text),
        Err(_) => Err(io::Error::from(ErrorKind::InvalidData)),
    }
}

/// How many lines a job of so many turns has.
pub fn count_told(alloc: Global, turns: &str) -> io::Result<String> {
    let lines = generated_lines(small(turns)?);
    Ok(format!(in alloc; "{lines}")?)
}

/// A line of a job, or that there is none.
pub fn line_told(alloc: Global, row: &str) -> io::Result<String> {
    let (turns, number) = split(row)?;
    match generated_line(alloc, small(turns)?, small(number)?)? {
        Some(line) => text_of(line.as_slice().to_vec(alloc)?),
        None => Ok(String::from_str(alloc, "none")?),
    }
}
