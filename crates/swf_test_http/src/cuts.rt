// What is read of a message that is whole, and of one that is cut.
ghost use Rattle.std.specs.Prelude.{◌<◌, ◌≤◌, length};

use crate::messages::{Kind, told};
use std::alloc::Global;
use std::io;
use swf_test_tables::add_outcome;

/// Of a message that has more bytes than these, not each beginning is read.
const MOST_CUTS: usize = 2000;

/// How many beginnings of such a message are read from the first one on.
const FIRST_CUTS: usize = 200;

/// How many of the longest ones.
const LAST_CUTS: usize = 50;

/// How many bytes come at once where it does not matter.
const PIECE: usize = 1_000_000;

// Adds what was read of beginnings that have from so many to so many bytes.
fn add_run(
    alloc: Global,
    transcript: &mut Vec<u8>,
    first: usize,
    last: usize,
    told: &str,
) -> io::Result<()> {
    let lengths = format!(in alloc; "{first}-{last}")?;
    Ok(add_outcome(transcript, lengths.as_str(), told)?)
}

// Adds what is read of each beginning that has at least so many bytes and less than so many, where it differs from that of the one before.
fn add_cuts(
    alloc: Global,
    transcript: &mut Vec<u8>,
    kind: Kind,
    bytes: &[u8],
    from: usize,
    to: usize,
) -> io::Result<()>
    requires some { from < to }
    requires within { to ≤ length bytes.now }
{
    let mut first = from;
    let mut last = from;
    let mut run = told(alloc, kind, &bytes[..from], PIECE)?;
    for cut in from..to {
        let now = told(alloc, kind, &bytes[..cut], PIECE)?;
        if now.as_str() != run.as_str() {
            add_run(alloc, transcript, first, last, run.as_str())?;
            first = cut;
            run = now;
        }
        last = cut;
    }
    add_run(alloc, transcript, first, last, run.as_str())
}

// Adds what is read of the beginnings.
fn add_beginnings(
    alloc: Global,
    transcript: &mut Vec<u8>,
    kind: Kind,
    bytes: &[u8],
) -> io::Result<()> {
    let count = bytes.len();
    if count == 0 {
        return Ok(());
    }
    if count <= MOST_CUTS {
        return add_cuts(alloc, transcript, kind, bytes, 0, count);
    }
    add_cuts(alloc, transcript, kind, bytes, 0, FIRST_CUTS)?;
    add_cuts(alloc, transcript, kind, bytes, count - LAST_CUTS, count)
}

// Adds what is read where the bytes come in pieces of some size, if it is not the same.
fn add_pieces(
    alloc: Global,
    transcript: &mut Vec<u8>,
    kind: Kind,
    bytes: &[u8],
    whole: &str,
) -> io::Result<()> {
    for piece in [1, 7, 5000] {
        let told = told(alloc, kind, bytes, piece)?;
        if told.as_str() != whole {
            let row = format!(in alloc; "in pieces of {piece}")?;
            add_outcome(transcript, row.as_str(), told.as_str())?;
        }
    }
    Ok(())
}

/// Adds a row, what is read of its bytes, and what is read of their beginnings.
pub(crate) fn add_message(
    alloc: Global,
    transcript: &mut Vec<u8>,
    row: &str,
    kind: Kind,
    bytes: &[u8],
) -> io::Result<()> {
    let whole = told(alloc, kind, bytes, PIECE)?;
    add_outcome(transcript, row, whole.as_str())?;
    add_pieces(alloc, transcript, kind, bytes, whole.as_str())?;
    add_beginnings(alloc, transcript, kind, bytes)
}
