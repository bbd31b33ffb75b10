// Rows of a table, each told with what came of it: values and their text, labels and their bytes, and instances.
//
// A row is a word and what it is asked of; `src/values.rt`, `src/labels.rt`,
// `src/keys.rt` and `src/instances.rt` have the words. A row that begins with `#` names
// what follows, and stands in the transcript as it is.
use crate::{instances, keys, labels, values};
use std::alloc::Global;
use std::io;
use std::thread::{self, Threads};
use swf_test_tables::{add_line, add_outcome, no_meaning};
use swf_value::{depth, may_cross, read_json};

// How deep a value nests, as two threads find it at the same time.
fn depths(alloc: Global, rt: &impl Threads, text: &str) -> io::Result<String> {
    let Ok(value) = read_json(alloc, text.as_bytes()) else {
        return Err(no_meaning());
    };
    may_cross(&value);
    let theirs = value.copy()?;
    let (a, b) = thread::join(rt, move || depth(&theirs), || depth(&value));
    Ok(format!(in alloc; "{a} {b}")?)
}

// What comes of a row.
fn told(alloc: Global, rt: &impl Threads, row: &str) -> io::Result<String> {
    let (word, rest) = row.split_once(' ').unwrap_or((row, ""));
    match word {
        "threads" => depths(alloc, rt, rest),
        "load" | "start" | "event" | "reply" | "moment" | "step" => labels::told(alloc, word, rest),
        "decode" | "again" | "levels" => labels::told(alloc, word, rest),
        "key" => keys::told(alloc, rest),
        "advance" | "forest" => instances::told(alloc, word, rest),
        _ => values::told(alloc, word, rest),
    }
}

/// Adds each row and what came of it.
pub(crate) fn add_rows(
    alloc: Global,
    rt: &impl Threads,
    transcript: &mut Vec<u8>,
    rows: &str,
) -> io::Result<()> {
    for row in rows.lines() {
        if row.starts_with('#') {
            add_line(transcript, "", row)?;
        } else {
            let told = told(alloc, rt, row)?;
            add_outcome(transcript, row, told.as_str())?;
        }
    }
    Ok(())
}
