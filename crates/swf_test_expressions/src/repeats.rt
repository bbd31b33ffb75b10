//! The form of long texts in a row: `‹4096 -›` is a minus 4,096 times, and `⏎` a carriage return with a line feed.
use std::alloc::Global;
use std::io;
use swf_test_tables::{number_of, split};

/// Adds a text so many times.
fn add_times(out: &mut String, times: u64, text: &str) -> io::Result<()> {
    for _ in 0..times {
        out.push_str(text)?;
    }
    Ok(())
}

/// Adds a text in which each mark of the end of a line stands for what it means.
fn add_plain(out: &mut String, text: &str) -> io::Result<()> {
    for letter in text.chars() {
        if letter == '⏎' {
            out.push_str("\r\n")?;
        } else {
            out.push(letter)?;
        }
    }
    Ok(())
}

/// Adds a part that begins with a number and a text, up to the mark behind them, and what follows.
fn add_repeated(out: &mut String, part: &str) -> io::Result<()> {
    match part.split_once('›') {
        Some((repeated, rest)) => {
            let (times, text) = split(repeated)?;
            add_times(out, number_of(times)?, text)?;
            add_plain(out, rest)
        }
        None => add_plain(out, part),
    }
}

/// The text that a row's form stands for.
pub fn whole(alloc: Global, text: &str) -> io::Result<String> {
    let mut out = String::new(alloc);
    for part in text.split('‹') {
        add_repeated(&mut out, part)?;
    }
    Ok(out)
}
