//! Reads the rows of two tables, and prints each with what came of it: calls of stores, of journals and of hosts, in memory
//! (memory.txt) and over files (files.txt).
//!
//! Between blocks of rows stand empty lines. A row that begins with `#` names what follows, and one that begins with `!` says
//! what a block works with. `src/calls.rt` has the rows that are calls; `src/memory.rt` and `src/files.rt` have the others.
#![tactic(auto)]

mod calls;
mod files;
mod journal;
mod memory;
mod watched;

use std::{fs, io};

// Tells the blocks of the table in memory.
fn tell_memory(rt: HostRuntime) -> io::Result<()> {
    let rows = fs::read_to_string(&rt, "memory.txt")?;
    for block in rows.as_str().split("\n\n") {
        let told = memory::told(rt.alloc(), block)?;
        print!(rt; "{told}")?;
    }
    Ok(())
}

// Tells the blocks of the table over files, each in a folder whose name is its number.
fn tell_files(rt: HostRuntime) -> io::Result<()> {
    let rows = fs::read_to_string(&rt, "files.txt")?;
    for (number, block) in rows.as_str().split("\n\n").enumerate() {
        let folder = format!(in rt.alloc(); "{number}")?;
        let told = files::told_in(rt, folder.as_str(), block)?;
        print!(rt; "{told}")?;
    }
    Ok(())
}

fn main(rt: HostRuntime) -> io::Result<()> {
    tell_memory(rt)?;
    tell_files(rt)
}
