//! Reads the rows of two tables, and prints each with what came of it: what every order of the steps of a workflow's strands
//! comes to (orders.txt, `src/orders.rt`), and values, labels and instances (values.txt, `src/rows.rt`).
//!
//! A row that begins with `#` names what follows, and stands in the transcript as it is.
#![tactic(auto)]

mod instances;
mod keys;
mod labels;
mod orders;
mod rows;
mod values;

use std::fs;
use std::io::{self, ErrorKind};

fn main(rt: HostRuntime) -> io::Result<()> {
    let alloc = rt.alloc();
    let mut transcript = Vec::new(alloc);
    let text = fs::read_to_string(&rt, "orders.txt")?;
    orders::add_orders(alloc, &mut transcript, text.as_str())?;
    let text = fs::read_to_string(&rt, "values.txt")?;
    rows::add_rows(alloc, &rt, &mut transcript, text.as_str())?;
    match String::from_utf8(transcript) {
        Ok(text) => print!(rt; "{text}"),
        Err(_) => Err(io::Error::from(ErrorKind::InvalidData)),
    }
}
