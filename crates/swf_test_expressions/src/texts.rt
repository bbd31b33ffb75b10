//! What a text is read as: the tree, printed, or its fault with the place.
use std::alloc::{AllocError, Global};
use swf_jq_parse::{ParseFault, parse};
use swf_jq_print::print;

/// A fault with its place.
fn fault_told(alloc: Global, fault: ParseFault) -> Result<String, AllocError> {
    match fault {
        ParseFault::TooLong => String::from_str(alloc, "TooLong"),
        ParseFault::OutOfMemory => String::from_str(alloc, "OutOfMemory"),
        ParseFault::TooDeep { at } => format!(in alloc; "TooDeep {at}"),
        ParseFault::NotWhole { at } => format!(in alloc; "NotWhole {at}"),
        ParseFault::UnknownName { at } => format!(in alloc; "UnknownName {at}"),
        ParseFault::Syntax { at } => format!(in alloc; "Syntax {at}"),
    }
}

/// The printed tree of a text, or its fault.
pub fn told(alloc: Global, text: &str) -> Result<String, AllocError> {
    match parse(alloc, text) {
        Ok(tree) => String::from_str(alloc, print(alloc, &tree)?.as_str()),
        Err(fault) => fault_told(alloc, fault),
    }
}

/// Whether a text is read, or its fault.
pub fn told_if_read(alloc: Global, text: &str) -> Result<String, AllocError> {
    match parse(alloc, text) {
        Ok(_) => String::from_str(alloc, "read"),
        Err(fault) => fault_told(alloc, fault),
    }
}
