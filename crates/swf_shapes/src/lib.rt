//! What may stand where in a document, and every fault of a value that is none.
#![tactic(auto)]

mod faults;
mod layout;
mod rows;
mod shape;

pub use faults::{child, position, read_faults};
pub use layout::{Keyword, Seen, field, has, keyword_task, seen_in};
pub use shape::Task;
