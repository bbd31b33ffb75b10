//! Which documents keep the rules of scope: names that stand for something, variables that have a value, no list too long.
#![tactic(auto)]

mod accepted;
mod calls;
mod common;
mod count;
mod document;
mod kinds;
mod tasks;

pub use accepted::{Accepted, accept, validate};
pub use document::scope_faults;
