//! A task at work, and what all rules of tasks have in common: what it sees, and how it ends.
#![tactic(auto)]

mod completion;
mod holding;
mod id;
mod rule;

pub use completion::{becoming, finished, input_of, step_of};
pub use rule::Rule;
