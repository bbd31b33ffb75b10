//! What the words of a command line mean.
#![tactic(auto)]

mod arguments;
mod words;

pub use arguments::read_words;
pub use words::{Mode, Words};
