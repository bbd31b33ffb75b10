//! Which of several numbered things come to call themselves.
#![tactic(auto)]

mod search;

pub use search::calling_themselves;
