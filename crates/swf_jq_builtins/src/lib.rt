//! What operators and built-in functions of expressions make of values.
#![tactic(auto)]

mod arrays;
mod builtins;
mod entries;
mod fields;
mod numbers;
mod operations;
mod outcome;
mod pieces;
mod sorting;
mod strings;
mod totals;

pub use arrays::is_true;
pub use builtins::{plain, range, range_len, with_one};
pub use operations::{index, negate, operate, parts};
pub use outcome::{Outcome, Several, copies, error, truth};
pub use sorting::sort_by_keys;
