//! How labels print.
#![tactic(auto)]

mod printed;

pub use printed::print_label;
