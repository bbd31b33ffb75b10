//! The linter: what is said of the bytes of a document, and the program's mode that says it.
#![tactic(auto)]

mod host;
mod run;
mod verdict;

pub use host::WholeHost;
pub use run::run_check;
