//! The lines that run a job of so many loop turns, and what their replies come to.
#![tactic(auto)]

mod laws;
mod lines;
mod totals;

pub use laws::{line_laws, totals_laws};
pub use lines::{generated_line, generated_lines};
pub use totals::Totals;
