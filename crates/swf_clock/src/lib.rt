//! Which moments of a clock come into the journal, and where.
#![tactic(auto)]

mod clock;
mod laws;

pub use clock::Clock;
pub use laws::{clock_laws, example_laws};
