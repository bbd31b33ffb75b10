//! What is reported: of an instance, of all that wait, and of the events that went out. It only reads.
#![tactic(auto)]

mod calls;
mod reports;
mod waits;

pub use calls::open_calls;
pub use reports::report;
pub use waits::{outbox, pending};
