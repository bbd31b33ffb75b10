//! The order in which instances take steps, and until when instances wait, by their numbers.
#![tactic(auto)]

mod alarms;
mod queue;

pub use alarms::Alarms;
pub use queue::Queue;
