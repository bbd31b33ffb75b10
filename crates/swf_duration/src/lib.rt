//! Durations and moments, in milliseconds.
#![tactic(auto)]

mod duration;
mod moment;

pub use duration::{DurationFault, read_duration};
pub use moment::Moment;
