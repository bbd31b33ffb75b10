//! What a workflow means: labels, nodes, what a step of a task does, and the world.
#![tactic(auto)]

mod heard;
mod key;
mod label;

pub use heard::Heard;
pub use key::Key;
pub use label::{Answer, Label, Outcome, Query};
