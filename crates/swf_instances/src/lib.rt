//! The instances, by id and by number: which takes the next step, until when they wait, which of them take an event, and which an answer.
#![tactic(auto)]

mod instances;
mod listening;
mod next;
mod offer;
mod reply;

pub use instances::Instances;
pub use offer::{Hearing, Offered};
