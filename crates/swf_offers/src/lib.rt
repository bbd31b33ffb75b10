//! What the strands of an instance listen for and await, an event that is offered to them, and an answer that is put where a call awaits it.
#![tactic(auto)]

mod answer;
mod calls;
mod event_types;
mod hear;
mod listening;
mod offer;

pub use answer::{answer_in, is_open_in};
pub use calls::list_calls;
pub use event_types::list_types;
pub use offer::{hears_in, offer_in};
