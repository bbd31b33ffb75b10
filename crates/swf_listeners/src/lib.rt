//! Who may take an event, by the types of the events that instances listen for.
#![tactic(auto)]

mod listeners;
mod marks;
mod wanted;

pub use listeners::Listeners;
pub use wanted::Wanted;
