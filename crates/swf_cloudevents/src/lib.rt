//! Events: which value is which, and how an event is written (CloudEvents 1.0.2, with its JSON Event Format).
#![tactic(auto)]

mod check;
mod event;
mod fault;
mod laws;
mod named;
mod read;
mod time;
mod write;

pub use event::{Event, Payload};
pub use fault::{EventFault, FaultKind, fault_word};
pub use laws::event_laws;
pub use named::NamedValues;
pub use read::read_event;
pub use write::{attribute, event_json, key};
