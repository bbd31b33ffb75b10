//! The engine: a world and the journal of its labels.
#![tactic(auto)]

mod add;
mod engine;
mod fault;
mod law;
mod open;
mod queries;
mod replay;
mod retelling;
mod settle;

pub use engine::{Engine, Submitted};
pub use fault::EngineFault;
pub use law::{front_laws, history_laws};
pub use settle::Settled;
