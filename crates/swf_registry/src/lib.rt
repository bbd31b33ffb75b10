//! The registry: every used key with its place.
#![tactic(auto)]

mod sought;
mod used;

pub use sought::Sought;
pub use used::UsedKeys;
