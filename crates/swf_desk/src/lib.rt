//! Who asked, by connection, until it is told what it asked for.
#![tactic(auto)]

mod desk;
mod laws;

pub use desk::Desk;
pub use laws::desk_laws;
