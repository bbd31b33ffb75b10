//! The world: all instances, the keys that were used, and why a label is refused, as parts that equal the lists of the definitions.
#![tactic(auto)]

mod change;
mod event;
mod label;
mod latest;
mod laws;
mod load;
mod moment;
mod next;
mod query;
mod refusal;
mod reply;
mod start;
mod step;
mod world;

pub use change::{Change, Installed};
pub use laws::refusal_laws;
pub use query::QueryFault;
pub use refusal::{PrepareFault, Refusal};
pub use world::World;
