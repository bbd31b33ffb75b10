//! The journal of the engine: frames behind gates in one file of a store, appended whole or not at all.
#![tactic(auto)]

mod append;
mod fault;
mod frame;
mod header;
mod law;
mod reading;
mod write;

pub use append::Journal;
pub use fault::{AppendFault, OpenFault};
pub use frame::{FrameBytes, build};
pub use header::{begin, begin_again};
pub use law::stands_for_one_list;
pub use reading::Reading;
