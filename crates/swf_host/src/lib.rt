//! The host of the engine: a store from which inputs come too, which says replies, and which may have a crew that does work.
#![tactic(auto)]

mod console_host;
mod host;
mod memory_host;
mod script;

pub use console_host::{ConsoleHost, MOST_LINE};
pub use host::{CopyIn, Host, Input, NoWork};
pub use memory_host::MemoryHost;
pub use script::{Said, Turn};
