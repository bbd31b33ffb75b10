//! The lines of a session: the commands that they spell, and the replies that answer them.
#![tactic(auto)]

mod command;
mod laws;
mod line;
mod notice;
mod number;
mod reply;
mod spoken;
mod verb;
mod words;

pub use command::{Command, CommandFault, LineFault};
pub use laws::command_laws;
pub use line::read_command;
pub use notice::{damaged_line, full_line};
pub use number::budget_of;
pub use reply::Reply;
pub use spoken::reply_bytes;
