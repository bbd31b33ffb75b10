//! The rules of the tasks: what each kind of task does, and where control goes.
#![tactic(auto)]

mod emit;
mod for_;
mod fork;
mod listen;
mod lists;
mod next;
mod raise;
mod switch;
mod try_;
mod wait;

pub use emit::emitting;
pub use for_::looping;
pub use fork::{forking, settled};
pub use listen::{heard, listening};
pub use lists::comes_to;
pub use next::{failed, moved_on};
pub use raise::raising;
pub use switch::switched;
pub use wait::{waiting, woken};
