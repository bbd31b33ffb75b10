//! Turns: what an input that is taken adds to the journal and is answered, what is said of it, and what a stop at any moment leaves.
#![tactic(auto)]

mod answer;
mod opening;
mod saying;

pub use answer::{Answered, answer_line, obey, queried, unread};
pub use opening::not_opened;
pub use saying::{
    After, DAMAGED, FULL, HOST_FAULT, NO_MEMORY, STORE_FAULT, say, say_damage, say_damaged,
    say_full, say_last, say_line,
};
