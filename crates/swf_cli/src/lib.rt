//! The program: a session reads commands line by line, keeps their labels in the journal, and says what becomes of each.
#![tactic(auto)]

mod run;
mod session;
mod show;
mod turn;

pub use run::swf_run;
pub use swf_words::{Mode, Words, read_words};
