//! Examples of turns that no session has yet: more inputs than one, work among them, replies that a board answered, moments that are
//! told, and replies that are held back.
#![tactic(auto)]

mod examples;
mod work;

pub use examples::{
    moment_before_outcome, replies_held_back, three_inputs, two_answers, work_comes_later,
};
pub use work::{Done, Job, take_with_work, work_of_a_script};
