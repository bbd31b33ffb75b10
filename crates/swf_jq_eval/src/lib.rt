//! Evaluation of expressions over JSON values.
#![tactic(auto)]

mod answer;
mod call;
mod forms;
mod inner;
mod object;
mod outputs;
mod scope;
mod search;
mod steps;

pub use answer::{Stream, eval, first_value};
pub use swf_evaluation::{End, First, Values, Variable, Vars};
