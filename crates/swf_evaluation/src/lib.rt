//! What expressions come to, as definitions, and the types that these speak of.
#![tactic(auto)]

mod answer;
mod vars;

pub use answer::{End, First};
pub use vars::{Values, Variable, Vars};
