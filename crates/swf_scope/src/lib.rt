//! What the parts of a document may name where they stand, and the faults of scope of what has no tasks inside.
#![tactic(auto)]

mod expressions;
mod names;
mod parts;
mod scope;
mod spot;
mod variables;

pub use expressions::{condition, expression, filled, template};
pub use names::{Names, names_of_errors, names_of_retries, names_of_tasks};
pub use parts::{callee, error, filters, flow, raise, retry, with};
pub use scope::{Known, Scope};
pub use spot::{Spot, tell, tell_unless};
pub use variables::{Standard, Variables};
