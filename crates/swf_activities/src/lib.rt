//! What a task asks of others: a function, a workflow, and an answer to a request.
#![tactic(auto)]

mod answer;
mod function;
mod parts;
mod request;

pub use answer::answered;
pub use function::{calling, running};
pub use request::calling_http;
