//! Workflow documents as plain types, and which value is which document.
#![tactic(auto)]

mod boxed;
mod call;
mod common;
mod crossing;
mod document;
mod error;
mod event;
mod fault;
mod listing;
mod problem;
mod retry;
mod run;
mod tasks;
mod template;

pub use boxed::{Boxed, unboxed};
pub use call::{Callee, Endpoint, HttpSpec};
pub use common::{Case, Common, Flow};
pub use crossing::{document_crosses, problem_crosses};
pub use document::{DocKey, Document, NamedError, NamedRetry};
pub use error::{ErrorFilter, ErrorKind, ErrorRef, ErrorSpec, Problem, matches_filter};
pub use event::{Correlation, Filter, ListenMode, ListenSpec};
pub use fault::{Fault, FaultKind, Faults};
pub use listing::Listing;
pub use problem::{problem_value, standard_error};
pub use retry::{RetryPolicy, RetryRef};
pub use run::RunSpec;
pub use tasks::{ForSpec, ForkSpec, Kind, Named, Task, Tasks, TrySpec};
pub use template::{Field, Template, TemplateNode};
