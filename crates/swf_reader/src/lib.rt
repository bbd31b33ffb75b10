//! Reading a value as a document.
#![tactic(auto)]

mod call;
mod document;
mod error;
mod event;
mod parts;
mod task;
mod template;

pub use document::{ReadFault, read_document};
