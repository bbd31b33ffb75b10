//! The catalog: the documents that are loaded, each with its tasks by number.
#![tactic(auto)]

mod crossing;
mod documents;
mod find;
mod keeping;
mod numbered;
mod numbering;
mod parts;
mod round;
mod row;
mod shared;
mod task;
mod words;

pub use crossing::task_crosses;
pub use documents::{Documents, Loaded, same_name};
pub use find::place_of;
pub use numbered::NumberedDocument;
pub use parts::{Parts, Work};
pub use round::{Iteration, Round, SubWorkflow};
pub use shared::{Shared, SharedDocument, share_document};
pub use task::TaskRef;
pub use words::Words;
