//! Whether two values are one: of documents, and of what strands hold.
#![tactic(auto)]

mod call;
mod document;
mod error;
mod event;
mod expr;
mod held;
mod loaded;
mod part;
mod same;
mod setting;
mod stand;
mod task;
mod template;
mod text;
mod value;
mod work;

pub use loaded::{same_document, same_task};
pub use same::{Same, same_given, same_items};
pub use setting::same_line;
pub use stand::same_stand;
