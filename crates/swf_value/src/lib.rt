//! JSON values with whole numbers, their text and their order.
#![tactic(auto)]

mod fault;
mod find;
mod list;
mod map;
mod measure;
mod names;
mod number;
mod order;
mod read;
mod value;
mod whole;
mod words;
mod write;

pub use fault::ValueFault;
pub use list::JsonList;
pub use map::JsonMap;
pub use measure::{depth, size, size_within};
pub use order::{compare, order_laws};
pub use read::{read_json, read_json_within};
pub use value::{Json, JsonNode, Member, may_cross};
pub use words::member;
pub use write::write_json;
