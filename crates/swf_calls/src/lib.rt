//! Calls: what they ask, and what they are answered.
#![tactic(auto)]

mod field;
mod headers;
mod laws;
mod method;
mod reply;
mod request;

pub use field::{are_sendable, is_sendable};
pub use headers::{Header, Headers};
pub use laws::reply_laws;
pub use method::Method;
pub use reply::{CallReply, read_reply, reply_json};
pub use request::{CallRequest, head_json, request_json};
