//! Messages of HTTP/1.1: read from any source of bytes, and written to any sink.
#![tactic(auto)]

mod body;
mod chunked;
mod fault;
mod follow;
mod found;
mod grow;
mod judge;
mod laws;
mod memory_sink;
mod memory_source;
mod message;
mod parts;
mod piece;
mod request;
mod response;
mod send;
mod sink;
mod sizes;
mod source;
mod target;

pub use fault::{HttpFault, SendFault};
pub use laws::{requests_are_one, responses_are_one};
pub use memory_sink::MemorySink;
pub use memory_source::MemorySource;
pub use message::{Request, Response};
pub use request::read_request;
pub use response::read_response;
pub use send::{write_request, write_response};
pub use sink::Sink;
pub use source::Source;
