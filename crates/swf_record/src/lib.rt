//! Labels and their bytes.
#![tactic(auto)]

mod decode;
mod encode;
mod event;
mod fault;
mod law;
mod reader;

pub use decode::decode_labels;
pub use encode::encode_labels;
pub use fault::RecordFault;
pub use law::record_laws;
