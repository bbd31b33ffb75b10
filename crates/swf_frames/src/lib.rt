//! The stacks of frames of one workflow instance, whose strands form a tree.
#![tactic(auto)]

mod family;
mod faults;
mod forest;
mod frame;
mod room;
mod stack;
mod strand_id;

pub use faults::{PushFault, SplitFault};
pub use forest::Forest;
pub use frame::CopyFrame;
pub use strand_id::StrandId;
