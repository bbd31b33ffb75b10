//! What an instance is made of: stacks of the tasks that run inside each other, with what stands on top of them.
#![tactic(auto)]

mod crossing;
mod heard;
mod kept;
mod made;
mod running;

pub use crossing::stand_crosses;
pub use heard::{events_of, is_heard, is_satisfied};
pub use kept::{Kept, keep};
pub use made::{Frame, Made, SentEvent, Stand, Top};
pub use running::Running;
