//! One instance at work: its strands, which take one step after another.
#![tactic(auto)]

mod ask;
mod call;
mod crossing;
mod enter;
mod hear;
mod machine;
mod offer;
mod prepare;
mod prepared;
mod step;
mod take;
mod view;

pub use crossing::machine_crosses;
pub use machine::{BoxedMachine, Machine};
pub use prepared::{Prepared, Strands};
pub use swf_scene::Site;
pub use swf_stack::SentEvent;
pub use take::{StepFault, StepResult};
pub use view::{InstanceView, Node};
