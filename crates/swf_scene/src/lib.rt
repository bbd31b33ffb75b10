//! What a task of an instance goes by: the tasks around it, and the variables that its expressions see.
#![tactic(auto)]

mod halt;
mod scene;
mod setting;
mod sight;
mod site;

pub use halt::{Halt, fails, value_of};
pub use scene::Scene;
pub use setting::Setting;
pub use sight::{Sight, before, behind, catching, retrying, within};
pub use site::Site;
