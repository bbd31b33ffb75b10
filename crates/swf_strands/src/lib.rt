//! The strands of an instance, and the way to each.
#![tactic(auto)]

mod alarm;
mod ask;
mod crossing;
mod fork;
mod names;
mod order;
mod stand;

pub use alarm::{alarm_in, own_until, put_kept};
pub use ask::{enabled_here, enabled_in};
pub use crossing::strands_cross;
pub use fork::{branches_of, forked, put_at};
pub use names::{list_strands, named};
pub use order::{lead_in, lead_on};
pub use stand::{child_of, stand_of, strand_at};
