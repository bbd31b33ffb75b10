//! A crew of worker threads: each job that it is given is taken by one worker, or left, once.
#![tactic(auto)]

mod closing;
mod crew;
mod gate;
mod hired;
mod rule;
mod work;
mod worker;

pub use closing::Closed;
pub use crew::Crew;
pub use work::{Outlet, Seat, Work};
