//! Which runs are allowed: what each label needs and changes, and that none acts twice.
#![tactic(auto)]

mod key;
mod laws;

pub use key::key_of;
pub use laws::{
    legal_alive, legal_counted, legal_grows, legal_once, legal_over, legal_quiet, legal_stays,
    legal_waiting, legal_within, legal_world, node_tops,
};
