//! What templates, filters and URIs come to, as definitions, and the type that these speak of.
#![tactic(auto)]

mod got;

pub use got::Got;
