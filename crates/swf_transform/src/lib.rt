//! Templates: what they give on an input, and within which limits. Filters: which events they take, and what these agree in. URIs: where
//! a request goes.
#![tactic(auto)]

mod correlation;
mod escapes;
mod filling;
mod filter;
mod offer;
mod telling;
mod uris;

pub use correlation::correlate;
pub use escapes::digits;
pub use filling::{fill, first, is_within, transform};
pub use filter::filter_matches;
pub use offer::Offer;
pub use swf_templates::Got;
pub use telling::message;
pub use uris::{add_query, expand_uri};
