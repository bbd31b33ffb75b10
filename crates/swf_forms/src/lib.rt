//! The forms of the texts in a document.
#![tactic(auto)]

mod expression;
mod form;

pub use expression::{expression_of, is_duration};
pub use form::{
    Form, bare, characters, inner, is_enclosed, method_of, text_verdict, trimmed, unless,
};
