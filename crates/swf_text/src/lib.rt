//! Texts, bytes, and what is made of them alone: the small types that every layer shares.
#![tactic(auto)]

mod ascii;
mod builder;
mod bytes;
mod order;
mod place;
mod pointer;
mod same;
mod strand;
mod text;
mod words;

pub use ascii::{all_digits, is_digit, is_letter, is_lower, is_upper};
pub use builder::TextBuilder;
pub use bytes::Bytes;
pub use order::compare_strs;
pub use place::Place;
pub use pointer::pointer_text;
pub use same::{is_word, same_texts};
pub use strand::Strand;
pub use text::Text;
pub use words::word;
