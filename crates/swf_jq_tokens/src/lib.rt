//! The tokens of an expression's text, one after another.
#![tactic(auto)]

mod fault;
mod laws;
mod lexer;
mod nest;
mod number;
mod piece;
mod signs;
mod token;
mod words;

pub use fault::ParseFault;
pub use laws::lexer_laws;
pub use lexer::{End, lex};
pub use number::Number;
pub use token::{Keyword, Sign, Token};
