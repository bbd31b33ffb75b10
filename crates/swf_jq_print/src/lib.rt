//! Writing an expression as text, which is read as the same expression.
#![tactic(auto)]

mod printing;

pub use printing::print;
