//! The text of expressions: reading it as a tree.
#![tactic(auto)]

mod close;
mod fault;
mod follow;
mod joint;
mod laws;
mod machine;
mod member;
mod mode;
mod operand;
mod parsing;
mod stack;
mod text_part;

pub use fault::ParseFault;
pub use laws::grammar_laws;
pub use parsing::parse;
pub use swf_jq_tokens::lexer_laws;
