//! Expressions as trees, with their names, signs and built-in functions.
#![tactic(auto)]

mod builtin;
mod constant;
mod expr;
mod name;
mod op;

pub use builtin::Builtin;
pub use constant::ConstantObject;
pub use expr::{Expr, ExprMember, ExprNode};
pub use name::Name;
pub use op::Op;
