// When a failed attempt is made again (DSL 1.0.0, reference, "Retry").
use crate::boxed::Boxed;
use swf_expr::Expr;
use swf_text::Text;

/// The policy of a `catch`.
#[derive(Drop)]
pub enum RetryRef {
    /// The one of this name in the document.
    Named(Text),
    Written(RetryPolicy),
}

/// How often and after how long a failed attempt is made again.
#[derive(Drop)]
pub struct RetryPolicy {
    /// Milliseconds before each further attempt.
    pub delay: u64,
    /// How many further attempts there are at most.
    pub count: Option<u64>,
    pub cond: Option<Boxed<Expr>>,
    pub except: Option<Boxed<Expr>>,
}
