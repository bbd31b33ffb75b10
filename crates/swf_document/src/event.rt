// Which events a `listen` takes (DSL 1.0.0, reference, "Listen" and "Event Consumption Strategy").
use crate::listing::Listing;
use crate::template::{Field, Template};
use swf_expr::Expr;
use swf_text::Text;

/// What a `listen` waits for.
#[derive(Drop)]
pub struct ListenSpec {
    pub mode: ListenMode,
    pub filters: Listing<Filter>,
    /// Whether the output has the whole events, and not their data alone.
    pub envelope: bool,
}

/// How many of the filters have to be met.
#[derive(Clone, Copy, Debug, PartialEq, Eq)]
pub enum ListenMode {
    One,
    Any,
    All,
}

/// Which events are taken.
#[derive(Drop)]
pub struct Filter {
    pub with: Listing<Field>,
    pub correlate: Listing<Correlation>,
}

/// What of an event has to agree with what was seen or is expected.
#[derive(Drop)]
pub struct Correlation {
    pub name: Text,
    pub from: Expr,
    pub expect: Option<Template>,
}
