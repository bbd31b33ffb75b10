// How outputs end, and the first of them.
use swf_value::Json;

/// How outputs end.
#[derive(Drop)]
pub enum End {
    Clean,
    /// With an error.
    Raised(Json),
    /// More turns were taken than are allowed.
    Limit,
}

/// The first output of an expression.
#[derive(Drop)]
pub enum First {
    Value(Json),
    /// An error, before any output.
    Raised(Json),
    /// More turns were taken than are allowed.
    Limit,
}
