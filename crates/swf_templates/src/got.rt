// What an evaluation leads to.
use swf_value::Json;

/// What an expression or a template gives.
#[derive(Drop)]
pub enum Got<T> {
    Value(T),
    /// An error that an expression raised.
    Raised(Json),
    /// The value is above the limits on size or depth.
    TooLarge,
    /// An expression takes more turns than it may.
    Limit,
}
