// Why bytes are no value.
use thiserror::Error;

/// Why bytes were not read as a value.
#[derive(Clone, Copy, Debug, PartialEq, Eq, Error)]
pub enum ValueFault {
    /// The bytes are no JSON that `serde_json` takes.
    #[error("not JSON")]
    NotJson,
    /// Lists and objects nest deeper than is allowed.
    #[error("too deep")]
    TooDeep,
    /// A number has a fraction or an exponent, is `-0`, or is out of range.
    #[error("not whole")]
    NotWhole,
    /// An allocation failed.
    #[error("out of memory")]
    OutOfMemory,
}
