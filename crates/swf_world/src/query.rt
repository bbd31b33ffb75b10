// Why a query has no answer.
use thiserror::Error;

/// Why a query has no answer.
#[derive(Clone, Copy, Debug, PartialEq, Eq, Error)]
pub enum QueryFault {
    #[error("unknown instance")]
    UnknownInstance,
    #[error("out of memory")]
    OutOfMemory,
}
