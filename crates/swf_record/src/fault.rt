// Why bytes are no labels.
use thiserror::Error;

/// Why no labels were read.
#[derive(Clone, Copy, Debug, PartialEq, Eq, Error)]
pub enum RecordFault {
    /// The first field that does not fit begins at this place.
    #[error("no labels: the field at byte {at} does not fit")]
    Bad { at: u64 },
    /// An allocation failed.
    #[error("out of memory")]
    OutOfMemory,
}
