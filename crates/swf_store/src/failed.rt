// How a call of a store fails.
ghost use Rattle.std.specs.Prelude.{◌≡◌};
ghost use Rattle.swf_store.specs.declared.failed.StoreFault.TheVariants.{Failed as StoreFailed, OutOfMemory as StoreOutOfMemory};

use std::alloc::{AllocError, AllocFailed};
use std::io;
use thiserror::Error;

/// A call of a store or a host that was not done. A count of faults tells that there was one.
#[derive(Clone, Copy, Debug, PartialEq, Eq, Error)]
#[error("the call failed")]
pub struct Failed;

/// Memory was missing.
#[derive(Clone, Copy, Debug, PartialEq, Eq, Error)]
#[error("out of memory")]
pub struct OutOfMemory;

impl From<AllocError> for OutOfMemory {
    fn from(_: AllocError) -> Self {
        OutOfMemory
    }
}

impl<T: Drop> From<AllocFailed<T>> for OutOfMemory {
    fn from(_: AllocFailed<T>) -> Self {
        OutOfMemory
    }
}

/// Why a store could not be made.
#[derive(Clone, Copy, Debug, PartialEq, Eq, Error)]
pub enum StoreFault {
    #[error("the store failed")]
    Failed,
    #[error("out of memory")]
    OutOfMemory,
}

impl From<AllocError> for StoreFault {
    ghost from_gives = { λ _ e. e ≡ StoreOutOfMemory };

    fn from(_: AllocError) -> Self {
        StoreFault::OutOfMemory
    }
}

impl From<io::Error> for StoreFault {
    ghost from_gives = { λ _ e. e ≡ StoreFailed };

    fn from(_: io::Error) -> Self {
        StoreFault::Failed
    }
}
