// Why a call of an engine was not done.
ghost use Rattle.std.specs.Prelude.{◌≡◌};
ghost use Rattle.swf_engine.specs.declared.fault.EngineFault.TheVariants.{OutOfMemory};
ghost use Rattle.swf_engine.specs.Causes.{of_open, of_append};

use std::alloc::AllocError;
use swf_journal::{AppendFault, OpenFault};
use thiserror::Error;

/// Why a call of an engine was not done. After `Store`, `Damaged` or `Full` the engine is not used again.
#[derive(Clone, Copy, Debug, PartialEq, Eq, Error)]
pub enum EngineFault {
    /// A call of the store failed.
    #[error("the store failed")]
    Store,
    /// Bytes of the journal that were acknowledged spell no legal label.
    #[error("the journal is damaged at byte {at}")]
    Damaged { at: u64 },
    /// The next frame would end past the most bytes that a journal has.
    #[error("the journal is full at {size} bytes")]
    Full { size: u64 },
    #[error("out of memory")]
    OutOfMemory,
}

impl From<OpenFault> for EngineFault {
    ghost from_gives = { λ fault e. e ≡ of_open fault };

    fn from(fault: OpenFault) -> Self {
        match fault {
            OpenFault::Store => EngineFault::Store,
            OpenFault::Damaged { at } => EngineFault::Damaged { at },
            OpenFault::OutOfMemory => EngineFault::OutOfMemory,
        }
    }
}

impl From<AppendFault> for EngineFault {
    ghost from_gives = { λ fault e. e ≡ of_append fault };

    fn from(fault: AppendFault) -> Self {
        match fault {
            AppendFault::Store => EngineFault::Store,
            AppendFault::Full { size } => EngineFault::Full { size },
        }
    }
}

impl From<AllocError> for EngineFault {
    ghost from_gives = { λ _ e. e ≡ OutOfMemory };

    fn from(_: AllocError) -> Self {
        EngineFault::OutOfMemory
    }
}
