// Why a journal could not be opened, or a frame not be appended.
ghost use Rattle.std.specs.Prelude.{◌≡◌};
ghost use Rattle.swf_journal.specs.declared.fault.AppendFault.TheVariants.{Store as AppendStore};
ghost use Rattle.swf_journal.specs.declared.fault.OpenFault.TheVariants.{Store as OpenStore, OutOfMemory as OpenOutOfMemory};

use std::alloc::AllocError;
use swf_store::Failed;
use thiserror::Error;

#[derive(Clone, Copy, Debug, PartialEq, Eq, Error)]
pub enum OpenFault {
    #[error("the store failed")]
    Store,
    #[error("the journal is damaged at byte {at}")]
    Damaged { at: u64 },
    #[error("out of memory")]
    OutOfMemory,
}

impl From<Failed> for OpenFault {
    ghost from_gives = { λ _ e. e ≡ OpenStore };

    fn from(_: Failed) -> Self {
        OpenFault::Store
    }
}

impl From<AllocError> for OpenFault {
    ghost from_gives = { λ _ e. e ≡ OpenOutOfMemory };

    fn from(_: AllocError) -> Self {
        OpenFault::OutOfMemory
    }
}

#[derive(Clone, Copy, Debug, PartialEq, Eq, Error)]
pub enum AppendFault {
    #[error("the store failed")]
    Store,
    #[error("the journal is full at {size} bytes")]
    Full { size: u64 },
}

impl From<Failed> for AppendFault {
    ghost from_gives = { λ _ e. e ≡ AppendStore };

    fn from(_: Failed) -> Self {
        AppendFault::Store
    }
}
