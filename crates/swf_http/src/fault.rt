// How reading and writing a message fail.
ghost use Rattle.std.specs.Prelude.{◌≡◌};
ghost use Rattle.swf_http.specs.declared.fault.HttpFault.TheVariants.{OutOfMemory as ReadLacks};
ghost use Rattle.swf_http.specs.declared.fault.SendFault.TheVariants.{OutOfMemory as WriteLacks};

use std::alloc::AllocError;
use thiserror::Error;

/// Why no message was read.
#[derive(Clone, Copy, Debug, PartialEq, Eq, Error)]
pub enum HttpFault {
    /// A read failed, and the source's count of faults has risen.
    #[error("a read failed")]
    Read,
    /// The source ended within the message.
    #[error("the bytes end within a message")]
    Ended,
    /// The message is larger than one may be.
    #[error("the message is too long")]
    TooLong,
    /// The bytes begin no message.
    #[error("the bytes begin no message")]
    BadMessage,
    #[error("out of memory")]
    OutOfMemory,
}

impl From<AllocError> for HttpFault {
    ghost from_gives = { λ _ fault. fault ≡ ReadLacks };

    fn from(_: AllocError) -> HttpFault {
        HttpFault::OutOfMemory
    }
}

/// Why a message was not written.
#[derive(Clone, Copy, Debug, PartialEq, Eq, Error)]
pub enum SendFault {
    /// A write failed, and the sink's count of faults has risen. A first part of the message may be written.
    #[error("a write failed")]
    Write,
    /// Nothing was written.
    #[error("out of memory")]
    OutOfMemory,
}

impl From<AllocError> for SendFault {
    ghost from_gives = { λ _ fault. fault ≡ WriteLacks };

    fn from(_: AllocError) -> SendFault {
        SendFault::OutOfMemory
    }
}
