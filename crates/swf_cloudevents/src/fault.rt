// Why a value is no event.
ghost use Rattle.std.specs.Prelude.{◌≡◌, IsTrue};
ghost use Rattle.swf_text.specs.Same.{is_ascii};
ghost use Rattle.swf_cloudevents.specs.FaultWord.{fault_word};
ghost use Rattle.swf_cloudevents.specs.declared.fault.EventFault.TheVariants.{OutOfMemory};

use std::alloc::AllocError;
use swf_text::Text;
use thiserror::Error;

/// What is wrong with an attribute.
#[derive(Clone, Copy, Debug, PartialEq, Eq, Error)]
pub enum FaultKind {
    /// It has to be there.
    #[error("missing")]
    Missing,
    /// The value is of another kind, or the event is no object.
    #[error("wrong-kind")]
    WrongKind,
    /// The text is empty.
    #[error("empty")]
    Empty,
    /// The text is not of its form.
    #[error("bad-value")]
    BadValue,
    /// There are `data` and `data_base64`.
    #[error("conflict")]
    Conflict,
    /// The name is not of lower-case letters and digits.
    #[error("bad-name")]
    BadName,
}

/// Why no event was read.
#[derive(Drop)]
pub enum EventFault {
    /// The first fault: the attribute, which is empty where the value is no object, and what is wrong with it.
    Bad { attribute: Text, kind: FaultKind },
    OutOfMemory,
}

impl From<AllocError> for EventFault {
    ghost from_gives = { λ _ e. e ≡ OutOfMemory };

    fn from(_: AllocError) -> EventFault {
        EventFault::OutOfMemory
    }
}

/// The word by which a kind of fault is written.
pub fn fault_word(kind: FaultKind) -> &'static str
    ensures text { result.now ≡ fault_word kind }
    ensures ascii { IsTrue (is_ascii result.now) }
{
    match kind {
        FaultKind::Missing => "missing",
        FaultKind::WrongKind => "wrong-kind",
        FaultKind::Empty => "empty",
        FaultKind::BadValue => "bad-value",
        FaultKind::Conflict => "conflict",
        FaultKind::BadName => "bad-name",
    }
}
