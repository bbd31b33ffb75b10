// The commands of a session, and why a line is none.
ghost use Rattle.std.specs.Prelude.{◌≡◌};
ghost use Rattle.swf_protocol.specs.declared.command.CommandFault.TheVariants.{OutOfMemory};

use std::alloc::AllocError;
use swf_cloudevents::FaultKind;
use swf_meaning::{Outcome, Query};
use swf_text::Text;
use thiserror::Error;

/// What a line asks for.
#[derive(Drop)]
pub enum Command {
    /// Take an outcome.
    Do(Outcome),
    /// Answer a query.
    Ask(Query),
    /// Take at most so many steps; none where the line gives no number.
    Settle(Option<u64>),
    /// End the session.
    Quit,
}

/// The first fault of a line that spells no command.
#[derive(Clone, Copy, Debug, PartialEq, Eq, Error)]
pub enum LineFault {
    /// No such command, or too few or too many words.
    #[error("command")]
    Command,
    /// An id is not of its form.
    #[error("word")]
    Word,
    /// A number is not of its form or out of its range.
    #[error("number")]
    Number,
    #[error("not-json")]
    NotJson,
    #[error("too-deep")]
    TooDeep,
    #[error("not-whole")]
    NotWhole,
    /// A value is no reply to a call.
    #[error("reply")]
    Reply,
}

/// Why no command was read.
#[derive(Drop)]
pub enum CommandFault {
    /// The line spells no command.
    BadLine(LineFault),
    /// The line has a value that is no event: the attribute, and what is wrong with it.
    BadEvent { attribute: Text, kind: FaultKind },
    OutOfMemory,
}

impl From<AllocError> for CommandFault {
    ghost from_gives = { λ _ e. e ≡ OutOfMemory };

    fn from(_: AllocError) -> CommandFault {
        CommandFault::OutOfMemory
    }
}
