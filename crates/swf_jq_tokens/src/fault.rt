// Why a text is no expression.
ghost use Rattle.std.specs.Prelude.{◌≡◌};
ghost use Rattle.swf_jq_tokens.specs.declared.fault.ParseFault.TheVariants.{OutOfMemory};

use std::alloc::AllocError;
use thiserror::Error;

/// Why a text was not read as an expression: the first fault from left to right, with its place in
/// bytes from the text's start.
#[derive(Clone, Copy, Debug, PartialEq, Eq, Error)]
pub enum ParseFault {
    /// The text has more than 4,096 bytes.
    #[error("too long")]
    TooLong,
    /// A bracket stands inside 64 others: `(`, `[`, `{`, or the `\(` of a text.
    #[error("too deep at {at}")]
    TooDeep { at: usize },
    /// A number has a fraction or an exponent, or is out of range.
    #[error("no whole number at {at}")]
    NotWhole { at: usize },
    /// No built-in has this name and number of arguments.
    #[error("unknown name at {at}")]
    UnknownName { at: usize },
    /// What stands here cannot stand here. A text with a wrong character or escape of its own stands at its
    /// first byte.
    #[error("syntax error at {at}")]
    Syntax { at: usize },
    /// An allocation failed.
    #[error("out of memory")]
    OutOfMemory,
}

impl From<AllocError> for ParseFault {
    ghost from_gives = { λ _ e. e ≡ OutOfMemory };

    fn from(_e: AllocError) -> ParseFault {
        ParseFault::OutOfMemory
    }
}
