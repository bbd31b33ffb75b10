// The parts of a message that have a grammar, read from a source.
ghost use Rattle.std.specs.Prelude.{◌≡◌, ◌≤◌, ◌-◌, List, ℕ, drop, length, vec_len, MatchResult, IfOk, OnOk};
ghost use Rattle.swf_http.specs.Pieces.{Form, SaysPiece, Settles};
ghost use Rattle.swf_http.specs.Sources.{Splits, ReadCause};
ghost use Rattle.swf_http.specs.Verdicts.{FaultSays};

use crate::grow::fill;
use crate::{HttpFault, Source};
use std::alloc::Global;

/// A part of a message that was found at the front of some bytes.
pub trait Piece: Drop {
    /// What its grammar makes of the bytes.
    ghost Tree: { Type 0 };

    ghost form: { Form Tree };

    /// The bytes begin with it, and its parts stand there.
    ghost stands: { List ℕ → Self → Type 0 };

    /// Looks for one at the front of the bytes so far.
    fn settle(alloc: Global, bytes: &[u8]) -> Result<Option<Self>, HttpFault>
        ensures { Settles form stands bytes.now result };

    /// Whether one may end behind so many of the bytes. It says when to look, and no answer of a reader hangs on it.
    fn may_end(bytes: &[u8], seen: usize) -> bool
        requires { seen ≤ length bytes.now };
}

/// Reads a piece that begins at a place of a buffer and ends before another. It looks at the bytes again only where one may be whole, or they are twice as many.
pub(crate) fn read_piece<P: Piece, S: Source>(
    alloc: Global,
    from: &mut S,
    buffer: &mut Vec<u8>,
    at: usize,
    most: usize,
) -> Result<P, HttpFault>
    requires at { at ≤ vec_len buffer.old }
    requires room { vec_len buffer.old ≤ most }
    ensures found { IfOk result (P.stands (drop at buffer.new.items)) }
    ensures size { OnOk result ((vec_len buffer.old ≤ vec_len buffer.new) × (vec_len buffer.new ≤ most)) }
    ensures says { (bytes : List ℕ) → Splits bytes buffer.old.items (S.left from.old)
        → MatchResult result (λ _. Splits bytes buffer.new.items (S.left from.new)) (FaultSays (SaysPiece P.form (most - at)) (drop at bytes)) }
    ensures cause { ReadCause result (S.faults from.old) (S.faults from.new) }
    ensures beside { S.beside from.new ≡ S.beside from.old }
{
    let mut more = true;
    'looks: loop {
        if let Some(found) = P::settle(alloc, &buffer[at..])? {
            return Ok(found);
        }
        if buffer.len() >= most {
            return Err(HttpFault::TooLong);
        }
        if !more {
            return Err(HttpFault::Ended);
        }
        more = fill::<P, S>(from, buffer, at, most)?;
    }
}
