// Bodies of a length, and those that the end of the source ends.
ghost use Rattle.std.specs.Prelude.{◌≡◌, ◌≤◌, List, ℕ, drop, vec_len};
ghost use Rattle.swf_http.specs.Bodies.{body_of, rest_of};
ghost use Rattle.swf_http.specs.Sources.{Splits, ReadCause};
ghost use Rattle.swf_http.specs.Verdicts.{Answers};

use crate::grow::grow;
use crate::sizes::MOST_BODY;
use crate::{HttpFault, Source};
use std::alloc::Global;

/// Reads the body of so many bytes that begins at a place of a buffer. It takes no memory before they are there.
pub(crate) fn read_body<S: Source>(
    alloc: Global,
    from: &mut S,
    buffer: &mut Vec<u8>,
    at: usize,
    size: usize,
) -> Result<Vec<u8>, HttpFault>
    requires { at ≤ vec_len buffer.old }
    ensures says { (bytes : List ℕ) → Splits bytes buffer.old.items (S.left from.old)
        → Answers (λ behind v. v ≡ body_of size behind) (λ items body. body.items ≡ items) (drop at bytes) result }
    ensures cause { ReadCause result (S.faults from.old) (S.faults from.new) }
    ensures beside { S.beside from.new ≡ S.beside from.old }
{
    'pieces: while buffer.len() - at < size {
        if grow(from, buffer, at.saturating_add(size))? == 0 {
            return Err(HttpFault::Ended);
        }
    }
    Ok(buffer[at..at + size].to_vec(alloc)?)
}

/// Reads the body that begins at a place of a buffer and goes on to the end.
pub(crate) fn read_rest<S: Source>(
    alloc: Global,
    from: &mut S,
    buffer: &mut Vec<u8>,
    at: usize,
) -> Result<Vec<u8>, HttpFault>
    requires { at ≤ vec_len buffer.old }
    ensures says { (bytes : List ℕ) → Splits bytes buffer.old.items (S.left from.old)
        → Answers (λ behind v. v ≡ rest_of behind) (λ items body. body.items ≡ items) (drop at bytes) result }
    ensures cause { ReadCause result (S.faults from.old) (S.faults from.new) }
    ensures beside { S.beside from.new ≡ S.beside from.old }
{
    'pieces: while buffer.len() - at <= MOST_BODY {
        if grow(from, buffer, at.saturating_add(MOST_BODY + 1))? == 0 {
            return Ok(buffer[at..].to_vec(alloc)?);
        }
    }
    Err(HttpFault::TooLong)
}
