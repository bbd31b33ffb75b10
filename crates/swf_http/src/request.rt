// Requests from a source.
ghost use Rattle.std.specs.Prelude.{◌≡◌};
ghost use Rattle.std.specs.Option.{ForSome};
ghost use Rattle.swf_http.specs.Requests.{IsRequest, SaysRequest};
ghost use Rattle.swf_http.specs.Sources.{ReadCause};
ghost use Rattle.swf_http.specs.Verdicts.{Answers};

use crate::body::read_body;
use crate::found::FoundRequest;
use crate::judge::{Judgement, judge};
use crate::parts::parts_at;
use crate::piece::read_piece;
use crate::sizes::MOST_HEAD;
use crate::{HttpFault, Request, Source};
use std::alloc::Global;

/// Reads a request: a head of at most 65,536 bytes and 100 fields, and a body of at most 1,048,576 bytes. It reads by pieces, of
/// which the last may go past the request. `Ended` where the source ends within it, and `BadMessage` where the bytes begin none.
pub fn read_request<S: Source>(alloc: Global, from: &mut S) -> Result<Request, HttpFault>
    ensures says { ForSome (S.left from.old) (λ bytes. Answers SaysRequest IsRequest bytes result) }
    ensures cause { ReadCause result (S.faults from.old) (S.faults from.new) }
    ensures beside { S.beside from.new ≡ S.beside from.old }
{
    let mut buffer = Vec::new(alloc);
    let found = read_piece::<FoundRequest, S>(alloc, from, &mut buffer, 0, MOST_HEAD)?;
    let size = match judge(buffer.as_slice(), &found) {
        Judgement::Bad => return Err(HttpFault::BadMessage),
        Judgement::TooLong => return Err(HttpFault::TooLong),
        Judgement::Sized(size) => size as usize,
    };
    let parts = parts_at(alloc, buffer.as_slice(), &found)?;
    let body = read_body(alloc, from, &mut buffer, found.spans.len, size)?;
    Ok(Request {
        method: parts.method,
        target: parts.target,
        headers: parts.headers,
        body,
    })
}
