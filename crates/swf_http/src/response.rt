// Responses from a source.
ghost use Rattle.std.specs.Prelude.{◌≡◌, ◌≤◌, ◌+◌, [], List, ℕ, drop, vec_len, MatchResult, IfOk, OnOk};
ghost use Rattle.std.specs.Option.{ForSome};
ghost use Rattle.httparse.specs.Grammar.{ResponseHead};
ghost use Rattle.httparse.specs.Spans.{IsResponseAt, IsResponseWithin};
ghost use Rattle.swf_http.specs.Limits.{most_head};
ghost use Rattle.swf_http.specs.Responses.{IsResponse, SaysBody, SaysHead, SaysResponse};
ghost use Rattle.swf_http.specs.Sources.{Splits, ReadCause};
ghost use Rattle.swf_http.specs.Verdicts.{Answers, FaultSays, whole};

use crate::body::{read_body, read_rest};
use crate::chunked::read_chunked;
use crate::follow::{Follow, follow_of};
use crate::found::FoundResponse;
use crate::parts::headers_at;
use crate::piece::read_piece;
use crate::sizes::MOST_HEAD;
use crate::{HttpFault, Response, Source};
use http1::framing::Framing;
use std::alloc::Global;

/// A head at a place of a buffer, and how the body behind it is framed.
#[derive(Drop)]
struct Framed {
    at: usize,
    found: FoundResponse,
    framing: Framing,
}

// Reads the head of a response to a buffer, and those before it that are read past.
fn read_final<S: Source>(
    alloc: Global,
    from: &mut S,
    buffer: &mut Vec<u8>,
    head: bool,
) -> Result<Framed, HttpFault>
    requires { buffer.old.items ≡ [] }
    ensures size { OnOk result (vec_len buffer.new ≤ most_head) }
    ensures within { IfOk result (λ f. (f.at ≤ vec_len buffer.new) × IsResponseWithin (drop f.at buffer.new.items) f.found.headers.items f.found.spans) }
    ensures says { (bytes : List ℕ) → Splits bytes buffer.old.items (S.left from.old)
        → MatchResult result
        (λ f. Splits bytes buffer.new.items (S.left from.new)
        × ((h : ResponseHead) × IsResponseAt (drop f.at buffer.new.items) f.found.headers.items f.found.spans h
        × SaysHead head most_head bytes (whole (h, f.framing) (drop (f.at + f.found.spans.len) bytes))))
        (FaultSays (SaysHead head most_head) bytes) }
    ensures cause { ReadCause result (S.faults from.old) (S.faults from.new) }
    ensures beside { S.beside from.new ≡ S.beside from.old }
{
    let mut at = 0;
    'heads: loop {
        let found = read_piece::<FoundResponse, S>(alloc, from, buffer, at, MOST_HEAD)?;
        match follow_of(head, &buffer[at..], &found) {
            Follow::Bad => return Err(HttpFault::BadMessage),
            Follow::TooLong => return Err(HttpFault::TooLong),
            Follow::Interim => at += found.spans.len,
            Follow::Body(framing) => return Ok(Framed { at, found, framing }),
        }
    }
}

// Reads the body that begins at a place of a buffer, by its framing.
fn read_framed<S: Source>(
    alloc: Global,
    from: &mut S,
    buffer: &mut Vec<u8>,
    at: usize,
    framing: Framing,
) -> Result<Vec<u8>, HttpFault>
    requires at { at ≤ vec_len buffer.old }
    requires fits { vec_len buffer.old ≤ most_head }
    ensures says { (bytes : List ℕ) → Splits bytes buffer.old.items (S.left from.old)
        → Answers (SaysBody framing) (λ items body. body.items ≡ items) (drop at bytes) result }
    ensures cause { ReadCause result (S.faults from.old) (S.faults from.new) }
    ensures beside { S.beside from.new ≡ S.beside from.old }
{
    match framing {
        Framing::NoBody => Ok(Vec::new(alloc)),
        Framing::Length(size) => read_body(alloc, from, buffer, at, size as usize),
        Framing::Chunked => read_chunked(alloc, from, buffer, at),
        Framing::UntilClose => read_rest(alloc, from, buffer, at),
    }
}

/// Reads a response; `head` says that no body follows, as after HEAD. Those of status 100 to 199 are read past. All heads have at
/// most 65,536 bytes, each of them and a trailer 100 fields, the body 1,048,576 bytes, and its chunk lines and trailer 16,777,216. It
/// reads by pieces, of which the last may go past the response. `Ended` where the source ends within it, and `BadMessage` where the
/// bytes begin none, or one whose status is not from 100 to 599.
pub fn read_response<S: Source>(
    alloc: Global,
    from: &mut S,
    head: bool,
) -> Result<Response, HttpFault>
    ensures says { ForSome (S.left from.old) (λ bytes. Answers (SaysResponse head) IsResponse bytes result) }
    ensures cause { ReadCause result (S.faults from.old) (S.faults from.new) }
    ensures beside { S.beside from.new ≡ S.beside from.old }
{
    let mut buffer = Vec::new(alloc);
    let last = read_final(alloc, from, &mut buffer, head)?;
    let spans = last.found.spans;
    let headers = headers_at(
        alloc,
        &buffer[last.at..],
        &last.found.headers[..spans.headers],
    )?;
    let body = read_framed(alloc, from, &mut buffer, last.at + spans.len, last.framing)?;
    Ok(Response {
        status: spans.code,
        headers,
        body,
    })
}
