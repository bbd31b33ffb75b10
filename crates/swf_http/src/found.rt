// Where the parts of a message stand at the front of some bytes.
ghost use Rattle.std.specs.Prelude.{◌≡◌, ◌+◌, ◌≤◌, ◌/◌, length, vec_len, IfOk};
ghost use Rattle.httparse.specs.Grammar.{RequestHead, ResponseHead, ChunkLine};
ghost use Rattle.swf_http.specs.Pieces.{Settles, Section, request_form, response_form, line_form, trailer_form};
ghost use Rattle.swf_http.specs.Stands.{IsFoundRequest, IsFoundResponse, IsFoundLine, IsFoundTrailer};

use crate::HttpFault;
use crate::piece::Piece;
use crate::target::ends_in_target;
use httparse::spans::{
    EMPTY_HEADER_SPAN, HeaderSpan, RequestSpans, ResponseSpans, parse_headers, parse_request,
    parse_response,
};
use httparse::{Error, Status, parse_chunk_size};
use std::alloc::{AllocError, Global};

/// Where the parts of a request's head stand. Its fields are the first of the headers.
#[derive(Drop)]
pub struct FoundRequest {
    pub spans: RequestSpans,
    pub headers: Vec<HeaderSpan>,
}

/// Where the parts of a response's head stand. Its fields are the first of the headers.
#[derive(Drop)]
pub struct FoundResponse {
    pub spans: ResponseSpans,
    pub headers: Vec<HeaderSpan>,
}

/// A chunk's line of so many bytes, and the size of the chunk.
#[derive(Drop)]
pub struct FoundLine {
    pub len: usize,
    pub size: u64,
}

/// A trailer of so many bytes, and how many fields it has.
#[derive(Drop)]
pub struct FoundTrailer {
    pub len: usize,
    pub count: usize,
}

// Room for each field that these bytes can have.
fn room_for(alloc: Global, bytes: &[u8]) -> Result<Vec<HeaderSpan>, AllocError>
    ensures { IfOk result (λ headers. vec_len headers ≡ length bytes.now / 3 + 1) }
{
    vec![in alloc; EMPTY_HEADER_SPAN; bytes.len() / 3 + 1]
}

// Whether an empty line ends behind so many of the bytes, and stands at their front or follows a line that is not empty.
fn has_empty_line(bytes: &[u8], seen: usize) -> bool
    requires { seen ≤ length bytes.now }
{
    for at in seen..bytes.len() {
        if bytes[at] == b'\n' && ends_empty_line(&bytes[..at]) {
            return true;
        }
    }
    false
}

// Whether a line feed behind these bytes ends an empty line that stands at their front or follows a line that is not empty.
fn ends_empty_line(bytes: &[u8]) -> bool {
    match without_return(bytes) {
        [] => true,
        [before @ .., b'\n'] => !matches!(
            without_return(before).last(),
            None | Some(b'\n' | b'\r')
        ),
        _ => false,
    }
}

// The bytes without a carriage return at their end.
fn without_return(bytes: &[u8]) -> &[u8] {
    match bytes {
        [before @ .., b'\r'] => before,
        _ => bytes,
    }
}

impl Piece for FoundRequest {
    ghost Tree = { RequestHead };

    ghost form = { request_form };

    ghost stands = { IsFoundRequest };

    fn settle(alloc: Global, bytes: &[u8]) -> Result<Option<FoundRequest>, HttpFault>
        ensures { Settles request_form IsFoundRequest bytes.now result }
    {
        let mut headers = room_for(alloc, bytes)?;
        match parse_request(bytes, headers.as_mut_slice()) {
            Ok(Status::Complete(spans)) => Ok(Some(FoundRequest { spans, headers })),
            Ok(Status::Partial) => Ok(None),
            Err(Error::TooManyHeaders) => unreachable!(),
            Err(_) if ends_in_target(bytes) => Ok(None),
            Err(_) => Err(HttpFault::BadMessage),
        }
    }

    fn may_end(bytes: &[u8], seen: usize) -> bool {
        has_empty_line(bytes, seen)
    }
}

impl Piece for FoundResponse {
    ghost Tree = { ResponseHead };

    ghost form = { response_form };

    ghost stands = { IsFoundResponse };

    fn settle(alloc: Global, bytes: &[u8]) -> Result<Option<FoundResponse>, HttpFault>
        ensures { Settles response_form IsFoundResponse bytes.now result }
    {
        let mut headers = room_for(alloc, bytes)?;
        match parse_response(bytes, headers.as_mut_slice()) {
            Ok(Status::Complete(spans)) => Ok(Some(FoundResponse { spans, headers })),
            Ok(Status::Partial) => Ok(None),
            Err(Error::TooManyHeaders) => unreachable!(),
            Err(_) => Err(HttpFault::BadMessage),
        }
    }

    fn may_end(bytes: &[u8], seen: usize) -> bool {
        has_empty_line(bytes, seen)
    }
}

impl Piece for FoundLine {
    ghost Tree = { ChunkLine };

    ghost form = { line_form };

    ghost stands = { IsFoundLine };

    fn settle(_: Global, bytes: &[u8]) -> Result<Option<FoundLine>, HttpFault>
        ensures { Settles line_form IsFoundLine bytes.now result }
    {
        match parse_chunk_size(bytes) {
            Ok(Status::Complete((len, size))) => Ok(Some(FoundLine { len, size })),
            Ok(Status::Partial) => Ok(None),
            Err(_) => Err(HttpFault::BadMessage),
        }
    }

    fn may_end(bytes: &[u8], seen: usize) -> bool {
        bytes[seen..].contains(&b'\n')
    }
}

impl Piece for FoundTrailer {
    ghost Tree = { Section };

    ghost form = { trailer_form };

    ghost stands = { IsFoundTrailer };

    fn settle(alloc: Global, bytes: &[u8]) -> Result<Option<FoundTrailer>, HttpFault>
        ensures { Settles trailer_form IsFoundTrailer bytes.now result }
    {
        let mut headers = room_for(alloc, bytes)?;
        match parse_headers(bytes, headers.as_mut_slice()) {
            Ok(Status::Complete(found)) => Ok(Some(FoundTrailer {
                len: found.0,
                count: found.1,
            })),
            Ok(Status::Partial) => Ok(None),
            Err(Error::TooManyHeaders) => unreachable!(),
            Err(_) => Err(HttpFault::BadMessage),
        }
    }

    fn may_end(bytes: &[u8], seen: usize) -> bool {
        has_empty_line(bytes, seen)
    }
}
