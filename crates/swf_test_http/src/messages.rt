// What is read of bytes, in words.
ghost use Rattle.std.specs.Prelude.{◌<◌};

use crate::escapes::{tell_bytes, tell_text};
use std::alloc::{AllocError, Global};
use swf_calls::Headers;
use swf_http::{HttpFault, MemorySource, Request, Response, read_request, read_response};

/// What bytes are read as: a request, a response, or a response to a request of HEAD.
#[derive(Clone, Copy)]
pub(crate) enum Kind {
    Request,
    Response,
    ResponseToHead,
}

// Adds headers, each as `NAME=VALUE;`, and what separates them from the body.
fn tell_headers(out: &mut String, headers: &Headers) -> Result<(), AllocError> {
    for header in headers.as_slice() {
        tell_text(out, header.name.as_str())?;
        out.push_str("=")?;
        tell_text(out, header.value.as_str())?;
        out.push_str(";")?;
    }
    out.push_str("|")
}

// `METHOD|TARGET|HEADERS|BODY`.
fn tell_request(alloc: Global, request: &Request) -> Result<String, AllocError> {
    let mut out = String::new(alloc);
    tell_text(&mut out, request.method.as_str())?;
    out.push_str("|")?;
    tell_text(&mut out, request.target.as_str())?;
    out.push_str("|")?;
    tell_headers(&mut out, &request.headers)?;
    tell_bytes(&mut out, &request.body)?;
    Ok(out)
}

// `STATUS|HEADERS|BODY`.
fn tell_response(alloc: Global, response: &Response) -> Result<String, AllocError> {
    let status = response.status;
    let mut out = format!(in alloc; "{status}|")?;
    tell_headers(&mut out, &response.headers)?;
    tell_bytes(&mut out, &response.body)?;
    Ok(out)
}

fn tell_fault(alloc: Global, fault: HttpFault) -> Result<String, AllocError> {
    format!(in alloc; "{fault}")
}

/// Bytes from which messages are read, so many at once.
pub(crate) fn source_of(
    alloc: Global,
    bytes: &[u8],
    piece: usize,
) -> Result<MemorySource, AllocError>
    requires { 0 < piece }
{
    Ok(MemorySource::new(bytes.to_vec(alloc)?, piece, Vec::new(alloc)))
}

/// What is read of bytes that come in pieces of this size: the message, or the fault.
pub(crate) fn told(
    alloc: Global,
    kind: Kind,
    bytes: &[u8],
    piece: usize,
) -> Result<String, AllocError>
    requires { 0 < piece }
{
    let mut source = source_of(alloc, bytes, piece)?;
    match kind {
        Kind::Request => match read_request(alloc, &mut source) {
            Ok(request) => tell_request(alloc, &request),
            Err(fault) => tell_fault(alloc, fault),
        },
        Kind::Response => match read_response(alloc, &mut source, false) {
            Ok(response) => tell_response(alloc, &response),
            Err(fault) => tell_fault(alloc, fault),
        },
        Kind::ResponseToHead => match read_response(alloc, &mut source, true) {
            Ok(response) => tell_response(alloc, &response),
            Err(fault) => tell_fault(alloc, fault),
        },
    }
}
