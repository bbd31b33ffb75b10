// Messages to a sink.
ghost use Rattle.std.specs.Prelude.{◌≡◌, ◌++◌, [], decimal, codes, unwrap_or, All, IfOk, OnOk, IsTrue};
ghost use Rattle.std.specs.List.{flat_map};
ghost use Rattle.http.specs.StatusCode.{code_digits, reason_phrase};
ghost use Rattle.httparse.specs.Ascii.{crlf_bytes};
ghost use Rattle.swf_text.specs.Same.{is_ascii};
ghost use Rattle.swf_http.specs.Sent.{header_line, request_bytes, response_bytes, status_line, IsSendable, IsSendableRequest, IsSendableResponse, IsSendableStatus, AfterSend, SendCause};

use crate::sink::write_all;
use crate::{Request, Response, SendFault, Sink};
use http::StatusCode;
use itoa::Buffer;
use std::alloc::{AllocError, Global};
use swf_calls::Header;
use swf_text::Text;

// Adds a text, which is ASCII, to bytes.
#[tactic(auto, using(crate::proofs::SentLemmas::text_bytes))]
fn put_text(out: &mut Vec<u8>, text: &Text) -> Result<(), AllocError>
    requires { IsTrue (is_ascii text.now) }
    ensures { OnOk result (out.new.items ≡ out.old.items ++ text.now) }
{
    out.extend_from_slice(text.as_str().as_bytes())
}

// Adds headers to bytes, a line each.
#[tactic(auto, using(crate::proofs::SentLemmas::token_ascii, crate::proofs::SentLemmas::plain_ascii))]
fn put_headers(out: &mut Vec<u8>, headers: &[Header]) -> Result<(), AllocError>
    requires { All IsSendable headers.now }
    ensures { OnOk result (out.new.items ≡ out.old.items ++ flat_map header_line headers.now) }
{
    for header in headers {
        put_text(out, &header.name)?;
        out.extend_from_slice(b": ")?;
        put_text(out, &header.value)?;
        out.extend_from_slice(b"\r\n")?;
    }
    Ok(())
}

// The bytes of a request.
#[tactic(auto, using(crate::proofs::SentLemmas::token_ascii, crate::proofs::SentLemmas::visible_ascii))]
fn request_bytes(alloc: Global, request: &Request) -> Result<Vec<u8>, AllocError>
    requires { IsSendableRequest request.now }
    ensures { IfOk result (λ bytes. bytes.items ≡ request_bytes request.now) }
{
    let mut out = Vec::new(alloc);
    put_text(&mut out, &request.method)?;
    out.extend_from_slice(b" ")?;
    put_text(&mut out, &request.target)?;
    out.extend_from_slice(b" HTTP/1.1\r\n")?;
    put_headers(&mut out, request.headers.as_slice())?;
    out.extend_from_slice(b"\r\n")?;
    out.extend_from_slice(&request.body)?;
    Ok(out)
}

// The parts of a response's first line.
fn status_parts(alloc: Global, status: u16) -> Result<Vec<u8>, AllocError>
    requires { IsSendableStatus status }
    ensures { IfOk result (λ out. out.items ≡ codes "HTTP/1.1 " ++ code_digits status ++ codes " " ++ unwrap_or (reason_phrase status) [] ++ crlf_bytes) }
{
    let Ok(code) = StatusCode::from_u16(status) else {
        unreachable!()
    };
    let mut out = Vec::new(alloc);
    out.extend_from_slice(b"HTTP/1.1 ")?;
    out.extend_from_slice(code.as_str().as_bytes())?;
    out.extend_from_slice(b" ")?;
    if let Some(phrase) = code.canonical_reason() {
        out.extend_from_slice(phrase.as_bytes())?;
    }
    out.extend_from_slice(b"\r\n")?;
    Ok(out)
}

// A response's first line.
fn status_line(alloc: Global, status: u16) -> Result<Vec<u8>, AllocError>
    requires { IsSendableStatus status }
    ensures { IfOk result (λ out. out.items ≡ status_line status) }
{
    status_parts(alloc, status)
}

// Adds a number in digits to bytes.
fn put_number(out: &mut Vec<u8>, number: usize) -> Result<(), AllocError>
    ensures { OnOk result (out.new.items ≡ out.old.items ++ decimal number) }
{
    let mut digits = Buffer::new();
    out.extend_from_slice(digits.format(number).as_bytes())
}

// The bytes of a response.
fn response_bytes(alloc: Global, response: &Response) -> Result<Vec<u8>, AllocError>
    requires { IsSendableResponse response.now }
    ensures { IfOk result (λ bytes. bytes.items ≡ response_bytes response.now) }
{
    let mut out = status_line(alloc, response.status)?;
    put_headers(&mut out, response.headers.as_slice())?;
    out.extend_from_slice(b"Content-Length: ")?;
    put_number(&mut out, response.body.len())?;
    out.extend_from_slice(b"\r\nConnection: close\r\n\r\n")?;
    out.extend_from_slice(&response.body)?;
    Ok(out)
}

// Writes bytes, and tells a failure as one of sending.
fn send<W: Sink>(to: &mut W, bytes: &[u8]) -> Result<(), SendFault>
    ensures told { AfterSend bytes.now result (W.written to.old) (W.written to.new) }
    ensures cause { SendCause result (W.write_faults to.old) (W.write_faults to.new) }
    ensures kept { W.kept to.new ≡ W.kept to.old }
{
    match write_all(to, bytes) {
        Ok(()) => Ok(()),
        Err(_) => Err(SendFault::Write),
    }
}

/// Writes a request: its first line, its headers, an empty line and its body.
pub fn write_request<W: Sink>(alloc: Global, to: &mut W, request: &Request) -> Result<(), SendFault>
    requires { IsSendableRequest request.now }
    ensures told { AfterSend (request_bytes request.now) result (W.written to.old) (W.written to.new) }
    ensures cause { SendCause result (W.write_faults to.old) (W.write_faults to.new) }
    ensures kept { W.kept to.new ≡ W.kept to.old }
{
    let bytes = request_bytes(alloc, request)?;
    send(to, &bytes)
}

/// Writes a response with the length of its body, after which the connection is to be closed.
pub fn write_response<W: Sink>(
    alloc: Global,
    to: &mut W,
    response: &Response,
) -> Result<(), SendFault>
    requires { IsSendableResponse response.now }
    ensures told { AfterSend (response_bytes response.now) result (W.written to.old) (W.written to.new) }
    ensures cause { SendCause result (W.write_faults to.old) (W.write_faults to.new) }
    ensures kept { W.kept to.new ≡ W.kept to.old }
{
    let bytes = response_bytes(alloc, response)?;
    send(to, &bytes)
}
