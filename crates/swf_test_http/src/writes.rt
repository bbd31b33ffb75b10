// Messages that are read and written again.
ghost use Rattle.std.specs.Prelude.{◌≡◌, ◌&&◌, ◌||◌, chars, codes, length, nat_lt, not, true, IfOk};
ghost use Rattle.std.specs.List.{list_all, list_any};
ghost use Rattle.std.specs.Str.{encode_utf8_all};
ghost use Rattle.http1.specs.Text.{eq_ignore_case};
ghost use Rattle.httparse.specs.Grammar.{IsToken};
ghost use Rattle.swf_http.specs.Sent.{is_visible, IsSendableRequest, IsSendableResponse, IsSendableStatus};

use crate::escapes::tell_each;
use crate::messages::source_of;
use http1::text::eq_ignore_case;
use std::alloc::{AllocError, Global};
use std::io;
use swf_calls::{Header, Headers, are_sendable, is_sendable};
use swf_http::{
    MemorySink, Request, Response, SendFault, read_request, read_response, write_request,
    write_response,
};
use swf_test_tables::{add_outcome, no_meaning};
use swf_text::Text;

/// The numbers of the calls that fail, each in its turn.
const FAILING: [u64; 3] = [0, 2, 9];

// Whether a text is a token, which is the name and the value of a header that can be sent.
#[tactic(auto, using(crate::proofs::SentLemmas::token_of))]
fn is_token(text: &Text) -> Result<bool, AllocError>
    ensures { IfOk result (λ is. is ≡ true → IsToken text.now) }
{
    let header = Header {
        name: text.copy()?,
        value: text.copy()?,
    };
    Ok(is_sendable(&header))
}

// Whether a character shows, and is of ASCII.
fn is_visible(character: char) -> bool
    ensures { result ≡ is_visible character }
{
    '!' <= character && character <= '~'
}

// Whether a text has a character.
fn has_character(text: &str) -> bool
    ensures { result ≡ nat_lt 0 (length (chars text.now)) }
{
    match text.chars().next() {
        Some(_) => true,
        None => false,
    }
}

// Whether each character of a text shows.
fn is_of_visible(text: &str) -> bool
    ensures { result ≡ list_all is_visible (chars text.now) }
{
    text.chars().all(|character| is_visible(character))
}

// Whether a text has characters, and each of them shows.
fn is_target(text: &Text) -> bool
    ensures { result ≡ (nat_lt 0 (length text.now) && list_all is_visible text.now) }
{
    let text = text.as_str();
    has_character(text) && is_of_visible(text)
}

// Whether a request can be sent.
#[tactic(auto, using(crate::proofs::SentLemmas::target_from))]
fn can_send_request(request: &Request) -> Result<bool, AllocError>
    ensures { IfOk result (λ can. can ≡ true → IsSendableRequest request.now) }
{
    let is_token = is_token(&request.method)?;
    Ok(is_token && is_target(&request.target) && are_sendable(&request.headers))
}

// Whether a header is one that `write_response` writes itself, or never.
fn is_own(header: &Header) -> bool
    ensures { result ≡ (eq_ignore_case (encode_utf8_all header.now.name) (codes "content-length")
        || (eq_ignore_case (encode_utf8_all header.now.name) (codes "connection")
        || eq_ignore_case (encode_utf8_all header.now.name) (codes "transfer-encoding"))) }
{
    let name = header.name.as_str().as_bytes();
    eq_ignore_case(name, b"content-length")
        || eq_ignore_case(name, b"connection")
        || eq_ignore_case(name, b"transfer-encoding")
}

// Whether one of some headers is such.
fn has_own(headers: &Headers) -> bool
    ensures { result ≡ list_any (λ h. eq_ignore_case (encode_utf8_all h.name) (codes "content-length")
        || (eq_ignore_case (encode_utf8_all h.name) (codes "connection")
        || eq_ignore_case (encode_utf8_all h.name) (codes "transfer-encoding"))) headers.now }
{
    headers.as_slice().iter().any(|header| is_own(header))
}

// Whether a status is one that can be sent.
fn can_send_status(status: u16) -> bool
    ensures { result ≡ true → IsSendableStatus status }
{
    200 <= status && status <= 599 && status != 204 && status != 304
}

// Whether a response can be sent.
#[tactic(auto, using(crate::proofs::SentLemmas::response_from))]
fn can_send_response(response: &Response) -> bool
    ensures { result ≡ true → IsSendableResponse response.now }
{
    can_send_status(response.status)
        && are_sendable(&response.headers)
        && !has_own(&response.headers)
}

// A sink that takes ten bytes at once, and fails at the call of this number.
fn sink_of(alloc: Global, failing: u64) -> Result<MemorySink, AllocError> {
    let mut calls = Vec::with_capacity(alloc, 1)?;
    calls.push(failing)?;
    Ok(MemorySink::new(alloc, 10, calls))
}

// What a sink took, and the fault if there is one.
fn told(
    alloc: Global,
    sink: &MemorySink,
    outcome: Result<(), SendFault>,
) -> Result<String, AllocError> {
    let mut out = String::new(alloc);
    tell_each(&mut out, sink.written())?;
    if let Err(fault) = outcome {
        write!(out, " and then {fault}")?;
    }
    Ok(out)
}

// What is written of a request where the call of this number fails.
fn written_request(alloc: Global, request: &Request, failing: u64) -> Result<String, AllocError> {
    if !can_send_request(request)? {
        return String::from_str(alloc, "is not sent");
    }
    let mut sink = sink_of(alloc, failing)?;
    let outcome = write_request(alloc, &mut sink, request);
    told(alloc, &sink, outcome)
}

// The same of a response.
fn written_response(
    alloc: Global,
    response: &Response,
    failing: u64,
) -> Result<String, AllocError> {
    if !can_send_response(response) {
        return String::from_str(alloc, "is not sent");
    }
    let mut sink = sink_of(alloc, failing)?;
    let outcome = write_response(alloc, &mut sink, response);
    told(alloc, &sink, outcome)
}

/// Adds a row, and what is written of the request that is read of its bytes: where no call fails, and where one does.
pub(crate) fn add_request(
    alloc: Global,
    transcript: &mut Vec<u8>,
    row: &str,
    bytes: &[u8],
) -> io::Result<()> {
    let mut source = source_of(alloc, bytes, 5000)?;
    let Ok(request) = read_request(alloc, &mut source) else {
        return Err(no_meaning());
    };
    let told = written_request(alloc, &request, u64::MAX)?;
    add_outcome(transcript, row, told.as_str())?;
    for failing in FAILING {
        let row = format!(in alloc; "call {failing} fails")?;
        let told = written_request(alloc, &request, failing)?;
        add_outcome(transcript, row.as_str(), told.as_str())?;
    }
    Ok(())
}

/// The same of a response.
pub(crate) fn add_response(
    alloc: Global,
    transcript: &mut Vec<u8>,
    row: &str,
    bytes: &[u8],
) -> io::Result<()> {
    let mut source = source_of(alloc, bytes, 5000)?;
    let Ok(response) = read_response(alloc, &mut source, false) else {
        return Err(no_meaning());
    };
    let told = written_response(alloc, &response, u64::MAX)?;
    add_outcome(transcript, row, told.as_str())?;
    for failing in FAILING {
        let row = format!(in alloc; "call {failing} fails")?;
        let told = written_response(alloc, &response, failing)?;
        add_outcome(transcript, row.as_str(), told.as_str())?;
    }
    Ok(())
}
