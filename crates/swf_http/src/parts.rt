// The parts of a head, as values.
ghost use Rattle.std.specs.Prelude.{◌≡◌, length, map, chars, All, IfOk};
ghost use Rattle.std.specs.Char.{to_ascii_lowercase};
ghost use Rattle.std.specs.Str.{IsUtf8};
ghost use Rattle.httparse.specs.Grammar.{RequestHead};
ghost use Rattle.httparse.specs.Spans.{IsHeaderWithin, IsRequestAt, header_bytes};
ghost use Rattle.swf_http.specs.Stands.{IsFoundRequest};
ghost use Rattle.swf_http.specs.Fields.{headers_of};
ghost use Rattle.swf_http.specs.Requests.{IsParts};

use crate::found::FoundRequest;
use httparse::spans::HeaderSpan;
use std::alloc::{AllocError, Global};
use swf_calls::{Header, Headers};
use swf_text::{Text, TextBuilder};

/// The parts of a request's head.
#[derive(Drop)]
pub struct Parts {
    pub method: Text,
    pub target: Text,
    pub headers: Headers,
}

// The text whose characters have these bytes as their numbers.
fn text_of(alloc: Global, bytes: &[u8]) -> Result<Text, AllocError>
    ensures { IfOk result (λ t. t ≡ bytes.now) }
{
    let mut text = TextBuilder::new(alloc);
    for b in bytes {
        text.push(char::from(*b))?;
    }
    text.into_text(alloc)
}

// The same in lower case.
fn lower_text_of(alloc: Global, bytes: &[u8]) -> Result<Text, AllocError>
    ensures { IfOk result (λ t. t ≡ map to_ascii_lowercase bytes.now) }
{
    let mut text = TextBuilder::new(alloc);
    for b in bytes {
        text.push(char::from(b.to_ascii_lowercase()))?;
    }
    text.into_text(alloc)
}

// The text that these bytes spell in UTF-8.
fn spelled(alloc: Global, bytes: &[u8]) -> Result<Text, AllocError>
    requires { IsUtf8 bytes.now }
    ensures { IfOk result (λ t. t ≡ chars bytes.now) }
{
    match str::from_utf8(bytes) {
        Ok(text) => Text::copy_of(alloc, text),
        Err(_) => unreachable!(),
    }
}

/// The headers that stand at some spans.
pub(crate) fn headers_at(
    alloc: Global,
    bytes: &[u8],
    spans: &[HeaderSpan],
) -> Result<Headers, AllocError>
    requires { All (IsHeaderWithin (length bytes.now)) spans.now }
    ensures { IfOk result (λ headers. headers ≡ headers_of (map (header_bytes bytes.now) spans.now)) }
{
    let mut headers = Headers::none(alloc);
    for span in spans {
        let name = lower_text_of(alloc, span.name.of(bytes))?;
        let value = text_of(alloc, span.value.of(bytes))?;
        headers.add(alloc, Header { name, value })?;
    }
    Ok(headers)
}

/// The parts of a head that was found in some bytes.
pub(crate) fn parts_at(
    alloc: Global,
    bytes: &[u8],
    found: &FoundRequest,
) -> Result<Parts, AllocError>
    requires { IsFoundRequest bytes.now found.now }
    ensures { (h : RequestHead) → IsRequestAt bytes.now found.now.headers.items found.now.spans h
        → IfOk result (λ parts. IsParts h parts.method parts.target parts.headers) }
{
    let method = text_of(alloc, found.spans.method.of(bytes))?;
    let target = spelled(alloc, found.spans.path.of(bytes))?;
    let headers = headers_at(alloc, bytes, &found.headers[..found.spans.headers])?;
    Ok(Parts {
        method,
        target,
        headers,
    })
}
