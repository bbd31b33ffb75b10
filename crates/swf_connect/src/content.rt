// The content of a response, as a value.
ghost use Rattle.std.specs.Prelude.{◌≡◌, ◌≤◌, ◌==◌, chars, reverse, IfOk, IfSome, if◌then◌else◌};
ghost use Rattle.std.specs.Str.{is_utf8};
ghost use Rattle.base64.specs.GeneralPurpose.{encode_of};
ghost use Rattle.base64.specs.Engines.{standard};
ghost use Rattle.std.specs.List.{before_first, list_any};
ghost use Rattle.httparse.specs.Grammar.{is_ows, skip_ows};
ghost use Rattle.swf_value.specs.Value.{depth};
ghost use Rattle.swf_connect.specs.Content.{content_of, is_json_type, json_content, media_type, plain_content, tells_json};

use base64::engine::general_purpose::STANDARD;
use http1::text::eq_ignore_case;
use std::alloc::{AllocError, Global};
use swf_calls::{Header, Headers};
use swf_text::{Text, is_word};
use swf_value::{Json, ValueFault, read_json};

fn is_blank(byte: u8) -> bool
    ensures { result ≡ is_ows byte }
{
    byte == b' ' || byte == b'\t'
}

fn trim_start(mut bytes: &[u8]) -> &[u8]
    ensures { result.now ≡ skip_ows bytes.now }
{
    while let [first, rest @ ..] = bytes
        && is_blank(*first)
    {
        bytes = rest;
    }
    bytes
}

fn trim_end(mut bytes: &[u8]) -> &[u8]
    ensures { result.now ≡ reverse (skip_ows (reverse bytes.now)) }
{
    while let [rest @ .., last] = bytes
        && is_blank(*last)
    {
        bytes = rest;
    }
    bytes
}

/// What stands before the first `;`.
fn before_semicolon(bytes: &[u8]) -> &[u8]
    ensures { result.now ≡ before_first (λ b. b == 59) bytes.now }
{
    let mut end = 0;
    'bytes: while end < bytes.len() && bytes[end] != b';' {
        end += 1;
    }
    &bytes[..end]
}

/// A type without its parameters.
fn media_type(value: &[u8]) -> &[u8]
    ensures { result.now ≡ media_type value.now }
{
    trim_end(trim_start(before_semicolon(value)))
}

/// Whether a type is JSON or has its syntax.
fn is_json_type(media_type: &[u8]) -> bool
    ensures { result ≡ is_json_type media_type.now }
{
    let suffix = &media_type[media_type.len().saturating_sub(5)..];
    eq_ignore_case(media_type, b"application/json") || eq_ignore_case(suffix, b"+json")
}

/// Whether a header tells that the content is JSON.
fn tells_json(header: &Header) -> bool
    ensures { result ≡ tells_json header.now }
{
    is_word(&header.name, "content-type")
        && is_json_type(media_type(header.value.as_str().as_bytes()))
}

/// The base64 of bytes.
fn base64_text(alloc: Global, bytes: &[u8]) -> Result<Text, AllocError>
    ensures { IfOk result (λ t. t ≡ chars (encode_of standard bytes.now)) }
{
    let text = STANDARD.encode(alloc, bytes)?;
    Text::from_string(alloc, text)
}

/// Bytes as a text, else as their base64.
fn plain_text(alloc: Global, bytes: &[u8]) -> Result<Text, AllocError>
    ensures { IfOk result (λ t. t ≡ chars (if is_utf8 bytes.now then bytes.now else encode_of standard bytes.now)) }
{
    match str::from_utf8(bytes) {
        Ok(text) => Text::copy_of(alloc, text),
        Err(_) => base64_text(alloc, bytes),
    }
}

/// The same as a value.
fn plain_content(alloc: Global, body: &[u8]) -> Result<Json, AllocError>
    ensures { IfOk result (λ v. v ≡ plain_content body.now) }
{
    Ok(Json::text(plain_text(alloc, body)?))
}

/// Whether headers tell that the content is JSON.
fn is_json(headers: &[Header]) -> bool
    ensures { result ≡ list_any tells_json headers.now }
{
    headers.iter().any(|header| tells_json(header))
}

/// The value that a body is, where the headers tell that it is JSON.
fn json_content(alloc: Global, headers: &Headers, body: &[u8]) -> Result<Option<Json>, AllocError>
    ensures value { IfOk result (λ found. found ≡ json_content headers.now body.now) }
    ensures shallow { IfOk result (λ found. IfSome found (λ v. depth v ≤ 64)) }
{
    if !is_json(headers.as_slice()) {
        return Ok(None);
    }
    match read_json(alloc, body) {
        Ok(value) => Ok(Some(value)),
        Err(ValueFault::OutOfMemory) => Err(AllocError),
        Err(_) => Ok(None),
    }
}

/// The content of a response with these headers and this body: null for no body; the value of JSON; else the text where it is UTF-8,
/// and else the base64 of it.
#[tactic(auto, using(crate::proofs::ContentLemmas::found_content, crate::proofs::ContentLemmas::other_content))]
pub(crate) fn content_of(alloc: Global, headers: &Headers, body: &[u8]) -> Result<Json, AllocError>
    ensures value { IfOk result (λ v. v ≡ content_of headers.now body.now) }
    ensures shallow { IfOk result (λ v. depth v ≤ 64) }
{
    if body.is_empty() {
        return Ok(Json::null());
    }
    match json_content(alloc, headers, body)? {
        Some(value) => Ok(value),
        None => plain_content(alloc, body),
    }
}
