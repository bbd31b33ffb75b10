// The message that is sent for a request.
ghost use Rattle.std.specs.Prelude.{◌≡◌, ◌++◌, ℕ, List, codes, decimal, true, option_copied, option_map, IfOk, IfSome, OnOk, IsTrue, Some};
ghost use Rattle.std.specs.List.{list_any};
ghost use Rattle.swf_text.specs.Same.{is_ascii};
ghost use Rattle.swf_calls.specs.Headers.{put_field};
ghost use Rattle.swf_calls.specs.Request.{are_sendable};
ghost use Rattle.swf_http.specs.Sent.{IsSendableRequest};
ghost use Rattle.url.specs.Parts.{IsValid};
ghost use Rattle.swf_connect.specs.Sending.{body_of, host_value, is_json_body, is_named, is_withheld, origin_form, own_headers, passed_headers, path_part, put_fields, query_part, sent_headers, type_headers, IsMessage};
ghost use Rattle.swf_connect.specs.Reaching.{host_of};

use http1::text::eq_ignore_case;
use itoa::Buffer;
use std::alloc::{AllocError, Global};
use swf_calls::{CallRequest, Header, Headers};
use swf_http::Request;
use swf_text::{Text, TextBuilder, word};
use swf_value::{Json, JsonNode, write_json};
use url::Url;

/// Whether a header has this name, in any case of letters.
fn is_named(header: &Header, name: &[u8]) -> bool
    ensures { result ≡ is_named name.now header.now }
{
    eq_ignore_case(header.name.as_str().as_bytes(), name)
}

/// Whether a header is one that the connector writes itself, or one that it never writes.
fn is_withheld(header: &Header) -> bool
    ensures { result ≡ is_withheld header.now }
{
    is_named(header, b"host")
        || is_named(header, b"content-length")
        || is_named(header, b"connection")
        || is_named(header, b"transfer-encoding")
}

/// Puts a field of ASCII among headers.
fn put_word(alloc: Global, headers: &mut Headers, name: &str, value: &str) -> Result<(), AllocError>
    requires name { IsTrue (is_ascii name.now) }
    requires value { IsTrue (is_ascii value.now) }
    ensures { OnOk result (headers.new ≡ put_field (record { name = name.now; value = value.now }) headers.old) }
{
    headers.put(Header {
        name: word(alloc, name)?,
        value: word(alloc, value)?,
    })
}

/// Puts the headers that are given, but those that are withheld.
fn put_given(headers: &mut Headers, given: &[Header]) -> Result<(), AllocError>
    ensures { OnOk result (headers.new ≡ put_fields (passed_headers given.now) headers.old) }
{
    for header in given {
        if !is_withheld(header) {
            let name = header.name.copy()?;
            let value = header.value.copy()?;
            headers.put(Header { name, value })?;
        }
    }
    Ok(())
}

/// Whether a body is sent as JSON.
fn is_json_body(body: Option<&Json>) -> bool
    ensures { result ≡ is_json_body (option_map (λ v. v.now) body.entry) }
{
    match body {
        None => false,
        Some(value) => !matches!(value.node(), JsonNode::Text(_)),
    }
}

/// Whether a type of the body is given.
fn gives_type(given: &[Header]) -> bool
    ensures { result ≡ list_any (is_named (codes "content-type")) given.now }
{
    given.iter().any(|header| is_named(header, b"content-type"))
}

/// Puts the type of a body that is sent as JSON, unless one is given.
fn put_type(
    alloc: Global,
    headers: &mut Headers,
    body: Option<&Json>,
    given: &[Header],
) -> Result<(), AllocError>
    ensures { OnOk result (headers.new ≡ put_fields (type_headers (option_map (λ v. v.now) body.entry) given.now) headers.old) }
{
    if is_json_body(body) && !gives_type(given) {
        put_word(alloc, headers, "Content-Type", "application/json")?;
    }
    Ok(())
}

/// A number in digits.
fn number(alloc: Global, number: usize) -> Result<Text, AllocError>
    ensures { IfOk result (λ t. t ≡ decimal number) }
{
    let mut digits = Buffer::new();
    Text::copy_of(alloc, digits.format(number))
}

/// Puts the headers that the connector writes itself.
fn put_own(alloc: Global, headers: &mut Headers, size: usize, host: Text) -> Result<(), AllocError>
    ensures { OnOk result (headers.new ≡ put_fields (own_headers size host) headers.old) }
{
    put_word(alloc, headers, "Connection", "close")?;
    headers.put(Header {
        name: word(alloc, "Content-Length")?,
        value: number(alloc, size)?,
    })?;
    headers.put(Header {
        name: word(alloc, "Host")?,
        value: host,
    })
}

fn sent_headers(
    alloc: Global,
    request: &CallRequest,
    host: Text,
    size: usize,
) -> Result<Headers, AllocError>
    ensures value { IfOk result (λ headers. headers ≡ sent_headers request.now host size) }
    ensures given { IfOk result (λ _. are_sendable request.now.headers ≡ true) }
{
    let given = request.headers().as_slice();
    let mut headers = Headers::none(alloc);
    put_given(&mut headers, given)?;
    put_type(alloc, &mut headers, request.body(), given)?;
    put_own(alloc, &mut headers, size, host)?;
    Ok(headers)
}

/// A text as it is, any other value as JSON.
fn body_of(alloc: Global, body: Option<&Json>) -> Result<Vec<u8>, AllocError>
    ensures { IfOk result (λ bytes. bytes.items ≡ body_of (option_map (λ v. v.now) body.entry)) }
{
    let mut bytes = Vec::new(alloc);
    if let Some(value) = body {
        match value.node() {
            JsonNode::Text(text) => bytes.extend_from_slice(text.as_str().as_bytes())?,
            _ => write_json(value, &mut bytes)?,
        }
    }
    Ok(bytes)
}

/// The host, and `:` and the port where there is one.
fn host_value(alloc: Global, host: &str, port: Option<u16>) -> Result<Text, AllocError>
    requires { IsTrue (is_ascii host.now) }
    ensures { IfOk result (λ t. t ≡ host_value host.now port) }
{
    let mut text = TextBuilder::new(alloc);
    text.push_ascii(host)?;
    if let Some(port) = port {
        text.push_ascii(":")?;
        text.push_text(&number(alloc, usize::from(port))?)?;
    }
    text.into_text(alloc)
}

/// The path, which is `/` where it is empty.
fn path_part(path: &str) -> &str
    requires { IsTrue (is_ascii path.now) }
    ensures value { result.now ≡ path_part path.now }
    ensures ascii { IsTrue (is_ascii result.now) }
{
    if path.is_empty() { "/" } else { path }
}

/// The path, and `?` and the query where there is one.
fn origin_form(alloc: Global, path: &str, query: Option<&str>) -> Result<Text, AllocError>
    requires path { IsTrue (is_ascii path.now) }
    requires query { IfSome (option_copied query) (λ (q : List ℕ). is_ascii q ≡ true) }
    ensures { IfOk result (λ t. t ≡ path_part path.now ++ query_part (option_copied query.entry)) }
{
    let mut text = TextBuilder::new(alloc);
    text.push_ascii(path_part(path))?;
    if let Some(query) = query {
        text.push_ascii("?")?;
        text.push_ascii(query)?;
    }
    text.into_text(alloc)
}

/// The message for a request to a URL that has this host.
#[tactic(auto, using(crate::proofs::TargetLemmas::text_ascii, crate::proofs::TargetLemmas::path_ascii, crate::proofs::TargetLemmas::query_ascii))]
fn compose(
    alloc: Global,
    request: &CallRequest,
    url: &Url,
    host: &str,
) -> Result<Request, AllocError>
    requires { Some host.now ≡ host_of url.now }
    ensures message { IfOk result (IsMessage request.now url.now host.now) }
    ensures valid { IfOk result (λ _. IsValid url.now) }
    ensures given { IfOk result (λ _. are_sendable request.now.headers ≡ true) }
{
    let target = origin_form(alloc, url.path(), url.query())?;
    let host = host_value(alloc, host, url.port())?;
    let body = body_of(alloc, request.body())?;
    Ok(Request {
        method: request.method().name(alloc)?,
        target,
        headers: sent_headers(alloc, request, host, body.len())?,
        body,
    })
}

/// The same, which can be sent.
#[tactic(auto, using(crate::proofs::TargetLemmas::message_sendable))]
pub(crate) fn message_for(
    alloc: Global,
    request: &CallRequest,
    url: &Url,
    host: &str,
) -> Result<Request, AllocError>
    requires { Some host.now ≡ host_of url.now }
    ensures message { IfOk result (IsMessage request.now url.now host.now) }
    ensures sendable { IfOk result IsSendableRequest }
{
    compose(alloc, request, url, host)
}
