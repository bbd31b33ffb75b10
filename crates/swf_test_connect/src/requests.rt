// Requests, and replies as text.
use std::alloc::{AllocError, Global};
use swf_calls::{CallReply, CallRequest, Header, Headers, Method, are_sendable, reply_json};
use swf_text::Text;
use swf_value::{read_json, write_json};

// The headers that lines of `NAME: VALUE` tell.
fn headers_of(alloc: Global, lines: &str) -> Result<Headers, AllocError> {
    let mut headers = Headers::none(alloc);
    for line in lines.split('\n') {
        if let Some((name, value)) = line.split_once(": ") {
            let name = Text::copy_of(alloc, name)?;
            let value = Text::copy_of(alloc, value)?;
            headers.add(alloc, Header { name, value })?;
        }
    }
    Ok(headers)
}

// The method of a name.
fn method_of(name: &str) -> Method {
    match name {
        "HEAD" => Method::Head,
        "POST" => Method::Post,
        "PUT" => Method::Put,
        "PATCH" => Method::Patch,
        _ => Method::Get,
    }
}

/// A request with the headers that lines of `NAME: VALUE` tell, whose body is JSON, or empty where there is none. None where the
/// headers can't be sent.
pub(crate) fn request_of(
    alloc: Global,
    method: &str,
    uri: &str,
    lines: &str,
    body: &str,
) -> Result<Option<CallRequest>, AllocError> {
    let headers = headers_of(alloc, lines)?;
    if !are_sendable(&headers) {
        return Ok(None);
    }
    let body = read_json(alloc, body.as_bytes()).ok();
    Ok(Some(CallRequest::new(method_of(method), Text::copy_of(alloc, uri)?, headers, body)))
}

/// A reply as compact JSON.
pub(crate) fn reply_text(alloc: Global, reply: &CallReply) -> Result<Vec<u8>, AllocError> {
    let mut text = Vec::new(alloc);
    write_json(&reply_json(alloc, reply)?, &mut text)?;
    Ok(text)
}
