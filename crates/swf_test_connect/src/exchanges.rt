// Requests over a dial in memory: what is written for each, what comes, and what is answered.
use crate::requests::{reply_text, request_of};
use std::alloc::{AllocError, Global};
use std::test::Fail;
use swf_calls::{CallReply, CallRequest};
use swf_connect::{Connector, HttpConnector, MemoryDial};

/// Requests, as method, URI, headers and body, with what is written for them.
const WRITTEN: [(&str, &str, &str, &str, &str); 4] = [
    (
        "GET",
        "http://pets.test/pet/1?x=2",
        "",
        "",
        "GET /pet/1?x=2 HTTP/1.1\r\nConnection: close\r\nContent-Length: 0\r\nHost: pets.test\r\n\r\n",
    ),
    (
        "POST",
        "http://pets.test:8080",
        "Accept: a\nCONTENT-LENGTH: 9\nTransfer-encoding: chunked\nconnection: keep-alive\nhost: x",
        "{\"n\":1}",
        "POST / HTTP/1.1\r\nAccept: a\r\nConnection: close\r\nContent-Length: 7\r\nContent-Type: application/json\r\nHost: pets.test:8080\r\n\r\n{\"n\":1}",
    ),
    (
        "PUT",
        "http://[::1]/a%20b#c",
        "content-type: text/plain",
        "[1]",
        "PUT /a%20b HTTP/1.1\r\nConnection: close\r\nContent-Length: 3\r\nHost: [::1]\r\ncontent-type: text/plain\r\n\r\n[1]",
    ),
    (
        "PATCH",
        "http://PETS.test:80/?",
        "",
        "\"hi\"",
        "PATCH /? HTTP/1.1\r\nConnection: close\r\nContent-Length: 2\r\nHost: pets.test\r\n\r\nhi",
    ),
];

/// Responses, of which each character is the byte of its number, with what is answered.
const ANSWERED: [(&str, &str); 13] = [
    (
        "HTTP/1.1 200 OK\r\nContent-Type: application/json\r\nContent-Length: 7\r\n\r\n{\"a\":1}",
        "{\"content\":{\"a\":1},\"headers\":{\"content-length\":\"7\",\"content-type\":\"application/json\"},\"status\":200}",
    ),
    (
        "HTTP/1.1 404 No\r\nContent-Type: application/problem+JSON ; x=y\r\n\r\n[1]",
        "{\"content\":[1],\"headers\":{\"content-type\":\"application/problem+JSON ; x=y\"},\"status\":404}",
    ),
    (
        "HTTP/1.1 200 OK\r\nContent-Type: application/jsonp\r\n\r\n[1]",
        "{\"content\":\"[1]\",\"headers\":{\"content-type\":\"application/jsonp\"},\"status\":200}",
    ),
    (
        "HTTP/1.1 200 OK\r\nContent-Type: application/json\r\n\r\n[1.5]",
        "{\"content\":\"[1.5]\",\"headers\":{\"content-type\":\"application/json\"},\"status\":200}",
    ),
    (
        "HTTP/1.1 200 OK\r\n\r\n[1]",
        "{\"content\":\"[1]\",\"headers\":{},\"status\":200}",
    ),
    (
        "HTTP/1.1 200 OK\r\nContent-Type: application/json\r\n\r\n\u{ff}",
        "{\"content\":\"/w==\",\"headers\":{\"content-type\":\"application/json\"},\"status\":200}",
    ),
    (
        "HTTP/1.1 200 OK\r\nContent-Type: application/json\r\n\r\n",
        "{\"content\":null,\"headers\":{\"content-type\":\"application/json\"},\"status\":200}",
    ),
    (
        "HTTP/1.1 301 Moved\r\nLocation: /b\r\nContent-Length: 0\r\n\r\n",
        "{\"content\":null,\"headers\":{\"content-length\":\"0\",\"location\":\"/b\"},\"status\":301}",
    ),
    (
        "HTTP/1.1 204 No Content\r\n\r\nrest",
        "{\"content\":null,\"headers\":{},\"status\":204}",
    ),
    (
        "HTTP/1.1 200 OK\r\nContent-Length: 4\r\n\r\nabc",
        "{\"unreached\":true}",
    ),
    ("HTTP/1.1 600 Odd\r\n\r\n", "{\"unreached\":true}"),
    (
        "HTTP/1.1 200 OK\r\nContent-Length: 1048577\r\n\r\n",
        "{\"unreached\":true}",
    ),
    ("", "{\"unreached\":true}"),
];

// The bytes whose numbers are those of the characters.
fn bytes_of(alloc: Global, text: &str) -> Result<Vec<u8>, AllocError> {
    let mut bytes = Vec::new(alloc);
    for character in text.chars() {
        if let Ok(byte) = u8::try_from(u32::from(character)) {
            bytes.push(byte)?;
        }
    }
    Ok(bytes)
}

// A connector over a dial that has this one response.
fn connector_of(alloc: Global, response: &str) -> Result<HttpConnector<MemoryDial>, AllocError> {
    let mut replies = Vec::new(alloc);
    replies.push(bytes_of(alloc, response)?)?;
    Ok(HttpConnector::new(alloc, MemoryDial::new(alloc, replies, Vec::new(alloc))))
}

// Whether a connector takes a request, which reaches nobody now.
fn reaches_nobody(
    connector: &mut HttpConnector<MemoryDial>,
    request: &CallRequest,
) -> Result<bool, AllocError> {
    let reply = connector.perform(request)?;
    Ok(connector.takes(request) && matches!(reply, CallReply::Unreached))
}

// Whether the last talk of a dial has these bytes.
fn has_written(dial: &MemoryDial, bytes: &str) -> bool {
    match dial.last() {
        Some(talk) => talk.written.as_slice() == bytes.as_bytes(),
        None => bytes.is_empty(),
    }
}

// Whether a request is answered so, and this was written for it. A second time the request reaches nobody.
fn exchanges(
    alloc: Global,
    connector: &mut HttpConnector<MemoryDial>,
    request: &CallRequest,
    reply: &str,
) -> Result<bool, AllocError> {
    let first = connector.perform(request)?;
    let text = reply_text(alloc, &first)?;
    Ok(text.as_slice() == reply.as_bytes() && reaches_nobody(connector, request)?)
}

/// A response with nothing in it, and what is answered where it comes.
const PLAIN: (&str, &str) = (
    "HTTP/1.1 200 OK\r\n\r\n",
    "{\"content\":null,\"headers\":{},\"status\":200}",
);

// Whether this is written for a request.
fn is_written(alloc: Global, row: (&str, &str, &str, &str, &str)) -> Result<bool, AllocError> {
    let (method, uri, lines, body, written) = row;
    let Some(request) = request_of(alloc, method, uri, lines, body)? else {
        return Ok(false);
    };
    let mut connector = connector_of(alloc, PLAIN.0)?;
    let answered = exchanges(alloc, &mut connector, &request, PLAIN.1)?;
    Ok(answered && has_written(connector.dial(), written))
}

// Whether this is answered where a response comes.
fn is_answered(alloc: Global, response: &str, reply: &str) -> Result<bool, AllocError> {
    let Some(request) = request_of(alloc, "GET", "http://pets.test/", "", "")? else {
        return Ok(false);
    };
    let mut connector = connector_of(alloc, response)?;
    exchanges(alloc, &mut connector, &request, reply)
}

#[test]
fn written(rt: HostRuntime) -> Result<(), Fail> {
    for row in WRITTEN {
        let uri = row.1;
        let is_written = is_written(rt.alloc(), row)?;
        assert_eq!(rt; is_written, true, "{uri}");
    }
    Ok(())
}

#[test]
fn answered(rt: HostRuntime) -> Result<(), Fail> {
    for (response, reply) in ANSWERED {
        let is_answered = is_answered(rt.alloc(), response, reply)?;
        assert_eq!(rt; is_answered, true, "{reply}");
    }
    Ok(())
}
