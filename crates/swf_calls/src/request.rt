// A request that waits for its answer.
ghost use Rattle.std.specs.Prelude.{◌≡◌, IfOk, option_map, true};
ghost use Rattle.swf_value.specs.Node.{members_of};
ghost use Rattle.swf_calls.specs.Request.{are_sendable, head_members, head_value, request_value, with_body};

use crate::headers::Headers;
use crate::method::Method;
use std::alloc::{AllocError, Global};
use std::marker::Model;
use swf_text::Text;
use swf_value::{Json, Member, member};

/// A request of `call: http` (DSL 1.0.0, reference, "HTTP Call"). Its headers can be sent: a name is a token, and a value holds only visible
/// ASCII, with spaces and tabs between.
#[derive(Drop)]
pub struct CallRequest {
    method: Method,
    uri: Text,
    headers: Headers,
    body: Option<Json>,
}

impl Model for CallRequest {
    ghost use Rattle.std.specs.Prelude.{◌≡◌, true};
    ghost use Rattle.swf_calls.specs.Request.{Request, are_sendable, request_code};

    ghost Value = { Request };

    ghost coded = { request_code };

    ghost view = { λ r. record { method = r.method; uri = r.uri; headers = r.headers; body = r.body } };

    ghost invariant = { λ r. are_sendable r.headers ≡ true };
}

impl CallRequest {
    /// A request whose headers can be sent.
    pub fn new(method: Method, uri: Text, headers: Headers, body: Option<Json>) -> CallRequest
        requires { are_sendable headers ≡ true }
        ensures { result ≡ record { method = method; uri = uri; headers = headers; body = body } }
    {
        CallRequest {
            method,
            uri,
            headers,
            body,
        }
    }

    pub fn method(&self) -> Method
        ensures { result ≡ self.now.method }
    {
        self.method
    }

    pub fn uri(&self) -> &Text
        ensures { result.now ≡ self.now.uri }
    {
        &self.uri
    }

    pub fn headers(&self) -> &Headers
        ensures value { result.now ≡ self.now.headers }
        ensures sendable { are_sendable self.now.headers ≡ true }
    {
        &self.headers
    }

    pub fn body(&self) -> Option<&Json>
        ensures { option_map (λ v. v.now) result ≡ self.now.body }
    {
        match &self.body {
            Some(body) => Some(body),
            None => None,
        }
    }

    /// The same request once more. It copies no value and no text.
    pub fn copy(&self, alloc: Global) -> Result<CallRequest, AllocError>
        ensures { IfOk result (λ r. r ≡ self.now) }
    {
        let body = match &self.body {
            Some(body) => Some(body.copy()?),
            None => None,
        };
        Ok(CallRequest {
            method: self.method,
            uri: self.uri.copy()?,
            headers: self.headers.copy(alloc)?,
            body,
        })
    }
}

/// The members of a request's value, where it has this body.
fn members_of_request(
    alloc: Global,
    request: &CallRequest,
    body: Option<Json>,
) -> Result<Vec<Member>, AllocError>
    ensures { IfOk result (λ ms. members_of ms.items ≡ with_body body (head_members request.now)) }
{
    let mut members = Vec::new(alloc);
    if let Some(body) = body {
        members.push(member(alloc, "body", body)?)?;
    }
    let method = request.method.name(alloc)?;
    members.push(member(alloc, "headers", request.headers.json(alloc)?)?)?;
    members.push(member(alloc, "method", Json::text(method))?)?;
    members.push(member(alloc, "uri", Json::text(request.uri.copy()?))?)?;
    Ok(members)
}

/// The value of a request without its body.
pub fn head_json(alloc: Global, request: &CallRequest) -> Result<Json, AllocError>
    ensures { IfOk result (λ v. v ≡ head_value request.now) }
{
    let members = members_of_request(alloc, request, None)?;
    Json::object(alloc, members)
}

/// The value of a request.
pub fn request_json(alloc: Global, request: &CallRequest) -> Result<Json, AllocError>
    ensures { IfOk result (λ v. v ≡ request_value request.now) }
{
    let body = match &request.body {
        Some(body) => Some(body.copy()?),
        None => None,
    };
    let members = members_of_request(alloc, request, body)?;
    Json::object(alloc, members)
}
