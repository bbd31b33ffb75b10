// One request on a link, and its response.
ghost use Rattle.std.specs.Prelude.{◌≡◌, ◌+◌};
ghost use Rattle.std.specs.Option.{ForSome};
ghost use Rattle.swf_http.specs.Sent.{request_bytes, IsSendableRequest};
ghost use Rattle.swf_connect.specs.Exchanges.{Asks, Exchanges, FailsBy, Tells};

use crate::{Dial, Link};
use std::alloc::Global;
use swf_http::{HttpFault, Request, Response, SendFault, read_response, write_request};
use swf_store::Failed;

/// Why an exchange gave no response.
#[derive(Clone, Copy, PartialEq, Eq)]
pub enum ExchangeFault {
    /// A call of the dial or of the link failed, and a count has risen.
    Failed,
    /// The bytes that came are no response.
    NoResponse,
    OutOfMemory,
}

/// Reads a response.
fn response<L: Link>(alloc: Global, link: &mut L, head: bool) -> Result<Response, ExchangeFault>
    ensures tells { ForSome (L.left link.old) (λ bytes. Tells head bytes result) }
    ensures cause { FailsBy result (L.faults link.old) (L.faults link.new) }
    ensures beside { L.beside link.new ≡ L.beside link.old }
{
    match read_response(alloc, link, head) {
        Ok(response) => Ok(response),
        Err(HttpFault::Read) => Err(ExchangeFault::Failed),
        Err(HttpFault::Ended) => Err(ExchangeFault::NoResponse),
        Err(HttpFault::TooLong) => Err(ExchangeFault::NoResponse),
        Err(HttpFault::BadMessage) => Err(ExchangeFault::NoResponse),
        Err(HttpFault::OutOfMemory) => Err(ExchangeFault::OutOfMemory),
    }
}

/// Writes a request and reads its response.
fn ask<L: Link>(
    alloc: Global,
    link: &mut L,
    request: &Request,
    head: bool,
) -> Result<Response, ExchangeFault>
    requires { IsSendableRequest request.now }
    ensures about { L.about link.new ≡ L.about link.old }
    ensures asks { Asks (request_bytes request.now) head result (L.left link.old) (L.written link.old) (L.written link.new) }
    ensures cause { (L.faults link.old ≡ 0) → (L.write_faults link.old ≡ 0) → FailsBy result 0 (L.faults link.new + L.write_faults link.new) }
{
    match write_request(alloc, link, request) {
        Ok(()) => response(alloc, link, head),
        Err(SendFault::Write) => Err(ExchangeFault::Failed),
        Err(SendFault::OutOfMemory) => Err(ExchangeFault::OutOfMemory),
    }
}

/// Dials once, writes a request, reads its response and hangs up.
pub(crate) fn exchange<D: Dial>(
    alloc: Global,
    dial: &mut D,
    host: &str,
    port: u16,
    request: &Request,
    head: bool,
) -> Result<Response, ExchangeFault>
    requires { IsSendableRequest request.now }
    ensures talks { Exchanges host.now port (request_bytes request.now) head result (D.talks dial.old) (D.talks dial.new) }
    ensures cause { FailsBy result (D.dial_faults dial.old) (D.dial_faults dial.new) }
{
    let mut link = match dial.dial(host, port) {
        Ok(link) => link,
        Err(Failed) => return Err(ExchangeFault::Failed),
    };
    let result = ask(alloc, &mut link, request, head);
    dial.hang_up(link);
    result
}
