// The answer to a request over HTTP.
ghost use Rattle.std.specs.Prelude.{◌≡◌, ◌<◌, ◌^◌, length, unwrap_or, IfOk, IsTrue, MatchOption, None, Some, Ok, Err};
ghost use Rattle.std.specs.Str.{encode_utf8_all};
ghost use Rattle.swf_value.specs.Written.{written};
ghost use Rattle.swf_calls.specs.Reply.{is_status, reply_value};
ghost use Rattle.url.specs.Parser.{parse_url};
ghost use Rattle.url.specs.declared.error.ParseError.{ParseError as WhyNoUrl};
ghost use Rattle.swf_connect.specs.Answers.{is_head, reply_for, Ends, Follows, Performs};
ghost use Rattle.swf_connect.specs.Asked.{IsTellableReply};
ghost use Rattle.swf_connect.specs.Reaching.{host_of, port_of};

use crate::Dial;
use crate::content::content_of;
use crate::exchange::{ExchangeFault, exchange};
use crate::message::message_for;
use std::alloc::{AllocError, Global};
use swf_calls::{CallReply, CallRequest, Method, reply_json};
use swf_http::Response;
use swf_text::Text;
use swf_value::write_json;
use url::{ParseError, Url};

/// The port of HTTP.
const HTTP_PORT: u16 = 80;

/// So many bytes are too many for the value of a reply in a journal.
const TOO_MANY: usize = 4_294_967_296;

/// Whether no body follows the head of a response to a method.
fn is_head(method: Method) -> bool
    ensures { result ≡ is_head method }
{
    matches!(method, Method::Head)
}

fn is_status(status: u16) -> bool
    ensures { result ≡ is_status status }
{
    100 <= status && status <= 599
}

/// Whether a journal can hold the value of a reply.
fn is_short(alloc: Global, reply: &CallReply) -> Result<bool, AllocError>
    ensures { IfOk result (λ short. IsTrue short → length (written (reply_value reply.now)) < 2 ^ 32) }
{
    let value = reply_json(alloc, reply)?;
    let mut bytes = Vec::new(alloc);
    write_json(&value, &mut bytes)?;
    Ok(bytes.len() < TOO_MANY)
}

/// The answer that a response is. One that no journal could hold, which no response is that can be read, counts as want of memory.
fn reply_for(alloc: Global, response: Response) -> Result<CallReply, AllocError>
    ensures value { IfOk result (λ reply. reply ≡ reply_for response) }
    ensures tellable { IfOk result IsTellableReply }
{
    let Response {
        status,
        headers,
        body,
    } = response;
    let content = content_of(alloc, &headers, &body)?;
    let reply = CallReply::Answer {
        status,
        headers,
        content,
    };
    if is_status(status) && is_short(alloc, &reply)? {
        Ok(reply)
    } else {
        Err(AllocError)
    }
}

/// The URL that a URI is, if it is one.
fn url_of(alloc: Global, uri: &Text) -> Result<Option<Url>, AllocError>
    ensures { IfOk result (λ found. MatchOption found ((e : WhyNoUrl) × (parse_url None (encode_utf8_all uri.now) ≡ Err e)) (λ url. parse_url None (encode_utf8_all uri.now) ≡ Ok url)) }
{
    match Url::parse(alloc, uri.as_str()) {
        Ok(url) => Ok(Some(url)),
        Err(ParseError::OutOfMemory | ParseError::Overflow) => Err(AllocError),
        Err(_) => Ok(None),
    }
}

/// The port of a URL, or that of HTTP where it gives none.
fn port_of(url: &Url) -> u16
    ensures { result ≡ port_of url.now }
{
    match url.port() {
        Some(port) => port,
        None => HTTP_PORT,
    }
}

/// The reply for what came of an exchange.
fn reply_to(
    alloc: Global,
    exchanged: Result<Response, ExchangeFault>,
) -> Result<CallReply, AllocError>
    ensures follows { Follows exchanged result }
    ensures tellable { IfOk result IsTellableReply }
{
    match exchanged {
        Ok(response) => reply_for(alloc, response),
        Err(ExchangeFault::OutOfMemory) => Err(AllocError),
        Err(ExchangeFault::Failed) => Ok(CallReply::Unreached),
        Err(ExchangeFault::NoResponse) => Ok(CallReply::Unreached),
    }
}

/// The answer to a request from a URL that has this host.
fn answer_from<D: Dial>(
    alloc: Global,
    dial: &mut D,
    request: &CallRequest,
    url: &Url,
    host: &str,
) -> Result<CallReply, AllocError>
    requires { Some host.now ≡ host_of url.now }
    ensures ends { Ends request.now (record { url = url.now; host = host.now }) result (D.dial_faults dial.old) (D.dial_faults dial.new) (D.talks dial.old) (D.talks dial.new) }
    ensures tellable { IfOk result IsTellableReply }
{
    let message = message_for(alloc, request, url, host)?;
    let head = is_head(request.method());
    let exchanged = exchange(alloc, dial, host, port_of(url), &message, head);
    reply_to(alloc, exchanged)
}

/// The answer to a request over a link that is dialed for it.
#[tactic(auto, using(crate::proofs::AnswerLemmas::lacks, crate::proofs::AnswerLemmas::unreached_url, crate::proofs::AnswerLemmas::unreached_host, crate::proofs::AnswerLemmas::reached_host))]
pub(crate) fn answer<D: Dial>(
    alloc: Global,
    dial: &mut D,
    request: &CallRequest,
) -> Result<CallReply, AllocError>
    ensures performs { Performs request.now result (D.dial_faults dial.old) (D.dial_faults dial.new) (D.talks dial.old) (D.talks dial.new) }
    ensures tellable { IfOk result IsTellableReply }
{
    let Some(url) = url_of(alloc, request.uri())? else {
        return Ok(CallReply::Unreached);
    };
    match url.host_str() {
        Some(host) => answer_from(alloc, dial, request, &url, host),
        None => Ok(CallReply::Unreached),
    }
}
