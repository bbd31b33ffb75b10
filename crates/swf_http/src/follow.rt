// What a whole head of a response says of what follows it.
ghost use Rattle.std.specs.Prelude.{◌≡◌, ◌||◌};
ghost use Rattle.httparse.specs.Grammar.{ResponseHead};
ghost use Rattle.httparse.specs.Spans.{IsResponseAt, IsResponseWithin};
ghost use Rattle.http1.specs.Framing.{is_bodiless_status};
ghost use Rattle.swf_http.specs.Following.{framing_of, is_large, followed, follow_fields, follow_of};

use crate::found::FoundResponse;
use crate::sizes::{MOST_BODY, MOST_FIELDS};
use http1::fields::KnownFields;
use http1::framing::{Framing, MethodKind, response_framing};

/// The status of a response whose fields alone say where its body ends.
const OK: u16 = 200;

/// What follows a head: no message, too long a one, another head, or a body.
#[derive(Clone, Copy)]
pub enum Follow {
    Bad,
    TooLong,
    Interim,
    Body(Framing),
}

// Whether a response ends with its head, whatever its fields say.
fn is_bodiless(head: bool, status: u16) -> bool
    ensures { result ≡ (head || is_bodiless_status status) }
{
    head || status / 100 == 1 || status == 204 || status == 304
}

// How the body of a response is framed.
fn framing_of(head: bool, status: u16, minor: u8, known: &KnownFields) -> Option<Framing>
    ensures { result ≡ framing_of head status minor known.now }
{
    if status < 100 || status > 599 {
        return None;
    }
    match response_framing(MethodKind::Other, OK, minor, known) {
        Ok(_) if is_bodiless(head, status) => Some(Framing::NoBody),
        Ok(framing) => Some(framing),
        Err(_) => None,
    }
}

// Whether a body is declared that is larger than one may be.
fn is_large(framing: Framing) -> bool
    ensures { result ≡ is_large framing }
{
    match framing {
        Framing::Length(size) => size > MOST_BODY as u64,
        Framing::NoBody | Framing::Chunked | Framing::UntilClose => false,
    }
}

fn followed(framing: Option<Framing>, many: bool, interim: bool) -> Follow
    ensures { result ≡ followed framing many interim }
{
    match framing {
        None => Follow::Bad,
        Some(framing) => if many || is_large(framing) {
            Follow::TooLong
        } else if interim {
            Follow::Interim
        } else {
            Follow::Body(framing)
        },
    }
}

fn follow_fields(head: bool, status: u16, minor: u8, known: &KnownFields, count: usize) -> Follow
    ensures { result ≡ follow_fields head status minor known.now count }
{
    let framing = framing_of(head, status, minor, known);
    followed(framing, count > MOST_FIELDS, status / 100 == 1)
}

/// What follows a head that was found in some bytes.
pub(crate) fn follow_of(head: bool, bytes: &[u8], found: &FoundResponse) -> Follow
    requires { IsResponseWithin bytes.now found.now.headers.items found.now.spans }
    ensures { (h : ResponseHead) → IsResponseAt bytes.now found.now.headers.items found.now.spans h → result ≡ follow_of head h }
{
    let headers = &found.headers[..found.spans.headers];
    let known = KnownFields::from_spans(bytes, headers);
    follow_fields(
        head,
        found.spans.code,
        found.spans.version,
        &known,
        headers.len(),
    )
}
