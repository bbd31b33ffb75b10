// What a whole head says of its body.
ghost use Rattle.std.specs.Prelude.{◌≡◌};
ghost use Rattle.httparse.specs.Grammar.{RequestHead};
ghost use Rattle.httparse.specs.Spans.{IsRequestAt, IsRequestWithin};
ghost use Rattle.swf_http.specs.Framing.{size_of, judged, judge_fields, judge};

use crate::found::FoundRequest;
use crate::sizes::{MOST_BODY, MOST_FIELDS};
use http1::fields::KnownFields;
use http1::framing::{Framing, FramingError, MethodKind, request_framing};

/// What a head leads to: no message, too long a one, or a body of so many bytes.
#[derive(Clone, Copy)]
pub enum Judgement {
    Bad,
    TooLong,
    Sized(u64),
}

// The length of a request's body.
fn size_of(framing: Result<Framing, FramingError>) -> Option<u64>
    ensures { result ≡ size_of framing }
{
    match framing {
        Ok(Framing::NoBody) => Some(0),
        Ok(Framing::Length(size)) => Some(size),
        Ok(Framing::Chunked | Framing::UntilClose) | Err(_) => None,
    }
}

fn judged(size: Option<u64>, many: bool) -> Judgement
    ensures { result ≡ judged size many }
{
    match size {
        None => Judgement::Bad,
        Some(size) => if many || size > MOST_BODY as u64 {
            Judgement::TooLong
        } else {
            Judgement::Sized(size)
        },
    }
}

fn judge_fields(minor: u8, known: &KnownFields, count: usize) -> Judgement
    ensures { result ≡ judge_fields minor known.now count }
{
    let framing = request_framing(MethodKind::Other, minor, known);
    judged(size_of(framing), count > MOST_FIELDS)
}

/// What a head that was found in some bytes leads to.
pub(crate) fn judge(bytes: &[u8], found: &FoundRequest) -> Judgement
    requires { IsRequestWithin bytes.now found.now.headers.items found.now.spans }
    ensures { (h : RequestHead) → IsRequestAt bytes.now found.now.headers.items found.now.spans h → result ≡ judge h }
{
    let headers = &found.headers[..found.spans.headers];
    let known = KnownFields::from_spans(bytes, headers);
    judge_fields(found.spans.version, &known, headers.len())
}
