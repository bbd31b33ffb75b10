// Whether bytes end within the target of a request.
ghost use Rattle.std.specs.Prelude.{◌≡◌, ◌↔◌, ℕ, List, IsTrue};
ghost use Rattle.httparse.specs.Grammar.{EndsInTarget};
ghost use Rattle.swf_http.specs.Targets.{step, run};

use httparse::{is_method_token, is_uri_token};

/// How far a request has been read.
#[derive(Clone, Copy)]
pub enum Place {
    Blank,
    AfterReturn,
    Method,
    Target,
    Nowhere,
}

fn step_on(place: Place, b: u8) -> Place
    ensures { result ≡ step place b }
{
    match place {
        Place::Blank => match b {
            b'\n' => Place::Blank,
            b'\r' => Place::AfterReturn,
            _ if is_method_token(b) => Place::Method,
            _ => Place::Nowhere,
        },
        Place::AfterReturn => if b == b'\n' {
            Place::Blank
        } else {
            Place::Nowhere
        },
        Place::Method => match b {
            b' ' => Place::Target,
            _ if is_method_token(b) => Place::Method,
            _ => Place::Nowhere,
        },
        Place::Target => if is_uri_token(b) {
            Place::Target
        } else {
            Place::Nowhere
        },
        Place::Nowhere => Place::Nowhere,
    }
}

fn place_of(bytes: &[u8]) -> Place
    ensures { result ≡ run Place.Blank bytes.now }
{
    let mut place = Place::Blank;
    for b in bytes {
        place = step_on(place, *b);
    }
    place
}

/// Whether the bytes begin a request and end within its target.
pub(crate) fn ends_in_target(bytes: &[u8]) -> bool
    ensures { IsTrue result ↔ EndsInTarget bytes.now }
{
    matches!(place_of(bytes), Place::Target)
}
