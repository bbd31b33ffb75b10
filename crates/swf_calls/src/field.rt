// Whether headers can be sent.
ghost use Rattle.std.specs.Prelude.{◌≡◌, ◌==◌, ◌&&◌, ◌||◌, chars, codes, length, nat_lt, not, reverse};
ghost use Rattle.std.specs.List.{list_all, list_any};
ghost use Rattle.swf_calls.specs.Request.{are_sendable, begins_blank, is_blank, is_field_name, is_field_value, is_name_character, is_sendable, is_visible};

use crate::headers::{Header, Headers};
use swf_text::Text;

/// Whether a character is a mark that may stand in the name of a header.
fn is_mark(character: char) -> bool
    ensures { result ≡ list_any (λ c. c == character) (codes "!#$%&'*+-.^_`|~") }
{
    b"!#$%&'*+-.^_`|~"
        .iter()
        .any(|mark| char::from(*mark) == character)
}

/// Whether a character may stand in the name of a header (RFC 9110, section 5.6.2).
fn is_name_character(character: char) -> bool
    ensures { result ≡ is_name_character character }
{
    character.is_ascii_alphanumeric() || is_mark(character)
}

/// Whether a character is visible and of ASCII.
fn is_visible(character: char) -> bool
    ensures { result ≡ is_visible character }
{
    '!' <= character && character <= '~'
}

/// Whether a character is a space or a tab.
fn is_blank(character: char) -> bool
    ensures { result ≡ is_blank character }
{
    character == ' ' || character == '\t'
}

/// Whether the first byte is a space or a tab.
fn begins_blank(bytes: &[u8]) -> bool
    ensures { result ≡ begins_blank bytes.now }
{
    match bytes {
        [first, ..] => is_blank(char::from(*first)),
        [] => false,
    }
}

/// Whether the last byte is a space or a tab.
#[tactic(auto, using(std::proofs::lemmas::Grind::common_steps))]
fn ends_blank(bytes: &[u8]) -> bool
    ensures { result ≡ begins_blank (reverse bytes.now) }
{
    match bytes {
        [.., last] => is_blank(char::from(*last)),
        [] => false,
    }
}

/// Whether bytes have no space and no tab at either end.
fn is_trimmed(bytes: &[u8]) -> bool
    ensures { result ≡ (not (begins_blank bytes.now) && not (begins_blank (reverse bytes.now))) }
{
    !begins_blank(bytes) && !ends_blank(bytes)
}

/// Whether all characters of a text may stand in the name of a header.
fn is_of_name_characters(text: &str) -> bool
    ensures { result ≡ list_all is_name_character (chars text.now) }
{
    text.chars().all(|character| is_name_character(character))
}

/// Whether all characters of a text may stand in the value of a header.
fn is_of_value_characters(text: &str) -> bool
    ensures { result ≡ list_all (λ c. is_visible c || is_blank c) (chars text.now) }
{
    text.chars()
        .all(|character| is_visible(character) || is_blank(character))
}

/// Whether a text has a character.
fn has_character(text: &str) -> bool
    ensures { result ≡ nat_lt 0 (length (chars text.now)) }
{
    match text.chars().next() {
        Some(_) => true,
        None => false,
    }
}

fn is_field_name(name: &Text) -> bool
    ensures { result ≡ is_field_name name.now }
{
    let name = name.as_str();
    has_character(name) && is_of_name_characters(name)
}

#[tactic(auto, using(crate::proofs::ValueLemmas::value_by_bytes))]
fn is_field_value(value: &Text) -> bool
    ensures { result ≡ is_field_value value.now }
{
    let value = value.as_str();
    is_of_value_characters(value) && is_trimmed(value.as_bytes())
}

/// Whether a header can be sent: its name is a token, and its value has only visible characters of
/// ASCII, with spaces and tabs between (RFC 9110, sections 5.5 and 5.6.2).
pub fn is_sendable(header: &Header) -> bool
    ensures { result ≡ is_sendable header.now }
{
    is_field_name(&header.name) && is_field_value(&header.value)
}

/// Whether all of them can be sent.
pub fn are_sendable(headers: &Headers) -> bool
    ensures { result ≡ are_sendable headers.now }
{
    headers.as_slice().iter().all(|header| is_sendable(header))
}
