// Which text is an instant.
ghost use Rattle.std.specs.Prelude.{◌≡◌, ◌≤◌, not, length};
ghost use Rattle.std.specs.List.{position_or_len};
ghost use Rattle.swf_text.specs.Ascii.{is_digit};
ghost use Rattle.swf_cloudevents.specs.Time.{stands_for, fits, is_hour, is_offset, is_zone, is_fraction, is_tail, has_form, is_time};

use jiff::Timestamp;
use swf_text::{Text, is_digit};

/// Whether a text is an instant, with its zone.
pub(crate) fn is_time(text: &Text) -> bool
    ensures { result ≡ is_time text.now }
{
    let text = text.as_str();
    has_form(text.as_bytes()) && text.parse::<Timestamp>().is_ok()
}

fn has_form(text: &[u8]) -> bool
    ensures { result ≡ has_form text.now }
{
    text.len() >= 19 && fits(b"0000-00-00T00:00:00", &text[..19]) && is_tail(&text[19..])
}

/// What stands behind the seconds.
fn is_tail(text: &[u8]) -> bool
    ensures { result ≡ is_tail text.now }
{
    match text {
        [b'.', fraction @ ..] => is_fraction(fraction),
        _ => is_zone(text),
    }
}

/// One to nine digits, and the zone.
fn is_fraction(text: &[u8]) -> bool
    ensures { result ≡ is_fraction text.now }
{
    let digits = digits_in(text);
    1 <= digits && digits <= 9 && is_zone(&text[digits..])
}

/// How many digits a text begins with.
fn digits_in(text: &[u8]) -> usize
    ensures count { result ≡ position_or_len (λ c. not (is_digit c)) text.now }
    ensures within { result ≤ length text.now }
{
    for (place, byte) in text.iter().enumerate() {
        if !is_digit(*byte) {
            return place;
        }
    }
    text.len()
}

fn is_zone(text: &[u8]) -> bool
    ensures { result ≡ is_zone text.now }
{
    text == b"Z".as_slice() || is_offset(text)
}

/// A sign, hours and minutes.
fn is_offset(text: &[u8]) -> bool
    ensures { result ≡ is_offset text.now }
{
    match text {
        [b'+' | b'-', tens, ones, minutes @ ..] => {
            is_hour(*tens, *ones) && fits(b":00", minutes)
        }
        _ => false,
    }
}

/// The hours of a day.
fn is_hour(tens: u8, ones: u8) -> bool
    ensures { result ≡ is_hour tens ones }
{
    is_digit(tens) && is_digit(ones) && 10 * (tens - b'0') + (ones - b'0') < 24
}

/// Whether a text has the characters of a template, in which `0` stands for each digit.
fn fits(template: &[u8], text: &[u8]) -> bool
    ensures { result ≡ fits template.now text.now }
{
    if template.len() != text.len() {
        return false;
    }
    for (place, sign) in template.iter().enumerate() {
        if !stands_for(*sign, text[place]) {
            return false;
        }
    }
    true
}

fn stands_for(sign: u8, byte: u8) -> bool
    ensures { result ≡ stands_for sign byte }
{
    if sign == b'0' {
        is_digit(byte)
    } else {
        sign == byte
    }
}
