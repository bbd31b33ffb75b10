// A piece of a text, up to its end or to a `\(` (RFC 8259, section 7).
#![tactic(auto, unfolding(crate::specs::Piece::piece))]

ghost use Rattle.std.specs.Prelude.{◌≡◌, ◌+◌, ◌<◌, ◌≤◌, ◌∷◌, [], length, IfOk, IfSome, MatchOption, None};
ghost use Rattle.json.specs.Text.{code_unit, short_escape, plain, after_backslash, after_u, after_high};
ghost use Rattle.swf_jq_tokens.specs.Piece.{piece, grown, opened, closed};

use std::alloc::{AllocError, Global};
use swf_text::{Text, TextBuilder};

/// A piece of a text.
#[derive(Drop)]
pub struct Piece {
    pub text: Text,
    /// Whether a `\(` ended it, and no quotation mark.
    pub opens: bool,
    /// How many characters it has, with its end.
    pub count: usize,
}

/// A character, how many spell it, and what stands after them.
type Spelled<'a> = (char, usize, &'a [char]);

/// The piece at the front, unless it has a fault.
#[tactic(auto)]
pub fn read_piece(alloc: Global, front: &[char]) -> Result<Option<Piece>, AllocError>
    ensures { IfOk result (λ p. p ≡ piece plain front.now) }
{
    let mut text = TextBuilder::new(alloc);
    let mut rest = front;
    let mut count = 0;
    'letters: while let Some((letter, width, after)) = letter_at(rest) {
        text.push(letter)?;
        count += width;
        rest = after;
    }
    let (opens, end) = match rest {
        ['"', ..] => (false, 1),
        ['\\', '(', ..] => (true, 2),
        _ => return Ok(None),
    };
    let text = text.into_text(alloc)?;
    let count = count + end;
    Ok(Some(Piece { text, opens, count }))
}

/// The character at the front, which stands for itself or is escaped.
fn letter_at(rest: &[char]) -> Option<Spelled<'_>>
    ensures gives { MatchOption result (piece plain rest.now ≡ closed rest.now) (λ l. piece plain rest.now ≡ grown (l.0 ∷ []) l.1 (piece plain l.2.now)) }
    ensures within { IfSome result (λ l. (l.1 + length l.2.now ≡ length rest.now) × (0 < l.1)) }
{
    match rest {
        ['\\', tail @ ..] => escape(tail),
        ['"', ..] => None,
        [c, tail @ ..] if *c >= ' ' => Some((*c, 1, tail)),
        _ => None,
    }
}

/// What a `\` and the characters at the front stand for.
fn escape(rest: &[char]) -> Option<Spelled<'_>>
    ensures gives { MatchOption result (piece after_backslash rest.now ≡ opened rest.now) (λ l. piece after_backslash rest.now ≡ grown (l.0 ∷ []) l.1 (piece plain l.2.now)) }
    ensures within { IfSome result (λ l. (l.1 + length l.2.now ≡ length rest.now + 1) × (1 ≤ l.1)) }
{
    match rest {
        ['u', tail @ ..] => unicode(tail),
        [c, tail @ ..] => Some((short_escape(*c)?, 2, tail)),
        [] => None,
    }
}

/// The character that a letter stands for after a `\`.
#[tactic(auto, unfolding(json::specs::Text::short_escape))]
fn short_escape(letter: char) -> Option<char>
    ensures { result ≡ short_escape letter }
{
    match letter {
        '"' | '\\' | '/' => Some(letter),
        'b' => Some('\u{8}'),
        'f' => Some('\u{c}'),
        'n' => Some('\n'),
        'r' => Some('\r'),
        't' => Some('\t'),
        _ => None,
    }
}

/// The character of `\u` and what follows it, in one unit or two.
fn unicode(rest: &[char]) -> Option<Spelled<'_>>
    ensures gives { MatchOption result (piece after_u rest.now ≡ None) (λ l. piece after_u rest.now ≡ grown (l.0 ∷ []) l.1 (piece plain l.2.now)) }
    ensures within { IfSome result (λ l. (l.1 + length l.2.now ≡ length rest.now + 2) × (2 ≤ l.1)) }
{
    match rest {
        [a, b, c, d, tail @ ..] => {
            let unit = code_unit(*a, *b, *c, *d)?;
            if 0xD800 <= unit && unit < 0xDC00 {
                return pair(unit, tail);
            }
            let letter = char::from_u32(unit)?;
            Some((letter, 6, tail))
        }
        _ => None,
    }
}

/// The character of a first unit and a second, which follows as `\u`.
fn pair(high: u32, rest: &[char]) -> Option<Spelled<'_>>
    requires low { 0xD800 ≤ high }
    requires high { high < 0xDC00 }
    ensures gives { MatchOption result (piece (after_high high) rest.now ≡ None) (λ l. piece (after_high high) rest.now ≡ grown (l.0 ∷ []) l.1 (piece plain l.2.now)) }
    ensures within { IfSome result (λ l. (l.1 + length l.2.now ≡ length rest.now + 6) × (6 ≤ l.1)) }
{
    match rest {
        ['\\', 'u', a, b, c, d, tail @ ..] => {
            let low = code_unit(*a, *b, *c, *d)?;
            if low < 0xDC00 || 0xE000 <= low {
                return None;
            }
            let letter = char::from_u32(0x10000 + (high - 0xD800) * 0x400 + (low - 0xDC00))?;
            Some((letter, 12, tail))
        }
        _ => None,
    }
}

/// The number that four hexadecimal digits spell.
#[tactic(auto, unfolding(json::specs::Text::code_unit))]
fn code_unit(a: char, b: char, c: char, d: char) -> Option<u32>
    ensures value { result ≡ code_unit a b c d }
    ensures small { IfSome result (λ u. u < 65536) }
{
    let a = a.to_digit(16)?;
    let b = b.to_digit(16)?;
    let c = c.to_digit(16)?;
    let d = d.to_digit(16)?;
    Some(4096 * a + 256 * b + 16 * c + d)
}
