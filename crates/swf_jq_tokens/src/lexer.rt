// The tokens of a text.
ghost use Rattle.std.specs.Prelude.{◌≡◌, ◌+◌, ◌*◌, ◌^◌, ◌<◌, ◌≤◌, [], length, take, drop, IfOk, Ok};
ghost use Rattle.std.specs.Char.{len_utf8};
ghost use Rattle.std.specs.List.{sum_by};
ghost use Rattle.json.specs.Text.{plain};
ghost use Rattle.swf_jq_tokens.specs.Gives.{Gives};
ghost use Rattle.swf_jq_tokens.specs.Lexer.{lex, is_blank, behind, plain_token, text, text_on, spelled};
ghost use Rattle.swf_jq_tokens.specs.Piece.{piece};

use crate::fault::ParseFault;
use crate::nest::{Bracket, Nest, open, pass};
use crate::number::read_number;
use crate::piece::read_piece;
use crate::signs::sign_at;
use crate::token::{Found, Token};
use crate::words::{prefixed, word_token};
use std::alloc::{AllocError, Global};
use swf_text::TextBuilder;

/// Where the tokens of a text end.
#[derive(Clone, Copy, Debug, PartialEq, Eq)]
pub enum End {
    /// At the text's end, which is this place.
    At(usize),
    /// At a fault.
    Fault(ParseFault),
}

/// A token, how many characters it has after its first, and the fault right behind it, if one stands there.
type Spelled = (Token, usize, Option<ParseFault>);

/// The tokens of a text with their places, and how they end.
#[tactic(auto, using(crate::proofs::TokenSteps::lex_steps))]
pub fn lex(alloc: Global, text: &[char]) -> Result<(Vec<(usize, Token)>, End), AllocError>
    requires { 4 * length text.now < 2 ^ 63 }
    ensures { IfOk result (λ l. (l.0.items, l.1) ≡ lex [] 0 text.now) }
{
    let mut nest = Nest::new(alloc);
    let mut tokens = Vec::new(alloc);
    let mut rest = text;
    let mut at = 0;
    while let Some((first, tail)) = rest.split_first() {
        if is_blank(*first) {
            at += 1;
            rest = tail;
            continue;
        }
        let (token, more, fault) = match spell(&mut nest, *first, tail, at) {
            Ok(spelled) => spelled,
            Err(fault) => match fault {
                ParseFault::OutOfMemory => return Err(AllocError),
                _ => return Ok((tokens, End::Fault(fault))),
            },
        };
        tokens.push((at, token))?;
        if let Some(fault) = fault {
            return Ok((tokens, End::Fault(fault)));
        }
        let (spelling, after) = split(tail, more);
        at = at + 1 + width(spelling);
        rest = after;
    }
    Ok((tokens, End::At(at)))
}

/// Space, tab, CR and LF.
fn is_blank(c: char) -> bool
    ensures { result ≡ is_blank c }
{
    matches!(c, ' ' | '\t' | '\r' | '\n')
}

/// So many characters at the front, and those after them.
#[tactic(auto, using(std::proofs::lemmas::List::take_min, std::proofs::lemmas::List::drop_min))]
fn split(chars: &[char], count: usize) -> (&[char], &[char])
    ensures front { result.0.now ≡ take count chars.now }
    ensures back { result.1.now ≡ drop count chars.now }
    ensures whole { length result.0.now + length result.1.now ≡ length chars.now }
{
    chars.split_at(count.min(chars.len()))
}

/// How many bytes characters have.
fn width(chars: &[char]) -> usize
    requires { 4 * length chars.now < 2 ^ 63 }
    ensures width { result ≡ sum_by len_utf8 chars.now }
    ensures most { result ≤ 4 * length chars.now }
{
    let mut width = 0;
    for c in chars {
        width += c.len_utf8();
    }
    width
}

/// The token of a character and those after it.
#[tactic(auto, unfolding(crate::specs::Lexer::spelled))]
fn spell(nest: &mut Nest, first: char, tail: &[char], at: usize) -> Result<Spelled, ParseFault>
    requires { at + 4 + 4 * length tail.now < 2 ^ 63 }
    ensures { Gives (λ s. (s.0, s.1, behind nest.new s.2)) result (spelled nest.old at first tail.now) }
{
    match (first, nest.front()) {
        ('"', _) => text(nest, tail, at),
        (')', Some(&Bracket::Text(start))) => text_on(nest, tail, start),
        _ => {
            let (token, more) = plain_token(*nest.allocator(), first, tail, at)?;
            Ok((token, more, pass(nest, first, at)?))
        }
    }
}

/// The token that a character begins which opens no text and ends none.
#[tactic(auto, unfolding(crate::specs::Lexer::plain_token))]
fn plain_token(alloc: Global, first: char, tail: &[char], at: usize) -> Result<Found, ParseFault>
    ensures { Gives (λ r. r) result (plain_token at first tail.now) }
{
    match first {
        'a'..='z' | 'A'..='Z' | '_' => Ok(word_token(alloc, first, tail)?),
        '0'..='9' => read_number(first, tail).ok_or(ParseFault::NotWhole { at }),
        '.' | '$' => prefixed(alloc, first, tail)?.ok_or(ParseFault::Syntax { at }),
        _ => sign_at(first, tail).ok_or(ParseFault::Syntax { at }),
    }
}

/// A text, or its beginning up to a `\(`.
fn text(nest: &mut Nest, tail: &[char], at: usize) -> Result<Spelled, ParseFault>
    requires { at + 4 + 4 * length tail.now < 2 ^ 63 }
    ensures { Gives (λ s. (s.0, s.1, behind nest.new s.2)) result (text nest.old at tail.now (piece plain tail.now)) }
{
    let Some(piece) = read_piece(*nest.allocator(), tail)? else {
        return Err(ParseFault::Syntax { at });
    };
    if !piece.opens {
        return Ok((Token::Text(piece.text), piece.count, None));
    }
    let place = at + 1 + width(split(tail, piece.count).0);
    let fault = open(nest, Bracket::Text(at), place.saturating_sub(2))?;
    Ok((Token::TextOpen(piece.text), piece.count, fault))
}

/// What follows the `)` of a `\(`, of a text that begins at `start`.
fn text_on(nest: &mut Nest, tail: &[char], start: usize) -> Result<Spelled, ParseFault>
    ensures { Gives (λ s. (s.0, s.1, behind nest.new s.2)) result (Ok (text_on nest.old start (piece plain tail.now))) }
{
    let alloc = *nest.allocator();
    let Some(piece) = read_piece(alloc, tail)? else {
        let nothing = TextBuilder::new(alloc).into_text(alloc)?;
        let fault = ParseFault::Syntax { at: start };
        return Ok((Token::TextClose(nothing), 0, Some(fault)));
    };
    if piece.opens {
        return Ok((Token::TextMid(piece.text), piece.count, None));
    }
    nest.pop_front();
    Ok((Token::TextClose(piece.text), piece.count, None))
}
