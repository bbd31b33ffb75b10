// Tokens with words: keywords, names, `.` and a name, `$` and a name.
#![tactic(auto, using(crate::proofs::Keywords::word_is, crate::proofs::Keywords::name_is))]

ghost use Rattle.std.specs.Prelude.{◌≡◌, ◌≤◌, ◌∷◌, ◌++◌, length, true, IfOk, OnOk};
ghost use Rattle.std.specs.List.{take_while};
ghost use Rattle.swf_expr.specs.Name.{starts_name, goes_on_name};
ghost use Rattle.swf_jq_tokens.specs.Lexer.{word_token, prefixed};
ghost use Rattle.swf_jq_tokens.specs.Words.{word, word_length, keyword_in, keyword_of};

use crate::token::Keyword::{And, As, Elif, Else, End, False, If, Null, Or, Then, True};
use crate::token::{Found, Keyword, Token};
use std::alloc::{AllocError, Global};
use swf_expr::Name;
use swf_text::{Text, TextBuilder, is_word};

/// A letter or `_`.
fn starts_name(c: char) -> bool
    ensures { result ≡ starts_name c }
{
    matches!(c, 'a'..='z' | 'A'..='Z' | '_')
}

/// The word that a character begins, with how many follow it.
fn read_word(alloc: Global, first: char, tail: &[char]) -> Result<(Text, usize), AllocError>
    ensures gives { IfOk result (λ w. w ≡ (word first tail.now, word_length tail.now)) }
    ensures within { IfOk result (λ w. w.1 ≤ length tail.now) }
{
    let mut word = TextBuilder::new(alloc);
    word.push(first)?;
    let length = push_rest(&mut word, tail)?;
    Ok((word.into_text(alloc)?, length))
}

/// What goes on with a word is added to it, and counted.
fn push_rest(word: &mut TextBuilder, tail: &[char]) -> Result<usize, AllocError>
    ensures grows { OnOk result (word.new ≡ word.old ++ take_while goes_on_name tail.now) }
    ensures counts { IfOk result (λ n. n ≡ word_length tail.now) }
    ensures within { IfOk result (λ n. n ≤ length tail.now) }
{
    let mut length = 0;
    for c in tail {
        if !(starts_name(*c) || matches!(*c, '0'..='9')) {
            break;
        }
        word.push(*c)?;
        length += 1;
    }
    Ok(length)
}

/// The first of these keywords that is spelled so.
#[tactic(auto, using(crate::proofs::Keywords::ascii_keyword))]
fn keyword_in(all: &[Keyword], word: &Text) -> Option<Keyword>
    ensures { result ≡ keyword_in all.now word.now }
{
    for keyword in all {
        if is_word(word, keyword.word()) {
            return Some(*keyword);
        }
    }
    None
}

/// The keyword that a word is.
#[tactic(auto, unfolding(crate::specs::Words::keyword_of))]
fn keyword_of(word: &Text) -> Option<Keyword>
    ensures { result ≡ keyword_of word.now }
{
    let all = [As, Or, And, If, Then, Elif, Else, End, Null, True, False];
    keyword_in(&all, word)
}

/// A keyword or a name, with how many characters follow its first.
pub fn word_token(alloc: Global, first: char, tail: &[char]) -> Result<Found, AllocError>
    requires { starts_name first ≡ true }
    ensures { IfOk result (λ r. r ≡ word_token first tail.now) }
{
    let (word, length) = read_word(alloc, first, tail)?;
    let token = match keyword_of(&word) {
        Some(keyword) => Token::Keyword(keyword),
        None => Token::Name(Name::new(word)),
    };
    Ok((token, length))
}

/// What begins with a `.` or a `$`.
pub fn prefixed(alloc: Global, first: char, tail: &[char]) -> Result<Option<Found>, AllocError>
    ensures { IfOk result (λ r. r ≡ prefixed first tail.now) }
{
    match (first, tail) {
        (_, [c, more @ ..]) if starts_name(*c) => {
            let (word, length) = read_word(alloc, *c, more)?;
            match first {
                '.' => Ok(Some((Token::Field(word), length + 1))),
                '$' if keyword_of(&word).is_none() => {
                    Ok(Some((Token::Var(Name::new(word)), length + 1)))
                }
                _ => Ok(None),
            }
        }
        ('.', ['.', ..]) => Ok(Some((Token::Dots, 0))),
        ('.', _) => Ok(Some((Token::Dot, 0))),
        _ => Ok(None),
    }
}
