// The words of a line.
ghost use Rattle.std.specs.Prelude.{◌≡◌, ◌∷◌, [], chars, IfSome, MatchOption};
ghost use Rattle.std.specs.List.{list_all};
ghost use Rattle.swf_protocol.specs.Spelled.{IsWord};
ghost use Rattle.swf_protocol.specs.Words.{words_of, AreSeveral, is_id, is_id_char};

use swf_text::{is_digit, is_letter};

/// The first word and what follows its space, where there is more than one word.
pub(crate) fn cut(text: &str) -> Option<(&str, &str)>
    ensures words { MatchOption result (words_of text.now ≡ text.now ∷ []) (λ p. words_of text.now ≡ p.0.now ∷ words_of p.1.now) }
    ensures word { IfSome result (λ p. IsWord (chars p.0.now)) }
{
    text.split_once(' ')
}

/// The text, where it is one word.
#[tactic(auto, using(crate::proofs::WordLemmas::several_words))]
pub(crate) fn only_word(text: &str) -> Option<&str>
    ensures { MatchOption result (AreSeveral (words_of text.now)) (λ w. words_of text.now ≡ w.now ∷ []) }
{
    match cut(text) {
        Some(_) => None,
        None => Some(text),
    }
}

/// A letter, a digit, `-`, `_` or `.`.
fn is_id_char(byte: u8) -> bool
    ensures { result ≡ is_id_char byte }
{
    is_letter(byte) || is_digit(byte) || byte == b'-' || byte == b'_' || byte == b'.'
}

fn all_id_chars(bytes: &[u8]) -> bool
    ensures { result ≡ list_all is_id_char bytes.now }
{
    for byte in bytes {
        if !is_id_char(*byte) {
            return false;
        }
    }
    true
}

/// 1 to 64 letters, digits, `-`, `_` and `.`.
pub(crate) fn is_id(bytes: &[u8]) -> bool
    ensures { result ≡ is_id bytes.now }
{
    let len = bytes.len();
    len > 0 && len <= 64 && all_id_chars(bytes)
}
