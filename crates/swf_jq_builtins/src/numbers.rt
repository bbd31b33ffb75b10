// Numbers in texts.
ghost use Rattle.std.specs.Prelude.{◌≡◌, IfOk, option_map};
ghost use Rattle.std.specs.List.{list_all};
ghost use Rattle.swf_evaluation.specs.Builtins.{below_zero, to_number, is_numeral, natural, number_in, decimal_value};
ghost use Rattle.swf_text.specs.Ascii.{is_digit};
ghost use Rattle.swf_jq_builtins.specs.Caps.{capped, held};
ghost use Rattle.swf_jq_builtins.specs.Outcome.{outcome_of};

use crate::outcome::{Outcome, cannot, whole};
use crate::strings::characters_of;
use std::alloc::{AllocError, Global};
use swf_expr::Builtin;
use swf_value::{Json, JsonNode};

/// One more than the greatest whole number.
const ABOVE: u64 = 9007199254740992;

#[tactic(auto, using(crate::proofs::NumberCaps::whole_held))]
pub fn to_number(alloc: Global, value: &Json) -> Result<Outcome, AllocError>
    ensures { IfOk result (λ o. outcome_of o ≡ to_number value.now) }
{
    match value.node() {
        JsonNode::Int(_) => Ok(Outcome::Value(value.copy()?)),
        JsonNode::Text(text) => {
            let characters = characters_of(alloc, text)?;
            match number_in(&characters) {
                Some(number) => whole(alloc, number),
                None => cannot(alloc, Builtin::ToNumber),
            }
        }
        _ => cannot(alloc, Builtin::ToNumber),
    }
}

/// The number that some characters are. One that is out of range stays out of range.
fn number_in(characters: &[char]) -> Option<i128>
    ensures { result ≡ option_map held (number_in characters.now) }
{
    match characters {
        [] => None,
        ['-', rest @ ..] => natural(rest).and_then(below_zero),
        _ => natural(characters).map(|number| number as i128),
    }
}

/// A number below zero; none of zero.
fn below_zero(number: u64) -> Option<i128>
    ensures { result ≡ below_zero number }
{
    if number == 0 {
        None
    } else {
        Some(-(number as i128))
    }
}

/// The number that a numeral is, or `ABOVE` where it is greater than that.
fn natural(characters: &[char]) -> Option<u64>
    ensures { result ≡ option_map capped (natural characters.now) }
{
    if is_numeral(characters) {
        Some(decimal_value(characters))
    } else {
        None
    }
}

/// Whether the characters are `0`, or digits without a leading zero.
fn is_numeral(characters: &[char]) -> bool
    ensures { result ≡ is_numeral characters.now }
{
    match characters {
        [] => false,
        [digit] => is_digit(*digit),
        [first, ..] => *first != '0' && each_digit(characters),
    }
}

fn is_digit(character: char) -> bool
    ensures { result ≡ is_digit character }
{
    '0' <= character && character <= '9'
}

fn each_digit(characters: &[char]) -> bool
    ensures { result ≡ list_all is_digit characters.now }
{
    characters.iter().all(|character| is_digit(*character))
}

/// The number that digits are, or `ABOVE` where it is greater than that.
fn decimal_value(characters: &[char]) -> u64
    ensures { result ≡ capped (decimal_value characters.now) }
{
    let mut value: u64 = 0;
    for character in characters {
        let digit = (*character as u64).saturating_sub(48);
        value = (10 * value + digit).min(ABOVE);
    }
    value
}
