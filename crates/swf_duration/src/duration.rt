// Reading a value as a duration.
ghost use Rattle.std.specs.Prelude.{◌≡◌, ◌⊎◌, ◌≤◌, ◌+◌, ◌*◌, ◌-◌, ◌^◌, ◌<◌, IsTrue, Err, IfOk, length, option_map, Option, Some, None, ℕ, List, take, drop, min, pos, take_while};
ghost use Rattle.swf_text.specs.Ascii.{is_digit};
ghost use Rattle.swf_text.specs.Same.{is_ascii};
ghost use Rattle.swf_value.specs.Node.{members_of};
ghost use Rattle.swf_duration.specs.Duration.{longest, within_longest, unit_of, amount_of, product, sum_of, members_length, digits_in, number, counts, count_in, past, part, is_fraction, fraction, seconds, used, time_length, days_and_time, date_length, text_length, duration_of};
ghost use Rattle.swf_duration.specs.Capped.{capped};

use std::alloc::{AllocError, Global};
use swf_text::{Text, is_word};
use swf_value::{Json, JsonNode, Member};

/// The longest duration in milliseconds.
const LONGEST: u64 = 315_360_000_000;

/// A length that stands for all that are longer.
const ABOVE: u64 = 315_360_000_001;

/// Why a value is no duration.
#[derive(Clone, Copy, Debug, PartialEq, Eq)]
pub enum DurationFault {
    /// It is neither a text nor an object of whole numbers of at least 0 by their units.
    WrongKind,
    /// The text is no duration.
    BadText,
    /// It is longer than 3,650 days.
    TooLong,
    OutOfMemory,
}

/// What the start of a text counts in milliseconds, and the text that is left.
#[derive(Clone, Copy)]
struct Piece<'a> {
    length: u64,
    rest: &'a [char],
}

/// The milliseconds of a duration.
pub fn read_duration(alloc: Global, value: &Json) -> Result<u64, DurationFault>
    ensures { (result ≡ Err DurationFault.OutOfMemory) ⊎ (result ≡ duration_of value.now) }
{
    match value.node() {
        JsonNode::Text(text) => match characters(alloc, text) {
            Ok(characters) => within_longest(DurationFault::BadText, text_length(&characters)),
            Err(AllocError) => Err(DurationFault::OutOfMemory),
        },
        JsonNode::Object(members) => {
            within_longest(DurationFault::WrongKind, members_length(members.as_slice()))
        }
        JsonNode::Null | JsonNode::Bool(_) | JsonNode::Int(_) | JsonNode::List(_) => {
            Err(DurationFault::WrongKind)
        }
    }
}

/// The characters of a text.
fn characters(alloc: Global, text: &Text) -> Result<Vec<char>, AllocError>
    ensures { IfOk result (λ v. v.items ≡ text.now) }
{
    text.as_str().chars().collect(alloc)
}

/// A length that was found, if it is not too long.
fn within_longest(fault: DurationFault, length: Option<u64>) -> Result<u64, DurationFault>
    ensures { result ≡ within_longest fault length }
{
    match length {
        None => Err(fault),
        Some(length) => {
            if length <= LONGEST {
                Ok(length)
            } else {
                Err(DurationFault::TooLong)
            }
        }
    }
}

/// So many of a unit.
fn times(unit: u64, count: u64) -> u64
    ensures { result ≡ capped (unit * count) }
{
    unit.saturating_mul(count).min(ABOVE)
}

/// Two lengths together.
fn plus(one: u64, other: u64) -> u64
    ensures { result ≡ capped (one + other) }
{
    one.saturating_add(other).min(ABOVE)
}

/// The milliseconds of a unit.
fn unit_of(name: &Text) -> Option<u64>
    ensures { result ≡ unit_of name.now }
{
    if is_word(name, "days") {
        Some(86_400_000)
    } else if is_word(name, "hours") {
        Some(3_600_000)
    } else if is_word(name, "minutes") {
        Some(60_000)
    } else if is_word(name, "seconds") {
        Some(1000)
    } else if is_word(name, "milliseconds") {
        Some(1)
    } else {
        None
    }
}

/// How many of a unit a member counts.
fn amount_of(value: &Json) -> Option<u64>
    ensures { result ≡ amount_of value.now }
{
    match value.node() {
        JsonNode::Int(number) => {
            let number = *number;
            if number >= 0 {
                Some(number as u64)
            } else {
                None
            }
        }
        JsonNode::Null
        | JsonNode::Bool(_)
        | JsonNode::Text(_)
        | JsonNode::List(_)
        | JsonNode::Object(_) => None,
    }
}

/// The length of a member, which is a unit with a whole number of at least 0.
fn member_length(member: &Member) -> Option<u64>
    ensures { result ≡ option_map capped (product (unit_of member.now.name) (amount_of member.now.value)) }
{
    let unit = unit_of(&member.name)?;
    let amount = amount_of(&member.value)?;
    Some(times(unit, amount))
}

/// The sum of all members.
#[tactic(auto, using(crate::proofs::DurationLemmas::sum_step))]
fn sum_of(members: &[Member]) -> Option<u64>
    ensures { result ≡ option_map capped (sum_of (members_of members.now)) }
{
    let mut sum = 0;
    for member in members {
        sum = plus(sum, member_length(member)?);
    }
    Some(sum)
}

/// The same, where there is a member.
#[tactic(auto, using(crate::proofs::DurationLemmas::some_members))]
fn members_length(members: &[Member]) -> Option<u64>
    ensures { result ≡ option_map capped (members_length (members_of members.now)) }
{
    match members {
        [] => None,
        [_, ..] => sum_of(members),
    }
}

/// How many digits the text begins with.
fn digits_in(text: &[char]) -> usize
    ensures digits { result ≡ digits_in text.now }
    ensures within { result ≤ length text.now }
{
    for (place, character) in text.iter().enumerate() {
        if !is_digit(*character) {
            return place;
        }
    }
    text.len()
}

fn is_digit(character: char) -> bool
    ensures { result ≡ is_digit character }
{
    '0' <= character && character <= '9'
}

/// The number that digits are.
fn number(text: &[char]) -> u64
    ensures { result ≡ capped (number text.now) }
{
    let mut value: u64 = 0;
    for character in text {
        let digit = (*character as u64).saturating_sub(48);
        value = (10 * value + digit).min(ABOVE);
    }
    value
}

/// Whether the text begins with digits, and this letter after them.
fn counts(letter: char, text: &[char]) -> bool
    ensures { result ≡ counts letter text.now }
{
    let digits = digits_in(text);
    0 < digits && digits < text.len() && text[digits] == letter
}

/// The number at the start.
fn count_in(text: &[char]) -> u64
    ensures { result ≡ capped (count_in text.now) }
{
    let digits = digits_in(text);
    number(&text[..digits])
}

/// What follows the digits at the start and the letter after them.
fn past(letter: char, text: &[char]) -> &[char]
    requires { IsTrue (counts letter text.now) }
    ensures { result.now ≡ past text.now }
{
    let digits = digits_in(text);
    &text[digits + 1..]
}

/// What the digits and the letter at the start count, if they stand there.
#[tactic(auto, using(crate::proofs::DurationLemmas::capped_times))]
fn part(letter: char, unit: u64, text: &[char]) -> Piece<'_>
    requires { 1 ≤ unit }
    ensures length { result.length ≡ capped (part letter unit text.now).length_is }
    ensures rest { result.rest.now ≡ (part letter unit text.now).rest }
{
    if counts(letter, text) {
        Piece {
            length: times(unit, count_in(text)),
            rest: past(letter, text),
        }
    } else {
        Piece {
            length: 0,
            rest: text,
        }
    }
}

/// Whether one to three digits and the `S` stand at the start.
fn is_fraction(text: &[char]) -> bool
    ensures { result ≡ is_fraction text.now }
{
    counts('S', text) && digits_in(text) <= 3
}

/// The milliseconds of one digit of so many after the point.
fn thousandths(digits: usize) -> u64
    requires { digits ≤ 3 }
    ensures { result ≡ 10 ^ (3 - digits) }
{
    match digits {
        0 => 1000,
        1 => 100,
        2 => 10,
        _ => 1,
    }
}

/// Seconds with a fraction, if they stand at the start.
#[tactic(auto, using(crate::proofs::DurationLemmas::capped_fraction))]
fn fraction(text: &[char]) -> Piece<'_>
    ensures length { result.length ≡ capped (fraction text.now).length_is }
    ensures rest { result.rest.now ≡ (fraction text.now).rest }
{
    if counts('.', text) {
        let after = past('.', text);
        if is_fraction(after) {
            let unit = thousandths(digits_in(after));
            return Piece {
                length: plus(times(1000, count_in(text)), times(unit, count_in(after))),
                rest: past('S', after),
            };
        }
    }
    Piece {
        length: 0,
        rest: text,
    }
}

fn seconds(text: &[char]) -> Piece<'_>
    ensures length { result.length ≡ capped (seconds text.now).length_is }
    ensures rest { result.rest.now ≡ (seconds text.now).rest }
{
    if counts('S', text) {
        part('S', 1000, text)
    } else {
        fraction(text)
    }
}

/// The length, if all of the text was used.
fn used(length: u64, rest: &[char]) -> Option<u64>
    ensures { result ≡ used length rest.now }
{
    match rest {
        [] => Some(length),
        [_, ..] => None,
    }
}

/// What follows the `T`: hours, minutes and seconds, of which one is there.
#[tactic(auto, using(crate::proofs::DurationLemmas::used_capped))]
fn time_length(text: &[char]) -> Option<u64>
    ensures { result ≡ option_map capped (time_length text.now) }
{
    if text.is_empty() {
        return None;
    }
    let hours = part('H', 3_600_000, text);
    let minutes = part('M', 60_000, hours.rest);
    let seconds = seconds(minutes.rest);
    used(
        plus(plus(hours.length, minutes.length), seconds.length),
        seconds.rest,
    )
}

/// What follows the days: nothing, or `T` and a time.
fn days_and_time(days: u64, text: &[char]) -> Option<u64>
    ensures { result ≡ option_map capped (days_and_time days text.now) }
{
    match text {
        [] => Some(days.min(ABOVE)),
        ['T', time @ ..] => {
            let time = time_length(time)?;
            Some(plus(days, time))
        }
        [_, ..] => None,
    }
}

/// What follows the `P`: days, a time, or both.
fn date_length(text: &[char]) -> Option<u64>
    ensures { result ≡ option_map capped (date_length text.now) }
{
    if text.is_empty() {
        return None;
    }
    let days = part('D', 86_400_000, text);
    days_and_time(days.length, days.rest)
}

/// The length that the text of a duration gives.
fn text_length(text: &[char]) -> Option<u64>
    ensures { result ≡ option_map capped (text_length text.now) }
{
    match text {
        ['P', date @ ..] => date_length(date),
        [_, ..] | [] => None,
    }
}
