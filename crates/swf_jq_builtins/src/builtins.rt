// What the built-in functions make of values.
ghost use Rattle.std.specs.Prelude.{◌≡◌, ◌<◌, IfOk, MatchOption};
ghost use Rattle.swf_evaluation.specs.Builtins.{count_between, plain, with_one, range_of};
ghost use Rattle.swf_jq_builtins.specs.Outcome.{outcome_of, several_of, answer_size, count_of};

use crate::operations::index;
use crate::outcome::{Outcome, Several, cannot, error, text, truth};
use crate::totals::total;
use crate::{arrays, entries, numbers, pieces, sorting, strings};
use std::alloc::{AllocError, Global};
use swf_expr::Builtin;
use swf_value::{Json, JsonNode};

/// What a built-in without argument that gives one value makes of its input.
pub fn plain(alloc: Global, builtin: Builtin, value: &Json) -> Result<Outcome, AllocError>
    ensures { IfOk result (λ o. outcome_of o ≡ plain builtin value.now) }
{
    match builtin {
        Builtin::Length => arrays::length(alloc, value),
        Builtin::Keys => arrays::keys(alloc, value),
        Builtin::Add => total(alloc, value),
        Builtin::Any => arrays::any(alloc, value),
        Builtin::All => arrays::all(alloc, value),
        Builtin::Not => Ok(truth(!arrays::is_true(value))),
        Builtin::Error => Ok(Outcome::Raised(value.copy()?)),
        Builtin::ToEntries => entries::to_entries(alloc, value),
        Builtin::FromEntries => entries::from_entries(alloc, value),
        Builtin::Sort => sorting::sort(alloc, value),
        Builtin::Unique => sorting::unique(alloc, value),
        Builtin::Min => arrays::min(alloc, value),
        Builtin::Max => arrays::max(alloc, value),
        Builtin::Reverse => arrays::reverse(alloc, value),
        Builtin::First => index(alloc, value, &Json::int(0)),
        Builtin::Last => index(alloc, value, &Json::int(-1)),
        Builtin::Type => Ok(text(strings::type_name(alloc, value)?)),
        Builtin::ToString => Ok(text(strings::word_of(alloc, value)?)),
        Builtin::ToJson => Ok(text(strings::json_text(alloc, value)?)),
        Builtin::ToNumber => numbers::to_number(alloc, value),
        Builtin::AsciiDowncase => strings::in_case(alloc, value, false),
        Builtin::AsciiUpcase => strings::in_case(alloc, value, true),
        Builtin::Has
        | Builtin::AnyOf
        | Builtin::AllOf
        | Builtin::Map
        | Builtin::Select
        | Builtin::Empty
        | Builtin::ErrorWith
        | Builtin::WithEntries
        | Builtin::SortBy
        | Builtin::Join
        | Builtin::Split
        | Builtin::StartsWith
        | Builtin::EndsWith
        | Builtin::RangeTo
        | Builtin::RangeFrom
        | Builtin::FirstOf => cannot(alloc, builtin),
    }
}

/// What a built-in of one argument that is applied once makes of its input and an output of that;
/// none only where that takes more than the room.
pub fn with_one(
    alloc: Global,
    builtin: Builtin,
    value: &Json,
    argument: &Json,
    room: u64,
) -> Result<Option<Outcome>, AllocError>
    ensures { IfOk result
        (λ o. MatchOption o (room < answer_size (with_one builtin value.now argument.now))
        (λ r. outcome_of r ≡ with_one builtin value.now argument.now)) }
{
    match builtin {
        Builtin::Has => Ok(Some(arrays::has(alloc, value, argument)?)),
        Builtin::ErrorWith => Ok(Some(Outcome::Raised(argument.copy()?))),
        Builtin::Join => pieces::join(alloc, value, argument, room),
        Builtin::Split => Ok(Some(pieces::split(alloc, value, argument)?)),
        Builtin::StartsWith => Ok(Some(strings::begins(alloc, value, argument)?)),
        Builtin::EndsWith => Ok(Some(strings::ends(alloc, value, argument)?)),
        _ => Ok(Some(cannot(alloc, builtin)?)),
    }
}

/// How many numbers there are from the first up to below the second; 0 where they are no numbers.
#[tactic(auto, using(crate::proofs::NumberRows::length_numbers))]
pub fn range_len(from: &Json, to: &Json) -> u64
    ensures { result ≡ count_of (range_of from.now to.now) }
{
    match (from.node(), to.node()) {
        (JsonNode::Int(a), JsonNode::Int(b)) => count_between(*a, *b),
        _ => 0,
    }
}

fn count_between(a: i64, b: i64) -> u64
    ensures { result ≡ count_between a b }
{
    if a < b { b.abs_diff(a) } else { 0 }
}

/// The numbers from the first up to below the second.
pub fn range(alloc: Global, from: &Json, to: &Json) -> Result<Several, AllocError>
    ensures { IfOk result (λ s. several_of s ≡ range_of from.now to.now) }
{
    match (from.node(), to.node()) {
        (JsonNode::Int(a), JsonNode::Int(b)) => {
            Ok(Several::Values(arrays::numbers(alloc, *a, count_between(*a, *b))?))
        }
        _ => Ok(Several::Raised(error(alloc, "cannot range")?)),
    }
}
