// Built-ins on texts.
ghost use Rattle.std.specs.Prelude.{◌≡◌, IfOk, length, map, if◌then◌else◌};
ghost use Rattle.std.specs.Char.{to_ascii_lowercase, to_ascii_uppercase};
ghost use Rattle.swf_evaluation.specs.Builtins.{json_text, word_of, type_name, lower_case_of, upper_case_of, text_begins, text_ends, begins_with};
ghost use Rattle.swf_jq_builtins.specs.Outcome.{outcome_of};

use crate::outcome::{Outcome, cannot, text, truth};
use std::alloc::{AllocError, Global};
use swf_expr::Builtin;
use swf_text::{Text, TextBuilder};
use swf_value::{Json, JsonNode, write_json};

/// How many characters a text has.
pub fn character_count(text: &Text) -> usize
    ensures { result ≡ length text.now }
{
    text.as_str().chars().count()
}

/// The characters of a text.
pub fn characters_of(alloc: Global, text: &Text) -> Result<Vec<char>, AllocError>
    ensures { IfOk result (λ v. v.items ≡ text.now) }
{
    text.as_str().chars().collect(alloc)
}

/// The JSON text of a value.
pub fn json_text(alloc: Global, value: &Json) -> Result<Text, AllocError>
    ensures { IfOk result (λ t. t ≡ json_text value.now) }
{
    let mut bytes = Vec::new(alloc);
    write_json(value, &mut bytes)?;
    match String::from_utf8(bytes) {
        Ok(written) => Text::from_string(alloc, written),
        Err(_) => unreachable!(),
    }
}

/// A text itself, and else the JSON text.
pub fn word_of(alloc: Global, value: &Json) -> Result<Text, AllocError>
    ensures { IfOk result (λ t. t ≡ word_of value.now) }
{
    match value.node() {
        JsonNode::Text(text) => text.copy(),
        _ => json_text(alloc, value),
    }
}

/// The name of a value's kind.
pub fn type_name(alloc: Global, value: &Json) -> Result<Text, AllocError>
    ensures { IfOk result (λ t. t ≡ type_name value.now) }
{
    match value.node() {
        JsonNode::Null => swf_text::word(alloc, "null"),
        JsonNode::Bool(_) => swf_text::word(alloc, "boolean"),
        JsonNode::Int(_) => swf_text::word(alloc, "number"),
        JsonNode::Text(_) => swf_text::word(alloc, "string"),
        JsonNode::List(_) => swf_text::word(alloc, "array"),
        JsonNode::Object(_) => swf_text::word(alloc, "object"),
    }
}

/// A text with its ASCII letters in upper or in lower case.
pub fn in_case(alloc: Global, value: &Json, upper: bool) -> Result<Outcome, AllocError>
    ensures { IfOk result
        (λ o. outcome_of o ≡ (if upper then upper_case_of value.now else lower_case_of value.now)) }
{
    match (value.node(), upper) {
        (JsonNode::Text(t), _) => Ok(text(text_in_case(alloc, t, upper)?)),
        (_, true) => cannot(alloc, Builtin::AsciiUpcase),
        (_, false) => cannot(alloc, Builtin::AsciiDowncase),
    }
}

fn text_in_case(alloc: Global, text: &Text, upper: bool) -> Result<Text, AllocError>
    ensures { IfOk result
        (λ t. t ≡ map (if upper then to_ascii_uppercase else to_ascii_lowercase) text.now) }
{
    let characters = characters_of(alloc, text)?;
    let mut draft = TextBuilder::new(alloc);
    for character in &characters {
        draft.push(if upper {
            character.to_ascii_uppercase()
        } else {
            character.to_ascii_lowercase()
        })?;
    }
    draft.into_text(alloc)
}

pub fn begins(alloc: Global, value: &Json, start: &Json) -> Result<Outcome, AllocError>
    ensures { IfOk result (λ o. outcome_of o ≡ text_begins value.now start.now) }
{
    match (value.node(), start.node()) {
        (JsonNode::Text(t), JsonNode::Text(s)) => {
            let characters = characters_of(alloc, t)?;
            let start = characters_of(alloc, s)?;
            Ok(truth(characters.starts_with(&start)))
        }
        _ => cannot(alloc, Builtin::StartsWith),
    }
}

pub fn ends(alloc: Global, value: &Json, end: &Json) -> Result<Outcome, AllocError>
    ensures { IfOk result (λ o. outcome_of o ≡ text_ends value.now end.now) }
{
    match (value.node(), end.node()) {
        (JsonNode::Text(t), JsonNode::Text(s)) => {
            let characters = characters_of(alloc, t)?;
            let end = characters_of(alloc, s)?;
            Ok(truth(characters.ends_with(&end)))
        }
        _ => cannot(alloc, Builtin::EndsWith),
    }
}
