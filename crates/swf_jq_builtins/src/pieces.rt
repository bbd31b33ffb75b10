// Texts put together and taken apart.
ghost use Rattle.std.specs.Prelude.{◌≡◌, ◌<◌, ◌≤◌, ◌∷◌, [], suc, length, drop, Ok, IfOk, OnOk, MatchOption, option_map};
ghost use Rattle.std.specs.List.{join_by};
ghost use Rattle.swf_text.specs.Size.{bytes_in};
ghost use Rattle.swf_value.specs.Value.{Value, text};
ghost use Rattle.swf_evaluation.specs.Builtins.{join, joined_or_not, split, piece_of, pieces_of, characters, split_from, parts_between, begins_with};
ghost use Rattle.swf_jq_builtins.specs.Outcome.{outcome_of, answer_size};

use crate::outcome::{Outcome, cannot, text};
use crate::strings::{characters_of, json_text};
use std::alloc::{AllocError, Global};
use swf_expr::Builtin;
use swf_text::{Text, TextBuilder};
use swf_value::{Json, JsonNode};

/// The texts of a list with another between each two; none only where that takes more than the room.
pub fn join(
    alloc: Global,
    value: &Json,
    separator: &Json,
    room: u64,
) -> Result<Option<Outcome>, AllocError>
    ensures { IfOk result
        (λ o. MatchOption o (room < answer_size (join value.now separator.now))
        (λ r. outcome_of r ≡ join value.now separator.now)) }
{
    match (value.node(), separator.node()) {
        (JsonNode::List(items), JsonNode::Text(separator)) => join_items(
            alloc,
            items.as_slice(),
            separator,
            room,
        ),
        _ => Ok(Some(cannot(alloc, Builtin::Join)?)),
    }
}

fn join_items(
    alloc: Global,
    items: &[Json],
    separator: &Text,
    room: u64,
) -> Result<Option<Outcome>, AllocError>
    ensures { IfOk result
        (λ o. MatchOption o
        (room < answer_size (joined_or_not separator.now (pieces_of items.now)))
        (λ r. outcome_of r ≡ joined_or_not separator.now (pieces_of items.now))) }
{
    match pieces_of(alloc, items)? {
        Some(pieces) => Ok(joined(alloc, &pieces, separator, room)?.map(text)),
        None => Ok(Some(cannot(alloc, Builtin::Join)?)),
    }
}

/// What is written of each item; none where one is a list or an object.
fn pieces_of(alloc: Global, items: &[Json]) -> Result<Option<Vec<Text>>, AllocError>
    ensures { IfOk result
        (λ o. option_map (λ v. v.items) o ≡ pieces_of items.now) }
{
    let mut pieces = Vec::with_capacity(alloc, items.len())?;
    for item in items {
        match piece_of(alloc, item)? {
            Some(piece) => pieces.push(piece)?,
            None => return Ok(None),
        }
    }
    Ok(Some(pieces))
}

/// What is written of an item; none of a list or an object.
fn piece_of(alloc: Global, value: &Json) -> Result<Option<Text>, AllocError>
    ensures { IfOk result (λ o. o ≡ piece_of (value.now)) }
{
    match value.node() {
        JsonNode::Null => Ok(Some(TextBuilder::new(alloc).into_text(alloc)?)),
        JsonNode::Bool(_) | JsonNode::Int(_) => Ok(Some(json_text(alloc, value)?)),
        JsonNode::Text(text) => Ok(Some(text.copy()?)),
        JsonNode::List(_) | JsonNode::Object(_) => Ok(None),
    }
}

/// The texts with another between each two; none only where that takes more than the room.
fn joined(
    alloc: Global,
    pieces: &[Text],
    separator: &Text,
    room: u64,
) -> Result<Option<Text>, AllocError>
    ensures { IfOk result
        (λ o. MatchOption o (room < suc (bytes_in (join_by (λ t. t) separator.now pieces.now)))
        (λ t. t ≡ join_by (λ t. t) separator.now pieces.now)) }
{
    let mut draft = TextBuilder::new(alloc);
    if pieces.len() == 0 {
        return Ok(Some(draft.into_text(alloc)?));
    }
    draft.push_text(&pieces[0])?;
    for i in 1..pieces.len() {
        if draft.len() as u64 > room {
            return Ok(None);
        }
        draft.push_text(separator)?;
        draft.push_text(&pieces[i])?;
    }
    Ok(Some(draft.into_text(alloc)?))
}

#[tactic(auto, using(crate::proofs::Lists::values_of_items_of))]
pub fn split(alloc: Global, value: &Json, separator: &Json) -> Result<Outcome, AllocError>
    ensures { IfOk result (λ o. outcome_of o ≡ split value.now separator.now) }
{
    match (value.node(), separator.node()) {
        (JsonNode::Text(t), JsonNode::Text(s)) => {
            let characters = characters_of(alloc, t)?;
            let separator = characters_of(alloc, s)?;
            let parts = parts_between(alloc, &separator, &characters)?;
            Ok(Outcome::Value(Json::list(alloc, parts)?))
        }
        _ => cannot(alloc, Builtin::Split),
    }
}

/// The parts between the occurrences of a separator.
fn parts_between(
    alloc: Global,
    separator: &[char],
    characters: &[char],
) -> Result<Vec<Json>, AllocError>
    ensures { IfOk result (λ v. v.items ≡ parts_between separator.now characters.now) }
{
    match (separator, characters) {
        ([], _) => each_character(alloc, characters),
        (_, []) => Ok(Vec::new(alloc)),
        _ => split_from(alloc, separator, characters),
    }
}

/// A text of each character.
fn each_character(alloc: Global, letters: &[char]) -> Result<Vec<Json>, AllocError>
    ensures { IfOk result (λ v. v.items ≡ characters letters.now) }
{
    let mut texts = Vec::with_capacity(alloc, letters.len())?;
    for character in letters {
        let mut draft = TextBuilder::new(alloc);
        draft.push(*character)?;
        texts.push(Json::text(draft.into_text(alloc)?))?;
    }
    Ok(texts)
}

/// The parts between the occurrences of a separator that has a character.
fn split_from(
    alloc: Global,
    separator: &[char],
    characters: &[char],
) -> Result<Vec<Json>, AllocError>
    requires { 0 < length separator.now }
    ensures { IfOk result (λ v. v.items ≡ split_from separator.now 0 [] characters.now) }
{
    let mut parts = Vec::new(alloc);
    let mut part = TextBuilder::new(alloc);
    let mut skip: usize = 0;
    for (i, character) in characters.iter().enumerate() {
        if skip > 0 {
            skip -= 1;
        } else if characters[i..].starts_with(separator) {
            parts.push(Json::text(part.into_text(alloc)?))?;
            part = TextBuilder::new(alloc);
            skip = separator.len() - 1;
        } else {
            part.push(*character)?;
        }
    }
    parts.push(Json::text(part.into_text(alloc)?))?;
    Ok(parts)
}
