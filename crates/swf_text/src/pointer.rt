// The text of a place in a value.
ghost use Rattle.std.specs.Prelude.{◌≡◌, ◌++◌, IfOk, OnOk, flat_map, chars, true};
ghost use Rattle.swf_text.specs.Pointer.{pointer, pointer_part, pointer_char};

use crate::builder::TextBuilder;
use crate::place::Place;
use crate::text::Text;
use std::alloc::{AllocError, Global};

/// The JSON Pointer of a place.
pub fn pointer_text(alloc: Global, place: &Place) -> Result<Text, AllocError>
    ensures { IfOk result (λ t. t ≡ pointer place.now) }
{
    if let Some(text) = place.pointer() {
        return text.copy();
    }
    let mut out = TextBuilder::with_capacity(alloc, room_for(place))?;
    for part in place.as_slice() {
        push_part(part, &mut out)?;
    }
    out.into_text(alloc)
}

/// How many bytes the pointer of a place has, without those that escapes add.
fn room_for(place: &Place) -> usize {
    let mut room: usize = 0;
    for part in place.as_slice() {
        room = room.saturating_add(part.as_str().len()).saturating_add(1);
    }
    room
}

/// Appends a name or a position, behind a `/`.
fn push_part(part: &Text, out: &mut TextBuilder) -> Result<(), AllocError>
    ensures { OnOk result (out.new ≡ out.old ++ pointer_part part.now) }
{
    out.push('/')?;
    push_escaped(part.as_str(), out)
}

/// Appends what stands in a pointer for some characters.
fn push_escaped(characters: &str, out: &mut TextBuilder) -> Result<(), AllocError>
    ensures { OnOk result (out.new ≡ out.old ++ flat_map pointer_char (chars characters.now)) }
{
    if is_plain(characters) {
        return out.push_str(characters);
    }
    for character in characters.chars() {
        push_char(character, out)?;
    }
    Ok(())
}

/// Whether no character has an escape.
fn is_plain(characters: &str) -> bool
    ensures { result ≡ true → flat_map pointer_char (chars characters.now) ≡ chars characters.now }
{
    for character in characters.chars() {
        if character == '~' || character == '/' {
            return false;
        }
    }
    true
}

/// Appends what stands in a pointer for a character.
fn push_char(character: char, out: &mut TextBuilder) -> Result<(), AllocError>
    ensures { OnOk result (out.new ≡ out.old ++ pointer_char character) }
{
    match character {
        '~' => out.push_ascii("~0"),
        '/' => out.push_ascii("~1"),
        _ => out.push(character),
    }
}
