// A place on the way down a document.
ghost use Rattle.std.specs.Prelude.{◌≡◌, ◌++◌, IfOk, OnOk};
ghost use Rattle.std.specs.Fmt.{decimal};
ghost use Rattle.swf_scope.specs.Scope.{fault, fault_unless};
ghost use Rattle.swf_scope.specs.Spots.{place_at};

use itoa::Buffer;
use std::alloc::{AllocError, Global};
use swf_document::{FaultKind, Faults};
use swf_text::{Place, Text, TextBuilder};

/// A place, by the way to it from the inside out.
#[derive(Clone, Copy)]
pub enum Spot<'a> {
    /// That of the whole document.
    Root,
    /// That of a task.
    Task(&'a Place),
    /// A member that the standard names, in ASCII.
    Word(&'a Spot<'a>, &'static str),
    Name(&'a Spot<'a>, &'a Text),
    Item(&'a Spot<'a>, usize),
}

/// The digits of a position.
fn digits(alloc: Global, position: usize) -> Result<Text, AllocError>
    ensures { IfOk result (λ t. t ≡ decimal position) }
{
    let mut buffer = Buffer::new();
    Text::copy_of(alloc, buffer.format(position))
}

/// The text of an ASCII word: each byte is a character.
fn spelled(alloc: Global, word: &str) -> Result<Text, AllocError>
    ensures { IfOk result (λ t. t ≡ word.now) }
{
    let mut text = TextBuilder::new(alloc);
    for byte in word.as_bytes() {
        text.push(char::from(*byte))?;
    }
    text.into_text(alloc)
}

/// Appends the parts of a place.
fn push_place(place: &Place, parts: &mut Vec<Text>) -> Result<(), AllocError>
    ensures { OnOk result (parts.new.items ≡ parts.old.items ++ place.now) }
{
    for part in place.as_slice() {
        parts.push(part.copy()?)?;
    }
    Ok(())
}

/// Appends the names and positions on the way to a spot.
fn push_parts(alloc: Global, spot: &Spot<'_>, parts: &mut Vec<Text>) -> Result<(), AllocError>
    ensures { OnOk result (parts.new.items ≡ parts.old.items ++ place_at spot.now) }
{
    match spot {
        Spot::Root => Ok(()),
        Spot::Task(place) => push_place(*place, parts),
        Spot::Word(outer, word) => {
            push_parts(alloc, *outer, parts)?;
            parts.push(spelled(alloc, *word)?)?;
            Ok(())
        }
        Spot::Name(outer, name) => {
            push_parts(alloc, *outer, parts)?;
            parts.push(name.copy()?)?;
            Ok(())
        }
        Spot::Item(outer, position) => {
            push_parts(alloc, *outer, parts)?;
            parts.push(digits(alloc, *position)?)?;
            Ok(())
        }
    }
}

/// Tells a fault at a spot.
pub fn tell(
    alloc: Global,
    at: &Spot<'_>,
    kind: FaultKind,
    out: &mut Faults,
) -> Result<(), AllocError>
    ensures { OnOk result (out.new ≡ out.old ++ fault (place_at at.now) kind) }
{
    let mut parts = Vec::new(alloc);
    push_parts(alloc, at, &mut parts)?;
    out.push(Place::of(parts), kind)?;
    Ok(())
}

/// Tells a fault at a spot where something does not hold.
pub fn tell_unless(
    alloc: Global,
    holds: bool,
    at: &Spot<'_>,
    kind: FaultKind,
    out: &mut Faults,
) -> Result<(), AllocError>
    ensures { OnOk result (out.new ≡ out.old ++ fault_unless holds (place_at at.now) kind) }
{
    if holds {
        return Ok(());
    }
    tell(alloc, at, kind, out)
}
