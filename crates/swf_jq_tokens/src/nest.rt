// The brackets that are open at a place of the text.
ghost use Rattle.std.specs.Prelude.{◌≡◌, IfOk};
ghost use Rattle.swf_jq_tokens.specs.Nest.{behind, inside, around};

use crate::fault::ParseFault;
use std::alloc::AllocError;
use std::collections::LinkedList;

/// An open bracket.
#[derive(Clone, Copy, Debug, PartialEq, Eq)]
pub enum Bracket {
    /// `(`, `[` or `{`.
    Plain,
    /// The `\(` of a text that begins at this place.
    Text(usize),
}

/// The open brackets, the innermost first.
pub type Nest = LinkedList<Bracket>;

/// How deep brackets may nest.
const DEEPEST: usize = 64;

/// A bracket opens at a place, unless it is too deep: then that is the fault behind it.
pub fn open(nest: &mut Nest, bracket: Bracket, at: usize) -> Result<Option<ParseFault>, AllocError>
    ensures { IfOk result (λ f. behind nest.new f ≡ inside nest.old at bracket) }
{
    if nest.len() >= DEEPEST {
        return Ok(Some(ParseFault::TooDeep { at }));
    }
    nest.push_front(bracket)?;
    Ok(None)
}

/// A character comes that opens no text and ends none.
pub fn pass(nest: &mut Nest, c: char, at: usize) -> Result<Option<ParseFault>, AllocError>
    ensures { IfOk result (λ f. behind nest.new f ≡ around nest.old at c) }
{
    match c {
        '(' | '[' | '{' => return open(nest, Bracket::Plain, at),
        ')' | ']' | '}' => drop(nest.pop_front()),
        _ => {}
    }
    Ok(None)
}
