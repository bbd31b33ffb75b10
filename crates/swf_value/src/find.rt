// What is found of JSON, in one pass over the tokens of its text.
ghost use Rattle.std.specs.Prelude.{◌<◌, ◌∷◌, length, IfOk, IfSome};
ghost use Rattle.json.specs.Json.{value};
ghost use Rattle.json.specs.Token.{begin_array, begin_object};
ghost use Rattle.serde_json.specs.Read.{of_json, converted, read as read_text};
ghost use Rattle.swf_value.specs.Found.{Finds, FindsNext, IsFound, read_whole};

use crate::names::Names;
use crate::number::number;
use crate::value::Json;
use crate::whole::{Found, found_list, found_number, found_object, found_text};
use json::{Reader, Scratch, Token};
use std::alloc::{AllocError, Global};
use std::collections::BTreeMap;

/// As deep as lists and objects may nest in what is read at all.
const DEEPEST: usize = 127;

/// What is found of a text; nothing where it is no JSON, or a number in it is too large for a float.
pub(crate) fn find(alloc: Global, text: &str) -> Result<Option<Found>, AllocError>
    ensures { IfOk result (Finds IsFound (read_text text.now)) }
{
    let mut names = Names::new(alloc)?;
    let mut scratch = Scratch::new(alloc);
    let mut reader = Reader::new(text, &mut scratch)?;
    find_whole(alloc, &mut reader, &mut names)
}

/// What is found of all that is left to read.
fn find_whole(
    alloc: Global,
    reader: &mut Reader<'_>,
    names: &mut Names,
) -> Result<Option<Found>, AllocError>
    ensures { IfOk result (Finds IsFound (read_whole reader.old)) }
{
    let Some(found) = find_next(alloc, reader, names, DEEPEST)? else {
        return Ok(None);
    };
    if reader.next().is_some() {
        return Ok(None);
    }
    Ok(Some(found))
}

/// What is found of what stands next, in which lists and objects nest at most `depth` deep.
#[cycle(find)]
fn find_next(
    alloc: Global,
    reader: &mut Reader<'_>,
    names: &mut Names,
    depth: usize,
) -> Result<Option<Found>, AllocError>
    ensures found { IfOk result
        (FindsNext IsFound (converted of_json (value depth reader.old)) reader.new) }
    ensures shorter { IfOk result
        (λ o. IfSome o (λ _. length reader.new < length reader.old)) }
{
    let Some(token) = reader.next() else {
        return Ok(None);
    };
    match token {
        Token::Null => Ok(Some(Found {
            value: Some(Json::null()),
            depth: 0,
        })),
        Token::Bool(value) => Ok(Some(Found {
            value: Some(Json::boolean(value)),
            depth: 0,
        })),
        Token::Number(text) => match number(text) {
            Some(value) => Ok(Some(found_number(value))),
            None => Ok(None),
        },
        Token::String(text) => Ok(Some(found_text(alloc, text)?)),
        Token::BeginArray => find_list(alloc, reader, names, depth),
        Token::BeginObject => find_object(alloc, reader, names, depth),
        Token::EndObject | Token::EndArray | Token::Key(_) | Token::Bad => Ok(None),
    }
}

/// What is found of an array whose bracket was read.
#[cycle(find)]
fn find_list(
    alloc: Global,
    reader: &mut Reader<'_>,
    names: &mut Names,
    depth: usize,
) -> Result<Option<Found>, AllocError>
    ensures found { IfOk result (FindsNext IsFound
        (converted of_json (value depth (begin_array ∷ reader.old))) reader.new) }
    ensures shorter { IfOk result
        (λ o. IfSome o (λ _. length reader.new < length reader.old)) }
{
    if depth == 0 {
        return Ok(None);
    }
    let mut found = Vec::new(alloc);
    'items: while !reader.take_end_array() {
        let Some(item) = find_next(alloc, reader, names, depth - 1)? else {
            return Ok(None);
        };
        found.push(item)?;
    }
    Ok(Some(found_list(alloc, found)?))
}

/// What is found of an object whose brace was read. Of equal names the last is kept.
#[cycle(find)]
fn find_object(
    alloc: Global,
    reader: &mut Reader<'_>,
    names: &mut Names,
    depth: usize,
) -> Result<Option<Found>, AllocError>
    ensures found { IfOk result (FindsNext IsFound
        (converted of_json (value depth (begin_object ∷ reader.old))) reader.new) }
    ensures shorter { IfOk result
        (λ o. IfSome o (λ _. length reader.new < length reader.old)) }
{
    if depth == 0 {
        return Ok(None);
    }
    let mut found = BTreeMap::new(alloc);
    'members: loop {
        let Ok(key) = reader.next_key() else {
            return Ok(None);
        };
        let Some(name) = key else {
            return Ok(Some(found_object(alloc, names, found)?));
        };
        let Some(member) = find_next(alloc, reader, names, depth - 1)? else {
            return Ok(None);
        };
        drop(found.insert(name, member)?);
    }
}
