// Where a request goes: a pattern whose names are filled in, and a query behind it.
ghost use Rattle.std.specs.Prelude.{◌≡◌, ◌==◌, ◌++◌, ◌∷◌, IfOk, OnOk, None, if◌then◌else◌};
ghost use Rattle.std.specs.List.{list_any};
ghost use Rattle.swf_value.specs.Node.{members_of};
ghost use Rattle.swf_templates.specs.Uris.{escaped, named, pattern_text, query_text, limited_text, with_query, uri_of};

use crate::escapes::{escaped, name_text, query_value};
use crate::filling::is_within;
use std::alloc::{AllocError, Global};
use swf_jq_builtins::{Outcome, index};
use swf_templates::Got;
use swf_text::{Text, TextBuilder};
use swf_value::{Json, Member};

/// What stands for a name on an input, or the error that is raised there.
fn named(alloc: Global, name: Text, input: &Json) -> Result<Got<Text>, AllocError>
    ensures { IfOk result (λ g. g ≡ named name input.now) }
{
    match index(alloc, input, &Json::text(name))? {
        Outcome::Value(value) => name_text(alloc, &value),
        Outcome::Raised(error) => Ok(Got::Raised(error)),
    }
}

/// The pattern of these characters, whose names are filled in on an input. It stops at the first
/// error.
fn pattern_text(alloc: Global, pattern: &[char], input: &Json) -> Result<Got<Text>, AllocError>
    ensures { IfOk result (λ g. g ≡ pattern_text None pattern.now input.now) }
{
    let mut out = TextBuilder::new(alloc);
    let mut name: Option<TextBuilder> = None;
    for character in pattern {
        name = match (name, *character) {
            (None, '{') => Some(TextBuilder::new(alloc)),
            (None, other) => {
                out.push(other)?;
                None
            }
            (Some(so_far), '}') => match named(alloc, so_far.into_text(alloc)?, input)? {
                Got::Value(text) => {
                    out.push_text(&text)?;
                    None
                }
                other => return Ok(other),
            },
            (Some(mut so_far), other) => {
                so_far.push(other)?;
                Some(so_far)
            }
        };
    }
    Ok(Got::Value(out.into_text(alloc)?))
}

/// A query in the order of its members, each behind `&`; the first behind `?`, unless it comes later
/// in a query. It stops at the first error.
fn query_text(alloc: Global, later: bool, query: &[Member]) -> Result<Got<Text>, AllocError>
    ensures { IfOk result (λ g. g ≡ query_text later (members_of query.now)) }
{
    let mut out = TextBuilder::new(alloc);
    let mut later = later;
    for member in query {
        match query_value(alloc, &member.value)? {
            Got::Value(value) => push_member(alloc, later, &member.name, &value, &mut out)?,
            other => return Ok(other),
        }
        later = true;
    }
    Ok(Got::Value(out.into_text(alloc)?))
}

/// Appends `name=value` behind `&` or `?`, where the value has its escapes.
fn push_member(
    alloc: Global,
    later: bool,
    name: &Text,
    value: &Text,
    out: &mut TextBuilder,
) -> Result<(), AllocError>
    ensures { OnOk result
        (out.new ≡ out.old ++ ((if later then 38 else 63) ∷ (escaped name.now ++ 61 ∷ value.now))) }
{
    out.push(if later { '&' } else { '?' })?;
    out.push_text(&escaped(alloc, name.as_str())?)?;
    out.push('=')?;
    out.push_text(value)
}

/// The characters of a text, one after another.
fn characters_of(alloc: Global, text: &Text) -> Result<Vec<char>, AllocError>
    ensures { IfOk result (λ v. v.items ≡ text.now) }
{
    text.as_str().chars().collect(alloc)
}

/// Whether a URI has a `?`.
fn has_query(uri: &Text) -> bool
    ensures { result ≡ list_any (λ c. c == 63) uri.now }
{
    uri.as_str().chars().any(|character| character == '?')
}

/// Two texts as one, within the limits of a value.
fn joined(alloc: Global, front: &Text, back: &Text) -> Result<Got<Text>, AllocError>
    ensures { IfOk result (λ g. g ≡ limited_text (front.now ++ back.now)) }
{
    let mut out = TextBuilder::new(alloc);
    out.push_text(front)?;
    out.push_text(back)?;
    let whole = out.into_text(alloc)?;
    if is_within(&Json::text(whole.copy()?)) {
        Ok(Got::Value(whole))
    } else {
        Ok(Got::TooLarge)
    }
}

/// A URI with a query (RFC 3986, sections 2.1 and 2.3): each member in order as `name=value` with the
/// escapes of bytes, the first behind `?`, or behind `&` where the URI has a `?`, and the others
/// behind `&`. It raises `cannot expand` at the first value that is null, a list or an object. A
/// text that is not within the limits of a value is `TooLarge`.
pub fn add_query(alloc: Global, uri: &Text, query: &[Member]) -> Result<Got<Text>, AllocError>
    ensures { IfOk result (λ g. g ≡ with_query uri.now (members_of query.now)) }
{
    match query_text(alloc, has_query(uri), query)? {
        Got::Value(text) => joined(alloc, uri, &text),
        other => Ok(other),
    }
}

/// The URI that a pattern and a query give on an input (RFC 6570, section 3.2.2). Each `{name}` of
/// the pattern becomes the input's member of that name: a number or a text with the escapes of
/// bytes, and nothing where it is null or absent. It raises `cannot expand` at another value, and
/// `cannot index` at a name where the input is neither an object nor null. The errors of the
/// pattern come first, in its order, then those of `add_query`. What stands behind a `{` without
/// its `}` is left out.
pub fn expand_uri(
    alloc: Global,
    pattern: &Text,
    query: &[Member],
    input: &Json,
) -> Result<Got<Text>, AllocError>
    ensures { IfOk result (λ g. g ≡ uri_of pattern.now (members_of query.now) input.now) }
{
    let characters = characters_of(alloc, pattern)?;
    match pattern_text(alloc, characters.as_slice(), input)? {
        Got::Value(uri) => add_query(alloc, &uri, query),
        other => Ok(other),
    }
}
