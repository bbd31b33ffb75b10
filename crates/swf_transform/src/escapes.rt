// What stands in a URI for a value.
ghost use Rattle.std.specs.Prelude.{◌≡◌, IfOk, chars};
ghost use Rattle.std.specs.Fmt.{signed_decimal};
ghost use Rattle.swf_templates.specs.Uris.{escaped, cannot_expand, name_text, query_value};

use percent_encoding::{AsciiSet, NON_ALPHANUMERIC, ascii_set, utf8_percent_encode};
use std::alloc::{AllocError, Global};
use swf_jq_builtins::error;
use swf_templates::Got;
use swf_text::{Text, word};
use swf_value::{Json, JsonNode};

/// The bytes of ASCII that do not stand for themselves: all but letters, digits, `-`, `.`, `_` and
/// `~`.
const RESERVED: AsciiSet = ascii_set!(
    NON_ALPHANUMERIC
        .remove(b'-')
        .remove(b'.')
        .remove(b'_')
        .remove(b'~')
);

/// A text in which each byte of its UTF-8 that does not stand for itself is `%` and two upper-case
/// digits to base 16.
pub(crate) fn escaped(alloc: Global, text: &str) -> Result<Text, AllocError>
    ensures { IfOk result (λ t. t ≡ escaped (chars text.now)) }
{
    let mut out = String::new(alloc);
    utf8_percent_encode(text, RESERVED).append_to(&mut out)?;
    Text::from_string(alloc, out)
}

/// The digits of a number.
pub fn digits(alloc: Global, number: i64) -> Result<Text, AllocError>
    ensures { IfOk result (λ t. t ≡ signed_decimal number) }
{
    Text::from_string(alloc, format!(in alloc; "{number}")?)
}

/// The error of a value that no text stands for.
fn cannot_expand(alloc: Global) -> Result<Got<Text>, AllocError>
    ensures { IfOk result (λ g. g ≡ cannot_expand) }
{
    Ok(Got::Raised(error(alloc, "cannot expand")?))
}

/// What stands for a name of a pattern that has this value: nothing for null. It raises `cannot
/// expand` for a Boolean, a list and an object.
pub(crate) fn name_text(alloc: Global, value: &Json) -> Result<Got<Text>, AllocError>
    ensures { IfOk result (λ g. g ≡ name_text value.now) }
{
    match value.node() {
        JsonNode::Null => Ok(Got::Value(word(alloc, "")?)),
        JsonNode::Int(number) => Ok(Got::Value(digits(alloc, *number)?)),
        JsonNode::Text(text) => Ok(Got::Value(escaped(alloc, text.as_str())?)),
        JsonNode::Bool(_) | JsonNode::List(_) | JsonNode::Object(_) => cannot_expand(alloc),
    }
}

/// What stands for a value of a query. It raises `cannot expand` for null, a list and an object.
pub(crate) fn query_value(alloc: Global, value: &Json) -> Result<Got<Text>, AllocError>
    ensures { IfOk result (λ g. g ≡ query_value value.now) }
{
    match value.node() {
        JsonNode::Bool(true) => Ok(Got::Value(word(alloc, "true")?)),
        JsonNode::Bool(false) => Ok(Got::Value(word(alloc, "false")?)),
        JsonNode::Int(number) => Ok(Got::Value(digits(alloc, *number)?)),
        JsonNode::Text(text) => Ok(Got::Value(escaped(alloc, text.as_str())?)),
        JsonNode::Null | JsonNode::List(_) | JsonNode::Object(_) => cannot_expand(alloc),
    }
}
