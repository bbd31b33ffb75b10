// The first fault of the members of an event.
ghost use Rattle.std.specs.Prelude.{◌≡◌, ◌∷◌, ◌||◌, [], chars, codes, map, option_map, IfOk, IsTrue};
ghost use Rattle.std.specs.List.{list_all, list_any};
ghost use Rattle.swf_text.specs.Ascii.{is_digit, is_lower};
ghost use Rattle.swf_text.specs.Same.{same, is_ascii};
ghost use Rattle.swf_value.specs.Node.{node_value, members_of};
ghost use Rattle.swf_value.specs.Value.{Ascending, text as text_value};
ghost use Rattle.swf_value.specs.Members.{at};
ghost use Rattle.swf_cloudevents.specs.Base64.{is_base64};
ghost use Rattle.swf_cloudevents.specs.Event.{is_apart};
ghost use Rattle.swf_cloudevents.specs.Faults as spec;
ghost use Rattle.swf_cloudevents.specs.First.{IsFirst, Tells};

use crate::fault::{EventFault, FaultKind};
use crate::time::is_time;
use base64::DecodeAllocError;
use base64::engine::general_purpose::STANDARD;
use std::alloc::{AllocError, Global};
use swf_text::{Text, is_word, word};
use swf_value::{Json, JsonMap, JsonNode, Member};

/// Looks for the first fault of an event's members.
pub(crate) fn check_members(alloc: Global, members: &JsonMap) -> Result<(), EventFault>
    requires { Ascending members.now }
    ensures { Tells (spec.faults members.now) result }
{
    check_required(alloc, members, "id")?;
    check_required(alloc, members, "source")?;
    check_required(alloc, members, "specversion")?;
    check_version(alloc, members)?;
    check_required(alloc, members, "type")?;
    check_optional(alloc, members, "datacontenttype")?;
    check_optional(alloc, members, "dataschema")?;
    check_optional(alloc, members, "subject")?;
    check_time(alloc, members)?;
    check_base64(alloc, members)?;
    check_others(alloc, members.as_slice())
}

/// A fault of an attribute.
pub(crate) fn fault(alloc: Global, attribute: &str, kind: FaultKind) -> EventFault
    requires { IsTrue (is_ascii attribute.now) }
    ensures { IsFirst ((attribute.now, kind) ∷ []) result }
{
    match word(alloc, attribute) {
        Ok(attribute) => EventFault::Bad { attribute, kind },
        Err(_) => EventFault::OutOfMemory,
    }
}

/// The value of an attribute; null stands for one that is not there.
#[tactic(auto, using(swf_text::proofs::SameLemmas::chars_ascii))]
pub(crate) fn given<'a>(members: &'a JsonMap, name: &str) -> Option<&'a JsonNode>
    requires ascending { Ascending members.now }
    requires ascii { IsTrue (is_ascii name.now) }
    ensures { option_map (λ n. node_value n.now) result ≡ spec.attribute name.now members.now }
{
    match members.find(name)?.node() {
        JsonNode::Null => None,
        node => Some(node),
    }
}

/// A text of at least one character.
#[tactic(auto, using(crate::proofs::Texts::text_faults_empty))]
fn check_text(alloc: Global, name: &str, value: &JsonNode) -> Result<(), EventFault>
    requires { IsTrue (is_ascii name.now) }
    ensures { Tells (spec.text_faults name.now (node_value value.now)) result }
{
    match value {
        JsonNode::Text(text) if is_word(text, "") => { Err(fault(alloc, name, FaultKind::Empty)) }
        JsonNode::Text(_) => Ok(()),
        _ => Err(fault(alloc, name, FaultKind::WrongKind)),
    }
}

fn check_required(alloc: Global, members: &JsonMap, name: &str) -> Result<(), EventFault>
    requires ascending { Ascending members.now }
    requires ascii { IsTrue (is_ascii name.now) }
    ensures { Tells (spec.required name.now (spec.attribute name.now members.now)) result }
{
    match given(members, name) {
        Some(value) => check_text(alloc, name, value),
        None => Err(fault(alloc, name, FaultKind::Missing)),
    }
}

fn check_optional(alloc: Global, members: &JsonMap, name: &str) -> Result<(), EventFault>
    requires ascending { Ascending members.now }
    requires ascii { IsTrue (is_ascii name.now) }
    ensures { Tells (spec.optional name.now (spec.attribute name.now members.now)) result }
{
    match given(members, name) {
        Some(value) => check_text(alloc, name, value),
        None => Ok(()),
    }
}

/// No version but 1.0.
fn check_version(alloc: Global, members: &JsonMap) -> Result<(), EventFault>
    requires { Ascending members.now }
    ensures { Tells (spec.other_version (spec.attribute (codes "specversion") members.now)) result }
{
    match given(members, "specversion") {
        Some(JsonNode::Text(version)) if !is_word(version, "1.0") => {
            Err(fault(alloc, "specversion", FaultKind::BadValue))
        }
        _ => Ok(()),
    }
}

fn check_time(alloc: Global, members: &JsonMap) -> Result<(), EventFault>
    requires { Ascending members.now }
    ensures { Tells (spec.time_faults (spec.attribute (codes "time") members.now)) result }
{
    match given(members, "time") {
        None => Ok(()),
        Some(JsonNode::Text(time)) if is_time(time) => Ok(()),
        Some(JsonNode::Text(_)) => Err(fault(alloc, "time", FaultKind::BadValue)),
        Some(_) => Err(fault(alloc, "time", FaultKind::WrongKind)),
    }
}

#[tactic(auto, using(swf_text::proofs::SameLemmas::chars_ascii))]
fn check_base64(alloc: Global, members: &JsonMap) -> Result<(), EventFault>
    requires { Ascending members.now }
    ensures { Tells (spec.base64_faults (at (codes "data") members.now) (spec.attribute (codes "data_base64") members.now)) result }
{
    match given(members, "data_base64") {
        None => Ok(()),
        Some(JsonNode::Text(text)) => check_base64_text(alloc, members.find("data"), text),
        Some(_) => Err(fault(alloc, "data_base64", FaultKind::WrongKind)),
    }
}

/// Base64, and nothing beside it.
fn check_base64_text(alloc: Global, beside: Option<&Json>, text: &Text) -> Result<(), EventFault>
    ensures { Tells (spec.base64_faults (option_map (λ v. v.now) beside.entry) (Some (text_value text.now))) result }
{
    if !is_base64(alloc, text)? {
        Err(fault(alloc, "data_base64", FaultKind::BadValue))
    } else if beside.is_some() {
        Err(fault(alloc, "data_base64", FaultKind::Conflict))
    } else {
        Ok(())
    }
}

/// Whether a text is standard base64.
fn is_base64(alloc: Global, text: &Text) -> Result<bool, AllocError>
    ensures { IfOk result (λ b. b ≡ is_base64 text.now) }
{
    match STANDARD.decode(alloc, text.as_str().as_bytes()) {
        Ok(_) => Ok(true),
        Err(DecodeAllocError::DecodeError(_)) => Ok(false),
        Err(DecodeAllocError::OutOfMemory) => Err(AllocError),
    }
}

/// The members that the standard doesn't name.
fn check_others(alloc: Global, members: &[Member]) -> Result<(), EventFault>
    ensures { Tells (spec.other_faults (members_of members.now)) result }
{
    for member in members {
        if !is_known(&member.name) {
            check_extension(alloc, member)?;
        }
    }
    Ok(())
}

fn check_extension(alloc: Global, member: &Member) -> Result<(), EventFault>
    ensures { Tells (spec.extension_faults member.now.name (spec.unless_null (Some member.now.value))) result }
{
    let kind = match member.value.node() {
        JsonNode::Null => return Ok(()),
        _ if !is_name(&member.name) => FaultKind::BadName,
        value if is_simple(value) => return Ok(()),
        _ => FaultKind::WrongKind,
    };
    let attribute = member.name.copy()?;
    Err(EventFault::Bad { attribute, kind })
}

/// Lower-case letters and digits, at least one.
#[tactic(auto, using(crate::proofs::Texts::not_empty))]
fn is_name(name: &Text) -> bool
    ensures { result ≡ spec.is_name name.now }
{
    !is_word(name, "") && all_name_characters(name.as_str())
}

fn all_name_characters(text: &str) -> bool
    ensures { result ≡ list_all (λ c. is_lower c || is_digit c) (chars text.now) }
{
    text.chars().all(|character| character.is_ascii_lowercase() || character.is_ascii_digit())
}

/// A text, a Boolean or an integer of 32 bits.
fn is_simple(value: &JsonNode) -> bool
    ensures { result ≡ spec.is_simple (node_value value.now) }
{
    match value {
        JsonNode::Text(_) | JsonNode::Bool(_) => true,
        JsonNode::Int(value) => -0x8000_0000 <= *value && *value <= 0x7fff_ffff,
        _ => false,
    }
}

const KNOWN: &[&str] = &[
    "data",
    "data_base64",
    "datacontenttype",
    "dataschema",
    "id",
    "source",
    "specversion",
    "subject",
    "time",
    "type",
];

const APART: &[&str] = &["data", "data_base64", "id", "source", "specversion", "type"];

fn is_known(name: &Text) -> bool
    ensures { result ≡ spec.is_known name.now }
{
    is_one_of(name, KNOWN)
}

/// Whether a member has a place of its own in an event.
pub(crate) fn is_apart(name: &Text) -> bool
    ensures { result ≡ is_apart name.now }
{
    is_one_of(name, APART)
}

fn is_one_of(text: &Text, words: &[&str]) -> bool
    requires { IsTrue (list_all (λ w. is_ascii w.now) words.now) }
    ensures { result ≡ list_any (same text.now) (map (λ w. w.now) words.now) }
{
    for word in words {
        if is_word(text, word) {
            return true;
        }
    }
    false
}
