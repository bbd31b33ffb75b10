// What a call is answered.
ghost use Rattle.std.specs.Prelude.{◌≡◌, IfOk};
ghost use Rattle.swf_value.specs.Value.{no_members, member};
ghost use Rattle.swf_value.specs.Node.{members_of};
ghost use Rattle.swf_calls.specs.Reply.{reply_in, reply_of, reply_value, status_of};

use crate::headers::Headers;
use std::alloc::{AllocError, Global};
use swf_text::is_word;
use swf_value::{Json, JsonNode, Member, member};

/// What a call is answered.
#[derive(Drop)]
pub enum CallReply {
    /// A status from 100 to 599, with what came with it.
    Answer {
        status: u16,
        headers: Headers,
        content: Json,
    },
    /// No answer came.
    Unreached,
}

impl CallReply {
    /// The same reply once more. It copies no value and no text.
    pub fn copy(&self, alloc: Global) -> Result<CallReply, AllocError>
        ensures { IfOk result (λ reply. reply ≡ self.now) }
    {
        match self {
            CallReply::Answer {
                status,
                headers,
                content,
            } => Ok(CallReply::Answer {
                status: *status,
                headers: headers.copy(alloc)?,
                content: content.copy()?,
            }),
            CallReply::Unreached => Ok(CallReply::Unreached),
        }
    }
}

/// The reply that a value is, if it is one.
pub fn read_reply(alloc: Global, value: &Json) -> Result<Option<CallReply>, AllocError>
    ensures { IfOk result (λ r. r ≡ reply_of value.now) }
{
    match value.node() {
        JsonNode::Object(members) => read_members(alloc, members.as_slice()),
        _ => Ok(None),
    }
}

/// The reply that an object's members are.
#[tactic(auto, using(crate::proofs::ReplyLemmas::no_reply))]
fn read_members(alloc: Global, members: &[Member]) -> Result<Option<CallReply>, AllocError>
    ensures { IfOk result (λ r. r ≡ reply_in (members_of members.now)) }
{
    match members {
        [only] => Ok(read_unreached(only)),
        [content, headers, status] => read_answer(alloc, content, headers, status),
        _ => Ok(None),
    }
}

/// The reply that one member is.
fn read_unreached(only: &Member) -> Option<CallReply>
    ensures { result ≡ reply_in (member only.now.name only.now.value no_members) }
{
    if !is_word(&only.name, "unreached") {
        return None;
    }
    match only.value.node() {
        JsonNode::Bool(true) => Some(CallReply::Unreached),
        _ => None,
    }
}

/// The reply that three members are.
fn read_answer(
    alloc: Global,
    content: &Member,
    headers: &Member,
    status: &Member,
) -> Result<Option<CallReply>, AllocError>
    ensures { IfOk result
        (λ r. r ≡ reply_in (member content.now.name content.now.value
        (member headers.now.name headers.now.value (member status.now.name status.now.value no_members)))) }
{
    let named = is_word(&content.name, "content")
        && is_word(&headers.name, "headers")
        && is_word(&status.name, "status");
    if !named {
        return Ok(None);
    }
    let Some(status) = read_status(&status.value) else {
        return Ok(None);
    };
    let Some(headers) = Headers::read(alloc, &headers.value)? else {
        return Ok(None);
    };
    let content = content.value.copy()?;
    Ok(Some(CallReply::Answer {
        status,
        headers,
        content,
    }))
}

/// The status that a value is.
fn read_status(value: &Json) -> Option<u16>
    ensures { result ≡ status_of value.now }
{
    let JsonNode::Int(number) = value.node() else {
        return None;
    };
    let number = *number;
    if 100 <= number && number <= 599 {
        Some(number as u16)
    } else {
        None
    }
}

/// The value of a reply.
pub fn reply_json(alloc: Global, reply: &CallReply) -> Result<Json, AllocError>
    ensures { IfOk result (λ v. v ≡ reply_value reply.now) }
{
    let mut members = Vec::new(alloc);
    match reply {
        CallReply::Answer {
            status,
            headers,
            content,
        } => {
            members.push(member(alloc, "content", content.copy()?)?)?;
            members.push(member(alloc, "headers", headers.json(alloc)?)?)?;
            members.push(member(alloc, "status", Json::int(i64::from(*status)))?)?;
        }
        CallReply::Unreached => {
            members.push(member(alloc, "unreached", Json::boolean(true))?)?;
        }
    }
    Json::object(alloc, members)
}
