// By what an outcome is known, so that none acts twice.
ghost use Rattle.std.specs.Prelude.{◌≡◌, IfOk, chars, unwrap_or, option_map};
ghost use Rattle.swf_reader.specs.Parts.{text_in, part};
ghost use Rattle.swf_value.specs.Value.{null};
ghost use Rattle.swf_runs.specs.Keys.{doc_key};
ghost use Rattle.swf_runs.specs.Outcomes.{outcome_key};

use std::alloc::{AllocError, Global};
use swf_document::DocKey;
use swf_meaning::{Key, Outcome};
use swf_text::{Text, word};
use swf_value::{Json, JsonNode};

// The text of a member; the empty one where there is none.
fn text_at(alloc: Global, value: Option<&Json>, name: &str) -> Result<Text, AllocError>
    ensures { IfOk result (λ t. t ≡ text_in (part (chars name.now) (unwrap_or (option_map (λ v. v.now) value.entry) null))) }
{
    let Some(value) = value else {
        return word(alloc, "");
    };
    let Some(member) = value.member(name) else {
        return word(alloc, "");
    };
    match member.node() {
        JsonNode::Text(text) => text.copy(),
        _ => word(alloc, ""),
    }
}

// The key that a document's value gives.
fn document_key(alloc: Global, value: &Json) -> Result<DocKey, AllocError>
    ensures { IfOk result (λ k. k ≡ doc_key value.now) }
{
    let head = value.member("document");
    Ok(DocKey {
        namespace: text_at(alloc, head, "namespace")?,
        name: text_at(alloc, head, "name")?,
        version: text_at(alloc, head, "version")?,
    })
}

/// By what an outcome is known.
pub fn key_of(alloc: Global, outcome: &Outcome) -> Result<Key, AllocError>
    ensures { IfOk result (λ k. k ≡ outcome_key outcome.now) }
{
    match outcome {
        Outcome::Load(value) => Ok(Key::Document(document_key(alloc, value)?)),
        Outcome::Start { id, .. } => Ok(Key::Instance(id.copy()?)),
        Outcome::Event(event) => Ok(Key::Event(event.source.copy()?, event.id.copy()?)),
        Outcome::Reply { activity, .. } => Ok(Key::Activity(activity.copy()?)),
        Outcome::Moment(moment) => Ok(Key::Moment(moment.milliseconds())),
    }
}
