// Rows on labels: their bytes, and what is read in bytes.
ghost use Rattle.std.specs.Prelude.{◌≤◌, IfOk};
ghost use Rattle.swf_value.specs.Value.{IsValue, depth};
ghost use Rattle.swf_record.specs.Encodes.{Nests};

use crate::values::{lists_round, text_of};
use std::alloc::{AllocError, Global};
use std::io;
use swf_calls::{CallReply, read_reply, reply_json};
use swf_cloudevents::{Event, event_json, read_event};
use swf_document::DocKey;
use swf_duration::Moment;
use swf_meaning::Label;
use swf_record::{RecordFault, decode_labels, encode_labels};
use swf_test_tables::{bytes_of, no_meaning, number_of, split};
use swf_text::{Strand, Text};
use swf_value::{Json, depth, read_json, read_json_within};

/// What comes of a row on labels.
pub(crate) fn told(alloc: Global, word: &str, rest: &str) -> io::Result<String> {
    match word {
        "again" => again(alloc, &bytes_of(alloc, rest)?),
        "decode" => Ok(decoded(alloc, &bytes_of(alloc, rest)?)?),
        "levels" => levels(alloc, number_of(rest)?),
        _ => spelled(alloc, label_of(alloc, word, rest)?),
    }
}

/// The label of a row.
pub(crate) fn label_of(alloc: Global, word: &str, rest: &str) -> io::Result<Label>
    ensures { IfOk result Nests }
{
    match word {
        "load" => Ok(Label::Load(value_of(alloc, rest)?)),
        "start" => start(alloc, rest),
        "event" => event(alloc, rest),
        "reply" => reply(alloc, rest),
        "moment" => moment(rest),
        "step" => step(alloc, rest),
        _ => Err(no_meaning()),
    }
}

/// The bytes of one label, told in hex.
fn spelled(alloc: Global, label: Label) -> io::Result<String>
    requires { Nests label }
{
    let labels = [label];
    let bytes = encode_labels(alloc, &labels)?;
    Ok(hex::encode(alloc, bytes.as_slice())?)
}

fn value_of(alloc: Global, text: &str) -> io::Result<Json>
    ensures value { IfOk result IsValue }
    ensures shallow { IfOk result (λ v. depth v ≤ 64) }
{
    match read_json(alloc, text.as_bytes()) {
        Ok(value) => Ok(value),
        Err(_) => Err(no_meaning()),
    }
}

/// The label of a start: an id, the namespace, the name and the version of a document, and an input.
fn start(alloc: Global, row: &str) -> io::Result<Label>
    ensures { IfOk result Nests }
{
    let (id, rest) = split(row)?;
    let (namespace, rest) = split(rest)?;
    let (name, rest) = split(rest)?;
    let (version, input) = split(rest)?;
    let key = DocKey {
        namespace: Text::copy_of(alloc, namespace)?,
        name: Text::copy_of(alloc, name)?,
        version: Text::copy_of(alloc, version)?,
    };
    let id = Text::copy_of(alloc, id)?;
    let input = value_of(alloc, input)?;
    Ok(Label::Start { id, key, input })
}

/// The label of an event.
fn event(alloc: Global, row: &str) -> io::Result<Label>
    ensures { IfOk result Nests }
{
    let value = value_of(alloc, row)?;
    match read_event(alloc, &value) {
        Ok(event) => Ok(Label::Event(event)),
        Err(_) => Err(no_meaning()),
    }
}

/// The label of an answer to a call: its activity, and what was answered.
fn reply(alloc: Global, row: &str) -> io::Result<Label>
    ensures { IfOk result Nests }
{
    let (activity, text) = split(row)?;
    let Ok(value) = read_json_within(alloc, text.as_bytes(), 65) else {
        return Err(no_meaning());
    };
    let Some(reply) = read_reply(alloc, &value)? else {
        return Err(no_meaning());
    };
    let activity = Text::copy_of(alloc, activity)?;
    Ok(Label::Reply { activity, reply })
}

/// The label of a moment, in milliseconds.
fn moment(row: &str) -> io::Result<Label>
    ensures { IfOk result Nests }
{
    match row.parse::<u64>() {
        Ok(milliseconds) if milliseconds <= Moment::LAST => {
            Ok(Label::Moment(Moment::new(milliseconds)))
        }
        _ => Err(no_meaning()),
    }
}

/// The label of a step: an id, and the branches of a strand, which have commas between them.
fn step(alloc: Global, row: &str) -> io::Result<Label>
    ensures { IfOk result Nests }
{
    let (id, branches) = row.split_once(' ').unwrap_or((row, ""));
    let mut strand = Vec::new(alloc);
    for branch in branches.split(',') {
        if let Ok(branch) = branch.parse::<u16>() {
            strand.push(branch)?;
        }
    }
    let id = Text::copy_of(alloc, id)?;
    let strand = Strand::of(strand);
    Ok(Label::Step { id, strand })
}

/// Whether some bytes are those of the labels that are read in them.
fn again(alloc: Global, bytes: &[u8]) -> io::Result<String> {
    let Ok(labels) = decode_labels(alloc, bytes) else {
        return Err(no_meaning());
    };
    let written = encode_labels(alloc, labels.as_slice())?;
    let is_again = written.as_slice() == bytes;
    Ok(format!(in alloc; "{is_again}")?)
}

/// An event as a history tells it.
fn event_words(alloc: Global, event: &Event) -> Result<String, AllocError> {
    let value = event_json(alloc, event)?;
    let event = text_of(alloc, &value)?;
    format!(in alloc; "{{\"event\":{event},\"label\":\"event\"}}")
}

/// An answer to a call as a history tells it.
fn reply_words(alloc: Global, activity: &Text, reply: &CallReply) -> Result<String, AllocError> {
    let activity = text_of(alloc, &Json::text(activity.copy()?))?;
    let value = reply_json(alloc, reply)?;
    let reply = text_of(alloc, &value)?;
    format!(in alloc; "{{\"activity\":{activity},\"label\":\"reply\",\"reply\":{reply}}}")
}

/// A label in words: of a load the depth of its document, of a moment its milliseconds, of a start and a step the id. An event
/// and a reply are told whole.
fn words(alloc: Global, label: &Label) -> Result<String, AllocError> {
    match label {
        Label::Load(document) => format!(in alloc; "load {}", depth(document)),
        Label::Start { id, .. } => format!(in alloc; "start {}", id.as_str()),
        Label::Event(event) => event_words(alloc, event),
        Label::Reply { activity, reply } => reply_words(alloc, activity, reply),
        Label::Moment(moment) => format!(in alloc; "moment {}", moment.milliseconds()),
        Label::Step { id, .. } => format!(in alloc; "step {}", id.as_str()),
    }
}

/// The labels that are read in some bytes, or the place at which they are bad.
fn decoded(alloc: Global, bytes: &[u8]) -> Result<String, AllocError> {
    let labels = match decode_labels(alloc, bytes) {
        Ok(labels) => labels,
        Err(RecordFault::Bad { at }) => return format!(in alloc; "bad at {at}"),
        Err(RecordFault::OutOfMemory) => return Err(AllocError),
    };
    let mut all = String::new(alloc);
    for label in labels.as_slice() {
        let label = words(alloc, label)?;
        all.push_str(label.as_str())?;
        all.push_str(";")?;
    }
    Ok(all)
}

/// Reads the load of so many lists in one another.
fn levels(alloc: Global, levels: u64) -> io::Result<String> {
    let text = lists_round(alloc, levels, "")?;
    let Ok(length) = u32::try_from(text.len()) else {
        return Err(no_meaning());
    };
    let mut bytes = Vec::new(alloc);
    bytes.extend_from_slice(b"\0\0\0\x01\x01")?;
    bytes.extend_from_slice(&length.to_be_bytes())?;
    bytes.extend_from_slice(&text)?;
    Ok(decoded(alloc, &bytes)?)
}
