// Rows on keys: by what an outcome is known.
use crate::labels;
use std::alloc::{AllocError, Global};
use std::io;
use swf_meaning::{Key, Label, Outcome};
use swf_runs::key_of;
use swf_test_tables::{no_meaning, split};

// What is handed in for a label; a step is not.
fn outcome_of(label: Label) -> io::Result<Outcome> {
    match label {
        Label::Load(value) => Ok(Outcome::Load(value)),
        Label::Start { id, key, input } => Ok(Outcome::Start { id, key, input }),
        Label::Event(event) => Ok(Outcome::Event(event)),
        Label::Reply { activity, reply } => Ok(Outcome::Reply { activity, reply }),
        Label::Moment(moment) => Ok(Outcome::Moment(moment)),
        Label::Step { .. } => Err(no_meaning()),
    }
}

// A key in words.
fn words(alloc: Global, key: &Key) -> Result<String, AllocError> {
    match key {
        Key::Document(key) => {
            let (namespace, name, version) = (
                key.namespace.as_str(),
                key.name.as_str(),
                key.version.as_str(),
            );
            format!(in alloc; "document {namespace} {name} {version}")
        }
        Key::Instance(id) => format!(in alloc; "instance {}", id.as_str()),
        Key::Event(source, id) => { format!(in alloc; "event {} {}", source.as_str(), id.as_str()) }
        Key::Activity(activity) => format!(in alloc; "activity {}", activity.as_str()),
        Key::Moment(moment) => format!(in alloc; "moment {moment}"),
    }
}

/// What comes of a row: the key of the outcome of a label.
pub(crate) fn told(alloc: Global, rest: &str) -> io::Result<String> {
    let (word, rest) = split(rest)?;
    let outcome = outcome_of(labels::label_of(alloc, word, rest)?)?;
    let key = key_of(alloc, &outcome)?;
    Ok(words(alloc, &key)?)
}
