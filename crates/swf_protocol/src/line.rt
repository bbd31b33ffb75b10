// Reading a line as a command.
ghost use Rattle.std.specs.Prelude.{◌≡◌, ◌≢◌, ◌≤◌, [], ◌∷◌, Err, IfOk, false, chars};
ghost use Rattle.swf_protocol.specs.Line.{bad, load_with, start_line, start_with, key_of, event_with, reply_line, reply_with, moment_line, settle_line, status_line, outbox_line, history_line, spelled, command_of, is_quit};
ghost use Rattle.swf_protocol.specs.Reading.{Reads, fault_of, value_in};
ghost use Rattle.swf_protocol.specs.Sayable.{IsModest};
ghost use Rattle.swf_protocol.specs.Spelled.{IsSaid, IsSpeakable, IsWord};
ghost use Rattle.swf_protocol.specs.Words.{words_of};

use crate::command::{Command, CommandFault, LineFault};
use crate::number::{budget_of, moment_in, number_of};
use crate::verb::{Verb, verb_of};
use crate::words::{cut, is_id, only_word};
use std::alloc::{AllocError, Global};
use swf_calls::read_reply;
use swf_cloudevents::{EventFault, read_event};
use swf_document::DocKey;
use swf_meaning::{Outcome, Query};
use swf_text::Text;
use swf_value::{Json, ValueFault, read_json_within};

/// How deep the value of a line may nest.
const DEPTH: u32 = 64;

/// How deep the value of a reply may nest, whose content is one level down.
const REPLY_DEPTH: u32 = 65;

fn bad(fault: LineFault) -> Result<Command, CommandFault>
    ensures { result ≡ bad fault }
{
    Err(CommandFault::BadLine(fault))
}

fn fault_of(fault: ValueFault) -> CommandFault
    ensures { result ≡ fault_of fault }
{
    match fault {
        ValueFault::NotJson => CommandFault::BadLine(LineFault::NotJson),
        ValueFault::TooDeep => CommandFault::BadLine(LineFault::TooDeep),
        ValueFault::NotWhole => CommandFault::BadLine(LineFault::NotWhole),
        ValueFault::OutOfMemory => CommandFault::OutOfMemory,
    }
}

/// The value that a text is.
fn read_value(alloc: Global, json: &str, depth: u32) -> Result<Json, CommandFault>
    requires { depth ≤ 127 }
    ensures reads { Reads result (value_in depth json.now) }
    ensures said { IfOk result (IsSaid depth) }
{
    match read_json_within(alloc, json.as_bytes(), depth) {
        Ok(value) => Ok(value),
        Err(fault) => Err(fault_of(fault)),
    }
}

/// `load JSON`, behind its word.
fn read_load(alloc: Global, json: &str) -> Result<Command, CommandFault>
    ensures reads { Reads result (load_with json.now) }
    ensures speakable { IfOk result IsSpeakable }
{
    let value = read_value(alloc, json, DEPTH)?;
    Ok(Command::Do(Outcome::Load(value)))
}

fn make_key(alloc: Global, namespace: &str, name: &str, version: &str) -> Result<DocKey, AllocError>
    ensures { IfOk result (λ k. k ≡ key_of namespace.now name.now version.now) }
{
    let namespace = Text::copy_of(alloc, namespace)?;
    let name = Text::copy_of(alloc, name)?;
    let version = Text::copy_of(alloc, version)?;
    Ok(DocKey {
        namespace,
        name,
        version,
    })
}

/// A start whose words have been told apart.
fn start_with(alloc: Global, id: &str, key: DocKey, json: &str) -> Result<Command, CommandFault>
    requires namespace { IsWord key.namespace }
    requires name { IsWord key.name }
    requires version { IsWord key.version }
    ensures reads { Reads result (start_with id.now key json.now) }
    ensures speakable { IfOk result IsSpeakable }
{
    if !is_id(id.as_bytes()) {
        return bad(LineFault::Word);
    }
    let input = read_value(alloc, json, DEPTH)?;
    let id = Text::copy_of(alloc, id)?;
    Ok(Command::Do(Outcome::Start { id, key, input }))
}

/// `start ID NAMESPACE NAME VERSION JSON`, behind its word.
fn read_start(alloc: Global, rest: &str) -> Result<Command, CommandFault>
    ensures reads { Reads result (start_line (words_of rest.now)) }
    ensures speakable { IfOk result IsSpeakable }
{
    let Some((id, rest)) = cut(rest) else {
        return bad(LineFault::Command);
    };
    let Some((namespace, rest)) = cut(rest) else {
        return bad(LineFault::Command);
    };
    let Some((name, rest)) = cut(rest) else {
        return bad(LineFault::Command);
    };
    let Some((version, json)) = cut(rest) else {
        return bad(LineFault::Command);
    };
    let key = make_key(alloc, namespace, name, version)?;
    start_with(alloc, id, key, json)
}

/// `event JSON`, behind its word.
fn read_told(alloc: Global, json: &str) -> Result<Command, CommandFault>
    ensures reads { Reads result (event_with json.now) }
    ensures speakable { IfOk result IsSpeakable }
{
    let value = read_value(alloc, json, DEPTH)?;
    match read_event(alloc, &value) {
        Ok(event) => Ok(Command::Do(Outcome::Event(event))),
        Err(EventFault::Bad { attribute, kind }) => Err(CommandFault::BadEvent { attribute, kind }),
        Err(EventFault::OutOfMemory) => Err(CommandFault::OutOfMemory),
    }
}

/// A reply whose words have been told apart.
fn reply_with(alloc: Global, activity: &str, json: &str) -> Result<Command, CommandFault>
    requires { IsWord (chars activity.now) }
    ensures reads { Reads result (reply_with activity.now json.now) }
    ensures speakable { IfOk result IsSpeakable }
{
    let value = read_value(alloc, json, REPLY_DEPTH)?;
    let Some(reply) = read_reply(alloc, &value)? else {
        return bad(LineFault::Reply);
    };
    let activity = Text::copy_of(alloc, activity)?;
    Ok(Command::Do(Outcome::Reply { activity, reply }))
}

/// `reply ACTIVITY JSON`, behind its word.
fn read_replied(alloc: Global, rest: &str) -> Result<Command, CommandFault>
    ensures reads { Reads result (reply_line (words_of rest.now)) }
    ensures speakable { IfOk result IsSpeakable }
{
    match cut(rest) {
        Some((activity, json)) => reply_with(alloc, activity, json),
        None => bad(LineFault::Command),
    }
}

/// `moment T`, behind its word.
fn read_moment(rest: &str) -> Result<Command, CommandFault>
    ensures reads { Reads result (moment_line (words_of rest.now)) }
    ensures speakable { IfOk result IsSpeakable }
{
    let Some(word) = only_word(rest) else {
        return bad(LineFault::Command);
    };
    match moment_in(word.as_bytes()) {
        Some(moment) => Ok(Command::Do(Outcome::Moment(moment))),
        None => bad(LineFault::Number),
    }
}

/// `settle N`, behind its word.
fn read_settle(rest: &str) -> Result<Command, CommandFault>
    ensures reads { Reads result (settle_line (words_of rest.now)) }
    ensures speakable { IfOk result IsSpeakable }
{
    let Some(word) = only_word(rest) else {
        return bad(LineFault::Command);
    };
    match budget_of(word.as_bytes()) {
        Some(limit) => Ok(Command::Settle(Some(limit))),
        None => bad(LineFault::Number),
    }
}

/// `status ID`, behind its word.
fn read_status(alloc: Global, rest: &str) -> Result<Command, CommandFault>
    ensures reads { Reads result (status_line (words_of rest.now)) }
    ensures speakable { IfOk result IsSpeakable }
{
    let Some(word) = only_word(rest) else {
        return bad(LineFault::Command);
    };
    if !is_id(word.as_bytes()) {
        return bad(LineFault::Word);
    }
    let id = Text::copy_of(alloc, word)?;
    Ok(Command::Ask(Query::Status(id)))
}

/// `outbox N`, behind its word.
fn read_outbox(rest: &str) -> Result<Command, CommandFault>
    ensures reads { Reads result (outbox_line (words_of rest.now)) }
    ensures speakable { IfOk result IsSpeakable }
{
    let Some(word) = only_word(rest) else {
        return bad(LineFault::Command);
    };
    match number_of(word.as_bytes()) {
        Some(number) => Ok(Command::Ask(Query::Outbox(number))),
        None => bad(LineFault::Number),
    }
}

/// `history N`, behind its word.
fn read_history(rest: &str) -> Result<Command, CommandFault>
    ensures reads { Reads result (history_line (words_of rest.now)) }
    ensures speakable { IfOk result IsSpeakable }
{
    let Some(word) = only_word(rest) else {
        return bad(LineFault::Command);
    };
    match number_of(word.as_bytes()) {
        Some(place) => Ok(Command::Ask(Query::History(place))),
        None => bad(LineFault::Number),
    }
}

/// A line of more than one word.
fn read_more(alloc: Global, word: &str, rest: &str) -> Result<Command, CommandFault>
    ensures reads { Reads result (spelled (word.now ∷ words_of rest.now)) }
    ensures speakable { IfOk result IsSpeakable }
{
    let Some(verb) = verb_of(word) else {
        return bad(LineFault::Command);
    };
    match verb {
        Verb::Load => read_load(alloc, rest),
        Verb::Start => read_start(alloc, rest),
        Verb::Event => read_told(alloc, rest),
        Verb::Reply => read_replied(alloc, rest),
        Verb::Moment => read_moment(rest),
        Verb::Settle => read_settle(rest),
        Verb::Status => read_status(alloc, rest),
        Verb::Outbox => read_outbox(rest),
        Verb::History => read_history(rest),
        Verb::Pending | Verb::Quit => bad(LineFault::Command),
    }
}

/// A line of one word.
fn read_alone(word: &str) -> Result<Command, CommandFault>
    ensures reads { result ≡ spelled (word.now ∷ []) }
    ensures speakable { IfOk result IsSpeakable }
    ensures memory { result ≢ Err CommandFault.OutOfMemory }
{
    match verb_of(word) {
        Some(Verb::Settle) => Ok(Command::Settle(None)),
        Some(Verb::Pending) => Ok(Command::Ask(Query::Pending)),
        Some(Verb::Quit) => Ok(Command::Quit),
        _ => bad(LineFault::Command),
    }
}

/// Reads a line as a command, or says its first fault from the left. `quit` needs no memory.
pub fn read_command(alloc: Global, line: &[u8]) -> Result<Command, CommandFault>
    ensures reads { Reads result (command_of line.now) }
    ensures modest { IfOk result IsModest }
    ensures speakable { IfOk result IsSpeakable }
    ensures memory { result ≡ Err CommandFault.OutOfMemory → is_quit (command_of line.now) ≡ false }
{
    let Ok(text) = str::from_utf8(line) else {
        return bad(LineFault::Command);
    };
    match cut(text) {
        Some((word, rest)) => read_more(alloc, word, rest),
        None => read_alone(text),
    }
}
