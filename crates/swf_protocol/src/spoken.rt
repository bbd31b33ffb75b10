// Writing a reply as its line.
ghost use Rattle.std.specs.Prelude.{◌≡◌, ◌≤◌, ◌^◌, IsTrue, IfOk, codes};
ghost use Rattle.swf_text.specs.Same.{is_ascii};
ghost use Rattle.swf_value.specs.Value.{IsBefore, text as text_value};
ghost use Rattle.swf_protocol.specs.Spoken.{one, two, ok_with, fault_text, fault_value, faults_value, reply_value, reply_text};
ghost use Rattle.swf_protocol.specs.Sayable.{IsSayable};

use crate::command::LineFault;
use crate::reply::Reply;
use std::alloc::{AllocError, Global};
use swf_cloudevents::{FaultKind, fault_word};
use swf_document::{Fault, Faults};
use swf_duration::Moment;
use swf_text::{Text, pointer_text, word};
use swf_value::{Json, member, write_json};

/// Room for a reply of usual length, in bytes, so that its line seldom grows.
const LINE_ROOM: usize = 256;

/// The value of a word.
fn word_json(alloc: Global, text: &str) -> Result<Json, AllocError>
    requires { IsTrue (is_ascii text.now) }
    ensures { IfOk result (λ v. v ≡ text_value text.now) }
{
    Ok(Json::text(word(alloc, text)?))
}

/// An object of one text.
fn one(alloc: Global, name: &str, text: &str) -> Result<Json, AllocError>
    requires name { IsTrue (is_ascii name.now) }
    requires text { IsTrue (is_ascii text.now) }
    ensures { IfOk result (λ v. v ≡ one name.now text.now) }
{
    let mut members = Vec::new(alloc);
    members.push(member(alloc, name, word_json(alloc, text)?)?)?;
    Json::object(alloc, members)
}

/// An object of a text and another value.
fn two(alloc: Global, name: &str, text: &str, other: &str, value: Json) -> Result<Json, AllocError>
    requires name { IsTrue (is_ascii name.now) }
    requires text { IsTrue (is_ascii text.now) }
    requires other { IsTrue (is_ascii other.now) }
    requires order { IsBefore name.now other.now }
    ensures { IfOk result (λ v. v ≡ two name.now text.now other.now value) }
{
    let mut members = Vec::new(alloc);
    members.push(member(alloc, name, word_json(alloc, text)?)?)?;
    members.push(member(alloc, other, value)?)?;
    Json::object(alloc, members)
}

/// An `ok` with a number.
fn ok_with(alloc: Global, text: &str, name: &str, number: u64) -> Result<Json, AllocError>
    requires text { IsTrue (is_ascii text.now) }
    requires name { IsTrue (is_ascii name.now) }
    requires order { IsBefore (codes "ok") name.now }
    requires small { number ≤ 2 ^ 40 }
    ensures { IfOk result (λ v. v ≡ ok_with text.now name.now number) }
{
    two(alloc, "ok", text, name, Json::int(number as i64))
}

fn accepted(alloc: Global, place: u64, taken: u32) -> Result<Json, AllocError>
    requires { place ≤ 2 ^ 40 }
    ensures { IfOk result (λ v. v ≡ reply_value (Reply.Accepted place taken)) }
{
    let mut members = Vec::new(alloc);
    members.push(member(alloc, "ok", word_json(alloc, "accepted")?)?)?;
    members.push(member(alloc, "place", Json::int(place as i64))?)?;
    members.push(member(alloc, "taken", Json::int(i64::from(taken)))?)?;
    Json::object(alloc, members)
}

fn fault_text(fault: LineFault) -> &'static str
    ensures text { result.now ≡ fault_text fault }
    ensures ascii { IsTrue (is_ascii result.now) }
{
    match fault {
        LineFault::Command => "command",
        LineFault::Word => "word",
        LineFault::Number => "number",
        LineFault::NotJson => "not-json",
        LineFault::TooDeep => "too-deep",
        LineFault::NotWhole => "not-whole",
        LineFault::Reply => "reply",
    }
}

fn bad_line(alloc: Global, fault: LineFault) -> Result<Json, AllocError>
    ensures { IfOk result (λ v. v ≡ reply_value (Reply.BadLine fault)) }
{
    let text = word_json(alloc, fault_text(fault))?;
    two(alloc, "error", "bad-line", "fault", text)
}

fn bad_event(alloc: Global, attribute: &Text, kind: FaultKind) -> Result<Json, AllocError>
    ensures { IfOk result (λ v. v ≡ reply_value (Reply.BadEvent attribute.now kind)) }
{
    let attribute = Json::text(attribute.copy()?);
    let mut members = Vec::new(alloc);
    members.push(member(alloc, "attribute", attribute)?)?;
    members.push(member(alloc, "error", word_json(alloc, "bad-event")?)?)?;
    members.push(member(alloc, "kind", word_json(alloc, fault_word(kind))?)?)?;
    Json::object(alloc, members)
}

/// The value of a fault: its kind, and its place as a JSON Pointer.
fn fault_json(alloc: Global, fault: &Fault) -> Result<Json, AllocError>
    ensures { IfOk result (λ v. v ≡ fault_value fault.now) }
{
    let place = Json::text(pointer_text(alloc, &fault.place)?);
    two(alloc, "kind", fault.kind.word(), "place", place)
}

fn faults_json(alloc: Global, faults: &[Fault]) -> Result<Json, AllocError>
    ensures { IfOk result (λ v. v ≡ faults_value faults.now) }
{
    let mut items = Vec::new(alloc);
    for fault in faults {
        items.push(fault_json(alloc, fault)?)?;
    }
    Json::list(alloc, items)
}

/// The value of a refusal with its faults.
fn refused(alloc: Global, faults: &Faults) -> Result<Json, AllocError>
    ensures { IfOk result (λ v. v ≡ reply_value (Reply.Refused faults.now)) }
{
    let faults = faults_json(alloc, faults.as_slice())?;
    two(alloc, "error", "refused", "faults", faults)
}

fn duplicate(alloc: Global, place: u64) -> Result<Json, AllocError>
    requires { place ≤ 2 ^ 40 }
    ensures { IfOk result (λ v. v ≡ reply_value (Reply.Duplicate place)) }
{
    let place = Json::int(place as i64);
    two(alloc, "error", "duplicate", "place", place)
}

fn past(alloc: Global, now: Moment) -> Result<Json, AllocError>
    ensures { IfOk result (λ v. v ≡ reply_value (Reply.Past now)) }
{
    let now = Json::int(now.milliseconds() as i64);
    two(alloc, "error", "past", "now", now)
}

/// The value that a reply's line is of. It copies no value that is in the reply.
fn reply_json(alloc: Global, reply: &Reply) -> Result<Json, AllocError>
    requires { IsSayable reply.now }
    ensures { IfOk result (λ v. v ≡ reply_value reply.now) }
{
    match reply {
        Reply::Loaded(place) => ok_with(alloc, "loaded", "place", *place),
        Reply::Started(place) => ok_with(alloc, "started", "place", *place),
        Reply::Accepted { place, taken } => accepted(alloc, *place, *taken),
        Reply::Replied(place) => ok_with(alloc, "replied", "place", *place),
        Reply::Reached(place) => ok_with(alloc, "moment", "place", *place),
        Reply::Quiet(steps) => ok_with(alloc, "quiet", "steps", *steps),
        Reply::Budget(steps) => ok_with(alloc, "budget", "steps", *steps),
        Reply::Report(value)
        | Reply::Pending(value)
        | Reply::Outbox(value)
        | Reply::History(value) => value.copy(),
        Reply::Quit => one(alloc, "ok", "quit"),
        Reply::BadLine(fault) => bad_line(alloc, *fault),
        Reply::BadEvent { attribute, kind } => bad_event(alloc, attribute, *kind),
        Reply::TooLong => one(alloc, "error", "too-long"),
        Reply::Refused(faults) => refused(alloc, faults),
        Reply::Duplicate(place) => duplicate(alloc, *place),
        Reply::UnknownDocument => one(alloc, "error", "unknown-document"),
        Reply::UnknownInstance => one(alloc, "error", "unknown-instance"),
        Reply::Stale => one(alloc, "error", "stale"),
        Reply::Past(now) => past(alloc, *now),
        Reply::Full => one(alloc, "error", "full"),
        Reply::Memory => one(alloc, "error", "memory"),
    }
}

/// The line of a reply, without its newline.
pub fn reply_bytes(alloc: Global, reply: &Reply) -> Result<Vec<u8>, AllocError>
    requires { IsSayable reply.now }
    ensures { IfOk result (λ bytes. bytes.items ≡ reply_text reply.now) }
{
    let value = reply_json(alloc, reply)?;
    let mut line = Vec::with_capacity(alloc, LINE_ROOM)?;
    write_json(&value, &mut line)?;
    Ok(line)
}
