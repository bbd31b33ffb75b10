// How labels print.
ghost use Rattle.std.specs.Prelude.{◌≡◌, ◌∷◌, IsTrue, IfOk, codes, map, pos};
ghost use Rattle.swf_value.specs.Value.{int, text, list};
ghost use Rattle.swf_value.specs.Node.{items_of};
ghost use Rattle.swf_text.specs.Same.{is_ascii};
ghost use Rattle.swf_meaning.specs.Printed.{key_text, printed};

use std::alloc::{AllocError, Global};
use swf_calls::{CallReply, reply_json};
use swf_cloudevents::{Event, event_json};
use swf_document::DocKey;
use swf_duration::Moment;
use swf_meaning::Label;
use swf_text::{Strand, Text, TextBuilder, word};
use swf_value::{Json, Member, member};

// Namespace, name and version, with a `/` between them.
fn key_text(alloc: Global, key: &DocKey) -> Result<Text, AllocError>
    ensures { IfOk result (λ t. t ≡ key_text key.now) }
{
    let mut text = TextBuilder::new(alloc);
    text.push_text(&key.namespace)?;
    text.push_ascii("/")?;
    text.push_text(&key.name)?;
    text.push_ascii("/")?;
    text.push_text(&key.version)?;
    text.into_text(alloc)
}

fn label_member(alloc: Global, kind: &str) -> Result<Member, AllocError>
    requires { IsTrue (is_ascii kind.now) }
    ensures { IfOk result (λ m. m ≡ record { name = codes "label"; value = text kind.now }) }
{
    member(alloc, "label", Json::text(word(alloc, kind)?))
}

fn print_load(alloc: Global, document: &Json) -> Result<Json, AllocError>
    ensures { IfOk result (λ v. v ≡ printed (Label.Load document.now)) }
{
    let mut members = Vec::new(alloc);
    members.push(member(alloc, "document", document.copy()?)?)?;
    members.push(label_member(alloc, "load")?)?;
    Json::object(alloc, members)
}

fn print_start(alloc: Global, id: &Text, key: &DocKey, input: &Json) -> Result<Json, AllocError>
    ensures { IfOk result (λ v. v ≡ printed (Label.Start id.now key.now input.now)) }
{
    let document = Json::text(key_text(alloc, key)?);
    let mut members = Vec::new(alloc);
    members.push(member(alloc, "document", document)?)?;
    members.push(member(alloc, "id", Json::text(id.copy()?))?)?;
    members.push(member(alloc, "input", input.copy()?)?)?;
    members.push(label_member(alloc, "start")?)?;
    Json::object(alloc, members)
}

fn print_event(alloc: Global, event: &Event) -> Result<Json, AllocError>
    ensures { IfOk result (λ v. v ≡ printed (Label.Event event.now)) }
{
    let mut members = Vec::new(alloc);
    members.push(member(alloc, "event", event_json(alloc, event)?)?)?;
    members.push(label_member(alloc, "event")?)?;
    Json::object(alloc, members)
}

fn print_reply(alloc: Global, activity: &Text, reply: &CallReply) -> Result<Json, AllocError>
    ensures { IfOk result (λ v. v ≡ printed (Label.Reply activity.now reply.now)) }
{
    let mut members = Vec::new(alloc);
    members.push(member(alloc, "activity", Json::text(activity.copy()?))?)?;
    members.push(label_member(alloc, "reply")?)?;
    members.push(member(alloc, "reply", reply_json(alloc, reply)?)?)?;
    Json::object(alloc, members)
}

// A moment is at most 4,503,599,627,370,495.
fn print_moment(alloc: Global, moment: Moment) -> Result<Json, AllocError>
    ensures { IfOk result (λ v. v ≡ printed (Label.Moment moment)) }
{
    let mut members = Vec::new(alloc);
    members.push(label_member(alloc, "moment")?)?;
    let number = Json::int(moment.milliseconds() as i64);
    members.push(member(alloc, "moment", number)?)?;
    Json::object(alloc, members)
}

fn print_strand(alloc: Global, strand: &Strand) -> Result<Json, AllocError>
    ensures { IfOk result (λ v. v ≡ list (items_of (map (λ n. int (pos n)) strand.now))) }
{
    let mut items = Vec::new(alloc);
    for number in strand.as_slice() {
        items.push(Json::int(i64::from(*number)))?;
    }
    Json::list(alloc, items)
}

fn print_step(alloc: Global, id: &Text, strand: &Strand) -> Result<Json, AllocError>
    ensures { IfOk result (λ v. v ≡ printed (Label.Step id.now strand.now)) }
{
    let mut members = Vec::new(alloc);
    members.push(member(alloc, "id", Json::text(id.copy()?))?)?;
    members.push(label_member(alloc, "step")?)?;
    members.push(member(alloc, "strand", print_strand(alloc, strand)?)?)?;
    Json::object(alloc, members)
}

/// A label as it prints.
pub fn print_label(alloc: Global, label: &Label) -> Result<Json, AllocError>
    ensures { IfOk result (λ v. v ≡ printed label.now) }
{
    match label {
        Label::Load(document) => print_load(alloc, document),
        Label::Start { id, key, input } => print_start(alloc, id, key, input),
        Label::Event(event) => print_event(alloc, event),
        Label::Reply { activity, reply } => print_reply(alloc, activity, reply),
        Label::Moment(moment) => print_moment(alloc, *moment),
        Label::Step { id, strand } => print_step(alloc, id, strand),
    }
}
