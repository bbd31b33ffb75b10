// What all instances wait for, and the events that went out.
ghost use Rattle.std.specs.Prelude.{◌≡◌, ◌++◌, ◌∷◌, [], IfOk, OnOk, IsTrue, codes, drop, map, take, option_to_list, if◌then◌else◌};
ghost use Rattle.swf_text.specs.Same.{is_ascii};
ghost use Rattle.swf_value.specs.Value.{list, member, no_members, object, text};
ghost use Rattle.swf_value.specs.Node.{items_of};
ghost use Rattle.swf_meaning.specs.Pending.{listening, waiting, strand_value, listen_value, timer_value, pending_value, outbox_value};
ghost use Rattle.swf_meaning.specs.Printed.{most_told};
ghost use Rattle.swf_strands.specs.Ways.{listens_at, until_at};

use crate::calls::{call_values, open_calls};
use std::alloc::{AllocError, Global};
use swf_cloudevents::{Event, event_json};
use swf_instances::Instances;
use swf_tasks::Machine;
use swf_text::Strand;
use swf_value::{Json, Member, member};

/// How many events are told at most.
const MOST_TOLD: usize = 100;

/// The greatest number that a value holds.
const GREATEST: u64 = 9_007_199_254_740_991;

/// The calls, the listens and the timers of all instances, in start order.
pub fn pending(alloc: Global, instances: &Instances) -> Result<Json, AllocError>
    ensures { IfOk result (λ v. v ≡ pending_value instances.now.instances) }
{
    let calls = call_values(alloc, &open_calls(alloc, instances)?)?;
    let mut listens = Vec::new(alloc);
    let mut timers = Vec::new(alloc);
    for number in 0..instances.len() {
        push_instance(alloc, &mut listens, &mut timers, instances.at(number))?;
    }
    waits_value(alloc, calls, listens, timers)
}

// The value of these calls, listens and timers.
fn waits_value(
    alloc: Global,
    calls: Vec<Json>,
    listens: Vec<Json>,
    timers: Vec<Json>,
) -> Result<Json, AllocError>
    ensures { IfOk result (λ v. v ≡ object (member (codes "calls") (list (items_of calls.items)) (member (codes "listens") (list (items_of listens.items)) (member (codes "timers") (list (items_of timers.items)) no_members)))) }
{
    let mut members = Vec::new(alloc);
    members.push(list_member(alloc, "calls", calls)?)?;
    members.push(list_member(alloc, "listens", listens)?)?;
    members.push(list_member(alloc, "timers", timers)?)?;
    Json::object(alloc, members)
}

/// The events that went out, from that number on.
pub fn outbox(alloc: Global, events: &[Event], from: u64) -> Result<Json, AllocError>
    ensures { IfOk result (λ v. v ≡ outbox_value events.now from) }
{
    let mut items = Vec::new(alloc);
    for event in told(events, from) {
        items.push(event_json(alloc, event)?)?;
    }
    let mut members = Vec::new(alloc);
    members.push(list_member(alloc, "events", items)?)?;
    Json::object(alloc, members)
}

// The events that are told from a number on.
fn told(events: &[Event], from: u64) -> &[Event]
    ensures { result.now ≡ take most_told (drop from events.now) }
{
    let from = events.len().min(from as usize);
    let end = events.len().min(from + MOST_TOLD);
    &events[from..end]
}

// A member that is a list.
fn list_member(alloc: Global, name: &str, items: Vec<Json>) -> Result<Member, AllocError>
    requires { IsTrue (is_ascii name.now) }
    ensures { IfOk result (λ m. m ≡ record { name = name.now; value = list (items_of items.items) }) }
{
    member(alloc, name, Json::list(alloc, items)?)
}

// Adds what is told of the strands of an instance that listen or wait, ascending.
fn push_instance(
    alloc: Global,
    listens: &mut Vec<Json>,
    timers: &mut Vec<Json>,
    instance: &Machine,
) -> Result<(), AllocError>
    ensures listens { OnOk result (listens.new.items ≡ listens.old.items ++ map (listen_value instance.now) (listening instance.now.node)) }
    ensures timers { OnOk result (timers.new.items ≡ timers.old.items ++ map (timer_value instance.now) (waiting instance.now.node)) }
{
    for strand in instance.strands(alloc)? {
        push_listen(alloc, listens, instance, &strand)?;
        push_timer(alloc, timers, instance, &strand)?;
    }
    Ok(())
}

// Adds what is told of a strand that listens.
fn push_listen(
    alloc: Global,
    listens: &mut Vec<Json>,
    instance: &Machine,
    strand: &Strand,
) -> Result<(), AllocError>
    ensures { OnOk result (listens.new.items ≡ listens.old.items ++ (if listens_at strand.now instance.now.node then listen_value instance.now strand.now ∷ [] else [])) }
{
    if instance.listens(strand) {
        let members = names_of(alloc, instance, strand)?;
        listens.push(Json::object(alloc, members)?)?;
    }
    Ok(())
}

// Adds what is told of a strand that waits for a moment. One above the greatest number that a value holds counts as want of memory.
fn push_timer(
    alloc: Global,
    timers: &mut Vec<Json>,
    instance: &Machine,
    strand: &Strand,
) -> Result<(), AllocError>
    ensures { OnOk result (timers.new.items ≡ timers.old.items ++ map (λ m. timer_value instance.now (strand.now, m)) (option_to_list (until_at strand.now instance.now.node))) }
{
    let Some(until) = instance.until(strand) else {
        return Ok(());
    };
    if until > GREATEST {
        return Err(AllocError);
    }
    let mut members = names_of(alloc, instance, strand)?;
    members.push(member(alloc, "until", Json::int(until as i64))?)?;
    timers.push(Json::object(alloc, members)?)?;
    Ok(())
}

// The members that name a strand of an instance.
fn names_of(alloc: Global, instance: &Machine, strand: &Strand) -> Result<Vec<Member>, AllocError>
    ensures { IfOk result (λ ms. ms.items ≡ record { name = codes "instance"; value = text instance.now.id } ∷ record { name = codes "strand"; value = strand_value strand.now } ∷ []) }
{
    let mut members = Vec::new(alloc);
    members.push(member(alloc, "instance", Json::text(instance.id().copy()?))?)?;
    members.push(strand_member(alloc, strand)?)?;
    Ok(members)
}

// The numbers of a strand's branches.
fn strand_member(alloc: Global, strand: &Strand) -> Result<Member, AllocError>
    ensures { IfOk result (λ m. m ≡ record { name = codes "strand"; value = strand_value strand.now }) }
{
    let mut items = Vec::new(alloc);
    for number in strand.as_slice() {
        items.push(Json::int(*number as i64))?;
    }
    list_member(alloc, "strand", items)
}
