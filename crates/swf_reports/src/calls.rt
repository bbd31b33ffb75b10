// The calls that await an answer.
ghost use Rattle.std.specs.Prelude.{◌≡◌, IfOk, flat_map, map};
ghost use Rattle.swf_meaning.specs.Pending.{call_value, open_calls};

use std::alloc::{AllocError, Global};
use swf_calls::{CallRequest, request_json};
use swf_instances::Instances;
use swf_text::Text;
use swf_value::{Json, member};

/// The calls of all instances that await an answer, each with its activity: in start order, then by strand.
pub fn open_calls(
    alloc: Global,
    instances: &Instances,
) -> Result<Vec<(Text, CallRequest)>, AllocError>
    ensures { IfOk result (λ calls. calls.items ≡ flat_map (λ i. open_calls i.node) instances.now.instances) }
{
    let mut calls = Vec::new(alloc);
    for number in 0..instances.len() {
        let mut more = instances.at(number).open_activities(alloc)?;
        calls.append(&mut more)?;
    }
    Ok(calls)
}

/// The values of calls.
pub(crate) fn call_values(
    alloc: Global,
    calls: &[(Text, CallRequest)],
) -> Result<Vec<Json>, AllocError>
    ensures { IfOk result (λ values. values.items ≡ map call_value calls.now) }
{
    let mut values = Vec::new(alloc);
    for call in calls {
        values.push(call_json(alloc, call)?)?;
    }
    Ok(values)
}

// The value of a call.
fn call_json(alloc: Global, call: &(Text, CallRequest)) -> Result<Json, AllocError>
    ensures { IfOk result (λ v. v ≡ call_value call.now) }
{
    let (activity, request) = call;
    let mut members = Vec::new(alloc);
    members.push(member(alloc, "activity", Json::text(activity.copy()?))?)?;
    members.push(member(alloc, "request", request_json(alloc, request)?)?)?;
    Json::object(alloc, members)
}
