// What is reported of an instance.
ghost use Rattle.std.specs.Prelude.{◌≡◌, codes, IsTrue, IfOk};
ghost use Rattle.swf_value.specs.Value.{member};
ghost use Rattle.swf_value.specs.Node.{members_of};
ghost use Rattle.swf_text.specs.Same.{is_ascii};
ghost use Rattle.swf_meaning.specs.Answer.{report, status_of, with_error, with_output};

use std::alloc::{AllocError, Global};
use swf_document::problem_value;
use swf_duration::Moment;
use swf_tasks::Machine;
use swf_text::word;
use swf_value::{Json, Member, member};

/// The report of an instance: its context, its error where it ended in one, its id, its output where it is done, and its status at a
/// moment.
pub fn report(alloc: Global, instance: &Machine, now: Moment) -> Result<Json, AllocError>
    ensures { IfOk result (λ v. v ≡ report now instance.now) }
{
    let mut members = Vec::new(alloc);
    let status = word(alloc, status(instance, now))?;
    lead(alloc, "status", Json::text(status), &mut members)?;
    lead_output(alloc, instance, &mut members)?;
    lead(alloc, "id", Json::text(instance.id().copy()?), &mut members)?;
    lead_error(alloc, instance, &mut members)?;
    lead(alloc, "context", instance.context().copy()?, &mut members)?;
    Json::object(alloc, members)
}

// A member before the others.
fn lead(alloc: Global, name: &str, value: Json, members: &mut Vec<Member>) -> Result<(), AllocError>
    requires { IsTrue (is_ascii name.now) }
    ensures { IfOk result (λ _. members_of members.new.items ≡ member name.now value (members_of members.old.items)) }
{
    let first = member(alloc, name, value)?;
    members.insert(0, first)?;
    Ok(())
}

// The output before the others, where there is one.
fn lead_output(alloc: Global, instance: &Machine, told: &mut Vec<Member>) -> Result<(), AllocError>
    ensures { IfOk result (λ _. members_of told.new.items ≡ with_output instance.now.node (members_of told.old.items)) }
{
    match instance.output() {
        Some(output) => lead(alloc, "output", output.copy()?, told),
        None => Ok(()),
    }
}

// The error before the others, where there is one.
fn lead_error(alloc: Global, instance: &Machine, told: &mut Vec<Member>) -> Result<(), AllocError>
    ensures { IfOk result (λ _. members_of told.new.items ≡ with_error instance.now.node (members_of told.old.items)) }
{
    match instance.problem() {
        Some(problem) => lead(alloc, "error", problem_value(alloc, problem)?, told),
        None => Ok(()),
    }
}

// Completed, faulted, running where it can take a step, or else waiting.
fn status(instance: &Machine, now: Moment) -> &'static str
    ensures ascii { IsTrue (is_ascii result.now) }
    ensures is { result.now ≡ status_of now instance.now.node }
{
    if instance.output().is_some() {
        "completed"
    } else if instance.problem().is_some() {
        "faulted"
    } else if instance.is_enabled(now) {
        "running"
    } else {
        "waiting"
    }
}
