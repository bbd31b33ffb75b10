// Where control goes after a task of a list (DSL 1.0.0, "Flow directives").
ghost use Rattle.std.specs.Prelude.{◌≡◌, ◌<◌, ◌-◌, ◌^◌};
ghost use Rattle.swf_document.specs.TaskNode.{tasks_of};
ghost use Rattle.swf_meaning.specs.Lists.{workflow_ended};
ghost use Rattle.swf_meaning.specs.Next.{next, ended};
ghost use Rattle.swf_meaning.specs.Local.{moved_on, failed};
ghost use Rattle.swf_rules.specs.Goals.{goal_of};
ghost use Rattle.swf_rule.specs.Rules.{line_in};
ghost use Rattle.swf_scene.specs.Halts.{Makes};
ghost use Rattle.swf_catalog.specs.Rounds.{round_of};
ghost use Rattle.swf_scene.specs.Setting.{line_of, site_of};

use crate::lists::{comes_to, list_ended};
use crate::try_::caught;
use std::alloc::Global;
use swf_catalog::{Round, Work, place_of};
use swf_document::{Flow, Named, Problem};
use swf_rule::{Rule, finished};
use swf_scene::{Halt, Scene};
use swf_stack::{Frame, Made};
use swf_value::Json;

/// What comes after a place of a list.
#[derive(Clone, Copy, Debug, PartialEq, Eq)]
pub enum Goal {
    Place(usize),
    ListEnd,
    WorkflowEnd,
}

// What comes after a place by a flow.
fn next(tasks: &[Named], place: usize, flow: &Flow) -> Goal
    requires { place < 2 ^ 64 - 1 }
    ensures { goal_of result ≡ next (tasks_of tasks.now) place flow.now }
{
    match flow {
        Flow::Continue => Goal::Place(place + 1),
        Flow::Exit => Goal::ListEnd,
        Flow::End => Goal::WorkflowEnd,
        Flow::Task(name) => match place_of(name, tasks) {
            Some(place) => Goal::Place(place),
            None => Goal::ListEnd,
        },
    }
}

// `end` passes over the tasks around; of the workflow `output.as` is applied.
fn ended(rule: &Rule, output: Json) -> Result<Made, Halt>
    ensures { Makes (line_in rule.now) (ended (line_in rule.now) rule.now.running.now output) result }
{
    let output = if rule.running.task().is_workflow() {
        rule.output_of(output)?
    } else {
        output
    };
    Ok(finished(rule.alloc, output, Flow::End)?)
}

// The workflow ends: of a sub-workflow the task that runs it is complete.
fn workflow_ended(rule: &Rule, round: &Round, output: Json) -> Result<Made, Halt>
    ensures { Makes (line_in rule.now) (workflow_ended (line_in rule.now) rule.now.running.now (round_of round.now) output) result }
{
    match round {
        Round::SubWorkflow(_) => rule.complete(output),
        Round::Seq | Round::Each(_) | Round::Try { .. } | Round::Catch(_) | Round::Function =>
            ended(rule, output),
    }
}

/// A task of a running task's list is done.
pub fn moved_on<'s>(
    alloc: Global,
    scene: &'s Scene<'s>,
    frame: &'s Frame,
    output: &Json,
    flow: &Flow,
) -> Result<Made, Halt>
    ensures { Makes (line_of scene.entry.now) (moved_on (line_of scene.entry.now) frame.now.running (round_of frame.now.round) frame.now.place output.now flow.now) result }
{
    let (running, round) = (&frame.running, &frame.round);
    let rule = Rule {
        alloc,
        scene,
        running,
        vars: None,
    };
    let output = output.copy()?;
    match next(running.task().named(round), frame.place, flow) {
        Goal::Place(place) => comes_to(&rule, round.copy()?, place, output),
        Goal::ListEnd => list_ended(&rule, round.copy()?, output),
        Goal::WorkflowEnd => workflow_ended(&rule, round, output),
    }
}

/// A task of a running task's list ended in an error: a `try` may catch it, and it ends any other task.
pub fn failed<'s>(
    alloc: Global,
    scene: &'s Scene<'s>,
    frame: &'s Frame,
    problem: &Problem,
) -> Result<Made, Halt>
    ensures { Makes (line_of scene.entry.now) (failed (site_of scene.entry.now) (line_of scene.entry.now) frame.now.running (round_of frame.now.round) problem.now) result }
{
    let rule = Rule {
        alloc,
        scene,
        running: &frame.running,
        vars: None,
    };
    match (&frame.round, rule.running.task().work()) {
        (Round::Try { retries }, Work::Try(spec)) => caught(&rule, *retries, problem, spec),
        _ => Err(Halt::Fault(problem.copy()?)),
    }
}
