// What becomes of a task that has not begun (DSL 1.0.0, "Data flow", "Input"; reference, "Task").
ghost use Rattle.swf_meaning.specs.Parts.{common_of, kind_of};
ghost use Rattle.swf_document.specs.Task.{set};
ghost use Rattle.swf_document.specs.declared.common.Flow.TheVariants.{Continue};
ghost use Rattle.std.specs.Prelude.{Ok};
ghost use Rattle.swf_meaning.specs.Node.{Done};
ghost use Rattle.swf_meaning.specs.Complete.{becomes};
ghost use Rattle.swf_meaning.specs.Enter.{begun, guarded, enter};
ghost use Rattle.swf_rule.specs.Rules.{line_in, site_in};
ghost use Rattle.swf_scene.specs.Halts.{Makes};
ghost use Rattle.swf_scene.specs.Setting.{line_of, site_of};

use std::alloc::Global;
use swf_activities::{calling, calling_http, running};
use swf_catalog::{Round, TaskRef, Work};
use swf_document::{Callee, Flow, Template};
use swf_rule::{Rule, finished, input_of};
use swf_rules::{comes_to, emitting, forking, listening, looping, raising, switched, waiting};
use swf_scene::{Halt, Scene, within};
use swf_stack::{Made, Running};
use swf_value::Json;

// A `set` gives what its template is filled to.
fn set_value(rule: &Rule, template: &Template) -> Result<Made, Halt>
    ensures { Makes (line_in rule.now) (begun (site_in rule.now) (line_in rule.now) rule.now.running.now (set template.now)) result }
{
    let value = rule.filled(template)?;
    rule.complete(value)
}

// A task begins on its transformed input.
fn begun(rule: &Rule) -> Result<Made, Halt>
    ensures { Makes (line_in rule.now) (begun (site_in rule.now) (line_in rule.now) rule.now.running.now (kind_of rule.now.running.now.task)) result }
{
    let input = rule.running.input();
    match rule.running.task().work() {
        Work::Call(Callee::Http(spec)) => calling_http(rule, spec.get()),
        Work::Call(Callee::Function { name, with }) => calling(rule, name, with.as_ref()),
        Work::Do(_) => comes_to(rule, Round::Seq, 0, input.copy()?),
        Work::Emit(template) => emitting(rule, template),
        Work::For(spec) => looping(rule, spec),
        Work::Fork(spec) => forking(rule, spec),
        Work::Listen(spec) => listening(rule, spec),
        Work::Raise(reference) => raising(rule, reference),
        Work::Run(spec) => running(rule, spec),
        Work::Set(template) => set_value(rule, template),
        Work::Switch(cases) => switched(rule, cases.as_slice()),
        Work::Try(_) => comes_to(rule, Round::Try { retries: 0 }, 0, input.copy()?),
        Work::Wait(duration) => waiting(rule, duration),
    }
}

// A task whose `if` is not true is done with its raw input.
fn skipped(rule: &Rule) -> Result<Made, Halt>
    ensures { Makes (line_in rule.now) (Ok (becomes (line_in rule.now) (Done rule.now.running.now.raw Continue))) result }
{
    let output = rule.running.raw().copy()?;
    Ok(finished(rule.alloc, output, Flow::Continue)?)
}

// A task begins, unless its `if` is not true.
fn guarded(rule: &Rule) -> Result<Made, Halt>
    ensures { Makes (line_in rule.now) (guarded (site_in rule.now) (line_in rule.now) rule.now.running.now (common_of rule.now.running.now.task).cond) result }
{
    let running = rule.running;
    let Some(condition) = running.task().cond() else {
        return begun(rule);
    };
    let sight = rule.within()?;
    if rule.asked(sight.vars(), running.input(), condition)? {
        begun(rule)
    } else {
        skipped(rule)
    }
}

// Whether a task that begins asks for variables, for its `if` or for what it does.
fn asks(task: &TaskRef) -> bool {
    if task.cond().is_some() {
        return true;
    }
    matches!(
        task.work(),
        Work::Call(_) | Work::Emit(_) | Work::For(_) | Work::Run(_) | Work::Set(_) | Work::Switch(_)
    )
}

// A task begins, unless its `if` is not true. Its variables are made at most once.
fn entered<'s>(alloc: Global, scene: &'s Scene<'s>, running: &'s Running) -> Result<Made, Halt>
    ensures { Makes (line_of scene.entry.now) (guarded (site_of scene.entry.now) (line_of scene.entry.now) running.now (common_of running.now.task).cond) result }
{
    if !asks(running.task()) {
        return guarded(&Rule {
            alloc,
            scene,
            running,
            vars: None,
        });
    }
    let vars = within(alloc, scene, running)?;
    guarded(&Rule {
        alloc,
        scene,
        running,
        vars: Some(&vars),
    })
}

/// A task that has not begun takes its step.
pub fn enter(alloc: Global, scene: &Scene, task: &TaskRef, raw: &Json) -> Result<Made, Halt>
    ensures { Makes (line_of scene.entry.now) (enter (site_of scene.entry.now) (line_of scene.entry.now) task.now raw.now) result }
{
    let input = input_of(alloc, scene, task, raw)?;
    let running = Running::new(task.copy()?, raw.copy()?, input);
    entered(alloc, scene, &running)
}
