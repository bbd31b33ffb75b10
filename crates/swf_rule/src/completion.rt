// How a task ends (DSL 1.0.0, "Data flow").
ghost use Rattle.std.specs.Prelude.{◌≡◌, IfOk, Result};
ghost use Rattle.swf_document.specs.declared.error.Problem.{Problem};
ghost use Rattle.swf_meaning.specs.Complete.{Stepped, input_of, output_of, exported, complete_by, complete, step_of};
ghost use Rattle.swf_meaning.specs.Line.{Line};
ghost use Rattle.swf_meaning.specs.Parts.{common_of};
ghost use Rattle.swf_rule.specs.Rules.{line_in};
ghost use Rattle.swf_scene.specs.Halts.{Gives, Makes};
ghost use Rattle.swf_stack.specs.Stack.{stepped_of};
ghost use Rattle.swf_stack.specs.declared.made.Top.TheVariants.{Done};
ghost use Rattle.swf_scene.specs.Setting.{line_of};

use crate::rule::Rule;
use std::alloc::{AllocError, Global};
use swf_catalog::TaskRef;
use swf_document::{Boxed, ErrorKind, Flow};
use swf_scene::{Halt, Scene, before, behind, value_of};
use swf_stack::{Made, Top};
use swf_transform::{fill, is_within};
use swf_value::Json;

/// What `input.from` makes of a raw input.
pub fn input_of(alloc: Global, scene: &Scene, task: &TaskRef, raw: &Json) -> Result<Json, Halt>
    ensures { Gives (input_of (line_of scene.entry.now) task.now raw.now) result }
{
    match task.input_from() {
        None => Ok(raw.copy()?),
        Some(template) => {
            let vars = before(alloc, scene, task, raw)?;
            value_of(alloc, task, fill(alloc, template, &vars, raw)?)
        }
    }
}

/// What a task comes to in which nothing runs.
pub fn becoming(alloc: Global, top: Top) -> Result<Made, AllocError>
    ensures { IfOk result (λ m. m ≡ record { frame = None; top = top; context = None; used = 0; emitted = None }) }
{
    Ok(Made {
        frame: None,
        top: Boxed::new(alloc, top)?,
        context: None,
        used: 0,
        emitted: None,
    })
}

/// A task that is done.
pub fn finished(alloc: Global, output: Json, flow: Flow) -> Result<Made, AllocError>
    ensures { IfOk result (λ m. m ≡ record { frame = None; top = Done output flow; context = None; used = 0; emitted = None }) }
{
    becoming(alloc, Top::Done { output, flow })
}

/// The step of a rule, which ends the task in its error where it gives one.
pub fn step_of(alloc: Global, given: Result<Made, Halt>) -> Result<Made, AllocError>
    ensures { IfOk result (λ made. (l : Line) (m : Result Stepped Problem) → Makes l m given → stepped_of l made ≡ step_of l m) }
{
    match given {
        Ok(made) => Ok(made),
        Err(Halt::Fault(problem)) => becoming(alloc, Top::Fault(problem)),
        Err(Halt::OutOfMemory) => Err(AllocError),
    }
}

impl Rule<'_> {
    /// What `output.as` makes of a raw output.
    pub fn output_of(&self, given: Json) -> Result<Json, Halt>
        ensures { Gives (output_of (line_in self.now) self.now.running.now given) result }
    {
        match self.running.task().output_as() {
            None => Ok(given),
            Some(template) => {
                let sight = self.within()?;
                self.value_of(fill(self.alloc, template, sight.vars(), &given)?)
            }
        }
    }

    // `export.as` makes the context of the transformed output.
    fn exported(&self, flow: Flow, output: Json) -> Result<Made, Halt>
        ensures { Makes (line_in self.now) (exported (line_in self.now) self.now.running.now flow output (common_of self.now.running.now.task).export_as) result }
    {
        match self.running.task().export_as() {
            None => Ok(finished(self.alloc, output, flow)?),
            Some(template) => {
                let sight = self.within()?;
                let vars = behind(self.alloc, self.scene, sight.vars(), &output)?;
                let context = self.value_of(fill(self.alloc, template, &vars, &output)?)?;
                let made = finished(self.alloc, output, flow)?;
                Ok(Made {
                    context: Some(context),
                    ..made
                })
            }
        }
    }

    /// The task ends with a raw output, and control goes on by a flow.
    pub fn complete_by(&self, flow: Flow, given: Json) -> Result<Made, Halt>
        ensures { Makes (line_in self.now) (complete_by (line_in self.now) self.now.running.now flow given) result }
    {
        if !is_within(&given) {
            return Err(self.fails(ErrorKind::Runtime, "value limit"));
        }
        if self.running.task().output_as().is_none() {
            return self.exported(flow, given);
        }
        let sight = self.within()?;
        let rule = Rule {
            alloc: self.alloc,
            scene: self.scene,
            running: self.running,
            vars: Some(sight.vars()),
        };
        let output = rule.output_of(given)?;
        rule.exported(flow, output)
    }

    /// The task ends with a raw output, and control goes on by its own `then`.
    pub fn complete(&self, given: Json) -> Result<Made, Halt>
        ensures { Makes (line_in self.now) (complete (line_in self.now) self.now.running.now given) result }
    {
        let flow = self.running.task().flow()?;
        self.complete_by(flow, given)
    }
}
