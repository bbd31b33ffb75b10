// A task at work, and what all its rules need.
ghost use Rattle.std.specs.Prelude.{◌≡◌, IfOk, IsTrue, option_map};
ghost use Rattle.std.specs.Coded.{Coded-set, coded_list};
ghost use Rattle.std.specs.Option.{unwrap_or};
ghost use Rattle.swf_text.specs.Same.{is_ascii};
ghost use Rattle.swf_evaluation.specs.VariableCode.{variable_code};
ghost use Rattle.swf_templates.specs.Fill.{fill};
ghost use Rattle.swf_meaning.specs.Complete.{asked};
ghost use Rattle.swf_meaning.specs.Line.{within};
ghost use Rattle.swf_meaning.specs.Rule.{value_of};
ghost use Rattle.swf_scene.specs.Halts.{Gives, IsFault};
ghost use Rattle.swf_scene.specs.Setting.{line_of};
ghost use Rattle.swf_scene.specs.Sights.{vars_of};

use std::alloc::{AllocError, Global};
use swf_document::{ErrorKind, Template};
use swf_expr::Expr;
use swf_jq_builtins::is_true;
use swf_jq_eval::Vars;
use swf_scene::{Halt, Scene, Sight, fails, value_of, within};
use swf_stack::Running;
use swf_transform::{Got, fill, first};
use swf_value::Json;

/// A task at work, and what it goes by. Its methods are the rules of the tasks: what each makes of the task.
#[derive(Clone, Copy)]
pub struct Rule<'a> {
    pub alloc: Global,
    pub scene: &'a Scene<'a>,
    pub running: &'a Running,
    /// What `if`, its own definition and `output.as` see, where that was made before.
    pub vars: Option<&'a Vars>,
    ghost seen: { unwrap_or (option_map (λ v. v.now) vars) (within (line_of scene.now) running.now) ≡ within (line_of scene.now) running.now } by { Coded-set (coded_list variable_code) (unwrap_or (option_map (λ v. v.now) vars) (within (line_of scene.now) running.now)) (within (line_of scene.now) running.now) },
}

impl Rule<'_> {
    ghost use Rattle.swf_rule.specs.Rules.{line_in};

    /// What `if`, the task's own definition and `output.as` see. It is made where it was not before.
    pub fn within(&self) -> Result<Sight<'_>, AllocError>
        ensures { IfOk result (λ s. vars_of s ≡ within (line_in self.now) self.now.running.now) }
    {
        match self.vars {
            Some(vars) => Ok(Sight::Lent(vars)),
            None => Ok(Sight::Made(within(self.alloc, self.scene, self.running)?)),
        }
    }

    /// The value that was got for the task, or the task's error.
    pub fn value_of<T: Drop>(&self, got: Got<T>) -> Result<T, Halt>
        ensures { Gives (value_of self.now.running.now.task got) result }
    {
        value_of(self.alloc, self.running.task(), got)
    }

    /// The task ends in a standard error, with an ASCII word as its detail.
    pub fn fails(&self, kind: ErrorKind, detail: &str) -> Halt
        requires { IsTrue (is_ascii detail.now) }
        ensures { IsFault self.now.running.now.task kind detail.now result }
    {
        fails(self.alloc, self.running.task(), kind, detail)
    }

    /// What a template gives on the task's transformed input.
    pub fn filled(&self, template: &Template) -> Result<Json, Halt>
        ensures { Gives (value_of self.now.running.now.task (fill template.now (within (line_in self.now) self.now.running.now) self.now.running.now.input)) result }
    {
        let sight = self.within()?;
        self.value_of(fill(self.alloc, template, sight.vars(), self.running.input())?)
    }

    /// Whether an expression is true of a value.
    pub fn asked(&self, vars: &Vars, value: &Json, condition: &Expr) -> Result<bool, Halt>
        ensures { Gives (asked self.now.running.now.task vars.now value.now condition.now) result }
    {
        let answer = self.value_of(first(self.alloc, condition, vars, value)?)?;
        Ok(is_true(&answer))
    }
}
