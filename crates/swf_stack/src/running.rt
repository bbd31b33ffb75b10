// A task at work.
ghost use Rattle.std.specs.Prelude.{◌≡◌, IfOk};

use std::alloc::AllocError;
use std::marker::Model;
use swf_catalog::TaskRef;
use swf_value::Json;

/// A task at work, with its raw and its transformed input. A copy shares them. Contracts see it as the `Running` of the definitions.
#[derive(Drop)]
pub struct Running {
    task: TaskRef,
    raw: Json,
    input: Json,
}

impl Model for Running {
    ghost use Rattle.swf_meaning.specs.Node.{Running as AtWork};
    ghost use Rattle.swf_meaning.specs.Codes.{running_code};

    ghost Value = { AtWork };

    ghost coded = { running_code };

    ghost view = { λ r. record { task = r.task; raw = r.raw; input = r.input } };
}

impl Running {
    pub fn new(task: TaskRef, raw: Json, input: Json) -> Running
        ensures { result ≡ record { task = task; raw = raw; input = input } }
    {
        Running { task, raw, input }
    }

    pub fn task(&self) -> &TaskRef
        ensures { result.now ≡ self.now.task }
    {
        &self.task
    }

    /// Its raw input.
    pub fn raw(&self) -> &Json
        ensures { result.now ≡ self.now.raw }
    {
        &self.raw
    }

    /// Its transformed input.
    pub fn input(&self) -> &Json
        ensures { result.now ≡ self.now.input }
    {
        &self.input
    }

    /// The same once more. It copies no values.
    pub fn copy(&self) -> Result<Running, AllocError>
        ensures { IfOk result (λ r. r ≡ self.now) }
    {
        Ok(Running {
            task: self.task.copy()?,
            raw: self.raw.copy()?,
            input: self.input.copy()?,
        })
    }
}
