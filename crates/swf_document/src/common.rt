// What every task may have (DSL 1.0.0, reference, "Task" and "Flow Directive").
ghost use Rattle.std.specs.Prelude.{◌≡◌, IfOk};

use crate::boxed::Boxed;
use crate::template::Template;
use std::alloc::AllocError;
use swf_expr::Expr;
use swf_text::{Place, Text};

/// The parts that every task may have.
#[derive(Drop)]
pub struct Common {
    pub cond: Option<Boxed<Expr>>,
    pub input_from: Option<Template>,
    pub output_as: Option<Template>,
    pub export_as: Option<Template>,
    pub flow: Flow,
    /// Where the task stands in its document.
    pub place: Place,
}

/// What runs after a task.
#[derive(Drop)]
pub enum Flow {
    /// The next task of the list.
    Continue,
    /// Nothing more of the list.
    Exit,
    /// Nothing more of the workflow.
    End,
    /// The task of this name in the list.
    Task(Text),
}

impl Flow {
    /// The same flow once more. It copies no characters.
    pub fn copy(&self) -> Result<Flow, AllocError>
        ensures { IfOk result (λ flow. flow ≡ self.now) }
    {
        match self {
            Flow::Continue => Ok(Flow::Continue),
            Flow::Exit => Ok(Flow::Exit),
            Flow::End => Ok(Flow::End),
            Flow::Task(name) => Ok(Flow::Task(name.copy()?)),
        }
    }
}

/// A case of a `switch`. Without a condition it is always taken; without a flow what is next runs.
#[derive(Drop)]
pub struct Case {
    pub name: Text,
    pub cond: Option<Boxed<Expr>>,
    pub flow: Option<Flow>,
}
