// A task, and the lists of named tasks that documents and tasks have (DSL 1.0.0, reference, "Task").
ghost use Rattle.std.specs.Prelude.{◌≡◌, IfOk};
ghost use Rattle.swf_document.specs.TaskNode.{tasks_of};

use crate::boxed::Boxed;
use crate::call::Callee;
use crate::common::{Case, Common};
use crate::error::{ErrorFilter, ErrorRef};
use crate::event::ListenSpec;
use crate::listing::Listing;
use crate::retry::RetryRef;
use crate::run::RunSpec;
use crate::template::Template;
use std::alloc::{AllocError, Global};
use std::marker::Model;
use std::sync::Arc;
use swf_expr::Expr;
use swf_text::Text;

/// A list of named tasks. A copy shares them. Contracts see it as `Tasks` of specs.
#[cycle(tasks)]
pub struct Tasks {
    shared: Arc<Vec<Named>>,
}

impl Drop for Tasks {
    #[cycle(tasks)]
    fn drop(self) {
        let Tasks { shared: _shared } = self;
    }
}

/// A task and the name that it has in its list.
#[cycle(tasks)]
#[derive(Drop)]
pub struct Named {
    pub name: Text,
    pub task: Task,
}

/// A task.
#[cycle(tasks)]
#[derive(Drop)]
pub struct Task {
    pub common: Common,
    pub kind: Kind,
}

/// What a task does.
#[cycle(tasks)]
#[derive(Drop)]
pub enum Kind {
    Call(Callee),
    Do(Tasks),
    /// Gives an event of these attributes.
    Emit(Template),
    For(ForSpec),
    Fork(ForkSpec),
    Listen(ListenSpec),
    Raise(ErrorRef),
    Run(RunSpec),
    /// Gives a value.
    Set(Template),
    Switch(Listing<Case>),
    Try(TrySpec),
    /// Waits for some milliseconds.
    Wait(u64),
}

/// Tasks that are run once for each item.
#[cycle(tasks)]
#[derive(Drop)]
pub struct ForSpec {
    /// The variable that has the item.
    pub each: Text,
    pub items: Expr,
    /// The variable that has the item's position.
    pub at: Text,
    /// What has to hold before each round.
    pub guard: Option<Boxed<Expr>>,
    pub tasks: Tasks,
}

/// Tasks that are run beside each other.
#[cycle(tasks)]
#[derive(Drop)]
pub struct ForkSpec {
    /// Whether the first that ends ends the others.
    pub compete: bool,
    pub branches: Tasks,
}

/// Tasks whose errors are caught.
#[cycle(tasks)]
#[derive(Drop)]
pub struct TrySpec {
    pub tasks: Tasks,
    pub errors: Boxed<ErrorFilter>,
    /// The variable that has the error.
    pub name: Text,
    pub cond: Option<Boxed<Expr>>,
    pub except: Option<Boxed<Expr>>,
    pub retry: Option<Boxed<RetryRef>>,
    /// What is run once an error is caught.
    pub handler: Option<Tasks>,
}

impl Model for Tasks {
    ghost use Rattle.std.specs.Arc.{arc_value};
    ghost use Rattle.swf_document.specs.Task.{Tasks as TaskList};
    ghost use Rattle.swf_document.specs.TaskCode.{tasks_code};

    ghost Value = { TaskList };

    ghost coded = { tasks_code };

    ghost use Rattle.swf_document.specs.TaskNode.{tasks_of};
    ghost use Rattle.swf_document.specs.Task.{weight};

    ghost view = { λ t. tasks_of (arc_value t.shared).items };

    ghost size = { weight };

    ghost use Rattle.swf_document.specs.TaskFalls.{falls};

    ghost size_decreases = { λ a h. falls (arc_value a.shared).items };
}

impl Tasks {
    pub fn of(alloc: Global, items: Vec<Named>) -> Result<Tasks, AllocError>
        ensures { IfOk result (λ tasks. tasks ≡ tasks_of items.items) }
    {
        let shared = Arc::new(alloc, items)?;
        Ok(Tasks { shared })
    }

    /// The same tasks once more. It copies nothing that is inside.
    pub fn copy(&self) -> Result<Tasks, AllocError>
        ensures { IfOk result (λ tasks. tasks ≡ self.now) }
    {
        let shared = Arc::try_clone(&self.shared)?;
        Ok(Tasks { shared })
    }

    /// The tasks in order.
    pub fn as_slice(&self) -> &[Named]
        ensures { tasks_of result.now ≡ self.now }
    {
        self.shared.as_slice()
    }
}
