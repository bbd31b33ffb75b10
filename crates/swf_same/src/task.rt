// Tasks, and lists of them.
ghost use Rattle.std.specs.Prelude.{◌≡◌, ◌↔◌, IsTrue};
ghost use Rattle.swf_catalog.specs.TaskRef.{catch_of, loop_of};
ghost use Rattle.swf_document.specs.TaskNode.{handler_of, kind_of, task_of, tasks_of};

use crate::same::Same;
use swf_document::{ForSpec, Kind, Named, Task, Tasks, TrySpec};

impl Same for Tasks {
    fn is_same(&self, other: &Tasks) -> bool {
        same_tasks(self, other)
    }
}

/// Whether two lists of tasks are the same.
#[cycle(same)]
fn same_tasks(a: &Tasks, b: &Tasks) -> bool
    ensures { IsTrue result ↔ (a.now ≡ b.now) }
{
    same_named(a.as_slice(), b.as_slice())
}

#[cycle(same)]
fn same_named(a: &[Named], b: &[Named]) -> bool
    ensures { IsTrue result ↔ (tasks_of a.now ≡ tasks_of b.now) }
{
    if a.len() != b.len() {
        return false;
    }
    for (i, x) in a.iter().enumerate() {
        let y = &b[i];
        if !x.name.is_same(&y.name) || !same_task(&x.task, &y.task) {
            return false;
        }
    }
    true
}

/// Whether two tasks are the same.
#[cycle(same)]
pub(crate) fn same_task(a: &Task, b: &Task) -> bool
    ensures { IsTrue result ↔ (task_of a.now ≡ task_of b.now) }
{
    a.common.is_same(&b.common) && same_kind(&a.kind, &b.kind)
}

// Whether two tasks do the same.
#[cycle(same)]
fn same_kind(a: &Kind, b: &Kind) -> bool
    ensures { IsTrue result ↔ (kind_of a.now ≡ kind_of b.now) }
{
    match (a, b) {
        (Kind::Call(a), Kind::Call(b)) => a.is_same(b),
        (Kind::Do(a), Kind::Do(b)) => same_tasks(a, b),
        (Kind::Emit(a), Kind::Emit(b)) => a.is_same(b),
        (Kind::For(a), Kind::For(b)) => same_loop(a, b) && same_tasks(&a.tasks, &b.tasks),
        (Kind::Fork(a), Kind::Fork(b)) => {
            a.compete == b.compete && same_tasks(&a.branches, &b.branches)
        }
        (Kind::Listen(a), Kind::Listen(b)) => a.is_same(b),
        (Kind::Raise(a), Kind::Raise(b)) => a.is_same(b),
        (Kind::Run(a), Kind::Run(b)) => a.is_same(b),
        (Kind::Set(a), Kind::Set(b)) => a.is_same(b),
        (Kind::Switch(a), Kind::Switch(b)) => a.is_same(b),
        (Kind::Try(a), Kind::Try(b)) => {
            same_catch(a, b)
                && same_tasks(&a.tasks, &b.tasks)
                && same_handler(&a.handler, &b.handler)
        }
        (Kind::Wait(a), Kind::Wait(b)) => *a == *b,
        _ => false,
    }
}

#[cycle(same)]
fn same_handler(a: &Option<Tasks>, b: &Option<Tasks>) -> bool
    ensures { IsTrue result ↔ (handler_of a.now ≡ handler_of b.now) }
{
    match (a, b) {
        (None, None) => true,
        (Some(a), Some(b)) => same_tasks(a, b),
        _ => false,
    }
}

// Whether two tasks go over the same items, in the same variables.
fn same_loop(a: &ForSpec, b: &ForSpec) -> bool
    ensures { IsTrue result ↔ (loop_of a.now ≡ loop_of b.now) }
{
    a.each.is_same(&b.each)
        && a.items.is_same(&b.items)
        && a.at.is_same(&b.at)
        && a.guard.is_same(&b.guard)
}

// Whether two tasks catch the same errors, and try again in the same cases.
fn same_catch(a: &TrySpec, b: &TrySpec) -> bool
    ensures { IsTrue result ↔ (catch_of a.now ≡ catch_of b.now) }
{
    a.errors.is_same(&b.errors)
        && a.name.is_same(&b.name)
        && a.cond.is_same(&b.cond)
        && a.except.is_same(&b.except)
        && a.retry.is_same(&b.retry)
}
