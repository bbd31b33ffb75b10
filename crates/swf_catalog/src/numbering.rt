// How the tasks of a document get their numbers: as rows, those of a list behind those of the tasks inside its own.
ghost use Rattle.std.specs.Prelude.{◌≡◌, ◌+◌, ◌++◌, IfOk, length};
ghost use Rattle.swf_document.specs.TaskNode.{handler_of, kind_of, tasks_of};
ghost use Rattle.swf_catalog.specs.Numbers.{all, begin, begins_in, begins_of, behind, count, handler_begin, inside, inside_handler, inside_kind, own};
ghost use Rattle.swf_catalog.specs.Rows.{entries_of};

use crate::row::{Begins, Row};
use std::alloc::{AllocError, Global};
use swf_document::{Kind, Named, Tasks, TrySpec};

// The number of the next row. The workflow is none, and has the number 0.
fn next(rows: &Vec<Row>) -> usize
    ensures { result ≡ length rows.now.items + 1 }
{
    rows.len() + 1
}

/// Adds the rows of a list behind those of the tasks inside its own. Answers where its own begin.
#[cycle(rows)]
pub fn add_tasks(alloc: Global, tasks: &Tasks, rows: &mut Vec<Row>) -> Result<usize, AllocError>
    ensures rows { IfOk result (λ _. entries_of rows.new.items ≡ entries_of rows.old.items ++ all (length rows.old.items + 1) tasks.now) }
    ensures begin { IfOk result (λ b. b ≡ begin (length rows.old.items + 1) tasks.now) }
{
    let begins = add_inside(alloc, tasks.as_slice(), rows)?;
    let begin = next(rows);
    add_own(tasks, &begins, rows)?;
    Ok(begin)
}

// Adds the rows of the tasks inside those of a list. Answers where the lists of each begin.
#[cycle(rows)]
fn add_inside(
    alloc: Global,
    tasks: &[Named],
    rows: &mut Vec<Row>,
) -> Result<Vec<Begins>, AllocError>
    ensures rows { IfOk result (λ _. entries_of rows.new.items ≡ entries_of rows.old.items ++ inside (length rows.old.items + 1) (tasks_of tasks.now)) }
    ensures begins { IfOk result (λ bs. bs.items ≡ begins_of (length rows.old.items + 1) (tasks_of tasks.now)) }
{
    let mut begins = Vec::new(alloc);
    for one in tasks {
        begins.push(add_kind(alloc, &one.task.kind, rows)?)?;
    }
    Ok(begins)
}

// Adds the rows of the tasks inside one of this kind. Answers where its lists begin.
#[cycle(rows)]
fn add_kind(alloc: Global, kind: &Kind, rows: &mut Vec<Row>) -> Result<Begins, AllocError>
    ensures rows { IfOk result (λ _. entries_of rows.new.items ≡ entries_of rows.old.items ++ inside_kind (length rows.old.items + 1) (kind_of kind.now)) }
    ensures begins { IfOk result (λ b. b ≡ begins_in (length rows.old.items + 1) (kind_of kind.now)) }
{
    match kind {
        Kind::Do(tasks) => Ok(both(add_tasks(alloc, tasks, rows)?)),
        Kind::For(spec) => Ok(both(add_tasks(alloc, &spec.tasks, rows)?)),
        Kind::Fork(spec) => Ok(both(add_tasks(alloc, &spec.branches, rows)?)),
        Kind::Try(spec) => add_try(alloc, spec, rows),
        Kind::Call(_)
        | Kind::Emit(_)
        | Kind::Listen(_)
        | Kind::Raise(_)
        | Kind::Run(_)
        | Kind::Set(_)
        | Kind::Switch(_)
        | Kind::Wait(_) => Ok(both(next(rows))),
    }
}

// Adds the rows of the lists of a `try`.
#[cycle(rows)]
fn add_try(alloc: Global, spec: &TrySpec, rows: &mut Vec<Row>) -> Result<Begins, AllocError>
    ensures rows { IfOk result (λ _. entries_of rows.new.items ≡ entries_of rows.old.items ++ (all (length rows.old.items + 1) spec.now.tasks ++ inside_handler (behind (length rows.old.items + 1) spec.now.tasks) (handler_of spec.now.handler))) }
    ensures begins { IfOk result (λ b. b ≡ record { tasks = begin (length rows.old.items + 1) spec.now.tasks; handler = handler_begin (behind (length rows.old.items + 1) spec.now.tasks) (handler_of spec.now.handler) }) }
{
    let tasks = add_tasks(alloc, &spec.tasks, rows)?;
    let handler = match &spec.handler {
        Some(tasks) => add_tasks(alloc, tasks, rows)?,
        None => next(rows),
    };
    Ok(Begins { tasks, handler })
}

// Of a task with one list.
pub fn both(begin: usize) -> Begins
    ensures { result ≡ record { tasks = begin; handler = begin } }
{
    Begins {
        tasks: begin,
        handler: begin,
    }
}

// Adds the rows of a list, each with where its lists begin.
fn add_own(tasks: &Tasks, begins: &[Begins], rows: &mut Vec<Row>) -> Result<(), AllocError>
    requires { length begins.now ≡ count tasks.now }
    ensures { IfOk result (λ _. entries_of rows.new.items ≡ entries_of rows.old.items ++ own tasks.now 0 begins.now) }
{
    for place in 0..begins.len() {
        rows.push(Row {
            tasks: tasks.copy()?,
            place,
            begins: begins[place],
        })?;
    }
    Ok(())
}
