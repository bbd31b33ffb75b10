// Which functions a task calls, and which functions come to call themselves.
ghost use Rattle.std.specs.Prelude.{◌≡◌, ◌++◌, ◌<◌, OnOk, IfOk, length, map};
ghost use Rattle.swf_document.specs.TaskNode.{kind_of, task_of, tasks_of, handler_of};
ghost use Rattle.swf_validate.specs.Calls.{called_function, called_in, called_in_tasks, called_in_kind, called_in_handler, calls_of};
ghost use Rattle.swf_scope.specs.NamesView.{places_in};

use std::alloc::{AllocError, Global};
use swf_document::{Callee, Kind, Named, Task, Tasks, TrySpec};
use swf_scope::Names;

/// For each function the functions that it calls, by their positions.
pub fn calls_of(
    alloc: Global,
    functions: &Names,
    given: &[Named],
) -> Result<Vec<Vec<usize>>, AllocError>
    ensures { IfOk result (λ rows. map (λ row. row.items) rows.items ≡ calls_of (places_in functions.now) (tasks_of given.now)) }
{
    let mut rows = Vec::new(alloc);
    for one in given {
        let mut row = Vec::new(alloc);
        called_in(functions, &one.task, &mut row)?;
        rows.push(row)?;
    }
    Ok(rows)
}

/// Appends the functions that a task calls.
#[cycle(called)]
fn called_in(functions: &Names, given: &Task, out: &mut Vec<usize>) -> Result<(), AllocError>
    ensures { OnOk result (out.new.items ≡ out.old.items ++ called_in (places_in functions.now) (task_of given.now)) }
{
    match &given.kind {
        Kind::Call(callee) => called_function(functions, callee, out),
        Kind::Do(tasks) => called_in_tasks(functions, tasks, out),
        Kind::For(rounds) => called_in_tasks(functions, &rounds.tasks, out),
        Kind::Fork(spec) => called_in_tasks(functions, &spec.branches, out),
        Kind::Try(attempt) => called_in_try(functions, attempt, out),
        Kind::Emit(_)
        | Kind::Listen(_)
        | Kind::Raise(_)
        | Kind::Run(_)
        | Kind::Set(_)
        | Kind::Switch(_)
        | Kind::Wait(_) => Ok(()),
    }
}

/// Appends the function that is called, if there is one of that name.
fn called_function(
    functions: &Names,
    given: &Callee,
    out: &mut Vec<usize>,
) -> Result<(), AllocError>
    ensures { OnOk result (out.new.items ≡ out.old.items ++ called_function (places_in functions.now) given.now) }
{
    match given {
        Callee::Http(_) => Ok(()),
        Callee::Function { name, with: _ } => match functions.find(name) {
            None => Ok(()),
            Some(function) => {
                out.push(function)?;
                Ok(())
            }
        },
    }
}

/// Appends the functions that a list of tasks calls.
#[cycle(called)]
fn called_in_tasks(functions: &Names, given: &Tasks, out: &mut Vec<usize>) -> Result<(), AllocError>
    ensures { OnOk result (out.new.items ≡ out.old.items ++ called_in_tasks (places_in functions.now) given.now) }
{
    called_in_named(functions, given.as_slice(), out)
}

/// Appends the functions that named tasks call.
#[cycle(called)]
fn called_in_named(
    functions: &Names,
    given: &[Named],
    out: &mut Vec<usize>,
) -> Result<(), AllocError>
    ensures { OnOk result (out.new.items ≡ out.old.items ++ called_in_tasks (places_in functions.now) (tasks_of given.now)) }
{
    for one in given {
        called_in(functions, &one.task, out)?;
    }
    Ok(())
}

/// Appends the functions that the tasks of a `try` call.
#[cycle(called)]
fn called_in_try(functions: &Names, given: &TrySpec, out: &mut Vec<usize>) -> Result<(), AllocError>
    ensures { OnOk result (out.new.items ≡ out.old.items ++ (called_in_tasks (places_in functions.now) given.now.tasks ++ called_in_handler (places_in functions.now) (handler_of given.now.handler))) }
{
    called_in_tasks(functions, &given.tasks, out)?;
    match &given.handler {
        None => Ok(()),
        Some(tasks) => called_in_tasks(functions, tasks, out),
    }
}
