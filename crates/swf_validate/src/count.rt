// How many tasks a document has.
ghost use Rattle.std.specs.Prelude.{◌≡◌, ◌+◌, ◌≤◌, min};
ghost use Rattle.swf_document.specs.TaskNode.{task_of, tasks_of, handler_of};
ghost use Rattle.swf_validate.specs.Count.{count_task, count_tasks, count_handler};

use swf_document::{Kind, Named, Task, Tasks, TrySpec};

/// A sum that goes on no further than `most`.
fn one_more(sum: usize, most: usize) -> usize
    ensures { result ≡ min (sum + 1) most }
{
    sum.saturating_add(1).min(most)
}

/// A sum and the tasks of a list, which goes on no further than `most`.
#[cycle(count)]
pub fn add_tasks(sum: usize, given: &Tasks, most: usize) -> usize
    requires { sum ≤ most }
    ensures { result ≡ min (sum + count_tasks given.now) most }
{
    add_named(sum, given.as_slice(), most)
}

#[cycle(count)]
fn add_named(sum: usize, given: &[Named], most: usize) -> usize
    requires { sum ≤ most }
    ensures { result ≡ min (sum + count_tasks (tasks_of given.now)) most }
{
    let mut sum = sum;
    for one in given {
        sum = add_task(sum, &one.task, most);
    }
    sum
}

#[cycle(count)]
fn add_task(sum: usize, given: &Task, most: usize) -> usize
    requires { sum ≤ most }
    ensures { result ≡ min (sum + count_task (task_of given.now)) most }
{
    let sum = one_more(sum, most);
    match &given.kind {
        Kind::Do(tasks) => add_tasks(sum, tasks, most),
        Kind::For(rounds) => add_tasks(sum, &rounds.tasks, most),
        Kind::Fork(spec) => add_tasks(sum, &spec.branches, most),
        Kind::Try(attempt) => add_try(sum, attempt, most),
        Kind::Call(_)
        | Kind::Emit(_)
        | Kind::Listen(_)
        | Kind::Raise(_)
        | Kind::Run(_)
        | Kind::Set(_)
        | Kind::Switch(_)
        | Kind::Wait(_) => sum,
    }
}

#[cycle(count)]
fn add_try(sum: usize, given: &TrySpec, most: usize) -> usize
    requires { sum ≤ most }
    ensures { result ≡ min (sum + (count_tasks given.now.tasks + count_handler (handler_of given.now.handler))) most }
{
    let sum = add_tasks(sum, &given.tasks, most);
    match &given.handler {
        None => sum,
        Some(tasks) => add_tasks(sum, tasks, most),
    }
}
