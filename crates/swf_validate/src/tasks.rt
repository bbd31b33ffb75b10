// The faults of tasks.
ghost use Rattle.std.specs.Prelude.{◌≡◌, ◌++◌, ◌∷◌, OnOk, codes};
ghost use Rattle.swf_document.specs.TaskNode.{kind_of, task_of, tasks_of, handler_of};
ghost use Rattle.swf_scope.specs.NamesView.{places_in};
ghost use Rattle.swf_scope.specs.Scope.{own, under, expression_faults, condition_faults, template_faults};
ghost use Rattle.swf_scope.specs.ScopeView.{scope_of, caught_by};
ghost use Rattle.swf_scope.specs.Spots.{place_at};
ghost use Rattle.swf_scope.specs.PartFaults.{with_faults};
ghost use Rattle.swf_validate.specs.TaskFaults.{list_faults, named_faults, is_at, task_faults, before_export, before_if, behind_then, handler_faults, catch_faults, in_list, in_fork, with_variable};

use crate::common::{export, middle};
use crate::kinds::{caught, fork_size};
use std::alloc::{AllocError, Global};
use swf_document::{
    Callee, FaultKind, Faults, ForSpec, ForkSpec, Kind, Named, Task, Tasks, Template, TrySpec,
};
use swf_scope::{
    Names, Scope, Spot, Standard, Variables, callee, condition, expression, names_of_tasks,
    tell_unless, template, with,
};
use swf_text::Text;

/// The faults of a list of tasks, each of which may go to any of them.
#[cycle(tasks)]
#[inline(never)]
pub fn list(
    alloc: Global,
    scope: &Scope<'_>,
    given: &Tasks,
    out: &mut Faults,
) -> Result<(), AllocError>
    ensures { OnOk result (out.new ≡ out.old ++ list_faults (in_list (scope_of scope.now) given.now) given.now) }
{
    let places = names_of_tasks(alloc, given.as_slice())?;
    let inner = Scope {
        known: &*scope.known,
        targets: &places,
        in_branch: scope.in_branch,
        around: &*scope.around,
    };
    named(alloc, &inner, &places, given.as_slice(), out)
}

/// Whether a name stands first at a position of its list.
fn stands_first(places: &Names, name: &Text, position: usize) -> bool
    ensures { result ≡ is_at (places_in places.now name.now) position }
{
    places.find(name) == Some(position)
}

/// The faults of named tasks, by the place at which each name stands first.
#[cycle(tasks)]
#[inline(never)]
fn named(
    alloc: Global,
    scope: &Scope<'_>,
    places: &Names,
    given: &[Named],
    out: &mut Faults,
) -> Result<(), AllocError>
    ensures { OnOk result (out.new ≡ out.old ++ named_faults (scope_of scope.now) (places_in places.now) 0 (tasks_of given.now)) }
{
    for (position, one) in given.iter().enumerate() {
        let first = stands_first(places, &one.name, position);
        let at = Spot::Task(&one.task.common.place);
        tell_unless(alloc, first, &at, FaultKind::DuplicateName, out)?;
        task(alloc, &*scope, &one.task, out)?;
    }
    Ok(())
}

/// The faults of a task.
#[cycle(tasks)]
#[inline(never)]
pub fn task(
    alloc: Global,
    scope: &Scope<'_>,
    given: &Task,
    out: &mut Faults,
) -> Result<(), AllocError>
    ensures { OnOk result (out.new ≡ out.old ++ task_faults (scope_of scope.now) (task_of given.now)) }
{
    let at = Spot::Task(&given.common.place);
    fork_size(alloc, &at, &given.kind, out)?;
    before_export(alloc, &*scope, &at, &given.kind, out)?;
    export(alloc, &*scope, &given.common, out)?;
    before_if(alloc, &*scope, &at, &given.kind, out)?;
    middle(alloc, &*scope, &given.common, &given.kind, out)?;
    behind_then(alloc, &*scope, &at, &given.kind, out)
}

/// The faults of the members `call`, `do`, `emit` and `catch`.
#[cycle(tasks)]
#[inline(never)]
fn before_export(
    alloc: Global,
    scope: &Scope<'_>,
    at: &Spot<'_>,
    given: &Kind,
    out: &mut Faults,
) -> Result<(), AllocError>
    ensures { OnOk result (out.new ≡ out.old ++ before_export (scope_of scope.now) (place_at at.now) (kind_of given.now)) }
{
    match given {
        Kind::Call(called) => {
            callee(
                alloc,
                &scope.known.functions,
                &Spot::Word(&*at, "call"),
                called,
                out,
            )
        }
        Kind::Do(tasks) => list(alloc, &*scope, tasks, out),
        Kind::Emit(event) => emitted(alloc, &*scope, &*at, event, out),
        Kind::For(rounds) => round(alloc, &*scope, rounds, out),
        Kind::Try(attempt) => catch(alloc, &*scope, &*at, attempt, out),
        Kind::Fork(_)
        | Kind::Listen(_)
        | Kind::Raise(_)
        | Kind::Run(_)
        | Kind::Set(_)
        | Kind::Switch(_)
        | Kind::Wait(_) => Ok(()),
    }
}

/// The faults of the attributes of an event.
fn emitted(
    alloc: Global,
    scope: &Scope<'_>,
    at: &Spot<'_>,
    given: &Template,
    out: &mut Faults,
) -> Result<(), AllocError>
    ensures { OnOk result (out.new ≡ out.old ++ template_faults (own (scope_of scope.now).around) (under (under (under (place_at at.now) (codes "emit")) (codes "event")) (codes "with")) given.now) }
{
    let emit = Spot::Word(at, "emit");
    let event = Spot::Word(&emit, "event");
    let own = Variables::Word(Standard::Input, &*scope.around);
    template(alloc, &own, &Spot::Word(&event, "with"), given, out)
}

/// The faults of the tasks of a `for`, which have the variables of its rounds.
#[cycle(tasks)]
#[inline(never)]
fn round<'x>(
    alloc: Global,
    scope: &'x Scope<'x>,
    given: &'x ForSpec,
    out: &mut Faults,
) -> Result<(), AllocError>
    ensures { OnOk result (out.new ≡ out.old ++ list_faults (in_list (with_variable (with_variable (scope_of scope.now) given.now.at) given.now.each) given.now.tasks) given.now.tasks) }
{
    let at = Variables::Name(&given.at, &*scope.around);
    let each = Variables::Name(&given.each, &at);
    let inner = Scope {
        known: &*scope.known,
        targets: &*scope.targets,
        in_branch: scope.in_branch,
        around: &each,
    };
    list(alloc, &inner, &given.tasks, out)
}

/// The faults of a `catch`, in which the error has its name.
#[cycle(tasks)]
#[inline(never)]
fn catch<'x>(
    alloc: Global,
    scope: &'x Scope<'x>,
    at: &Spot<'_>,
    given: &'x TrySpec,
    out: &mut Faults,
) -> Result<(), AllocError>
    ensures { OnOk result (out.new ≡ out.old ++ (handler_faults (with_variable (scope_of scope.now) given.now.name) (handler_of given.now.handler) ++ catch_faults (with_variable (scope_of scope.now) given.now.name) (under (place_at at.now) (codes "catch")) (caught_by given.now))) }
{
    let around = Variables::Name(&given.name, &*scope.around);
    let inner = Scope {
        known: &*scope.known,
        targets: &*scope.targets,
        in_branch: scope.in_branch,
        around: &around,
    };
    match &given.handler {
        None => {}
        Some(tasks) => list(alloc, &inner, tasks, out)?,
    }
    caught(alloc, &inner, &Spot::Word(&*at, "catch"), given, out)
}

/// The faults of the members `for` and `fork`.
#[cycle(tasks)]
#[inline(never)]
fn before_if(
    alloc: Global,
    scope: &Scope<'_>,
    at: &Spot<'_>,
    given: &Kind,
    out: &mut Faults,
) -> Result<(), AllocError>
    ensures { OnOk result (out.new ≡ out.old ++ before_if (scope_of scope.now) (place_at at.now) (kind_of given.now)) }
{
    match given {
        Kind::For(rounds) => items(alloc, &*scope, &*at, rounds, out),
        Kind::Fork(spec) => fork(alloc, &*scope, spec, out),
        Kind::Call(_)
        | Kind::Do(_)
        | Kind::Emit(_)
        | Kind::Try(_)
        | Kind::Listen(_)
        | Kind::Raise(_)
        | Kind::Run(_)
        | Kind::Set(_)
        | Kind::Switch(_)
        | Kind::Wait(_) => Ok(()),
    }
}

/// The faults of the branches of a fork. They are no targets, and nothing in them exports.
#[cycle(tasks)]
#[inline(never)]
fn fork(
    alloc: Global,
    scope: &Scope<'_>,
    given: &ForkSpec,
    out: &mut Faults,
) -> Result<(), AllocError>
    ensures { OnOk result (out.new ≡ out.old ++ list_faults (in_fork (scope_of scope.now)) given.now.branches) }
{
    let places = names_of_tasks(alloc, given.branches.as_slice())?;
    let targets = Names::new(alloc);
    let inner = Scope {
        known: &*scope.known,
        targets: &targets,
        in_branch: true,
        around: &*scope.around,
    };
    named(alloc, &inner, &places, given.branches.as_slice(), out)
}

/// The faults of the members `try`, `while` and `with`.
#[cycle(tasks)]
#[inline(never)]
fn behind_then(
    alloc: Global,
    scope: &Scope<'_>,
    at: &Spot<'_>,
    given: &Kind,
    out: &mut Faults,
) -> Result<(), AllocError>
    ensures { OnOk result (out.new ≡ out.old ++ behind_then (scope_of scope.now) (place_at at.now) (kind_of given.now)) }
{
    match given {
        Kind::Call(called) => handed(alloc, &*scope, &*at, called, out),
        Kind::For(rounds) => guard(alloc, &*scope, &*at, rounds, out),
        Kind::Try(attempt) => list(alloc, &*scope, &attempt.tasks, out),
        Kind::Do(_)
        | Kind::Emit(_)
        | Kind::Fork(_)
        | Kind::Listen(_)
        | Kind::Raise(_)
        | Kind::Run(_)
        | Kind::Set(_)
        | Kind::Switch(_)
        | Kind::Wait(_) => Ok(()),
    }
}

/// The faults of the list that a `for` goes over.
fn items(
    alloc: Global,
    scope: &Scope<'_>,
    at: &Spot<'_>,
    given: &ForSpec,
    out: &mut Faults,
) -> Result<(), AllocError>
    ensures { OnOk result (out.new ≡ out.old ++ expression_faults (own (scope_of scope.now).around) (under (under (place_at at.now) (codes "for")) (codes "in")) given.now.items) }
{
    let own = Variables::Word(Standard::Input, &*scope.around);
    let rounds = Spot::Word(at, "for");
    expression(alloc, &own, &Spot::Word(&rounds, "in"), &given.items, out)
}

/// The faults of a `while`, which has the variables of the rounds.
fn guard<'x>(
    alloc: Global,
    scope: &'x Scope<'x>,
    at: &Spot<'_>,
    given: &'x ForSpec,
    out: &mut Faults,
) -> Result<(), AllocError>
    ensures { OnOk result (out.new ≡ out.old ++ condition_faults (own (given.now.each ∷ given.now.at ∷ (scope_of scope.now).around)) (under (place_at at.now) (codes "while")) given.now.guard) }
{
    let place = Variables::Name(&given.at, scope.around);
    let each = Variables::Name(&given.each, &place);
    let own = Variables::Word(Standard::Input, &each);
    condition(alloc, &own, &Spot::Word(at, "while"), &given.guard, out)
}

/// The faults of what a `call` hands over.
fn handed(
    alloc: Global,
    scope: &Scope<'_>,
    at: &Spot<'_>,
    given: &Callee,
    out: &mut Faults,
) -> Result<(), AllocError>
    ensures { OnOk result (out.new ≡ out.old ++ with_faults (own (scope_of scope.now).around) (under (place_at at.now) (codes "with")) given.now) }
{
    let own = Variables::Word(Standard::Input, &*scope.around);
    with(alloc, &own, &Spot::Word(at, "with"), given, out)
}
