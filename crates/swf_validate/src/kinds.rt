// The faults of the parts of one kind of task that have no tasks inside.
ghost use Rattle.std.specs.Prelude.{◌≡◌, ◌++◌, OnOk, codes, nat_le};
ghost use Rattle.swf_document.specs.TaskNode.{kind_of, tasks_of};
ghost use Rattle.swf_document.specs.declared.fault.FaultKind.TheVariants.{TooMany};
ghost use Rattle.swf_scope.specs.Names.{nowhere};
ghost use Rattle.swf_scope.specs.NamesView.{places_in};
ghost use Rattle.swf_scope.specs.Scope.{own, under, fault_unless, filled_faults, template_faults};
ghost use Rattle.swf_scope.specs.ScopeView.{scope_of, caught_by};
ghost use Rattle.swf_scope.specs.Spots.{place_at};
ghost use Rattle.swf_scope.specs.PartFaults.{filters_faults, raise_faults};
ghost use Rattle.swf_validate.specs.TaskFaults.{before_output, before_then, case_faults, case_flow_faults, cases_faults, catch_faults, catch_retry_faults, count_list, most_branches, size_faults};

use std::alloc::{AllocError, Global};
use swf_document::{
    Case, ErrorRef, FaultKind, Faults, Flow, Kind, ListenSpec, RetryRef, RunSpec, Tasks, Template,
    TrySpec,
};
use swf_scope::{
    Names, Scope, Spot, Standard, Variables, condition, filled, filters, flow, raise, retry,
    tell_unless, template,
};

/// How many branches a `fork` may have.
const MOST_BRANCHES: usize = 64;

/// The fault of a fork that has too many branches.
pub fn fork_size(
    alloc: Global,
    at: &Spot<'_>,
    given: &Kind,
    out: &mut Faults,
) -> Result<(), AllocError>
    ensures { OnOk result (out.new ≡ out.old ++ size_faults (place_at at.now) (kind_of given.now)) }
{
    match given {
        Kind::Fork(spec) => branches(alloc, at, &spec.branches, out),
        Kind::Call(_)
        | Kind::Do(_)
        | Kind::Emit(_)
        | Kind::For(_)
        | Kind::Listen(_)
        | Kind::Raise(_)
        | Kind::Run(_)
        | Kind::Set(_)
        | Kind::Switch(_)
        | Kind::Try(_)
        | Kind::Wait(_) => Ok(()),
    }
}

/// The fault of too many branches.
fn branches(alloc: Global, at: &Spot<'_>, given: &Tasks, out: &mut Faults) -> Result<(), AllocError>
    ensures { OnOk result (out.new ≡ out.old ++ fault_unless (nat_le (count_list given.now) most_branches) (place_at at.now) TooMany) }
{
    let fits = given.as_slice().len() <= MOST_BRANCHES;
    tell_unless(alloc, fits, at, FaultKind::TooMany, out)
}

/// The faults of the member `listen`.
pub fn before_output(
    alloc: Global,
    scope: &Scope<'_>,
    at: &Spot<'_>,
    given: &Kind,
    out: &mut Faults,
) -> Result<(), AllocError>
    ensures { OnOk result (out.new ≡ out.old ++ before_output (scope_of scope.now) (place_at at.now) (kind_of given.now)) }
{
    match given {
        Kind::Listen(spec) => listen(alloc, scope, at, spec, out),
        Kind::Call(_)
        | Kind::Do(_)
        | Kind::Emit(_)
        | Kind::For(_)
        | Kind::Fork(_)
        | Kind::Raise(_)
        | Kind::Run(_)
        | Kind::Set(_)
        | Kind::Switch(_)
        | Kind::Try(_)
        | Kind::Wait(_) => Ok(()),
    }
}

/// The faults of what a `listen` waits for.
fn listen(
    alloc: Global,
    scope: &Scope<'_>,
    at: &Spot<'_>,
    given: &ListenSpec,
    out: &mut Faults,
) -> Result<(), AllocError>
    ensures { OnOk result (out.new ≡ out.old ++ filters_faults (own (scope_of scope.now).around) given.now.mode (under (under (place_at at.now) (codes "listen")) (codes "to")) 0 given.now.filters) }
{
    let own = Variables::Word(Standard::Input, &*scope.around);
    let listen = Spot::Word(at, "listen");
    let to = Spot::Word(&listen, "to");
    filters(alloc, &own, given.mode, &to, given.filters.as_slice(), out)
}

/// The faults of the members `raise`, `run`, `set` and `switch`.
pub fn before_then(
    alloc: Global,
    scope: &Scope<'_>,
    at: &Spot<'_>,
    given: &Kind,
    out: &mut Faults,
) -> Result<(), AllocError>
    ensures { OnOk result (out.new ≡ out.old ++ before_then (scope_of scope.now) (place_at at.now) (kind_of given.now)) }
{
    match given {
        Kind::Raise(error) => raised(alloc, scope, at, error, out),
        Kind::Run(spec) => run(alloc, scope, at, spec, out),
        Kind::Set(value) => set(alloc, scope, at, value, out),
        Kind::Switch(given) => cases(
            alloc,
            scope,
            &Spot::Word(at, "switch"),
            given.as_slice(),
            out,
        ),
        Kind::Call(_)
        | Kind::Do(_)
        | Kind::Emit(_)
        | Kind::For(_)
        | Kind::Fork(_)
        | Kind::Listen(_)
        | Kind::Try(_)
        | Kind::Wait(_) => Ok(()),
    }
}

/// The faults of a `raise`.
fn raised(
    alloc: Global,
    scope: &Scope<'_>,
    at: &Spot<'_>,
    given: &ErrorRef,
    out: &mut Faults,
) -> Result<(), AllocError>
    ensures { OnOk result (out.new ≡ out.old ++ raise_faults (scope_of scope.now) (under (under (place_at at.now) (codes "raise")) (codes "error")) given.now) }
{
    let raised = Spot::Word(at, "raise");
    raise(alloc, scope, &Spot::Word(&raised, "error"), given, out)
}

/// The faults of what a `run` hands over.
fn run(
    alloc: Global,
    scope: &Scope<'_>,
    at: &Spot<'_>,
    given: &RunSpec,
    out: &mut Faults,
) -> Result<(), AllocError>
    ensures { OnOk result (out.new ≡ out.old ++ filled_faults (own (scope_of scope.now).around) (under (under (under (place_at at.now) (codes "run")) (codes "workflow")) (codes "input")) given.now.input) }
{
    let own = Variables::Word(Standard::Input, &*scope.around);
    let run = Spot::Word(at, "run");
    let workflow = Spot::Word(&run, "workflow");
    filled(
        alloc,
        &own,
        &Spot::Word(&workflow, "input"),
        &given.input,
        out,
    )
}

/// The faults of a `set`.
fn set(
    alloc: Global,
    scope: &Scope<'_>,
    at: &Spot<'_>,
    given: &Template,
    out: &mut Faults,
) -> Result<(), AllocError>
    ensures { OnOk result (out.new ≡ out.old ++ template_faults (own (scope_of scope.now).around) (under (place_at at.now) (codes "set")) given.now) }
{
    let own = Variables::Word(Standard::Input, &*scope.around);
    template(alloc, &own, &Spot::Word(at, "set"), given, out)
}

/// The faults of the cases of a `switch`.
fn cases<'x>(
    alloc: Global,
    scope: &Scope<'_>,
    at: &'x Spot<'x>,
    given: &'x [Case],
    out: &mut Faults,
) -> Result<(), AllocError>
    ensures { OnOk result (out.new ≡ out.old ++ cases_faults (scope_of scope.now) nowhere (place_at at.now) 0 given.now) }
{
    let mut seen = Names::new(alloc);
    cases_after(alloc, scope, at, &mut seen, given, out)
}

// The faults of the cases of a `switch` after these names.
fn cases_after<'x>(
    alloc: Global,
    scope: &Scope<'_>,
    at: &'x Spot<'x>,
    seen: &mut Names,
    given: &'x [Case],
    out: &mut Faults,
) -> Result<(), AllocError>
    ensures { OnOk result (out.new ≡ out.old ++ cases_faults (scope_of scope.now) (places_in seen.old) (place_at at.now) 0 given.now) }
{
    for (position, one) in given.iter().enumerate() {
        let item = Spot::Item(at, position);
        let fresh = seen.add(&one.name, position)?;
        let at = Spot::Name(&item, &one.name);
        tell_unless(alloc, fresh, &at, FaultKind::DuplicateName, out)?;
        case(alloc, scope, &at, one, out)?;
    }
    Ok(())
}

/// The faults of a case, apart from its name.
fn case(
    alloc: Global,
    scope: &Scope<'_>,
    at: &Spot<'_>,
    given: &Case,
    out: &mut Faults,
) -> Result<(), AllocError>
    ensures { OnOk result (out.new ≡ out.old ++ case_faults (scope_of scope.now) (place_at at.now) given.now) }
{
    case_flow(alloc, scope, &Spot::Word(at, "then"), given, out)?;
    let own = Variables::Word(Standard::Input, &*scope.around);
    condition(alloc, &own, &Spot::Word(at, "when"), &given.cond, out)
}

/// The fault of a case's flow.
fn case_flow(
    alloc: Global,
    scope: &Scope<'_>,
    at: &Spot<'_>,
    given: &Case,
    out: &mut Faults,
) -> Result<(), AllocError>
    ensures { OnOk result (out.new ≡ out.old ++ case_flow_faults (scope_of scope.now).targets (place_at at.now) given.now.flow) }
{
    match &given.flow {
        None => Ok(()),
        Some(given) => flow(alloc, &*scope.targets, at, given, out),
    }
}

/// The faults of a `catch` apart from its tasks.
pub fn caught(
    alloc: Global,
    scope: &Scope<'_>,
    at: &Spot<'_>,
    given: &TrySpec,
    out: &mut Faults,
) -> Result<(), AllocError>
    ensures { OnOk result (out.new ≡ out.old ++ catch_faults (scope_of scope.now) (place_at at.now) (caught_by given.now)) }
{
    condition(
        alloc,
        &*scope.around,
        &Spot::Word(at, "exceptWhen"),
        &given.except,
        out,
    )?;
    catch_retry(alloc, scope, &Spot::Word(at, "retry"), given, out)?;
    condition(
        alloc,
        &*scope.around,
        &Spot::Word(at, "when"),
        &given.cond,
        out,
    )
}

/// The faults of the retry of a `catch`.
fn catch_retry(
    alloc: Global,
    scope: &Scope<'_>,
    at: &Spot<'_>,
    given: &TrySpec,
    out: &mut Faults,
) -> Result<(), AllocError>
    ensures { OnOk result (out.new ≡ out.old ++ catch_retry_faults (scope_of scope.now) (place_at at.now) given.now.retry) }
{
    let Some(given) = &given.retry else {
        return Ok(());
    };
    match given.get() {
        RetryRef::Named(name) => {
            tell_unless(
                alloc,
                scope.known.retries.has(name),
                at,
                FaultKind::UnknownRetry,
                out,
            )
        }
        RetryRef::Written(policy) => retry(alloc, &*scope.around, at, policy, out),
    }
}
