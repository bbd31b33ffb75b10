// The faults of what every task may have.
ghost use Rattle.std.specs.Prelude.{◌≡◌, ◌++◌, OnOk, codes};
ghost use Rattle.swf_document.specs.TaskNode.{kind_of};
ghost use Rattle.swf_scope.specs.Scope.{own, under, condition_faults};
ghost use Rattle.swf_scope.specs.ScopeView.{scope_of};
ghost use Rattle.swf_scope.specs.PartFaults.{flow_faults};
ghost use Rattle.swf_validate.specs.TaskFaults.{export_faults, input_faults, output_faults, middle};

use crate::kinds::{before_output, before_then};
use std::alloc::{AllocError, Global};
use swf_document::{Common, FaultKind, Faults, Kind};
use swf_scope::{Scope, Spot, Standard, Variables, condition, filled, flow, tell_unless};

/// The faults of `export`: in a branch there is none.
pub fn export(
    alloc: Global,
    scope: &Scope<'_>,
    given: &Common,
    out: &mut Faults,
) -> Result<(), AllocError>
    ensures { OnOk result (out.new ≡ out.old ++ export_faults (scope_of scope.now) given.now) }
{
    let at = Spot::Task(&given.place);
    let export = Spot::Word(&at, "export");
    let allowed = !(scope.in_branch && given.export_as.is_some());
    tell_unless(alloc, allowed, &export, FaultKind::ExportInFork, out)?;
    let own = Variables::Word(Standard::Input, &*scope.around);
    let around = Variables::Word(Standard::Output, &own);
    filled(
        alloc,
        &around,
        &Spot::Word(&export, "as"),
        &given.export_as,
        out,
    )
}

/// The faults of `if`.
fn check_if(
    alloc: Global,
    scope: &Scope<'_>,
    given: &Common,
    out: &mut Faults,
) -> Result<(), AllocError>
    ensures { OnOk result (out.new ≡ out.old ++ condition_faults (own (scope_of scope.now).around) (under given.now.place (codes "if")) given.now.cond) }
{
    let own = Variables::Word(Standard::Input, &*scope.around);
    let at = Spot::Task(&given.place);
    condition(alloc, &own, &Spot::Word(&at, "if"), &given.cond, out)
}

/// The faults of `input`.
fn input(
    alloc: Global,
    scope: &Scope<'_>,
    given: &Common,
    out: &mut Faults,
) -> Result<(), AllocError>
    ensures { OnOk result (out.new ≡ out.old ++ input_faults (scope_of scope.now) given.now) }
{
    let at = Spot::Task(&given.place);
    let input = Spot::Word(&at, "input");
    filled(
        alloc,
        &*scope.around,
        &Spot::Word(&input, "from"),
        &given.input_from,
        out,
    )
}

/// The faults of `output`.
fn output(
    alloc: Global,
    scope: &Scope<'_>,
    given: &Common,
    out: &mut Faults,
) -> Result<(), AllocError>
    ensures { OnOk result (out.new ≡ out.old ++ output_faults (scope_of scope.now) given.now) }
{
    let variables = Variables::Word(Standard::Input, &*scope.around);
    let at = Spot::Task(&given.place);
    let output = Spot::Word(&at, "output");
    filled(
        alloc,
        &variables,
        &Spot::Word(&output, "as"),
        &given.output_as,
        out,
    )
}

/// The faults of `then`.
fn then(
    alloc: Global,
    scope: &Scope<'_>,
    given: &Common,
    out: &mut Faults,
) -> Result<(), AllocError>
    ensures { OnOk result (out.new ≡ out.old ++ flow_faults (scope_of scope.now).targets (under given.now.place (codes "then")) given.now.flow) }
{
    let at = Spot::Task(&given.place);
    flow(
        alloc,
        &*scope.targets,
        &Spot::Word(&at, "then"),
        &given.flow,
        out,
    )
}

/// The faults of the members from `if` to `then`.
pub fn middle(
    alloc: Global,
    scope: &Scope<'_>,
    given: &Common,
    kind: &Kind,
    out: &mut Faults,
) -> Result<(), AllocError>
    ensures { OnOk result (out.new ≡ out.old ++ middle (scope_of scope.now) given.now (kind_of kind.now)) }
{
    let at = Spot::Task(&given.place);
    check_if(alloc, scope, given, out)?;
    input(alloc, scope, given, out)?;
    before_output(alloc, scope, &at, kind, out)?;
    output(alloc, scope, given, out)?;
    before_then(alloc, scope, &at, kind, out)?;
    then(alloc, scope, given, out)
}
