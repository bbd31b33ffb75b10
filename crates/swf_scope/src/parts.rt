// The faults of what has no tasks inside.
ghost use Rattle.std.specs.Prelude.{◌≡◌, ◌++◌, OnOk};
ghost use Rattle.swf_document.specs.TemplateNode.{fields_of};
ghost use Rattle.swf_scope.specs.NamesView.{places_in};
ghost use Rattle.swf_scope.specs.ScopeView.{scope_of};
ghost use Rattle.swf_scope.specs.Spots.{place_at};
ghost use Rattle.swf_scope.specs.PartFaults.{flow_faults, error_faults, retry_faults, callee_faults, endpoint_faults, http_faults, with_faults, correlation_faults, correlations_faults, filter_faults, filter_spot, filters_faults, raise_faults};
ghost use Rattle.swf_scope.specs.VariablesView.{names_in};

use crate::expressions::{condition, expression, fields, filled, template};
use crate::names::Names;
use crate::scope::Scope;
use crate::spot::{Spot, tell_unless};
use crate::variables::{Standard, Variables};
use std::alloc::{AllocError, Global};
use swf_document::{
    Callee, Correlation, Endpoint, ErrorRef, ErrorSpec, FaultKind, Faults, Filter, Flow, HttpSpec,
    ListenMode, RetryPolicy,
};

/// The fault of a flow: it names no task of the list.
pub fn flow(
    alloc: Global,
    targets: &Names,
    at: &Spot<'_>,
    given: &Flow,
    out: &mut Faults,
) -> Result<(), AllocError>
    ensures { OnOk result (out.new ≡ out.old ++ flow_faults (places_in targets.now) (place_at at.now) given.now) }
{
    match given {
        Flow::Continue | Flow::Exit | Flow::End => Ok(()),
        Flow::Task(name) => {
            tell_unless(alloc, targets.has(name), at, FaultKind::UnknownTarget, out)
        }
    }
}

/// The faults of an error's templates.
pub fn error(
    alloc: Global,
    variables: &Variables<'_>,
    at: &Spot<'_>,
    given: &ErrorSpec,
    out: &mut Faults,
) -> Result<(), AllocError>
    ensures { OnOk result (out.new ≡ out.old ++ error_faults (names_in variables.now) (place_at at.now) given.now) }
{
    filled(
        alloc,
        variables,
        &Spot::Word(at, "detail"),
        &given.detail,
        out,
    )?;
    filled(
        alloc,
        variables,
        &Spot::Word(at, "instance"),
        &given.instance,
        out,
    )?;
    filled(
        alloc,
        variables,
        &Spot::Word(at, "title"),
        &given.title,
        out,
    )?;
    template(alloc, variables, &Spot::Word(at, "type"), &given.uri, out)
}

/// The faults of a retry policy's conditions.
pub fn retry(
    alloc: Global,
    variables: &Variables<'_>,
    at: &Spot<'_>,
    given: &RetryPolicy,
    out: &mut Faults,
) -> Result<(), AllocError>
    ensures { OnOk result (out.new ≡ out.old ++ retry_faults (names_in variables.now) (place_at at.now) given.now) }
{
    condition(
        alloc,
        variables,
        &Spot::Word(at, "exceptWhen"),
        &given.except,
        out,
    )?;
    condition(alloc, variables, &Spot::Word(at, "when"), &given.cond, out)
}

/// The fault of a `call`: it names no function.
pub fn callee(
    alloc: Global,
    functions: &Names,
    at: &Spot<'_>,
    given: &Callee,
    out: &mut Faults,
) -> Result<(), AllocError>
    ensures { OnOk result (out.new ≡ out.old ++ callee_faults (places_in functions.now) (place_at at.now) given.now) }
{
    match given {
        Callee::Http(_) => Ok(()),
        Callee::Function { name, with: _ } => {
            tell_unless(
                alloc,
                functions.has(name),
                at,
                FaultKind::UnknownFunction,
                out,
            )
        }
    }
}

/// The faults of the expression that gives an endpoint.
fn endpoint(
    alloc: Global,
    variables: &Variables<'_>,
    at: &Spot<'_>,
    given: &Endpoint,
    out: &mut Faults,
) -> Result<(), AllocError>
    ensures { OnOk result (out.new ≡ out.old ++ endpoint_faults (names_in variables.now) (place_at at.now) given.now) }
{
    match given {
        Endpoint::Pattern(_) => Ok(()),
        Endpoint::Run(expr) => expression(alloc, variables, at, expr, out),
        Endpoint::Uri(expr) => expression(alloc, variables, &Spot::Word(at, "uri"), expr, out),
    }
}

/// The faults of a request.
fn http(
    alloc: Global,
    variables: &Variables<'_>,
    at: &Spot<'_>,
    given: &HttpSpec,
    out: &mut Faults,
) -> Result<(), AllocError>
    ensures { OnOk result (out.new ≡ out.old ++ http_faults (names_in variables.now) (place_at at.now) given.now) }
{
    filled(alloc, variables, &Spot::Word(at, "body"), &given.body, out)?;
    endpoint(
        alloc,
        variables,
        &Spot::Word(at, "endpoint"),
        &given.endpoint,
        out,
    )?;
    fields(
        alloc,
        variables,
        &Spot::Word(at, "headers"),
        given.headers.as_slice(),
        out,
    )?;
    fields(
        alloc,
        variables,
        &Spot::Word(at, "query"),
        given.query.as_slice(),
        out,
    )
}

/// The faults of what a `call` hands over.
pub fn with(
    alloc: Global,
    variables: &Variables<'_>,
    at: &Spot<'_>,
    given: &Callee,
    out: &mut Faults,
) -> Result<(), AllocError>
    ensures { OnOk result (out.new ≡ out.old ++ with_faults (names_in variables.now) (place_at at.now) given.now) }
{
    match given {
        Callee::Http(request) => http(alloc, variables, at, request.get(), out),
        Callee::Function { name: _, with } => filled(alloc, variables, at, with, out),
    }
}

/// The faults of a correlation.
fn correlation(
    alloc: Global,
    variables: &Variables<'_>,
    at: &Spot<'_>,
    given: &Correlation,
    out: &mut Faults,
) -> Result<(), AllocError>
    ensures { OnOk result (out.new ≡ out.old ++ correlation_faults (names_in variables.now) (place_at at.now) given.now) }
{
    filled(
        alloc,
        variables,
        &Spot::Word(at, "expect"),
        &given.expect,
        out,
    )?;
    expression(
        alloc,
        &Variables::Nothing,
        &Spot::Word(at, "from"),
        &given.from,
        out,
    )
}

/// The faults of some correlations.
fn correlations<'x>(
    alloc: Global,
    variables: &Variables<'_>,
    at: &'x Spot<'x>,
    given: &'x [Correlation],
    out: &mut Faults,
) -> Result<(), AllocError>
    ensures { OnOk result (out.new ≡ out.old ++ correlations_faults (names_in variables.now) (place_at at.now) given.now) }
{
    for one in given {
        correlation(alloc, variables, &Spot::Name(at, &one.name), one, out)?;
    }
    Ok(())
}

/// The faults of a filter.
fn filter(
    alloc: Global,
    variables: &Variables<'_>,
    at: &Spot<'_>,
    given: &Filter,
    out: &mut Faults,
) -> Result<(), AllocError>
    ensures { OnOk result (out.new ≡ out.old ++ filter_faults (names_in variables.now) (place_at at.now) given.now) }
{
    correlations(
        alloc,
        variables,
        &Spot::Word(at, "correlate"),
        given.correlate.as_slice(),
        out,
    )?;
    fields(
        alloc,
        &Variables::Nothing,
        &Spot::Word(at, "with"),
        given.with.as_slice(),
        out,
    )
}

/// The faults of one of the filters of a `listen`.
fn filter_at(
    alloc: Global,
    variables: &Variables<'_>,
    mode: ListenMode,
    at: &Spot<'_>,
    position: usize,
    given: &Filter,
    out: &mut Faults,
) -> Result<(), AllocError>
    ensures { OnOk result (out.new ≡ out.old ++ filter_faults (names_in variables.now) (filter_spot mode (place_at at.now) position) given.now) }
{
    match mode {
        ListenMode::One => filter(alloc, variables, &Spot::Word(at, "one"), given, out),
        ListenMode::Any => {
            let list = Spot::Word(at, "any");
            filter(alloc, variables, &Spot::Item(&list, position), given, out)
        }
        ListenMode::All => {
            let list = Spot::Word(at, "all");
            filter(alloc, variables, &Spot::Item(&list, position), given, out)
        }
    }
}

/// The faults of the filters of a `listen`.
pub fn filters(
    alloc: Global,
    variables: &Variables<'_>,
    mode: ListenMode,
    at: &Spot<'_>,
    given: &[Filter],
    out: &mut Faults,
) -> Result<(), AllocError>
    ensures { OnOk result (out.new ≡ out.old ++ filters_faults (names_in variables.now) mode (place_at at.now) 0 given.now) }
{
    for (position, one) in given.iter().enumerate() {
        filter_at(alloc, variables, mode, at, position, one, out)?;
    }
    Ok(())
}

/// The faults of a `raise`.
pub fn raise(
    alloc: Global,
    scope: &Scope<'_>,
    at: &Spot<'_>,
    given: &ErrorRef,
    out: &mut Faults,
) -> Result<(), AllocError>
    ensures { OnOk result (out.new ≡ out.old ++ raise_faults (scope_of scope.now) (place_at at.now) given.now) }
{
    match given {
        ErrorRef::Named(name) => {
            tell_unless(
                alloc,
                scope.known.errors.has(name),
                at,
                FaultKind::UnknownError,
                out,
            )
        }
        ErrorRef::Written(written) => {
            error(
                alloc,
                &Variables::Word(Standard::Input, &*scope.around),
                at,
                written,
                out,
            )
        }
    }
}
