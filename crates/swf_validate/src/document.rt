// The faults of scope of a document.
ghost use Rattle.std.specs.Prelude.{◌≡◌, ◌++◌, ◌+◌, ◌∷◌, [], IfOk, OnOk, codes, length, map, nat_le};
ghost use Rattle.swf_document.specs.TaskNode.{tasks_of};
ghost use Rattle.swf_document.specs.declared.fault.FaultKind.TheVariants.{TooMany};
ghost use Rattle.swf_validate.specs.Calls.{calls_of};
ghost use Rattle.swf_validate.specs.Count.{count_tasks};
ghost use Rattle.swf_validate.specs.DocumentFaults.{known_in, outermost, most_tasks, workflow_variables, output_variables, errors_faults, retries_faults, functions_faults, use_faults, scope_faults};
ghost use Rattle.swf_scope.specs.Names.{nowhere};
ghost use Rattle.swf_scope.specs.Scope.{fault_unless, filled_faults};
ghost use Rattle.swf_scope.specs.ScopeView.{known_of, scope_of};
ghost use Rattle.swf_scope.specs.Spots.{place_at};
ghost use Rattle.swf_validate.specs.TaskFaults.{task_faults};

use crate::calls::calls_of;
use crate::count::add_tasks;
use crate::tasks::{list, task};
use std::alloc::{AllocError, Global};
use swf_cycles::calling_themselves;
use swf_document::{Document, FaultKind, Faults, Named, NamedError, NamedRetry};
use swf_scope::{
    Known, Names, Scope, Spot, Standard, Variables, error, filled, names_of_errors,
    names_of_retries, names_of_tasks, retry, tell_unless,
};

/// How many tasks a document may have.
const MOST_TASKS: usize = 4096;

/// The names in a document's `use`.
fn known_in(alloc: Global, document: &Document) -> Result<Known, AllocError>
    ensures { IfOk result (λ known. known_of known ≡ known_in document.now) }
{
    let functions = names_of_tasks(alloc, document.functions.as_slice())?;
    let errors = names_of_errors(alloc, document.errors.as_slice())?;
    let retries = names_of_retries(alloc, document.retries.as_slice())?;
    Ok(Known {
        functions,
        errors,
        retries,
    })
}

/// The fault of a document that has too many tasks.
fn size(alloc: Global, document: &Document, out: &mut Faults) -> Result<(), AllocError>
    ensures { OnOk result (out.new ≡ out.old ++ fault_unless (nat_le (count_tasks document.now.tasks + count_tasks document.now.functions) most_tasks) [] TooMany) }
{
    let tasks = add_tasks(0, &document.tasks, MOST_TASKS + 1);
    let all = add_tasks(tasks, &document.functions, MOST_TASKS + 1);
    let root = Spot::Root;
    tell_unless(alloc, all <= MOST_TASKS, &root, FaultKind::TooMany, out)
}

/// The faults of the `input` of a workflow.
fn input(alloc: Global, document: &Document, out: &mut Faults) -> Result<(), AllocError>
    ensures { OnOk result (out.new ≡ out.old ++ filled_faults workflow_variables (codes "input" ∷ codes "from" ∷ []) document.now.input_from) }
{
    let nothing = Variables::Nothing;
    let workflow = Variables::Word(Standard::Workflow, &nothing);
    let root = Spot::Root;
    let input = Spot::Word(&root, "input");
    filled(
        alloc,
        &workflow,
        &Spot::Word(&input, "from"),
        &document.input_from,
        out,
    )
}

/// The faults of the `output` of a workflow.
fn output(alloc: Global, document: &Document, out: &mut Faults) -> Result<(), AllocError>
    ensures { OnOk result (out.new ≡ out.old ++ filled_faults output_variables (codes "output" ∷ codes "as" ∷ []) document.now.output_as) }
{
    let nothing = Variables::Nothing;
    let workflow = Variables::Word(Standard::Workflow, &nothing);
    let context = Variables::Word(Standard::Context, &workflow);
    let own = Variables::Word(Standard::Input, &context);
    let root = Spot::Root;
    let output = Spot::Word(&root, "output");
    filled(
        alloc,
        &own,
        &Spot::Word(&output, "as"),
        &document.output_as,
        out,
    )
}

/// The faults of errors with names.
fn errors(alloc: Global, given: &[NamedError], out: &mut Faults) -> Result<(), AllocError>
    ensures { OnOk result (out.new ≡ out.old ++ errors_faults (codes "use" ∷ codes "errors" ∷ []) given.now) }
{
    let nothing = Variables::Nothing;
    let workflow = Variables::Word(Standard::Workflow, &nothing);
    let context = Variables::Word(Standard::Context, &workflow);
    let task = Variables::Word(Standard::Task, &context);
    let own = Variables::Word(Standard::Input, &task);
    let root = Spot::Root;
    let used = Spot::Word(&root, "use");
    let at = Spot::Word(&used, "errors");
    for one in given {
        error(alloc, &own, &Spot::Name(&at, &one.name), &one.error, out)?;
    }
    Ok(())
}

/// The faults of retry policies with names.
fn retries(alloc: Global, given: &[NamedRetry], out: &mut Faults) -> Result<(), AllocError>
    ensures { OnOk result (out.new ≡ out.old ++ retries_faults (codes "use" ∷ codes "retries" ∷ []) given.now) }
{
    let nothing = Variables::Nothing;
    let workflow = Variables::Word(Standard::Workflow, &nothing);
    let context = Variables::Word(Standard::Context, &workflow);
    let task = Variables::Word(Standard::Task, &context);
    let caught = Variables::Word(Standard::Error, &task);
    let root = Spot::Root;
    let used = Spot::Word(&root, "use");
    let at = Spot::Word(&used, "retries");
    for one in given {
        retry(
            alloc,
            &caught,
            &Spot::Name(&at, &one.name),
            &one.policy,
            out,
        )?;
    }
    Ok(())
}

/// The faults of functions, each a task.
fn functions(
    alloc: Global,
    scope: &Scope<'_>,
    given: &[Named],
    out: &mut Faults,
) -> Result<(), AllocError>
    ensures { OnOk result (out.new ≡ out.old ++ functions_faults (scope_of scope.now) (calls_of (scope_of scope.now).known.functions (tasks_of given.now)) 0 (tasks_of given.now)) }
{
    let called = calls_of(alloc, &scope.known.functions, given)?;
    let cycles = calling_themselves(alloc, &called)?;
    for (function, one) in given.iter().enumerate() {
        let at = Spot::Task(&one.task.common.place);
        tell_unless(alloc, !cycles[function], &at, FaultKind::FunctionCycle, out)?;
        task(alloc, scope, &one.task, out)?;
    }
    Ok(())
}

/// The faults of what tasks use by name.
fn used(
    alloc: Global,
    document: &Document,
    scope: &Scope<'_>,
    out: &mut Faults,
) -> Result<(), AllocError>
    requires { scope_of scope.now ≡ outermost document.now }
    ensures { OnOk result (out.new ≡ out.old ++ use_faults document.now) }
{
    errors(alloc, document.errors.as_slice(), out)?;
    functions(alloc, scope, document.functions.as_slice(), out)?;
    retries(alloc, document.retries.as_slice(), out)
}

/// The faults of all members of a document.
fn whole(
    alloc: Global,
    document: &Document,
    scope: &Scope<'_>,
    out: &mut Faults,
) -> Result<(), AllocError>
    requires { scope_of scope.now ≡ outermost document.now }
    ensures { OnOk result (out.new ≡ out.old ++ scope_faults document.now) }
{
    size(alloc, document, out)?;
    list(alloc, scope, &document.tasks, out)?;
    input(alloc, document, out)?;
    output(alloc, document, out)?;
    used(alloc, document, scope, out)
}

/// All faults of scope of a document.
pub fn scope_faults(alloc: Global, document: &Document) -> Result<Faults, AllocError>
    ensures { IfOk result (λ faults. faults ≡ scope_faults document.now) }
{
    let known = known_in(alloc, document)?;
    faults_by(alloc, document, &known)
}

// All faults of scope of a document that gives these names.
fn faults_by(alloc: Global, document: &Document, known: &Known) -> Result<Faults, AllocError>
    requires { known_of known.now ≡ known_in document.now }
    ensures { IfOk result (λ faults. faults ≡ scope_faults document.now) }
{
    let targets = Names::new(alloc);
    let nothing = Variables::Nothing;
    let workflow = Variables::Word(Standard::Workflow, &nothing);
    let context = Variables::Word(Standard::Context, &workflow);
    let around = Variables::Word(Standard::Task, &context);
    let scope = Scope {
        known,
        targets: &targets,
        in_branch: false,
        around: &around,
    };
    let mut out = Faults::new(alloc);
    whole(alloc, document, &scope, &mut out)?;
    Ok(out)
}
