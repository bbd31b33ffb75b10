// The variables that a task's expressions see (DSL 1.0.0, "Runtime expression arguments").
ghost use Rattle.std.specs.Prelude.{◌≡◌, ◌++◌, ◌∷◌, [], ◌<◌, ◌^◌, pos, codes, IfOk, IsTrue, if◌then◌else◌};
ghost use Rattle.swf_text.specs.Same.{is_ascii};
ghost use Rattle.swf_text.specs.Pointer.{pointer};
ghost use Rattle.swf_value.specs.Value.{int, text, object, member, no_members};
ghost use Rattle.swf_meaning.specs.Line.{variable, last_part, task_value, of_workflow, with_context, of_task, before, within, is_workflow};
ghost use Rattle.swf_meaning.specs.Around.{round_variables};
ghost use Rattle.swf_meaning.specs.Parts.{kind_of};
ghost use Rattle.swf_meaning.specs.Try.{catching, retrying};
ghost use Rattle.swf_catalog.specs.Rounds.{round_of};
ghost use Rattle.swf_scene.specs.Setting.{line_of};
ghost use Rattle.swf_scene.specs.Sights.{vars_of};
ghost use Rattle.swf_catalog.specs.TaskRef.{loop_variables};

use crate::scene::Scene;
use crate::setting::push_named;
use std::alloc::{AllocError, Global};
use swf_catalog::{Iteration, Round, TaskRef, Words, Work};
use swf_document::{ForSpec, Problem, problem_value};
use swf_jq_eval::{Variable, Vars};
use swf_stack::Running;
use swf_text::{Place, Text, pointer_text, word};
use swf_value::Json;

/// Room for as many variables as most expressions see.
const MOST_OFTEN: usize = 8;

/// What expressions of a task see: variables that were made for others before, or are made for these.
#[derive(Drop)]
pub enum Sight<'a> {
    Lent(&'a Vars),
    Made(Vars),
}

impl Sight<'_> {
    /// The variables.
    pub fn vars(&self) -> &Vars
        ensures { result.now ≡ vars_of self.now }
    {
        match self {
            Sight::Lent(vars) => vars,
            Sight::Made(vars) => vars,
        }
    }
}

// Adds a variable whose name is shared.
fn push_variable(variables: &mut Vec<Variable>, name: &Text, value: Json) -> Result<(), AllocError>
    ensures { IfOk result (λ _. variables.new.items ≡ variables.old.items ++ variable name.now value ∷ []) }
{
    let name = name.copy()?;
    variables.push(Variable { name, value })?;
    Ok(())
}

// The same variable once more.
fn copy_variable(variable: &Variable) -> Result<Variable, AllocError>
    ensures { IfOk result (λ x. x ≡ variable.now) }
{
    Ok(Variable {
        name: variable.name.copy()?,
        value: variable.value.copy()?,
    })
}

// Adds these variables.
fn push_variables(variables: &mut Vec<Variable>, more: &[Variable]) -> Result<(), AllocError>
    ensures { IfOk result (λ _. variables.new.items ≡ variables.old.items ++ more.now) }
{
    for one in more {
        variables.push(copy_variable(one)?)?;
    }
    Ok(())
}

/// The same variables once more. It copies no values.
pub fn copy_variables(alloc: Global, variables: &[Variable]) -> Result<Vec<Variable>, AllocError>
    ensures { IfOk result (λ xs. xs.items ≡ variables.now) }
{
    let mut copies = Vec::new(alloc);
    push_variables(&mut copies, variables)?;
    Ok(copies)
}

// The position of an item as a value.
fn position(number: u64) -> Json
    requires { number < 2 ^ 53 }
    ensures { result ≡ int (pos number) }
{
    Json::int(number as i64)
}

// Adds the item of an iteration and its position.
fn push_iteration(
    variables: &mut Vec<Variable>,
    spec: &ForSpec,
    iteration: &Iteration,
) -> Result<(), AllocError>
    ensures { IfOk result (λ _. variables.new.items ≡ variables.old.items ++ loop_variables spec.now iteration.now) }
{
    let items = iteration.items.as_slice();
    let place = iteration.number as usize;
    if place >= items.len() {
        return Ok(());
    }
    push_variable(variables, &spec.each, items[place].copy()?)?;
    push_variable(variables, &spec.at, position(iteration.number))?;
    Ok(())
}

/// Adds what the tasks see that run in a round of a task.
pub fn push_seen(
    alloc: Global,
    variables: &mut Vec<Variable>,
    task: &TaskRef,
    round: &Round,
) -> Result<(), AllocError>
    ensures { IfOk result (λ _. variables.new.items ≡ variables.old.items ++ round_variables (kind_of task.now) (round_of round.now)) }
{
    match (task.work(), round) {
        (Work::For(spec), Round::Each(iteration)) => push_iteration(variables, spec, iteration),
        (Work::Try(spec), Round::Catch(problem)) => {
            push_variable(variables, &spec.name, problem_value(alloc, problem)?)
        }
        _ => Ok(()),
    }
}

// The name of a task, which is the last part of its place.
#[tactic(auto, using(crate::proofs::SightLemmas::last_part_is))]
fn name_at(alloc: Global, place: &Place) -> Result<Text, AllocError>
    ensures { IfOk result (λ t. t ≡ last_part place.now) }
{
    match place.as_slice().split_last() {
        Some((name, _)) => Ok(name.copy()?),
        None => word(alloc, ""),
    }
}

// The names that variables need.
fn words_of<'s>(scene: &'s Scene<'_>) -> &'s Words {
    scene.setting.document.get().words()
}

// `$task`.
fn task_value(alloc: Global, words: &Words, task: &TaskRef, raw: &Json) -> Result<Json, AllocError>
    ensures { IfOk result (λ v. v ≡ task_value task.now raw.now) }
{
    let root = Place::root(alloc);
    value_at(alloc, words, task.place_or(&root), raw)
}

// `$task` of the task at a place.
fn value_at(alloc: Global, words: &Words, place: &Place, raw: &Json) -> Result<Json, AllocError>
    ensures { IfOk result (λ v. v ≡ object (member (codes "input") raw.now (member (codes "name") (text (last_part place.now)) (member (codes "reference") (text (pointer place.now)) no_members)))) }
{
    let mut members = Vec::with_capacity(alloc, 3)?;
    push_named(&mut members, words.input(), raw.copy()?)?;
    push_named(
        &mut members,
        words.name(),
        Json::text(name_at(alloc, place)?),
    )?;
    push_named(
        &mut members,
        words.reference(),
        Json::text(pointer_text(alloc, place)?),
    )?;
    Json::object(alloc, members)
}

fn of_workflow(alloc: Global, scene: &Scene) -> Result<Vec<Variable>, AllocError>
    ensures { IfOk result (λ xs. xs.items ≡ of_workflow (line_of scene.entry.now)) }
{
    let mut variables = Vec::with_capacity(alloc, MOST_OFTEN)?;
    push_variable(
        &mut variables,
        words_of(scene).workflow(),
        scene.setting.workflow.copy()?,
    )?;
    Ok(variables)
}

fn with_context(alloc: Global, scene: &Scene) -> Result<Vec<Variable>, AllocError>
    ensures { IfOk result (λ xs. xs.items ≡ with_context (line_of scene.entry.now)) }
{
    let mut variables = of_workflow(alloc, scene)?;
    push_variable(
        &mut variables,
        words_of(scene).context(),
        scene.setting.context.copy()?,
    )?;
    Ok(variables)
}

fn of_task(
    alloc: Global,
    scene: &Scene,
    task: &TaskRef,
    raw: &Json,
) -> Result<Vec<Variable>, AllocError>
    ensures { IfOk result (λ xs. xs.items ≡ of_task (line_of scene.entry.now) task.now raw.now) }
{
    let words = words_of(scene);
    let mut variables = with_context(alloc, scene)?;
    push_variable(
        &mut variables,
        words.task(),
        task_value(alloc, words, task, raw)?,
    )?;
    push_variables(&mut variables, &scene.around)?;
    Ok(variables)
}

/// What `input.from` sees.
pub fn before(alloc: Global, scene: &Scene, task: &TaskRef, raw: &Json) -> Result<Vars, AllocError>
    ensures { IfOk result (λ r. r ≡ before (line_of scene.entry.now) task.now raw.now) }
{
    if task.is_workflow() {
        Ok(Vars::of(of_workflow(alloc, scene)?))
    } else {
        Ok(Vars::of(of_task(alloc, scene, task, raw)?))
    }
}

// What all but `input.from` see besides the values of the task itself.
fn around(alloc: Global, scene: &Scene, running: &Running) -> Result<Vec<Variable>, AllocError>
    ensures { IfOk result (λ xs. xs.items ≡ (if is_workflow running.now.task then with_context (line_of scene.entry.now) else of_task (line_of scene.entry.now) running.now.task running.now.raw)) }
{
    if running.task().is_workflow() {
        with_context(alloc, scene)
    } else {
        of_task(alloc, scene, running.task(), running.raw())
    }
}

/// What `if`, a task's own definition and `output.as` see.
pub fn within(alloc: Global, scene: &Scene, running: &Running) -> Result<Vars, AllocError>
    ensures { IfOk result (λ r. r ≡ within (line_of scene.entry.now) running.now) }
{
    let mut variables = around(alloc, scene, running)?;
    push_variable(
        &mut variables,
        words_of(scene).input(),
        running.input().copy()?,
    )?;
    Ok(Vars::of(variables))
}

/// What `export.as` sees, on the transformed output, besides what `output.as` sees.
pub fn behind(
    alloc: Global,
    scene: &Scene,
    within: &Vars,
    output: &Json,
) -> Result<Vars, AllocError>
    ensures { IfOk result (λ r. r ≡ within.now ++ variable (codes "output") output.now ∷ []) }
{
    let mut variables = Vec::with_capacity(alloc, MOST_OFTEN)?;
    push_variables(&mut variables, within.as_slice())?;
    push_variable(&mut variables, words_of(scene).output(), output.copy()?)?;
    Ok(Vars::of(variables))
}

/// What the conditions of a `catch` see.
pub fn catching(
    alloc: Global,
    scene: &Scene,
    running: &Running,
    problem: &Problem,
) -> Result<Vars, AllocError>
    ensures { IfOk result (λ r. r ≡ catching (line_of scene.entry.now) running.now problem.now) }
{
    let round = Round::Catch(problem.copy()?);
    let scene = scene.seen(alloc, running.task(), &round)?;
    Ok(Vars::of(of_task(alloc, &scene, running.task(), running.raw())?))
}

/// What the conditions of a policy see that has a name in the document.
pub fn retrying(
    alloc: Global,
    scene: &Scene,
    running: &Running,
    problem: &Problem,
) -> Result<Vars, AllocError>
    ensures { IfOk result (λ r. r ≡ retrying (line_of scene.entry.now) running.now problem.now) }
{
    let scene = scene.alone(alloc)?;
    let mut variables = of_task(alloc, &scene, running.task(), running.raw())?;
    let name = word(alloc, "error")?;
    push_variable(&mut variables, &name, problem_value(alloc, problem)?)?;
    Ok(Vars::of(variables))
}
