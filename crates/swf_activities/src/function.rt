// A function that is called, and a workflow that is run (DSL 1.0.0, reference, "Function Call" and "Run").
ghost use Rattle.std.specs.Prelude.{◌≡◌, IfOk, Ok, nat_le, option_map};
ghost use Rattle.swf_meaning.specs.Documents.{document_at, resolved};
ghost use Rattle.swf_meaning.specs.Function.{calling, input_by, most_depth, running, runs_inside};
ghost use Rattle.swf_catalog.specs.Rounds.{round_of};
ghost use Rattle.swf_rule.specs.Rules.{line_in, site_in};
ghost use Rattle.swf_scene.specs.Halts.{Gives, Makes};

use std::alloc::AllocError;
use swf_catalog::{Round, SharedDocument, SubWorkflow, TaskRef};
use swf_document::{DocKey, ErrorKind, RunSpec, Template};
use swf_rule::Rule;
use swf_scene::Halt;
use swf_stack::{Made, Top};
use swf_text::Text;
use swf_transform::transform;
use swf_value::Json;

/// How many functions and sub-workflows may be around each other.
const MOST_DEPTH: u64 = 16;

// Whether no more functions and sub-workflows may be around each other.
fn is_deepest(rule: &Rule) -> bool
    ensures { result ≡ nat_le most_depth (line_in rule.now).depth }
{
    MOST_DEPTH <= rule.scene.depth
}

// The input of what is called: what a template gives, and else that of the task.
fn input_by(rule: &Rule, template: Option<&Template>) -> Result<Json, Halt>
    ensures { Gives (input_by (line_in rule.now) rule.now.running.now (option_map (λ t. t.now) template.entry)) result }
{
    let sight = rule.within()?;
    rule.value_of(transform(rule.alloc, template, sight.vars(), rule.running.input())?)
}

// A task begins in a round of this one.
fn runs_inside(rule: &Rule, round: Round, task: TaskRef, input: Json) -> Result<Made, Halt>
    ensures { Makes (line_in rule.now) (Ok (runs_inside (line_in rule.now) rule.now.running.now (round_of round) task input)) result }
{
    let top = Top::Fresh { task, raw: input };
    Ok(rule.holding(round, 0, top)?)
}

/// A `call` of a function runs its task. There may be 16 functions and sub-workflows around each other.
pub fn calling(rule: &Rule, name: &Text, with: Option<&Template>) -> Result<Made, Halt>
    ensures { Makes (line_in rule.now) (calling (line_in rule.now) rule.now.running.now name.now (option_map (λ t. t.now) with.entry)) result }
{
    if is_deepest(rule) {
        return Err(rule.fails(ErrorKind::Runtime, "depth limit"));
    }
    let input = input_by(rule, with)?;
    let Some(task) = TaskRef::function(&rule.scene.setting.document, name)? else {
        return Err(rule.fails(ErrorKind::Configuration, "unknown function"));
    };
    runs_inside(rule, Round::Function, task, input)
}

// The loaded document of a key, whose version may be `latest`.
fn document_of(rule: &Rule, key: &DocKey) -> Result<Option<SharedDocument>, AllocError>
    ensures { IfOk result (λ o. o ≡ document_at (resolved (site_in rule.now).documents key.now) (site_in rule.now).documents) }
{
    let scene = rule.scene;
    let documents = scene.site.documents;
    let key = documents.resolved(key.copy()?)?;
    match documents.get(&key) {
        Some(document) => Ok(Some(document.copy()?)),
        None => Ok(None),
    }
}

/// A `run` runs the workflow of a loaded document on a context of its own. There may be 16 functions and sub-workflows around each
/// other.
pub fn running(rule: &Rule, spec: &RunSpec) -> Result<Made, Halt>
    ensures { Makes (line_in rule.now) (running (site_in rule.now) (line_in rule.now) rule.now.running.now spec.now) result }
{
    if is_deepest(rule) {
        return Err(rule.fails(ErrorKind::Runtime, "depth limit"));
    }
    let input = input_by(rule, spec.input.as_ref())?;
    let Some(document) = document_of(rule, &spec.key)? else {
        return Err(rule.fails(ErrorKind::Configuration, "unknown workflow"));
    };
    let task = TaskRef::workflow(document.copy()?);
    let round = Round::SubWorkflow(SubWorkflow {
        document,
        input: input.copy()?,
        context: Json::null(),
    });
    runs_inside(rule, round, task, input)
}
