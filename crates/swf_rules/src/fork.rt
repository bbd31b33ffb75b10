// A `fork` (DSL 1.0.0, reference, "Fork").
ghost use Rattle.std.specs.Prelude.{◌≡◌, ◌+◌, nat_le};
ghost use Rattle.swf_document.specs.Task.{fork};
ghost use Rattle.swf_document.specs.TaskNode.{tasks_of};
ghost use Rattle.swf_meaning.specs.Fork.{branches_of, most_branches, fresh, split, forking};
ghost use Rattle.swf_meaning.specs.Parts.{kind_of};
ghost use Rattle.swf_rule.specs.Rules.{line_in, site_in};
ghost use Rattle.swf_rules.specs.Settles.{ending, MakesSome};
ghost use Rattle.swf_scene.specs.Halts.{Makes};

use swf_document::{ErrorKind, Flow, ForkSpec, Named};
use swf_rule::{Rule, becoming, finished};
use swf_scene::Halt;
use swf_stack::{Made, Top};
use swf_value::Json;

/// How many branches an instance may have.
const MOST_BRANCHES: usize = 256;

// Whether the instance has room for so many more branches.
fn has_room(rule: &Rule, more: usize) -> bool
    ensures { result ≡ nat_le ((site_in rule.now).branches + more) most_branches }
{
    more <= MOST_BRANCHES && rule.scene.branches <= MOST_BRANCHES - more
}

/// A `fork` begins where the instance has room for its branches.
#[tactic(auto, using(crate::proofs::ForkLemmas::count_fresh))]
pub fn forking(rule: &Rule, spec: &ForkSpec) -> Result<Made, Halt>
    requires { kind_of rule.now.running.now.task ≡ fork spec.now.compete spec.now.branches }
    ensures { Makes (line_in rule.now) (forking (site_in rule.now) (line_in rule.now) rule.now.running.now spec.now.branches) result }
{
    let branches = spec.branches.as_slice();
    if has_room(rule, branches.len()) {
        split(rule, branches)
    } else {
        Err(rule.fails(ErrorKind::Runtime, "strand limit"))
    }
}

// Its branches begin. A `fork` without any is complete.
fn split(rule: &Rule, branches: &[Named]) -> Result<Made, Halt>
    requires { branches_of rule.now.running.now.task ≡ tasks_of branches.now }
    ensures { Makes (line_in rule.now) (split (line_in rule.now) rule.now.running.now (fresh (tasks_of branches.now) rule.now.running.now.input)) result }
{
    if branches.is_empty() {
        return rule.complete(Json::list(rule.alloc, Vec::new(rule.alloc))?);
    }
    let top = Top::Forked(rule.running.copy()?);
    Ok(becoming(rule.alloc, top)?)
}

/// What becomes of a `fork` one of whose branches ended, with the outputs of all once all are done; none where the others go
/// on.
pub fn settled(
    rule: &Rule,
    compete: bool,
    ended: &Top,
    outputs: Option<Json>,
) -> Result<Option<Made>, Halt>
    ensures { MakesSome (line_in rule.now) (ending (line_in rule.now) rule.now.running.now compete outputs ended.now) result }
{
    match ended {
        Top::Fault(problem) => Err(Halt::Fault(problem.copy()?)),
        Top::Done {
            output,
            flow: Flow::End,
        } => Ok(Some(finished(rule.alloc, output.copy()?, Flow::End)?)),
        Top::Done { output, .. } if compete => Ok(Some(rule.complete(output.copy()?)?)),
        Top::Done { .. } => match outputs {
            Some(outputs) => Ok(Some(rule.complete(outputs)?)),
            None => Ok(None),
        },
        _ => Ok(None),
    }
}
