// Which case of a `switch` is taken (DSL 1.0.0, reference, "Switch").
ghost use Rattle.std.specs.Prelude.{◌≡◌, IfOk, option_map};
ghost use Rattle.swf_meaning.specs.Complete.{complete_by};
ghost use Rattle.swf_meaning.specs.Switch.{default_of, flow_by, is_taken, switched};
ghost use Rattle.swf_rule.specs.Rules.{line_in};
ghost use Rattle.swf_scene.specs.Halts.{Gives, Makes};

use std::alloc::AllocError;
use swf_document::{Case, Flow};
use swf_rule::Rule;
use swf_scene::Halt;
use swf_stack::Made;

// The first case without `when`.
fn default_of(cases: &[Case]) -> Option<&Case>
    ensures { option_map (λ c. c.now) result ≡ default_of cases.now }
{
    for case in cases {
        if case.cond.is_none() {
            return Some(case);
        }
    }
    None
}

// Whether a case is taken, which is one with a `when` that is true.
fn is_taken(rule: &Rule, case: &Case) -> Result<bool, Halt>
    ensures { Gives (is_taken (line_in rule.now) rule.now.running.now case.now.cond) result }
{
    match &case.cond {
        None => Ok(false),
        Some(condition) => {
            let sight = rule.within()?;
            rule.asked(sight.vars(), rule.running.input(), condition.get())
        }
    }
}

// Where control goes by a case.
fn flow_by(rule: &Rule, case: Option<&Case>) -> Result<Flow, AllocError>
    ensures { IfOk result (λ f. f ≡ flow_by rule.now.running.now.task (option_map (λ c. c.now) case.entry)) }
{
    match case {
        Some(
            Case {
                flow: Some(flow),
                ..
            },
        ) => flow.copy(),
        _ => rule.running.task().flow(),
    }
}

// The task is complete, and control goes by a case.
fn goes_by(rule: &Rule, case: Option<&Case>) -> Result<Made, Halt>
    ensures { Makes (line_in rule.now) (complete_by (line_in rule.now) rule.now.running.now (flow_by rule.now.running.now.task (option_map (λ c. c.now) case.entry)) rule.now.running.now.input) result }
{
    let flow = flow_by(rule, case)?;
    rule.complete_by(flow, rule.running.input().copy()?)
}

/// A `switch` takes the first case whose `when` is true, and else the first without one.
pub fn switched(rule: &Rule, cases: &[Case]) -> Result<Made, Halt>
    ensures { Makes (line_in rule.now) (switched (line_in rule.now) rule.now.running.now cases.now) result }
{
    for case in cases {
        if is_taken(rule, case)? {
            return goes_by(rule, Some(case));
        }
    }
    goes_by(rule, default_of(cases))
}
