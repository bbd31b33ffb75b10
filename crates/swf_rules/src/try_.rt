// What becomes of an error inside a `try` (DSL 1.0.0, reference, "Try", "Catch" and "Retry").
ghost use Rattle.std.specs.Prelude.{◌≡◌, IfOk, option_map};
ghost use Rattle.swf_document.specs.TaskNode.{handler_of};
ghost use Rattle.swf_meaning.specs.Try.{allows, retry_named, unless, conditions, is_retried, or_unknown, policy_of, policy_sees, untried, retried, verdict, by_verdict, caught};
ghost use Rattle.swf_rule.specs.Rules.{line_in, site_in};
ghost use Rattle.swf_rules.specs.Verdicts.{verdict_of, Finds};
ghost use Rattle.swf_scene.specs.Halts.{Gives, Makes};
ghost use Rattle.swf_catalog.specs.TaskRef.{catch_of};

use crate::lists::comes_to;
use crate::wait::later;
use std::alloc::AllocError;
use swf_catalog::Round;
use swf_document::{
    ErrorKind, NamedRetry, Problem, RetryPolicy, RetryRef, TrySpec, matches_filter, unboxed,
};
use swf_expr::Expr;
use swf_jq_eval::Vars;
use swf_rule::Rule;
use swf_scene::{Halt, catching, retrying};
use swf_stack::Made;
use swf_text::{Text, same_texts};

/// What is done about an error: it passes, since it is not caught; the list is tried again after a delay, in milliseconds; another
/// list handles it; it stays, since no retry is left; or it is given up, and the task is complete.
#[derive(Clone, Copy, Debug, PartialEq, Eq)]
pub enum Verdict {
    Pass,
    Again(u64),
    Handle,
    Stay,
    Give,
}

// Whether a policy allows one more retry after so many.
fn allows(policy: &RetryPolicy, retries: u64) -> bool
    ensures { result ≡ allows policy.now.count retries }
{
    match policy.count {
        None => true,
        Some(count) => retries < count,
    }
}

// The policy of a name.
fn retry_named<'a>(name: &Text, retries: &'a [NamedRetry]) -> Option<&'a RetryPolicy>
    ensures { option_map (λ r. r.now) result ≡ retry_named name.now retries.now }
{
    for named in retries {
        if same_texts(&named.name, name) {
            return Some(&named.policy);
        }
    }
    None
}

// What is done about an error that is not tried again, where there is a policy or not.
fn untried(spec: &TrySpec, has_policy: bool) -> Verdict
    ensures { verdict_of result ≡ untried (handler_of spec.now.handler) has_policy }
{
    if spec.handler.is_some() {
        Verdict::Handle
    } else if has_policy {
        Verdict::Stay
    } else {
        Verdict::Give
    }
}

// Whether an `exceptWhen` is false or absent.
fn unless(rule: &Rule, vars: &Vars, except: Option<&Expr>) -> Result<bool, Halt>
    ensures { Gives (unless rule.now.running.now.task vars.now rule.now.running.now.input (option_map (λ e. e.now) except.entry)) result }
{
    match except {
        None => Ok(true),
        Some(condition) => Ok(!rule.asked(vars, rule.running.input(), condition)?),
    }
}

// Whether a `when` is true or absent, and an `exceptWhen` false or absent.
fn conditions(
    rule: &Rule,
    vars: &Vars,
    when: Option<&Expr>,
    except: Option<&Expr>,
) -> Result<bool, Halt>
    ensures { Gives (conditions rule.now.running.now.task vars.now rule.now.running.now.input (option_map (λ e. e.now) when.entry) (option_map (λ e. e.now) except.entry)) result }
{
    match when {
        None => unless(rule, vars, except),
        Some(condition) => {
            if rule.asked(vars, rule.running.input(), condition)? {
                unless(rule, vars, except)
            } else {
                Ok(false)
            }
        }
    }
}

// Whether a policy allows one more retry after so many.
fn is_retried(rule: &Rule, vars: &Vars, retries: u64, policy: &RetryPolicy) -> Result<bool, Halt>
    ensures { Gives (is_retried rule.now.running.now.task vars.now rule.now.running.now.input retries policy.now) result }
{
    if !allows(policy, retries) {
        return Ok(false);
    }
    conditions(rule, vars, unboxed(&policy.cond), unboxed(&policy.except))
}

// The policy, which is written there or has a name in the document.
fn policy_of<'p>(rule: &'p Rule, reference: &'p RetryRef) -> Option<&'p RetryPolicy>
    ensures { or_unknown rule.now.running.now.task (option_map (λ q. q.now) result) ≡ policy_of (line_in rule.now) rule.now.running.now reference.now }
{
    match reference {
        RetryRef::Written(policy) => Some(policy),
        RetryRef::Named(name) => {
            let document = rule.scene.setting.document.get().document();
            retry_named(name, document.retries.as_slice())
        }
    }
}

// What the conditions of the policy see.
fn policy_sees(rule: &Rule, problem: &Problem, reference: &RetryRef) -> Result<Vars, AllocError>
    ensures { IfOk result (λ r. r ≡ policy_sees (line_in rule.now) rule.now.running.now problem.now reference.now) }
{
    match reference {
        RetryRef::Written(_) => catching(rule.alloc, rule.scene, rule.running, problem),
        RetryRef::Named(_) => retrying(rule.alloc, rule.scene, rule.running, problem),
    }
}

// What is done about an error that was caught after so many retries.
fn retried(rule: &Rule, retries: u64, problem: &Problem, spec: &TrySpec) -> Result<Verdict, Halt>
    ensures { Finds (retried (line_in rule.now) rule.now.running.now retries problem.now (handler_of spec.now.handler) spec.now.retry) result }
{
    let Some(reference) = &spec.retry else {
        return Ok(untried(spec, false));
    };
    let reference = reference.get();
    let Some(policy) = policy_of(rule, reference) else {
        return Err(rule.fails(ErrorKind::Configuration, "unknown retry"));
    };
    let vars = policy_sees(rule, problem, reference)?;
    if is_retried(rule, &vars, retries, policy)? {
        Ok(Verdict::Again(policy.delay))
    } else {
        Ok(untried(spec, true))
    }
}

// An error of the list after so many retries is caught where the filter matches and the conditions hold.
fn find_verdict(
    rule: &Rule,
    retries: u64,
    problem: &Problem,
    spec: &TrySpec,
) -> Result<Verdict, Halt>
    ensures { Finds (verdict (line_in rule.now) rule.now.running.now retries problem.now (catch_of spec.now) (handler_of spec.now.handler)) result }
{
    if !matches_filter(spec.errors.get(), problem) {
        return Ok(Verdict::Pass);
    }
    let vars = catching(rule.alloc, rule.scene, rule.running, problem)?;
    if conditions(rule, &vars, unboxed(&spec.cond), unboxed(&spec.except))? {
        retried(rule, retries, problem, spec)
    } else {
        Ok(Verdict::Pass)
    }
}

// What a verdict leads to.
fn by_verdict(rule: &Rule, retries: u64, problem: &Problem, verdict: Verdict) -> Result<Made, Halt>
    ensures { Makes (line_in rule.now) (by_verdict (site_in rule.now) (line_in rule.now) rule.now.running.now retries problem.now (verdict_of verdict)) result }
{
    match verdict {
        Verdict::Pass | Verdict::Stay => Err(Halt::Fault(problem.copy()?)),
        Verdict::Again(delay) => later(rule, retries, delay),
        Verdict::Handle => {
            let round = Round::Catch(problem.copy()?);
            comes_to(rule, round, 0, rule.running.input().copy()?)
        }
        Verdict::Give => rule.complete(rule.running.input().copy()?),
    }
}

/// An error of the list of a `try` after so many retries.
pub(crate) fn caught(
    rule: &Rule,
    retries: u64,
    problem: &Problem,
    spec: &TrySpec,
) -> Result<Made, Halt>
    ensures { Makes (line_in rule.now) (caught (site_in rule.now) (line_in rule.now) rule.now.running.now retries problem.now (catch_of spec.now) (handler_of spec.now.handler)) result }
{
    let verdict = find_verdict(rule, retries, problem, spec)?;
    by_verdict(rule, retries, problem, verdict)
}
