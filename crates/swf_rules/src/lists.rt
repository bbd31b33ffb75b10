// How a list of tasks runs (DSL 1.0.0, "Do" and "Flow directives"; reference, "For").
ghost use Rattle.std.specs.Prelude.{◌≡◌, Ok};
ghost use Rattle.swf_meaning.specs.Around.{seen};
ghost use Rattle.swf_meaning.specs.Complete.{asked};
ghost use Rattle.swf_meaning.specs.Line.{within};
ghost use Rattle.swf_meaning.specs.Lists.{comes_to, list_ended, iteration, iteration_guarded, iteration_begins, begins_with, guard_of};
ghost use Rattle.swf_rule.specs.Rules.{line_in};
ghost use Rattle.swf_scene.specs.Halts.{Gives, Makes};
ghost use Rattle.swf_catalog.specs.Rounds.{round_of};
ghost use Rattle.swf_stack.specs.Stack.{made_node};

use swf_catalog::{Iteration, Round, TaskRef};
use swf_document::Flow;
use swf_expr::Expr;
use swf_rule::Rule;
use swf_scene::{Halt, within};
use swf_stack::{Made, Top};
use swf_value::{Json, JsonList};

// So many iterations have numbers.
const MOST_ITERATIONS: u64 = 1 << 53;

// The first task of the list begins with a value; a list without tasks gives that value.
fn begins_with(child: Option<TaskRef>, value: Json) -> Top
    ensures { made_node result ≡ begins_with value child }
{
    match child {
        Some(task) => Top::Fresh { task, raw: value },
        None => Top::Done {
            output: value,
            flow: Flow::Continue,
        },
    }
}

/// Control comes to a place of the task's list with a value; past the last task the list ends.
pub fn comes_to(rule: &Rule, round: Round, place: usize, value: Json) -> Result<Made, Halt>
    ensures { Makes (line_in rule.now) (comes_to (line_in rule.now) rule.now.running.now (round_of round) place value) result }
{
    let Some(task) = rule.running.task().child(&round, place)? else {
        return list_ended(rule, round, value);
    };
    Ok(rule.holding(round, place, Top::Fresh { task, raw: value })?)
}

/// The task's list has ended with a value: a `for` goes on to its next iteration, and any other task is complete.
pub(crate) fn list_ended(rule: &Rule, round: Round, value: Json) -> Result<Made, Halt>
    ensures { Makes (line_in rule.now) (list_ended (line_in rule.now) rule.now.running.now (round_of round) value) result }
{
    match round {
        Round::Each(Iteration { items, number }) => iteration(rule, items, number + 1, value),
        _ => rule.complete(value),
    }
}

/// The iteration of a number begins with a value, unless no item is left.
pub(crate) fn iteration(
    rule: &Rule,
    items: JsonList,
    number: u64,
    value: Json,
) -> Result<Made, Halt>
    ensures { Makes (line_in rule.now) (iteration (line_in rule.now) rule.now.running.now items number value) result }
{
    if number as usize >= items.as_slice().len() {
        return rule.complete(value);
    }
    if number >= MOST_ITERATIONS {
        return Err(Halt::OutOfMemory);
    }
    let round = Round::Each(Iteration { items, number });
    iteration_guarded(rule, round, value)
}

// `while` is asked before an iteration.
fn iteration_guarded(rule: &Rule, round: Round, value: Json) -> Result<Made, Halt>
    ensures { Makes (line_in rule.now) (iteration_guarded (line_in rule.now) rule.now.running.now (round_of round) value (guard_of rule.now.running.now.task)) result }
{
    let Some(condition) = rule.running.task().guard() else {
        return iteration_begins(rule, round, value);
    };
    if goes_on(rule, &round, &value, condition)? {
        iteration_begins(rule, round, value)
    } else {
        rule.complete(value)
    }
}

// Whether a `while` is true before an iteration.
fn goes_on(rule: &Rule, round: &Round, value: &Json, condition: &Expr) -> Result<bool, Halt>
    ensures { Gives (asked rule.now.running.now.task (within (seen (line_in rule.now) rule.now.running.now.task (round_of round.now)) rule.now.running.now) value.now condition.now) result }
{
    let seen = rule.scene.seen(rule.alloc, rule.running.task(), round)?;
    let vars = within(rule.alloc, &seen, rule.running)?;
    rule.asked(&vars, value, condition)
}

// An iteration begins with the first task of the list.
fn iteration_begins(rule: &Rule, round: Round, value: Json) -> Result<Made, Halt>
    ensures { Makes (line_in rule.now) (Ok (iteration_begins (line_in rule.now) rule.now.running.now (round_of round) value)) result }
{
    let child = rule.running.task().child(&round, 0)?;
    Ok(rule.holding(round, 0, begins_with(child, value))?)
}
