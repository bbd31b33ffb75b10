// What is done with each output of an expression where no other expression is evaluated for it.
ghost use Rattle.std.specs.Prelude.{◌≡◌};
ghost use Rattle.swf_evaluation.specs.Builtins.{with_one};
ghost use Rattle.swf_evaluation.specs.Operations.{index_of};
ghost use Rattle.swf_evaluation.specs.Run.{turn, made_of, answered, over};
ghost use Rattle.swf_evaluation.specs.Outputs.{ranged};
ghost use Rattle.swf_jq_eval.specs.Names.{run_at};
ghost use Rattle.swf_jq_eval.specs.Goes.{Goes};
ghost use Rattle.swf_jq_eval.specs.Steps.{taken};

use crate::forms::all;
use crate::outputs::{
    Ending, Out, Stop, answer, count, make, make_of, make_truth, over, room, spread,
};
use crate::scope::Context;
use std::alloc::Global;
use swf_expr::{Builtin, Expr, Op};
use swf_jq_builtins::{index, is_true, negate, operate, parts, range, range_len, with_one};
use swf_value::Json;

/// What is done with an output.
#[derive(Clone, Copy)]
pub enum Step<'a> {
    /// The items of a list, or the values of an object.
    Iterate,
    /// A number with the other sign.
    Negate,
    /// Whether it is true.
    Truth,
    /// The input, where it is true.
    Select,
    /// The error of this value.
    Raise,
    /// What stands in it at a key.
    Index(&'a Json),
    /// What stands in the input at it as the key, which takes the turn of `.` too.
    Member,
    /// What an operator makes of it and its right operand.
    Operate(Op, &'a Json),
    /// The numbers from one on to below it.
    RangeFrom(&'a Json),
    /// What a built-in makes of the input and it as the argument.
    Apply(Builtin),
}

/// A step for each output of an expression, up to the first that raises.
#[cycle(eval)]
#[inline(never)]
pub fn each_step(of: &Expr, step: Step<'_>, at: &Context<'_>, out: &mut Out) -> Result<Ending, Stop>
    ensures { Goes out.old (over (run_at of.now at.now) (λ y. taken step.entry at.now.input.now y)) out.new result }
{
    over(
        all(of, at, out),
        out,
        |y, out|
            ensures { Goes out.old (taken step.entry at.entry.now.input.now y.now) out.new result }
        { take(&step, y, at, out) },
    )
}

/// A step for one output.
fn take(step: &Step<'_>, y: &Json, at: &Context<'_>, out: &mut Out) -> Result<Ending, Stop>
    ensures { Goes out.old (taken step.now at.now.input.now y.now) out.new result }
{
    let Context { alloc, input, .. } = *at;
    match step {
        Step::Iterate => spread(parts(alloc, y), out),
        Step::Negate => make_of(alloc, negate(alloc, y), out),
        Step::Truth => make_truth(alloc, is_true(y), out),
        Step::Select => {
            if is_true(y) {
                make(alloc, input.copy()?, out)
            } else {
                Ok(Ending::Clean)
            }
        }
        Step::Raise => Ok(Ending::Raised(y.copy()?)),
        Step::Index(key) => answer(index(alloc, y, *key), out),
        Step::Member => member(alloc, input, y, out),
        Step::Operate(op, right) => make_of(alloc, operate(alloc, *op, y, *right), out),
        Step::RangeFrom(from) => give_range(alloc, *from, y, out),
        Step::Apply(builtin) => apply(alloc, *builtin, input, y, out),
    }
}

/// What stands in the input at a key, which takes the turn of `.` too.
#[tactic(auto, using(crate::proofs::Runs::turn_on, crate::proofs::Runs::turn_stop))]
fn member(alloc: Global, input: &Json, key: &Json, out: &mut Out) -> Result<Ending, Stop>
    ensures { Goes out.old (turn (answered (index_of input.now key.now))) out.new result }
{
    count(&mut out.turns, 1)?;
    answer(index(alloc, input, key), out)
}

/// The numbers from one to below another, each of which takes a turn.
#[tactic(auto, using(crate::proofs::Applied::range_turns))]
fn give_range(alloc: Global, from: &Json, to: &Json, out: &mut Out) -> Result<Ending, Stop>
    ensures { Goes out.old (ranged from.now to.now) out.new result }
{
    count(&mut out.turns, range_len(from, to))?;
    spread(range(alloc, from, to), out)
}

/// What a built-in makes of a value and its argument.
#[tactic(auto, using(crate::proofs::Applied::size_made))]
fn apply(
    alloc: Global,
    builtin: Builtin,
    value: &Json,
    argument: &Json,
    out: &mut Out,
) -> Result<Ending, Stop>
    ensures { Goes out.old (made_of (with_one builtin value.now argument.now)) out.new result }
{
    match with_one(alloc, builtin, value, argument, room(out.turns))? {
        Some(outcome) => make_of(alloc, Ok(outcome), out),
        None => Err(Stop::Limit),
    }
}
