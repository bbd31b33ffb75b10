// What is done with each output of an expression where other expressions are evaluated for it.
ghost use Rattle.std.specs.Option.{option_map_or};
ghost use Rattle.swf_evaluation.specs.Run.{gives, over};
ghost use Rattle.swf_jq_eval.specs.Names.{run_at};
ghost use Rattle.swf_jq_eval.specs.Goes.{Goes};
ghost use Rattle.swf_jq_eval.specs.Inner.{inside};

use crate::forms::{all, eval};
use crate::outputs::{Ending, Out, Stop, give, make_truth, over};
use crate::scope::{Context, Scope};
use crate::steps::{Step, each_step};
use swf_expr::{Expr, Op};
use swf_jq_builtins::is_true;
use swf_text::Text;
use swf_value::Json;

/// What is done with an output.
#[derive(Clone, Copy)]
pub enum Inner<'a> {
    /// What stands at it as the key, in each output of this.
    Index(&'a Expr),
    /// The outputs of this for it as the input.
    Pipe(&'a Expr),
    /// A Boolean where its truth is that, and else whether each output of this is true.
    Decide(bool, &'a Expr),
    /// What an operator makes of each output of this and it as the right operand.
    Operate(Op, &'a Expr),
    /// The outputs of the first where it is true, and else those of the second, or the input where there is none.
    Choose(&'a Expr, &'a Option<Expr>),
    /// The outputs of this, in which the name has it as its value.
    Bind(&'a Text, &'a Expr),
    /// The numbers from it on to below each output of this.
    RangeTo(&'a Expr),
}

/// What is done with each output of an expression, up to the first that raises.
#[cycle(eval)]
#[inline(never)]
pub fn each_inner(
    of: &Expr,
    inner: Inner<'_>,
    at: &Context<'_>,
    out: &mut Out,
) -> Result<Ending, Stop>
    ensures { Goes out.old (over (run_at of.now at.now) (λ y. inside inner.entry at.now y)) out.new result }
{
    over(
        all(of, at, out),
        out,
        |y, out|
            ensures { Goes out.old (inside inner.entry at.entry.now y.now) out.new result }
        { take(&inner, y, at, out) },
    )
}

/// What is done with one output.
#[cycle(eval)]
fn take(inner: &Inner<'_>, y: &Json, at: &Context<'_>, out: &mut Out) -> Result<Ending, Stop>
    ensures { Goes out.old (inside inner.now at.now y.now) out.new result }
{
    match inner {
        Inner::Index(of) => each_step(of, Step::Index(y), at, out),
        Inner::Pipe(then) => eval(then, &Context { input: y, ..*at }, out),
        Inner::Decide(want, right) => {
            if is_true(y) == *want {
                make_truth(at.alloc, *want, out)
            } else {
                each_step(right, Step::Truth, at, out)
            }
        }
        Inner::Operate(op, left) => each_step(left, Step::Operate(*op, y), at, out),
        Inner::Choose(first, second) => {
            if is_true(y) {
                eval(first, at, out)
            } else {
                otherwise(second, at, out)
            }
        }
        Inner::Bind(name, inside) => {
            let scope = Scope::Bind(*name, y, at.scope);
            let at = Context {
                scope: &scope,
                ..*at
            };
            eval(inside, &at, out)
        }
        Inner::RangeTo(to) => each_step(to, Step::RangeFrom(y), at, out),
    }
}

/// The outputs of an expression, or the input where there is none.
#[cycle(eval)]
#[inline(never)]
fn otherwise(second: &Option<Expr>, at: &Context<'_>, out: &mut Out) -> Result<Ending, Stop>
    ensures { Goes out.old (option_map_or (λ e. run_at e at.now) second.now (gives at.now.input.now)) out.new result }
{
    match second {
        None => give(at.input, out),
        Some(second) => eval(second, at, out),
    }
}
