// What each form of an expression gives for an input.
ghost use Rattle.std.specs.Prelude.{◌≡◌, filter};
ghost use Rattle.swf_expr.specs.ExprNode.{node_tree};
ghost use Rattle.swf_evaluation.specs.Operations.{is_true};
ghost use Rattle.swf_evaluation.specs.Run.{made, followed_by, caught, alternative, gathered, list_with};
ghost use Rattle.swf_evaluation.specs.Outputs.{node};
ghost use Rattle.swf_jq_eval.specs.Names.{names, run_at};
ghost use Rattle.swf_jq_eval.specs.Goes.{Goes, Comes};

use crate::call::call;
use crate::inner::{Inner, each_inner};
use crate::object::{Chosen, constant_object, object};
use crate::outputs::{Ending, Out, Outputs, Stop, count, give, make};
use crate::scope::{Context, give_named};
use crate::steps::{Step, each_step};
use std::alloc::Global;
use swf_expr::{Expr, ExprNode};
use swf_jq_builtins::is_true;
use swf_value::Json;

/// The outputs of an expression go to the others.
#[cycle(eval)]
#[tactic(auto, using(crate::proofs::Runs::turn_on, crate::proofs::Runs::turn_stop))]
pub fn eval(expr: &Expr, at: &Context<'_>, out: &mut Out) -> Result<Ending, Stop>
    ensures { Goes out.old (run_at expr.now at.now) out.new result }
{
    count(&mut out.turns, 1)?;
    level(expr.node(), at, out)
}

/// All outputs of an expression, apart from the others.
#[cycle(eval)]
pub fn all(expr: &Expr, at: &Context<'_>, out: &mut Out) -> Result<Outputs, Stop>
    ensures { Comes out.old (run_at expr.now at.now) out.new result }
{
    let mut inner = Out {
        turns: out.turns,
        values: Vec::new(at.alloc),
    };
    let end = eval(expr, at, &mut inner)?;
    out.turns = inner.turns;
    Ok(Outputs {
        values: inner.values,
        end,
    })
}

/// The outputs of one level of an expression, whose turn is counted.
#[cycle(eval)]
fn level(level: &ExprNode, at: &Context<'_>, out: &mut Out) -> Result<Ending, Stop>
    ensures { Goes out.old (node (node_tree level.now) (names at.now) at.now.input.now) out.new result }
{
    match level {
        ExprNode::Here => give(at.input, out),
        ExprNode::Lit(value) => give(value, out),
        ExprNode::Var(name) => give_named(name.text(), at.scope, out),
        ExprNode::Index(of, key) => each_inner(key, Inner::Index(of), at, out),
        ExprNode::Iterate(of) => each_step(of, Step::Iterate, at, out),
        ExprNode::Maybe(of) => maybe(of, at, out),
        ExprNode::Pipe(left, right) => each_inner(left, Inner::Pipe(right), at, out),
        ExprNode::Both(left, right) => both(left, right, at, out),
        ExprNode::Alt(left, right) => alternative(left, right, at, out),
        ExprNode::Or(left, right) => each_inner(left, Inner::Decide(true, right), at, out),
        ExprNode::And(left, right) => each_inner(left, Inner::Decide(false, right), at, out),
        ExprNode::Binary(op, left, right) => each_inner(right, Inner::Operate(*op, left), at, out),
        ExprNode::Neg(of) => each_step(of, Step::Negate, at, out),
        ExprNode::List(None) => make_list(at.alloc, Vec::new(at.alloc), out),
        ExprNode::List(Some(of)) => list_of(of, at, out),
        ExprNode::Object(members) => object(members, &Chosen::Nothing, at, out),
        ExprNode::Constant(constant) => constant_object(constant, at, out),
        ExprNode::If(condition, first, second) => each_inner(
            condition,
            Inner::Choose(first, second),
            at,
            out,
        ),
        ExprNode::Bind(of, name, inside) => each_inner(
            of,
            Inner::Bind(name.text(), inside),
            at,
            out,
        ),
        ExprNode::Apply(builtin, arguments) => call(*builtin, arguments, at, out),
    }
}

/// The outputs without the error.
#[cycle(eval)]
#[inline(never)]
fn maybe(of: &Expr, at: &Context<'_>, out: &mut Out) -> Result<Ending, Stop>
    ensures { Goes out.old (caught (run_at of.now at.now)) out.new result }
{
    match eval(of, at, out) {
        Ok(_) => Ok(Ending::Clean),
        Err(stop) => Err(stop),
    }
}

/// The outputs of the first, and then those of the second.
#[cycle(eval)]
#[inline(never)]
#[tactic(auto, using(crate::proofs::Runs::goes_from, crate::proofs::Runs::goes_on, crate::proofs::Runs::goes_out, crate::proofs::Runs::stops_at))]
fn both(left: &Expr, right: &Expr, at: &Context<'_>, out: &mut Out) -> Result<Ending, Stop>
    ensures { Goes out.old (followed_by (run_at left.now at.now) (run_at right.now at.now)) out.new result }
{
    match eval(left, at, out)? {
        Ending::Clean => eval(right, at, out),
        Ending::Raised(error) => Ok(Ending::Raised(error)),
    }
}

/// The true outputs of the first, and where there is none those of the second.
#[cycle(eval)]
#[inline(never)]
fn alternative(left: &Expr, right: &Expr, at: &Context<'_>, out: &mut Out) -> Result<Ending, Stop>
    ensures { Goes out.old (alternative (run_at left.now at.now) (run_at right.now at.now)) out.new result }
{
    let outer = all(left, at, out)?;
    let mut found = true_ones(outer.values);
    if found.is_empty() {
        return eval(right, at, out);
    }
    out.values.append(&mut found)?;
    Ok(Ending::Clean)
}

/// The true ones of some values.
fn true_ones(values: Vec<Json>) -> Vec<Json>
    ensures { result.items ≡ filter is_true values.items }
{
    let mut values = values;
    values.retain(|value| is_true(value));
    values
}

/// The list of some values.
pub fn make_list(alloc: Global, values: Vec<Json>, out: &mut Out) -> Result<Ending, Stop>
    ensures { Goes out.old (made (list_with values.items)) out.new result }
{
    let list = Json::list(alloc, values)?;
    make(alloc, list, out)
}

/// A list of some outputs, where they end clean.
#[tactic(auto, using(crate::proofs::Runs::made_from, crate::proofs::Runs::made_stop))]
pub fn gather(alloc: Global, outer: Result<Outputs, Stop>, out: &mut Out) -> Result<Ending, Stop>
    ensures { (old : _) (s : _) → Comes old s out.old outer → Goes old (gathered s (λ vs. made (list_with vs))) out.new result }
{
    let Outputs { values, end } = outer?;
    match end {
        Ending::Clean => make_list(alloc, values, out),
        Ending::Raised(error) => Ok(Ending::Raised(error)),
    }
}

/// The list of the outputs.
#[cycle(eval)]
#[inline(never)]
fn list_of(of: &Expr, at: &Context<'_>, out: &mut Out) -> Result<Ending, Stop>
    ensures { Goes out.old (gathered (run_at of.now at.now) (λ vs. made (list_with vs))) out.new result }
{
    gather(at.alloc, all(of, at, out), out)
}
