// What the built-in functions give for an input.
ghost use Rattle.std.specs.Prelude.{◌≡◌, codes, true, false, IfOk};
ghost use Rattle.swf_expr.specs.ExprNode.{trees_of};
ghost use Rattle.swf_evaluation.specs.Builtins.{plain};
ghost use Rattle.swf_evaluation.specs.Operations.{parts_of};
ghost use Rattle.swf_jq_builtins.specs.Outcome.{several_of};
ghost use Rattle.swf_evaluation.specs.Run.{made, list_with, spread, over, firsts, gathered, across, until};
ghost use Rattle.swf_evaluation.specs.Outputs.{run, runs, applied, alone, with_argument, array_of, parts_of_made, rebuilt, rebuilt_from, sorted_by};
ghost use Rattle.swf_jq_eval.specs.Names.{names, run_at};
ghost use Rattle.swf_jq_eval.specs.Goes.{Goes, Comes};

use crate::forms::{all, gather};
use crate::inner::{Inner, each_inner};
use crate::outputs::{Ending, Out, Outputs, Stop, make, make_of, raise};
use crate::scope::Context;
use crate::search::{each_of, sorted, until};
use crate::steps::{Step, each_step};
use std::alloc::{AllocError, Global};
use swf_expr::{Builtin, Expr};
use swf_jq_builtins::{Outcome, Several, error, parts, plain};
use swf_value::{Json, JsonNode, depth};

/// The depth that a value which is made on the way may have.
const DEEPEST: u32 = 64;

/// What a built-in gives, by the number of its arguments.
#[cycle(eval)]
pub fn call(
    builtin: Builtin,
    arguments: &[Expr],
    at: &Context<'_>,
    out: &mut Out,
) -> Result<Ending, Stop>
    ensures { Goes out.old (applied builtin (runs (trees_of arguments.now) (names at.now)) at.now.input.now) out.new result }
{
    match arguments {
        [] => alone(builtin, at, out),
        [of] => with_argument(builtin, of, at, out),
        [from, to, ..] => each_inner(from, Inner::RangeTo(to), at, out),
    }
}

/// What a built-in without arguments gives.
fn alone(builtin: Builtin, at: &Context<'_>, out: &mut Out) -> Result<Ending, Stop>
    ensures { Goes out.old (alone builtin at.now.input.now) out.new result }
{
    match builtin {
        Builtin::Empty => Ok(Ending::Clean),
        Builtin::Error => Ok(Ending::Raised(at.input.copy()?)),
        _ => make_of(at.alloc, plain(at.alloc, builtin, at.input), out),
    }
}

/// What a built-in with one argument gives.
#[cycle(eval)]
fn with_argument(
    builtin: Builtin,
    of: &Expr,
    at: &Context<'_>,
    out: &mut Out,
) -> Result<Ending, Stop>
    ensures { Goes out.old (with_argument builtin (λ x. run of.now (names at.now) x) at.now.input.now) out.new result }
{
    match builtin {
        Builtin::AnyOf => any_of(of, at, out),
        Builtin::AllOf => all_of(of, at, out),
        Builtin::Map => map(of, at, out),
        Builtin::Select => each_step(of, Step::Select, at, out),
        Builtin::ErrorWith => each_step(of, Step::Raise, at, out),
        Builtin::WithEntries => with_entries(of, at, out),
        Builtin::SortBy => sort_by(of, at, out),
        Builtin::RangeTo => each_step(of, Step::RangeFrom(&Json::int(0)), at, out),
        Builtin::FirstOf => first_of(of, at, out),
        _ => each_step(of, Step::Apply(builtin), at, out),
    }
}

/// Whether an output for some item is true.
#[cycle(eval)]
#[inline(never)]
fn any_of(of: &Expr, at: &Context<'_>, out: &mut Out) -> Result<Ending, Stop>
    ensures { Goes out.old (across (array_of (codes "cannot any") at.now.input.now) (until true (λ x. run of.now (names at.now) x))) out.new result }
{
    match at.input.node() {
        JsonNode::List(items) => until(true, items.as_slice(), of, at, out),
        _ => raise(at.alloc, "cannot any", out),
    }
}

/// Whether each output for each item is true.
#[cycle(eval)]
#[inline(never)]
fn all_of(of: &Expr, at: &Context<'_>, out: &mut Out) -> Result<Ending, Stop>
    ensures { Goes out.old (across (array_of (codes "cannot all") at.now.input.now) (until false (λ x. run of.now (names at.now) x))) out.new result }
{
    match at.input.node() {
        JsonNode::List(items) => until(false, items.as_slice(), of, at, out),
        _ => raise(at.alloc, "cannot all", out),
    }
}

/// The list of all outputs for the items, or for the values of an object.
#[cycle(eval)]
#[inline(never)]
fn map(of: &Expr, at: &Context<'_>, out: &mut Out) -> Result<Ending, Stop>
    ensures { Goes out.old (gathered (over (spread (parts_of at.now.input.now)) (λ x. run of.now (names at.now) x)) (λ vs. made (list_with vs))) out.new result }
{
    let mapped = each_of(parts(at.alloc, at.input), of, at, out);
    gather(at.alloc, mapped, out)
}

/// An object of the outputs for its entries.
#[cycle(eval)]
#[inline(never)]
fn with_entries(of: &Expr, at: &Context<'_>, out: &mut Out) -> Result<Ending, Stop>
    ensures { Goes out.old (gathered (over (spread (parts_of_made (plain Builtin.ToEntries at.now.input.now))) (λ x. run of.now (names at.now) x)) rebuilt) out.new result }
{
    let entries = entries_of(at.alloc, at.input);
    let outer = each_of(entries, of, at, out);
    rebuild(at.alloc, outer, out)
}

/// The entries of an object, in a list that is made on the way.
fn entries_of(alloc: Global, input: &Json) -> Result<Several, AllocError>
    ensures { IfOk result (λ s. several_of s ≡ parts_of_made (plain Builtin.ToEntries input.now)) }
{
    match plain(alloc, Builtin::ToEntries, input)? {
        Outcome::Value(entries) => {
            if depth(&entries) > DEEPEST {
                return Ok(Several::Raised(error(alloc, "too deep")?));
            }
            parts(alloc, &entries)
        }
        Outcome::Raised(error) => Ok(Several::Raised(error)),
    }
}

/// The object of some entries, where they end clean.
#[tactic(auto, using(crate::proofs::Runs::made_from, crate::proofs::Runs::made_stop))]
fn rebuild(alloc: Global, outer: Result<Outputs, Stop>, out: &mut Out) -> Result<Ending, Stop>
    ensures { (old : _) (s : _) → Comes old s out.old outer → Goes old (gathered s rebuilt) out.new result }
{
    let Outputs { values, end } = outer?;
    match end {
        Ending::Clean => {
            let list = Json::list(alloc, values)?;
            rebuild_from(alloc, &list, out)
        }
        Ending::Raised(error) => Ok(Ending::Raised(error)),
    }
}

/// The object of a list of entries, which is made on the way.
fn rebuild_from(alloc: Global, list: &Json, out: &mut Out) -> Result<Ending, Stop>
    ensures { Goes out.old (rebuilt_from list.now) out.new result }
{
    if depth(list) > DEEPEST {
        return raise(alloc, "too deep", out);
    }
    make_of(alloc, plain(alloc, Builtin::FromEntries, list), out)
}

/// The items in the order of the keys that an expression makes of them.
#[cycle(eval)]
#[inline(never)]
fn sort_by(of: &Expr, at: &Context<'_>, out: &mut Out) -> Result<Ending, Stop>
    ensures { Goes out.old (across (array_of (codes "cannot sort_by") at.now.input.now) (sorted_by (λ x. run of.now (names at.now) x))) out.new result }
{
    match at.input.node() {
        JsonNode::List(items) => sorted(items.as_slice(), of, at, out),
        _ => raise(at.alloc, "cannot sort_by", out),
    }
}

/// The first output, which is made.
#[cycle(eval)]
#[inline(never)]
fn first_of(of: &Expr, at: &Context<'_>, out: &mut Out) -> Result<Ending, Stop>
    ensures { Goes out.old (firsts (run_at of.now at.now)) out.new result }
{
    let outer = all(of, at, out)?;
    match outer.values.first() {
        Some(value) => make(at.alloc, value.copy()?, out),
        None => Ok(outer.end),
    }
}
