// What the applications of an expression to several values come to.
ghost use Rattle.std.specs.Prelude.{◌≡◌, IfOk};
ghost use Rattle.std.specs.List.{list_any};
ghost use Rattle.swf_evaluation.specs.Builtins.{by_keys};
ghost use Rattle.swf_evaluation.specs.Operations.{is_true};
ghost use Rattle.swf_jq_builtins.specs.Outcome.{several_of};
ghost use Rattle.swf_evaluation.specs.Run.{clean, gave, spread, over, made, list_with, same_truth, until, ended};
ghost use Rattle.swf_evaluation.specs.Outputs.{run, key_by, sorted_by};
ghost use Rattle.swf_jq_eval.specs.Names.{names, run_at};
ghost use Rattle.swf_jq_eval.specs.Goes.{Goes, Comes, ending_of};

use crate::forms::{all, eval, make_list};
use crate::outputs::{Ending, Out, Outputs, Stop, each, make_truth};
use crate::scope::Context;
use std::alloc::{AllocError, Global};
use swf_expr::Expr;
use swf_jq_builtins::{Several, copies, is_true, sort_by_keys};
use swf_value::Json;

/// All outputs of an expression for each of several values, apart from the others.
#[cycle(eval)]
#[inline(never)]
pub fn each_of(
    several: Result<Several, AllocError>,
    expr: &Expr,
    at: &Context<'_>,
    out: &mut Out,
) -> Result<Outputs, Stop>
    ensures { (a : _) → IfOk several (λ s. several_of s ≡ a) → Comes out.old (over (spread a) (λ x. run expr.now (names at.now) x)) out.new result }
{
    let mut inner = Out {
        turns: out.turns,
        values: Vec::new(at.alloc),
    };
    let end = each_part(several?, expr, at, &mut inner)?;
    out.turns = inner.turns;
    Ok(Outputs {
        values: inner.values,
        end,
    })
}

/// The outputs of an expression for each of several values.
#[cycle(eval)]
#[inline(never)]
fn each_part(several: Several, expr: &Expr, at: &Context<'_>, out: &mut Out) -> Result<Ending, Stop>
    ensures { Goes out.old (over (spread (several_of several)) (λ x. run expr.now (names at.now) x)) out.new result }
{
    match several {
        Several::Values(values) => each(
            Outputs {
                values,
                end: Ending::Clean,
            },
            out,
            |x, out|
                ensures { Goes out.old (run expr.entry.now (names at.entry.now) x.now) out.new result }
            { eval(expr, &Context { input: x, ..*at }, out) },
        ),
        Several::Raised(error) => Ok(Ending::Raised(error)),
    }
}

/// A Boolean as soon as an output of the values in order has it, and else the other one.
#[cycle(eval)]
#[inline(never)]
pub fn until(
    want: bool,
    values: &[Json],
    expr: &Expr,
    at: &Context<'_>,
    out: &mut Out,
) -> Result<Ending, Stop>
    ensures { Goes out.old (until want (λ x. run expr.now (names at.now) x) values.now) out.new result }
{
    for x in values {
        let Outputs { values, end } = all(expr, &Context { input: x, ..*at }, out)?;
        if has_truth(want, &values) {
            return make_truth(at.alloc, want, out);
        }
        match end {
            Ending::Clean => {}
            Ending::Raised(error) => return Ok(Ending::Raised(error)),
        }
    }
    make_truth(at.alloc, !want, out)
}

/// Whether one of some values has a truth.
fn has_truth(want: bool, values: &[Json]) -> bool
    ensures { result ≡ list_any (λ v. same_truth (is_true v) want) values.now }
{
    values.iter().any(|value| is_true(value) == want)
}

/// The values in the order of the keys that an expression makes of them.
#[cycle(eval)]
#[inline(never)]
pub fn sorted(values: &[Json], expr: &Expr, at: &Context<'_>, out: &mut Out) -> Result<Ending, Stop>
    ensures { Goes out.old (sorted_by (λ x. run expr.now (names at.now) x) values.now) out.new result }
{
    let keys = keys_of(values, expr, at, out)?;
    make_sorted(at.alloc, values, keys, out)
}

/// The keys of values, up to the first error.
#[cycle(eval)]
#[inline(never)]
fn keys_of(values: &[Json], expr: &Expr, at: &Context<'_>, out: &mut Out) -> Result<Outputs, Stop>
    ensures { Comes out.old (over (gave values.now clean) (key_by (λ x. run expr.now (names at.now) x))) out.new result }
{
    let mut keys = Out {
        turns: out.turns,
        values: Vec::new(at.alloc),
    };
    let end = each_key(values, expr, at, &mut keys)?;
    out.turns = keys.turns;
    Ok(Outputs {
        values: keys.values,
        end,
    })
}

/// The key of each value, up to the first error.
#[cycle(eval)]
#[inline(never)]
fn each_key(values: &[Json], expr: &Expr, at: &Context<'_>, out: &mut Out) -> Result<Ending, Stop>
    ensures { Goes out.old (over (gave values.now clean) (key_by (λ x. run expr.now (names at.now) x))) out.new result }
{
    let outer = Outputs {
        values: copies(at.alloc, values)?,
        end: Ending::Clean,
    };
    each(
        outer,
        out,
        |x, out|
            ensures { Goes out.old (key_by (λ x. run expr.entry.now (names at.entry.now) x) x.now) out.new result }
        { key_of(expr, &Context { input: x, ..*at }, out) },
    )
}

/// The list of an expression's outputs, where they end clean.
#[cycle(eval)]
#[inline(never)]
fn key_of(expr: &Expr, at: &Context<'_>, out: &mut Out) -> Result<Ending, Stop>
    ensures { Goes out.old (key_by (λ x. run expr.now (names at.now) x) at.now.input.now) out.new result }
{
    let Outputs { values, end } = all(expr, at, out)?;
    match end {
        Ending::Clean => {
            let key = Json::list(at.alloc, values)?;
            out.values.push(key)?;
            Ok(Ending::Clean)
        }
        Ending::Raised(error) => Ok(Ending::Raised(error)),
    }
}

/// The list of values in the order of their keys, where those end clean.
fn make_sorted(alloc: Global, values: &[Json], keys: Outputs, out: &mut Out) -> Result<Ending, Stop>
    ensures { Goes out.old (ended (ending_of keys.end) (made (list_with (by_keys values.now keys.values.items)))) out.new result }
{
    let Outputs { values: keys, end } = keys;
    match end {
        Ending::Clean => {
            let sorted = sort_by_keys(alloc, copies(alloc, values)?, keys)?;
            make_list(alloc, sorted, out)
        }
        Ending::Raised(error) => Ok(Ending::Raised(error)),
    }
}
