// Evaluation of an expression.
ghost use Rattle.std.specs.Prelude.{◌≡◌, [], IfOk};
ghost use Rattle.swf_evaluation.specs.Outputs.{run};
ghost use Rattle.swf_evaluation.specs.Scopes.{scope_from};
ghost use Rattle.swf_jq_eval.specs.Goes.{IsAnswer, ending_of};
ghost use Rattle.swf_evaluation.specs.Evaluate.{end_for, values_shown, end_shown, first_in, first_shown};

use crate::forms;
use crate::outputs::{Ending, Out, Outputs, Stop, is_over};
use crate::scope::{Context, Scope};
use std::alloc::{AllocError, Global};
use swf_evaluation::{End, First, Values, Vars};
use swf_expr::Expr;
use swf_value::Json;

/// The outputs of an expression, and how they end.
#[derive(Drop)]
pub struct Stream {
    pub values: Values,
    pub end: End,
}

/// What an expression gives for an input.
fn outputs(alloc: Global, expr: &Expr, vars: &Vars, input: &Json) -> Result<Outputs, Stop>
    ensures { IsAnswer (run expr.now (scope_from vars.now) input.now) result }
{
    let mut out = Out {
        turns: 0,
        values: Vec::new(alloc),
    };
    let scope = Scope::Given(vars.as_slice());
    let at = Context {
        alloc,
        scope: &scope,
        input,
    };
    let end = forms::eval(expr, &at, &mut out)?;
    if is_over(out.turns) {
        return Err(Stop::Limit);
    }
    Ok(Outputs {
        values: out.values,
        end,
    })
}

fn end_for(ending: Ending) -> End
    ensures { result ≡ end_for (ending_of ending) }
{
    match ending {
        Ending::Clean => End::Clean,
        Ending::Raised(error) => End::Raised(error),
    }
}

/// The outputs of an expression for an input, and how they end.
pub fn eval(alloc: Global, expr: &Expr, vars: &Vars, input: &Json) -> Result<Stream, AllocError>
    ensures values { IfOk result (λ s. s.values ≡ values_shown (run expr.now (scope_from vars.now) input.now)) }
    ensures end { IfOk result (λ s. s.end ≡ end_shown (run expr.now (scope_from vars.now) input.now)) }
{
    match outputs(alloc, expr, vars, input) {
        Ok(outputs) => Ok(Stream {
            values: Values::of(outputs.values),
            end: end_for(outputs.end),
        }),
        Err(Stop::Limit) => Ok(Stream {
            values: Values::of(Vec::new(alloc)),
            end: End::Limit,
        }),
        Err(Stop::OutOfMemory) => Err(AllocError),
    }
}

/// The first of some outputs; null where there is none and they end clean, and else what is raised.
fn first_in(outputs: Outputs) -> Result<First, AllocError>
    ensures { IfOk result (λ f. f ≡ first_in outputs.values.items (ending_of outputs.end)) }
{
    match outputs.values.first() {
        Some(value) => Ok(First::Value(value.copy()?)),
        None => Ok(first_of_none(outputs.end)),
    }
}

fn first_of_none(ending: Ending) -> First
    ensures { result ≡ first_in [] (ending_of ending) }
{
    match ending {
        Ending::Clean => First::Value(Json::null()),
        Ending::Raised(error) => First::Raised(error),
    }
}

/// The first output of an expression for an input; null where there is none and they end clean,
/// and else how they end.
pub fn first_value(
    alloc: Global,
    expr: &Expr,
    vars: &Vars,
    input: &Json,
) -> Result<First, AllocError>
    ensures { IfOk result (λ f. f ≡ first_shown (run expr.now (scope_from vars.now) input.now)) }
{
    match outputs(alloc, expr, vars, input) {
        Ok(outputs) => first_in(outputs),
        Err(Stop::Limit) => Ok(First::Limit),
        Err(Stop::OutOfMemory) => Err(AllocError),
    }
}
