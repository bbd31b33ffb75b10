// The names that stand where an expression is evaluated.
ghost use Rattle.std.specs.Prelude.{◌≡◌, option_map, unwrap_or};
ghost use Rattle.swf_value.specs.Value.{null};
ghost use Rattle.swf_evaluation.specs.Scopes.{scope_from};
ghost use Rattle.swf_jq_eval.specs.Names.{scope_of};
ghost use Rattle.swf_evaluation.specs.Outputs.{named};
ghost use Rattle.swf_evaluation.specs.Run.{gives};
ghost use Rattle.swf_jq_eval.specs.Goes.{Goes};

use crate::outputs::{Ending, Out, Stop, give};
use std::alloc::Global;
use swf_evaluation::Variable;
use swf_text::{Text, same_texts};
use swf_value::Json;

/// Names and their values, the innermost first.
#[derive(Clone, Copy)]
pub enum Scope<'a> {
    /// Those that are given, of which the last of a name counts.
    Given(&'a [Variable]),
    Bind(&'a Text, &'a Json, &'a Scope<'a>),
}

/// Where an expression is evaluated.
#[derive(Clone, Copy)]
pub struct Context<'a> {
    pub alloc: Global,
    /// The names that stand there.
    pub scope: &'a Scope<'a>,
    pub input: &'a Json,
}

/// The value of a name is one output; null where it has none.
pub fn give_named(name: &Text, scope: &Scope<'_>, out: &mut Out) -> Result<Ending, Stop>
    ensures { Goes out.old (gives (named name.now (scope_of scope.now))) out.new result }
{
    match find(name, scope) {
        Some(value) => give(value, out),
        None => give(&Json::null(), out),
    }
}

/// The value of a name.
fn find<'a>(name: &Text, scope: &Scope<'a>) -> Option<&'a Json>
    ensures { unwrap_or (option_map (λ v. v.now) result) null ≡ named name.now (scope_of scope.now) }
{
    match scope {
        Scope::Given(variables) => find_given(name, *variables),
        Scope::Bind(bound, value, outer) => {
            if same_texts(name, *bound) {
                Some(*value)
            } else {
                find(name, *outer)
            }
        }
    }
}

/// The value of the last of the names that are given.
fn find_given<'a>(name: &Text, variables: &'a [Variable]) -> Option<&'a Json>
    ensures { unwrap_or (option_map (λ v. v.now) result) null ≡ named name.now (scope_from variables.now) }
{
    let len = variables.len();
    for i in 0..len {
        let variable = &variables[len - 1 - i];
        if same_texts(name, &variable.name) {
            return Some(&variable.value);
        }
    }
    None
}
