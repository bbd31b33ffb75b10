// A `for` begins (DSL 1.0.0, reference, "For").
ghost use Rattle.swf_meaning.specs.For.{looping, over};
ghost use Rattle.swf_rule.specs.Rules.{line_in};
ghost use Rattle.swf_scene.specs.Halts.{Makes};
ghost use Rattle.swf_catalog.specs.TaskRef.{loop_of};

use crate::lists::iteration;
use swf_document::{ErrorKind, ForSpec};
use swf_rule::Rule;
use swf_scene::Halt;
use swf_stack::Made;
use swf_transform::first;
use swf_value::{Json, JsonNode};

/// A `for` goes over the items of the list that its `in` gives.
pub fn looping(rule: &Rule, spec: &ForSpec) -> Result<Made, Halt>
    ensures { Makes (line_in rule.now) (looping (line_in rule.now) rule.now.running.now (loop_of spec.now)) result }
{
    let sight = rule.within()?;
    let items = first(rule.alloc, &spec.items, sight.vars(), rule.running.input())?;
    let items = rule.value_of(items)?;
    over(rule, &items)
}

// The first iteration over the items of a list; any other value is an error.
#[tactic(auto, using(swf_jq_builtins::proofs::Lists::values_of_items_of))]
fn over(rule: &Rule, items: &Json) -> Result<Made, Halt>
    ensures { Makes (line_in rule.now) (over (line_in rule.now) rule.now.running.now items.now) result }
{
    match items.node() {
        JsonNode::List(items) => iteration(rule, items.copy()?, 0, rule.running.input().copy()?),
        _ => Err(rule.fails(ErrorKind::Expression, "cannot loop")),
    }
}
