// The objects that the members of an expression make.
ghost use Rattle.std.specs.Prelude.{◌≡◌, IfOk};
ghost use Rattle.swf_expr.specs.ExprNode.{pairs_of, value_or_here};
ghost use Rattle.swf_value.specs.Value.{object, no_members};
ghost use Rattle.swf_evaluation.specs.Operations.{index_of};
ghost use Rattle.swf_evaluation.specs.Run.{turn, over, answered, onward};
ghost use Rattle.swf_evaluation.specs.Outputs.{run, objects, with_member};
ghost use Rattle.swf_jq_eval.specs.Names.{names, run_at};
ghost use Rattle.swf_jq_eval.specs.Chosen.{members_so_far};
ghost use Rattle.swf_jq_eval.specs.Goes.{Goes, Comes};

use crate::forms::{all, eval};
use crate::outputs::{Ending, Out, Outputs, Stop, count, make, over, raise};
use crate::scope::Context;
use crate::steps::{Step, each_step};
use std::alloc::{AllocError, Global};
use swf_expr::{ConstantObject, Expr, ExprMember};
use swf_text::Text;
use swf_value::{Json, JsonNode};

/// The names and values that are chosen for an object, the last first.
#[derive(Clone, Copy)]
pub enum Chosen<'a> {
    Nothing,
    Member(&'a Text, &'a Json, &'a Chosen<'a>),
}

/// The objects that the members that are left make. An earlier member is the outer loop, and in a
/// member the key.
#[cycle(eval)]
#[inline(never)]
pub fn object(
    members: &[ExprMember],
    chosen: &Chosen<'_>,
    at: &Context<'_>,
    out: &mut Out,
) -> Result<Ending, Stop>
    ensures { Goes out.old (objects (pairs_of members.now) (object (members_so_far chosen.now)) (names at.now) at.now.input.now) out.new result }
{
    match members.split_first() {
        None => {
            let made = made_of(at.alloc, chosen)?;
            make(at.alloc, made, out)
        }
        Some((member, rest)) => keyed(member, rest, chosen, at, out),
    }
}

/// The object of members that are literals, in the turns that these take.
#[inline(never)]
#[tactic(auto, using(crate::proofs::Constants::constant_goes, crate::proofs::Constants::keys_stop, crate::proofs::Constants::values_stop))]
pub fn constant_object(
    constant: &ConstantObject,
    at: &Context<'_>,
    out: &mut Out,
) -> Result<Ending, Stop>
    ensures { Goes out.old (objects constant.now (object no_members) (names at.now) at.now.input.now) out.new result }
{
    let made = constant.object();
    let members = constant.members().len() as u64;
    count(&mut out.turns, members)?;
    count(&mut out.turns, members)?;
    make(at.alloc, made.copy()?, out)
}

/// The objects that a member and those behind it make.
#[cycle(eval)]
#[inline(never)]
fn keyed(
    member: &ExprMember,
    rest: &[ExprMember],
    chosen: &Chosen<'_>,
    at: &Context<'_>,
    out: &mut Out,
) -> Result<Ending, Stop>
    ensures { Goes out.old (over (run_at member.now.key at.now) (λ y. over (run_at (value_or_here member.now.key member.now.value) at.now) (λ x. onward (with_member y x (object (members_so_far chosen.now))) (λ p. objects (pairs_of rest.now) p (names at.now) at.now.input.now)))) out.new result }
{
    over(
        all(&member.key, at, out),
        out,
        |y, out|
            ensures { Goes out.old (over (run_at (value_or_here member.entry.now.key member.entry.now.value) at.entry.now) (λ x. onward (with_member y.now x (object (members_so_far chosen.entry.now))) (λ p. objects (pairs_of rest.entry.now) p (names at.entry.now) at.entry.now.input.now))) out.new result }
        {
            over(
                values(&member.key, &member.value, at, out),
                out,
                |x, out|
                    ensures { Goes out.old (onward (with_member y.entry.now x.now (object (members_so_far chosen.entry.now))) (λ p. objects (pairs_of rest.entry.now) p (names at.entry.now) at.entry.now.input.now)) out.new result }
                { with_chosen(y, x, rest, chosen, at, out) },
            )
        },
    )
}

/// The objects that the members that are left make with one more that is chosen.
#[cycle(eval)]
#[inline(never)]
fn with_chosen(
    key: &Json,
    value: &Json,
    rest: &[ExprMember],
    chosen: &Chosen<'_>,
    at: &Context<'_>,
    out: &mut Out,
) -> Result<Ending, Stop>
    ensures { Goes out.old (onward (with_member key.now value.now (object (members_so_far chosen.now))) (λ p. objects (pairs_of rest.now) p (names at.now) at.now.input.now)) out.new result }
{
    match key.node() {
        JsonNode::Text(name) => {
            let chosen = Chosen::Member(&*name, &*value, &*chosen);
            object(rest, &chosen, at, out)
        }
        _ => raise(at.alloc, "cannot key", out),
    }
}

/// The outputs of a member's value, which is the input's member of the key where it has none of its own.
#[cycle(eval)]
#[inline(never)]
fn values(
    key: &Expr,
    value: &Option<Expr>,
    at: &Context<'_>,
    out: &mut Out,
) -> Result<Outputs, Stop>
    ensures { Comes out.old (run_at (value_or_here key.now value.now) at.now) out.new result }
{
    match value {
        Some(value) => all(value, at, out),
        None => members_of_input(key, at, out),
    }
}

/// All outputs of `.` indexed by a key, apart from the others.
#[cycle(eval)]
#[inline(never)]
fn members_of_input(key: &Expr, at: &Context<'_>, out: &mut Out) -> Result<Outputs, Stop>
    ensures { Comes out.old (turn (over (run_at key.now at.now) (λ y. turn (answered (index_of at.now.input.now y))))) out.new result }
{
    let mut inner = Out {
        turns: out.turns,
        values: Vec::new(at.alloc),
    };
    let end = member_of_input(key, at, &mut inner)?;
    out.turns = inner.turns;
    Ok(Outputs {
        values: inner.values,
        end,
    })
}

/// The outputs of `.` indexed by a key.
#[cycle(eval)]
#[inline(never)]
#[tactic(auto, using(crate::proofs::Runs::turn_on, crate::proofs::Runs::turn_stop))]
fn member_of_input(key: &Expr, at: &Context<'_>, out: &mut Out) -> Result<Ending, Stop>
    ensures { Goes out.old (turn (over (run_at key.now at.now) (λ y. turn (answered (index_of at.now.input.now y))))) out.new result }
{
    count(&mut out.turns, 1)?;
    each_step(key, Step::Member, at, out)
}

/// The object of what is chosen.
fn made_of(alloc: Global, chosen: &Chosen<'_>) -> Result<Json, AllocError>
    ensures { IfOk result (λ v. v ≡ object (members_so_far chosen.now)) }
{
    match chosen {
        Chosen::Nothing => Json::object(alloc, Vec::new(alloc)),
        Chosen::Member(name, value, before) => {
            let mut made = made_of(alloc, *before)?;
            made.put((*name).copy()?, (*value).copy()?)?;
            Ok(made)
        }
    }
}
