// The calls that await an answer.
ghost use Rattle.std.specs.Prelude.{◌≡◌, ◌++◌, OnOk, Some};
ghost use Rattle.swf_frames.specs.Tree.{Branch, find};
ghost use Rattle.swf_meaning.specs.Pending.{open_calls};
ghost use Rattle.swf_offers.specs.Answers.{own_call};
ghost use Rattle.swf_stack.specs.declared.made.Stand.{Stand as TheStand};
ghost use Rattle.swf_strands.specs.Strands.{IsHeld, node_of};

use std::alloc::{AllocError, Global};
use swf_calls::CallRequest;
use swf_frames::{Forest, StrandId};
use swf_stack::{Stand, Top};
use swf_strands::{child_of, stand_of};
use swf_text::Text;

// Adds the call that stands innermost, where it awaits an answer.
fn list_own(
    alloc: Global,
    top: &Top,
    calls: &mut Vec<(Text, CallRequest)>,
) -> Result<(), AllocError>
    ensures { OnOk result (calls.new.items ≡ calls.old.items ++ own_call top.now) }
{
    if let Top::Awaiting {
        activity,
        request,
        answer: None,
        ..
    } = top
    {
        let request = request.get().copy(alloc)?;
        calls.push((activity.copy()?, request))?;
    }
    Ok(())
}

/// Adds the calls of a strand, and of those below it, that await an answer, ascending by strand, each with its activity.
pub fn list_calls(
    alloc: Global,
    forest: &Forest<Stand>,
    strand: StrandId,
    calls: &mut Vec<(Text, CallRequest)>,
) -> Result<(), AllocError>
    requires { IsHeld forest.now strand }
    ensures { OnOk result ((b : Branch TheStand) → find forest.now.strands strand ≡ Some b → calls.new.items ≡ calls.old.items ++ open_calls (node_of b)) }
{
    list_own(alloc, stand_of(forest, strand).top.get(), calls)?;
    let mut number = 0;
    while let Some(child) = child_of(forest, strand, number) {
        list_calls(alloc, forest, child, calls)?;
        number += 1;
    }
    Ok(())
}
