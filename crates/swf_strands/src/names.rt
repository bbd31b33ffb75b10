// The names of strands.
ghost use Rattle.std.specs.Prelude.{◌≡◌, ◌++◌, IfOk, OnOk, Some, map};
ghost use Rattle.swf_frames.specs.Tree.{Branch, find};
ghost use Rattle.swf_meaning.specs.Strands.{strands};
ghost use Rattle.swf_stack.specs.declared.made.Stand.{Stand as TheStand};
ghost use Rattle.swf_strands.specs.Strands.{IsHeld, node_of};

use crate::stand::child_of;
use std::alloc::{AllocError, Global};
use swf_frames::{Forest, StrandId};
use swf_stack::Stand;
use swf_text::Strand;

/// A strand of these branch numbers.
pub fn named(alloc: Global, path: &[u16]) -> Result<Strand, AllocError>
    ensures { IfOk result (λ s. s ≡ path.now) }
{
    let mut branches = Vec::with_capacity(alloc, path.len())?;
    for number in path {
        branches.push(*number)?;
    }
    Ok(Strand::of(branches))
}

/// Adds the names of a strand, to which these numbers lead, and of those below it, ascending.
pub fn list_strands(
    alloc: Global,
    forest: &Forest<Stand>,
    strand: StrandId,
    path: &mut Vec<u16>,
    list: &mut Vec<Strand>,
) -> Result<(), AllocError>
    requires { IsHeld forest.now strand }
    ensures path { OnOk result (path.new.items ≡ path.old.items) }
    ensures list { OnOk result ((b : Branch TheStand) → find forest.now.strands strand ≡ Some b → list.new.items ≡ list.old.items ++ map (λ bs. path.old.items ++ bs) (strands (node_of b))) }
{
    list.push(named(alloc, path)?)?;
    let mut number = 0;
    while let Some(child) = child_of(forest, strand, number) {
        path.push(number as u16)?;
        list_strands(alloc, forest, child, path, list)?;
        path.pop();
        number += 1;
    }
    Ok(())
}
