// Which strand takes the next step: they take turns in the order of their names.
ghost use Rattle.std.specs.Prelude.{◌≡◌, IfOk, Some};
ghost use Rattle.swf_frames.specs.Tree.{Branch, find};
ghost use Rattle.swf_stack.specs.declared.made.Stand.{Stand as TheStand};
ghost use Rattle.swf_strands.specs.Order.{LeadsFrom, LeadsIn, LeadsOn};
ghost use Rattle.swf_strands.specs.Strands.{IsHeld, node_of};

use crate::ask::enabled_here;
use crate::stand::child_of;
use std::alloc::{AllocError, Global};
use swf_duration::Moment;
use swf_frames::{Forest, StrandId};
use swf_stack::Stand;

/// Leads to the first strand, of that one and those below it, that can take a step. Answers whether there is one. It asks each strand
/// once.
#[cycle(lead)]
pub fn lead_in(
    forest: &Forest<Stand>,
    strand: StrandId,
    now: Moment,
    path: &mut Vec<u16>,
) -> Result<bool, AllocError>
    requires held { IsHeld forest.now strand }
    ensures { IfOk result (λ there. (b : Branch TheStand) → find forest.now.strands strand ≡ Some b → LeadsIn now (node_of b) path.old.items path.new.items there) }
{
    if enabled_here(forest, strand, now) {
        return Ok(true);
    }
    lead_from(forest, strand, 0, now, path)
}

/// Leads to the first strand below that one, behind the one that branch numbers lead to, that can take a step. Answers whether there
/// is one.
pub fn lead_on(
    forest: &Forest<Stand>,
    strand: StrandId,
    behind: &[u16],
    now: Moment,
    path: &mut Vec<u16>,
) -> Result<bool, AllocError>
    requires held { IsHeld forest.now strand }
    ensures { IfOk result (λ there. (b : Branch TheStand) → find forest.now.strands strand ≡ Some b → LeadsOn now (node_of b) path.old.items path.new.items there) }
{
    let mut number = 0;
    if let Some((branch, inner)) = behind.split_first() {
        number = *branch as usize + 1;
        if let Some(child) = child_of(forest, strand, *branch as usize) {
            path.push(*branch)?;
            if lead_on(forest, child, inner, now, path)? {
                return Ok(true);
            }
            path.pop();
        }
    }
    lead_from(forest, strand, number, now, path)
}

// Leads to the first strand that can take a step in the branches of another from a number on.
#[cycle(lead)]
fn lead_from(
    forest: &Forest<Stand>,
    strand: StrandId,
    first: usize,
    now: Moment,
    path: &mut Vec<u16>,
) -> Result<bool, AllocError>
    requires held { IsHeld forest.now strand }
    ensures { IfOk result (λ there. (b : Branch TheStand) → find forest.now.strands strand ≡ Some b → LeadsFrom now first b path.old.items path.new.items there) }
{
    let mut number = first;
    while let Some(child) = child_of(forest, strand, number) {
        path.push(number as u16)?;
        if lead_in(forest, child, now, path)? {
            return Ok(true);
        }
        path.pop();
        number += 1;
    }
    Ok(false)
}
