// Which strands of an instance can take a step.
ghost use Rattle.std.specs.Prelude.{◌≡◌, ◌∷◌, [], Some};
ghost use Rattle.swf_frames.specs.Tree.{Branch, find};
ghost use Rattle.swf_meaning.specs.Local.{is_enabled};
ghost use Rattle.swf_meaning.specs.Node.{Nodes};
ghost use Rattle.swf_meaning.specs.Strands.{can_go};
ghost use Rattle.swf_stack.specs.declared.made.Stand.{Stand as TheStand};
ghost use Rattle.swf_strands.specs.Strands.{IsHeld, node_of, strand_node};

use crate::stand::{child_of, stand_of};
use swf_duration::Moment;
use swf_frames::{Forest, StrandId};
use swf_stack::{Stand, Top, is_heard};

// Whether a strand that holds this can take a step at a moment.
fn can_go(stand: &Stand, now: Moment) -> bool
    ensures { (ns : Nodes) → result ≡ can_go now [] (strand_node (stand.now ∷ []) ns) }
{
    match stand.top.get() {
        Top::Fresh { .. } => true,
        Top::Done { .. } => !stand.around.is_empty(),
        Top::Fault(_) => !stand.around.is_empty(),
        Top::Waiting { until, .. } => *until <= now.milliseconds(),
        Top::Hearing { running, heard, .. } => is_heard(running.task(), heard.as_slice()),
        Top::Awaiting { answer, .. } => answer.is_some(),
        Top::Forked(_) => false,
    }
}

/// Whether a strand itself can take a step at a moment.
pub fn enabled_here(forest: &Forest<Stand>, strand: StrandId, now: Moment) -> bool
    requires { IsHeld forest.now strand }
    ensures { (b : Branch TheStand) → find forest.now.strands strand ≡ Some b → result ≡ can_go now [] (node_of b) }
{
    can_go(stand_of(forest, strand), now)
}

/// Whether a strand or one below it can take a step at a moment.
pub fn enabled_in(forest: &Forest<Stand>, strand: StrandId, now: Moment) -> bool
    requires { IsHeld forest.now strand }
    ensures { (b : Branch TheStand) → find forest.now.strands strand ≡ Some b → result ≡ is_enabled now (node_of b) }
{
    if enabled_here(forest, strand, now) {
        return true;
    }
    let mut number = 0;
    while let Some(child) = child_of(forest, strand, number) {
        if enabled_in(forest, child, now) {
            return true;
        }
        number += 1;
    }
    false
}
