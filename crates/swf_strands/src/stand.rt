// What a strand holds, and which strands stand below it.
ghost use Rattle.std.specs.Prelude.{◌≡◌, ◌∷◌, [], IfSome, IfNone, Some, None};
ghost use Rattle.swf_frames.specs.Tree.{Branch, find};
ghost use Rattle.swf_frames.specs.Paths.{nth, walk};
ghost use Rattle.swf_stack.specs.declared.made.Stand.{Stand as TheStand};
ghost use Rattle.swf_strands.specs.Strands.{IsHeld, IsGrownAt};

use swf_frames::{Forest, StrandId};
use swf_stack::Stand;

/// What a strand of an instance holds.
pub fn stand_of(forest: &Forest<Stand>, strand: StrandId) -> &Stand
    requires { IsHeld forest.now strand }
    ensures { (b : Branch TheStand) → find forest.now.strands strand ≡ Some b → b.frames ≡ result.now ∷ [] }
{
    forest.top(strand).unwrap()
}

/// The strand of a branch, from 0, of the `fork` that a strand holds.
pub fn child_of(forest: &Forest<Stand>, strand: StrandId, number: usize) -> Option<StrandId>
    requires { IsHeld forest.now strand }
    ensures child { IfSome result (λ c. (b : Branch TheStand) → find forest.now.strands strand ≡ Some b → (h : Branch TheStand) × ((nth b.below number ≡ Some (record { number = c; held = h })) × ((find forest.now.strands c ≡ Some h) × IsGrownAt h))) }
    ensures none { IfNone result ((b : Branch TheStand) → find forest.now.strands strand ≡ Some b → nth b.below number ≡ None) }
{
    forest.child(strand, number)
}

/// The strand that branch numbers lead to from another.
pub fn strand_at(forest: &Forest<Stand>, strand: StrandId, branches: &[u16]) -> Option<StrandId>
    requires { IsHeld forest.now strand }
    ensures found { IfSome result (λ c. (b : Branch TheStand) → find forest.now.strands strand ≡ Some b → (h : Branch TheStand) × ((walk (record { number = strand; held = b }) branches.now ≡ Some (record { number = c; held = h })) × ((find forest.now.strands c ≡ Some h) × IsGrownAt h))) }
    ensures none { IfNone result ((b : Branch TheStand) → find forest.now.strands strand ≡ Some b → walk (record { number = strand; held = b }) branches.now ≡ None) }
{
    match branches.split_first() {
        None => Some(strand),
        Some((number, inner)) => {
            let child = child_of(forest, strand, *number as usize)?;
            strand_at(forest, child, inner)
        }
    }
}
