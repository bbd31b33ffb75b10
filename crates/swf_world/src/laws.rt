// What holds of every world, whichever program makes it.
ghost use Rattle.std.specs.Prelude.{◌≡◌, ◌↔◌, None, IsSome};
ghost use Rattle.swf_meaning.specs.declared.label.Label.{Label};
ghost use Rattle.swf_meaning.specs.World.{World as TheWorld};
ghost use Rattle.swf_runs.specs.After.{after};
ghost use Rattle.swf_world.specs.Refusals.{refusal};

/// A label has no refusal exactly where there is a world after it.
pub fn refusal_laws()
    ensures { (w : TheWorld) (l : Label) → (refusal w l ≡ None) ↔ IsSome (after w l) }
{}
