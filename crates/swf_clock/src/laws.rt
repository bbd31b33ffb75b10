// What holds of moments, and a worked example.
ghost use Rattle.std.specs.Prelude.{◌≡◌, ◌≤◌, ◌<◌, ℕ, List, Bool, true, [], ◌∷◌, Option, Some, None};
ghost use Rattle.swf_clock.specs.Clocks.{after_telling, ahead, at_once, last_moment};
ghost use Rattle.swf_clock.specs.Turns.{Came, Meaning, outcome, other, moment, own, last_told};
ghost use Rattle.swf_clock.specs.Example.{Label, handed, reached, step, second};

/// A moment that is journalled is one, and before an outcome it is above the present one. It is what the clock told last.
pub fn clock_laws()
    ensures above { (last : Option ℕ) (now t : ℕ) → ahead last now ≡ Some t → now < t }
    ensures told { (last : Option ℕ) (now t : ℕ) → ahead last now ≡ Some t → last ≡ Some t }
    ensures due { (t m : ℕ) (due : Bool) → at_once t due ≡ Some m → (due ≡ true) × (m ≡ t) × (m ≤ last_moment) }
    ensures kept { (t : ℕ) → t ≤ last_moment → after_telling None t ≡ Some t }
{}

/// A document that waits a second is loaded, the clock tells 500, and an instance of it is started.
pub fn example_laws()
    // Nothing is due: the moment is only kept.
    ensures kept { own second None (handed 0 ∷ []) (moment 500) ≡ [] }
    // It comes before the next outcome, also before one that is refused.
    ensures before { own second (Some 500) (handed 0 ∷ []) (outcome 1) ≡ reached 500 ∷ handed 1 ∷ [] }
    ensures refused { own second (Some 500) (handed 0 ∷ []) (outcome 0) ≡ reached 500 ∷ [] }
    // It comes once, and not before a query.
    ensures once { own second (Some 500) (handed 0 ∷ reached 500 ∷ []) (outcome 1) ≡ handed 1 ∷ [] }
    ensures query { own second (Some 500) (handed 0 ∷ []) other ≡ [] }
    // The wait is over after a second, and not a millisecond sooner.
    ensures early { own second (Some 500) (handed 0 ∷ reached 500 ∷ handed 1 ∷ step ∷ step ∷ []) (moment 1499) ≡ [] }
    ensures over { own second (Some 1499) (handed 0 ∷ reached 500 ∷ handed 1 ∷ step ∷ step ∷ []) (moment 1500) ≡ reached 1500 ∷ [] }
    // What is no moment counts as absent, and the last moment that was told counts, not the greatest.
    ensures absent { last_told {O = ℕ} None (moment 500 ∷ moment 4503599627370496 ∷ []) ≡ Some 500 }
    ensures last { last_told {O = ℕ} None (moment 900 ∷ outcome 0 ∷ moment 500 ∷ other ∷ []) ≡ Some 500 }
{}
