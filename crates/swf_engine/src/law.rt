// What holds of every image.
ghost use Rattle.std.specs.Prelude.{◌≡◌, ◌↔◌, ◌≤◌, ◌++◌, ℕ, List, Result, length, take};
ghost use Rattle.swf_store.specs.declared.image.Image.{Image};
ghost use Rattle.swf_journal.specs.Frames.{header};
ghost use Rattle.swf_journal.specs.Place.{Place};
ghost use Rattle.swf_meaning.specs.declared.label.Label.{Label};
ghost use Rattle.swf_meaning.specs.World.{World, empty};
ghost use Rattle.swf_engine.specs.declared.fault.EngineFault.{EngineFault as Fault};
ghost use Rattle.swf_engine.specs.Core.{Core};
ghost use Rattle.swf_engine.specs.Damage.{IsDamaged};
ghost use Rattle.swf_engine.specs.History.{IsHistory, IsRest};
ghost use Rattle.swf_engine.specs.Reading.{HasReplayed, ReadsAll};

/// An image stands for at most one history, and a damaged image for none.
pub fn history_laws()
    ensures one { (image : Image) (a b : List Label) → IsHistory image a → IsHistory image b → a ≡ b }
    ensures damaged { (image : Image) (history : List Label) (at : ℕ) → IsHistory image history → IsDamaged image at → ⊥ }
{}

/// Where a journal was read from a front to some gate, reading on from that gate, with the world that was reached, answers what reading
/// from the front answers, the same engine or the same damage; and the labels behind that gate are the rest. A history is what is read
/// from the header, and from the empty world, on.
pub fn front_laws()
    ensures reads { (journal front : List ℕ) (first middle : World) (here : Place) → HasReplayed journal front first here middle
        → (answer : Result Core Fault) → ReadsAll journal front first answer ↔ ReadsAll journal (take here.gate journal) middle answer }
    ensures rest { (journal front : List ℕ) (first middle : World) (here : Place) → (reached : HasReplayed journal front first here middle)
        → (labels : List Label) (last : World) → IsRest journal front first (reached.labels ++ labels) last ↔ IsRest journal (take here.gate journal) middle labels last }
    ensures whole { (image : Image) (history : List Label) → 25 ≤ length image.journal → IsHistory image history ↔ ((last : World) × IsRest image.journal header empty history last) }
{}
