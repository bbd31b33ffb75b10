// What holds of all jobs, and of all lists of replies.
ghost use Rattle.std.specs.Prelude.{◌≡◌, ◌<◌, ◌≤◌, ◌*◌, ◌++◌, ◌∷◌, [], ℕ, List};
ghost use Rattle.swf_protocol.specs.declared.reply.Reply.{Reply as Answer};
ghost use Rattle.swf_make.specs.Generated.{instances, turns_of};
ghost use Rattle.swf_make.specs.Totals.{nothing, totals_of, with_reply};

/// An instance is started exactly where a turn is left for it, and has from 1 to 100 turns.
pub fn line_laws()
    ensures begun { (turns k : ℕ) → k < instances turns → 100 * k < turns }
    ensures all { (turns k : ℕ) → 100 * k < turns → k < instances turns }
    ensures some { (turns k : ℕ) → k < instances turns → 0 < turns_of turns k }
    ensures most { (turns k : ℕ) → turns_of turns k ≤ 100 }
{}

/// The totals of a list of replies are those of all but the last, behind which the last comes.
pub fn totals_laws()
    ensures none { totals_of [] ≡ nothing }
    ensures last { (replies : List Answer) (reply : Answer) → totals_of (replies ++ reply ∷ []) ≡ with_reply (totals_of replies) reply }
{}
