// Examples of turns, each a law in the mode of these examples.
ghost use Rattle.std.specs.Prelude.{ℕ, List, [], ◌∷◌, None};
ghost use Rattle.swf_calls.specs.Request.{Request};
ghost use Rattle.swf_calls.specs.declared.reply.CallReply.{CallReply};
ghost use Rattle.swf_meaning.specs.World.{World};
ghost use Rattle.swf_meaning.specs.declared.label.Label.TheVariants.{Reply};
ghost use Rattle.swf_engine.specs.Settling.{Called};
ghost use Rattle.swf_turns.specs.Follows.{Follows};
ghost use Rattle.swf_turns.specs.Owed.{AreSaid, ArePrompt, replies_of};
ghost use Rattle.swf_turns.specs.Settling.{AreSettling};
ghost use Rattle.swf_turns.specs.Turns.{AreMore, AreTurns, inputs_of};
ghost use Rattle.swf_words.specs.declared.words.Words.{Words};
ghost use Rattle.swf_test_turns.specs.Bell.{bell};
ghost use Rattle.swf_test_turns.specs.declared.work.Done.{Done};
ghost use Rattle.swf_test_turns.specs.Examples.{both_answers, both_held, early_pieces, early_work, fifteenth, fifth, given, go, late_pieces, settled_of_three, settled_with_work, seventh, step, ticked, twelfth, untimely};

/// A turn of three inputs. Two of its three labels are steps, and between them stands what the board answered.
pub fn three_inputs()
    ensures turn { (words : Words) (call : List ℕ) (request : Request) (reply : CallReply) → AreTurns bell words None [] (settled_of_three words.http call request reply ∷ []) }
    // A line that settles belongs to no turn before it.
    ensures other { AreMore bell (go ∷ []) → ⊥ }
{}

/// What the board answered is used in another order, and not all of it.
pub fn two_answers()
    ensures turn { (words : Words) (a b c : List ℕ) (request : Request) (reply : CallReply) → AreTurns bell words None [] (both_answers words.http a b c request reply ∷ []) }
    // One answer is not used twice.
    ensures once { (w : World) (call : List ℕ) (request : Request) (reply : CallReply) → AreSettling w (Reply call reply ∷ Reply call reply ∷ []) 2 (given call request reply ∷ []) → ⊥ }
    // Three steps are more than two, whatever was answered.
    ensures steps { (w : World) (answers : List Called) → AreSettling w (step ∷ step ∷ step ∷ []) 2 answers → ⊥ }
{}

/// What came of work is a later input of a turn.
pub fn work_comes_later()
    ensures turn { (words : Words) (a b : Done) → AreTurns bell words None [] (settled_with_work words.http a b ∷ []) }
    // It begins none.
    ensures early { (words : Words) (a : Done) → AreTurns bell words None [] (early_work a ∷ []) → ⊥ }
{}

/// A moment that an input told comes before the next outcome, and not before the one after it.
pub fn moment_before_outcome()
    ensures turns { (words : Words) → AreTurns bell words None [] (ticked ∷ twelfth ∷ fifteenth ∷ []) }
    // The outcome does not come without it.
    ensures first { (words : Words) → AreTurns bell words None [] (ticked ∷ untimely ∷ []) → ⊥ }
{}

/// Two commands were taken, and one frame holds the labels of both. Then both replies are said, each behind both inputs.
pub fn replies_held_back()
    // Before anything is said the history has both labels,
    ensures unsaid { (words : Words) → Follows bell words [] (inputs_of both_held) [] [] (fifth ∷ seventh ∷ []) }
    // and behind it so where both replies were said.
    ensures said { (words : Words) → Follows bell words [] (inputs_of both_held) [] (replies_of bell both_held) (fifth ∷ seventh ∷ []) }
    ensures order { AreSaid bell 0 both_held late_pieces }
    // That is in order and not prompt. A reply before the inputs of its turn is not even in order.
    ensures late { ArePrompt bell 0 both_held late_pieces → ⊥ }
    ensures early { AreSaid bell 0 both_held early_pieces → ⊥ }
{}
