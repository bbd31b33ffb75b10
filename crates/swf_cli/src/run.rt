// The top call: the words are read, and then the program does what they mean.
ghost use Rattle.std.specs.Prelude.{◌≡◌, ◌≢◌, ◌⊎◌, ◌↔◌, false, Some, None};
ghost use Rattle.swf_check.specs.Checking.{CheckRun};
ghost use Rattle.swf_cli.specs.Running.{RunsIn};
ghost use Rattle.swf_cli.specs.Statuses.{IsStatus};
ghost use Rattle.swf_turns.specs.Blame.{IsBlamed};
ghost use Rattle.swf_turns.specs.StoreCalls.{SessionCalls};
ghost use Rattle.swf_words.specs.Words.{texts, words_of};
ghost use Rattle.swf_words.specs.declared.words.Words.{Words as Meaning};

use crate::session::run_session;
use crate::show::run_show;
use std::alloc::Global;
use swf_check::run_check;
use swf_connect::{Parties, Switchboard};
use swf_host::{Host, NoWork};
use swf_turns::NO_MEMORY;
use swf_words::{Mode, read_words};

/// The words mean nothing.
const NO_MEANING: u8 = 2;

// Checks a document. It has no store to blame.
#[tactic(auto, using(crate::proofs::CheckLemmas::check_blamed))]
fn check<H: Host<NoWork, NoWork>>(alloc: Global, host: &mut H) -> u8
    ensures runs { CheckRun H.moment H.left_since H.said H.may_leave H.taken host.old host.new result }
    ensures which { IsStatus Mode.Check result }
    ensures no_call { (H.calls host.new ≡ H.calls host.old) × (H.seen host.new ≡ H.seen host.old) }
    ensures blamed { IsBlamed result (H.host_faults host.old) (H.host_faults host.new) (H.store_faults host.old) (H.store_faults host.new) }
{
    run_check(alloc, host)
}

/// Runs the program: its words, the host with its store, and the board that answers calls are handed in, and its status is answered.
pub fn swf_run<H: Host<NoWork, NoWork>>(
    alloc: Global,
    words: &[String],
    host: &mut H,
    board: &mut Switchboard,
) -> u8
    // 2 comes exactly by the words, and then nothing was done.
    ensures words { (result ≡ 2) ↔ (words_of (texts words.now) ≡ None) }
    ensures untouched { words_of (texts words.now) ≡ None → (host.new ≡ host.old) × (board.new ≡ board.old) }
    // Else the program does what the words mean.
    ensures runs { (meaning : Meaning) → words_of (texts words.now) ≡ Some meaning
        → RunsIn H.moment H.left_since H.said H.may_leave H.seen H.taken meaning.mode meaning (⟦<Switchboard as Parties>⟧.parties board.old) (⟦<Switchboard as Parties>⟧.parties board.new) host.old host.new result }
    // The board is asked in a session alone, and there only where the words say that it answers calls.
    ensures by_hand { (meaning : Meaning) → words_of (texts words.now) ≡ Some meaning → (meaning.http ≡ false) ⊎ (meaning.mode ≢ Mode.Session) → board.new ≡ board.old }
    ensures statuses { (meaning : Meaning) → words_of (texts words.now) ≡ Some meaning → IsStatus meaning.mode result }
    // To check a document no call of the store is made.
    ensures no_call { (meaning : Meaning) → words_of (texts words.now) ≡ Some meaning → meaning.mode ≡ Mode.Check → (H.calls host.new ≡ H.calls host.old) × (H.seen host.new ≡ H.seen host.old) }
    // A session opens its store once, and in each turn makes the calls of the one call of the engine that its input asks for.
    ensures calls { (meaning : Meaning) → words_of (texts words.now) ≡ Some meaning → meaning.mode ≡ Mode.Session → SessionCalls meaning H.moment H.left_since H.said H.may_leave H.seen H.calls H.taken host.old host.new }
    // 3 comes where a call of the store failed and 4 where one of the host did, at the first such call; else none did.
    ensures blamed { IsBlamed result (H.host_faults host.old) (H.host_faults host.new) (H.store_faults host.old) (H.store_faults host.new) }
{
    let words = match read_words(alloc, words) {
        Ok(Some(words)) => words,
        Ok(None) => return NO_MEANING,
        Err(_) => return NO_MEMORY,
    };
    match words.mode {
        Mode::Check => check(alloc, host),
        Mode::Session => run_session(alloc, &words, host, board),
        Mode::Show => run_show(alloc, host),
    }
}
