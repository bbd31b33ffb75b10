// The session: an engine is opened, and then one turn comes after another.
ghost use Rattle.std.specs.Prelude.{◌≡◌, ◌≢◌, ◌≤◌, ℕ, false};
ghost use Rattle.std.specs.Option.{ForSome};
ghost use Rattle.swf_engine.specs.Core.{IsEngineOf};
ghost use Rattle.swf_turns.specs.Dialect.{session};
ghost use Rattle.swf_turns.specs.Finish.{RunsOn};
ghost use Rattle.swf_turns.specs.Heard.{TurnsTell};
ghost use Rattle.swf_cli.specs.Running.{SessionRun};
ghost use Rattle.swf_turns.specs.Settling.{Answering};
ghost use Rattle.swf_cli.specs.Statuses.{IsStatus};
ghost use Rattle.swf_turns.specs.Blame.{IsBlamed};
ghost use Rattle.swf_turns.specs.StoreCalls.{SessionCalls, TurnsCalls};
ghost use Rattle.swf_turns.specs.Steps.{IsSound};

use crate::turn::take_turn;
use std::alloc::Global;
use swf_connect::{Parties, Switchboard};
use swf_engine::Engine;
use swf_host::{Host, NoWork};
use swf_turns::{After, not_opened};
use swf_words::{Mode, Words};

// Takes turns until the input ends.
fn take_turns<H: Host<NoWork, NoWork>>(
    alloc: Global,
    words: &Words,
    host: &mut H,
    engine: &mut Engine,
    board: &mut Switchboard,
) -> u8
    requires place { IsEngineOf (H.seen host.old) engine.old }
    requires words { words.now.steps ≤ 1000000 }
    ensures ran { Answering words.now.http (⟦<Switchboard as Parties>⟧.parties board.old) (⟦<Switchboard as Parties>⟧.parties board.new)
        (λ answers. RunsOn session words.now H.moment H.left_since H.said H.may_leave H.seen H.taken host.old host.new engine.old answers result) }
    ensures by_hand { words.now.http ≡ false → board.new ≡ board.old }
    ensures tells { ForSome (H.taken host.old) (λ first. ForSome (H.said host.old) (λ pieces. TurnsTell session H.said H.taken H.seen host.new first pieces result)) }
    ensures calls { (turns : ℕ) × TurnsCalls words.now H.moment H.left_since H.said H.may_leave H.seen H.calls H.taken turns host.old host.new engine.old engine.new }
    ensures sound { IsSound H.moment H.left_since H.said H.may_leave H.seen host.old engine.old → result ≢ 5 }
    ensures blamed { IsBlamed result (H.host_faults host.old) (H.host_faults host.new) (H.store_faults host.old) (H.store_faults host.new) }
    ensures which { IsStatus Mode.Session result }
{
    for _ in 0..u64::MAX {
        match take_turn(alloc, words, host, engine, board) {
            After::GoesOn => {}
            After::Ends => return 0,
            After::Stops(status) => return status,
        }
    }
    0
}

/// Reads commands and answers them until the input ends, and answers the status.
pub fn run_session<H: Host<NoWork, NoWork>>(
    alloc: Global,
    words: &Words,
    host: &mut H,
    board: &mut Switchboard,
) -> u8
    requires { words.now.steps ≤ 1000000 }
    ensures runs { Answering words.now.http (⟦<Switchboard as Parties>⟧.parties board.old) (⟦<Switchboard as Parties>⟧.parties board.new)
        (λ answers. SessionRun H.moment H.left_since H.said H.may_leave H.seen H.taken words.now answers host.old host.new result) }
    ensures by_hand { words.now.http ≡ false → board.new ≡ board.old }
    ensures calls { SessionCalls words.now H.moment H.left_since H.said H.may_leave H.seen H.calls H.taken host.old host.new }
    ensures blamed { IsBlamed result (H.host_faults host.old) (H.host_faults host.new) (H.store_faults host.old) (H.store_faults host.new) }
    ensures which { IsStatus Mode.Session result }
{
    match Engine::open_on(alloc, host) {
        Ok(engine) => {
            let mut engine = engine;
            take_turns(alloc, words, host, &mut engine, board)
        }
        Err(fault) => not_opened(alloc, host, fault),
    }
}
