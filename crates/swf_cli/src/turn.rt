// One turn of a session: an input is taken, answered, and its reply is said.
ghost use Rattle.std.specs.Prelude.{◌≡◌, ◌≤◌, None, IfOk, List, false, is_some, if◌then◌else◌};
ghost use Rattle.std.specs.Option.{ForSome};
ghost use Rattle.swf_meaning.specs.declared.label.Label.{Label};
ghost use Rattle.swf_engine.specs.Causes.{EngineCause, WhereUsable};
ghost use Rattle.swf_engine.specs.Core.{IsEngineOf, StandFor};
ghost use Rattle.swf_protocol.specs.Line.{command_of, is_quit};
ghost use Rattle.swf_protocol.specs.Sayable.{IsSayable};
ghost use Rattle.swf_turns.specs.Faults.{ReadFaults};
ghost use Rattle.swf_turns.specs.Heard.{TurnTells};
ghost use Rattle.swf_turns.specs.Settling.{Answering};
ghost use Rattle.swf_turns.specs.Blame.{IsBlamed};
ghost use Rattle.swf_turns.specs.Steps.{AskDone, IsBreak, IsSound, IsStop, StaysSound, TurnDone, reply_of, status_of};
ghost use Rattle.swf_turns.specs.StoreCalls.{ReadCalls, TurnCalls};
ghost use Rattle.swf_turns.specs.Dialect.{is_long, line_read, session};

use std::alloc::Global;
use swf_connect::{Parties, Switchboard};
use swf_engine::{Engine, EngineFault};
use swf_host::{Host, Input, MOST_LINE, NoWork};
use swf_protocol::Reply;
use swf_turns::{After, Answered, HOST_FAULT, STORE_FAULT, answer_line, say, say_damage, say_full};
use swf_words::Words;

// Answers an Ask.
fn answer_ask<H: Host<NoWork, NoWork>>(
    alloc: Global,
    words: &Words,
    host: &mut H,
    engine: &mut Engine,
    line: &[u8],
    board: &mut Switchboard,
) -> Result<Answered, EngineFault>
    requires place { IsEngineOf (H.seen host.old) engine.old }
    requires words { words.now.steps ≤ 1000000 }
    ensures place { WhereUsable result (IsEngineOf (H.seen host.new) engine.new) }
    ensures done { Answering words.now.http (⟦<Switchboard as Parties>⟧.parties board.old) (⟦<Switchboard as Parties>⟧.parties board.new)
        (λ answers. AskDone words.now None answers H.moment H.left_since H.said H.may_leave H.seen (line_read line.now) host.old host.new engine.old engine.new (reply_of result)) }
    ensures by_hand { words.now.http ≡ false → board.new ≡ board.old }
    ensures calls { ReadCalls words.now H.moment H.left_since H.said H.may_leave H.seen H.calls (line_read line.now) host.old host.new engine.old engine.new }
    ensures ends { IfOk result (λ answered. answered.ends ≡ (if is_long line.now then false else is_quit (command_of line.now))) }
    ensures which { IsBreak result }
    ensures faults { ReadFaults (H.seen host.new) (line_read line.now) (reply_of result) }
    ensures sayable { IfOk result (λ answered. IsSayable answered.reply) }
    ensures said { H.said host.new ≡ H.said host.old }
    ensures taken { H.taken host.new ≡ H.taken host.old }
    ensures host_faults { H.host_faults host.new ≡ H.host_faults host.old }
    ensures honest { is_some (H.seen host.new) ≡ is_some (H.seen host.old) }
    ensures cause { EngineCause (H.store_faults host.old) (H.store_faults host.new) result }
{
    if line.len() > MOST_LINE {
        return Ok(Answered {
            reply: Reply::TooLong,
            ends: false,
        });
    }
    answer_line(alloc, words, host, engine, line, board)
}

/// Takes the next input, and says its reply.
pub fn take_turn<H: Host<NoWork, NoWork>>(
    alloc: Global,
    words: &Words,
    host: &mut H,
    engine: &mut Engine,
    board: &mut Switchboard,
) -> After
    requires place { IsEngineOf (H.seen host.old) engine.old }
    requires words { words.now.steps ≤ 1000000 }
    ensures place { result ≡ After.GoesOn → IsEngineOf (H.seen host.new) engine.new }
    ensures turn { Answering words.now.http (⟦<Switchboard as Parties>⟧.parties board.old) (⟦<Switchboard as Parties>⟧.parties board.new)
        (λ answers. ForSome (H.seen host.old) (λ image. ForSome (H.taken host.old) (λ inputs. ForSome (H.said host.old) (λ pieces.
        (history : List Label) → StandFor image (H.may_leave host.old) engine.old history
        → TurnDone session words.now None answers H.moment H.left_since H.said H.may_leave H.seen H.taken host.old host.new engine.new history inputs pieces result)))) }
    ensures by_hand { words.now.http ≡ false → board.new ≡ board.old }
    // Whatever the store tells, each turn says its reply. Damage is told to who asked for a history and ends with 5, and a full journal to
    // who asked for labels, with 7.
    ensures tells { ForSome (H.taken host.old) (λ inputs. ForSome (H.said host.old) (λ pieces. TurnTells session H.said H.taken H.seen host.new inputs pieces result)) }
    // Its calls of the store are those of the one call of the engine that the input asks for.
    ensures calls { TurnCalls words.now H.moment H.left_since H.said H.may_leave H.seen H.calls H.taken host.old host.new engine.old engine.new }
    // Where engine and store stand for a history no damage is found, and they stand for one after it.
    ensures sound { IsSound H.moment H.left_since H.said H.may_leave H.seen host.old engine.old → StaysSound H.moment H.left_since H.said H.may_leave H.seen host.new engine.new result }
    ensures which { IsStop result }
    ensures blamed { IsBlamed (status_of result) (H.host_faults host.old) (H.host_faults host.new) (H.store_faults host.old) (H.store_faults host.new) }
{
    match host.next(false) {
        Ok(Input::Ask(conn, line)) => {
            match answer_ask(alloc, words, host, engine, line.as_slice(), board) {
                Ok(answered) => say(alloc, host, conn, answered),
                Err(EngineFault::Full { size }) => say_full(alloc, host, conn, size),
                Err(EngineFault::Damaged { at }) => {
                    After::Stops(say_damage(alloc, host, conn, at))
                }
                Err(EngineFault::Store) => After::Stops(STORE_FAULT),
                Err(EngineFault::OutOfMemory) => unreachable!(),
            }
        }
        Ok(Input::TooLong(conn)) => {
            let answered = Answered {
                reply: Reply::TooLong,
                ends: false,
            };
            say(alloc, host, conn, answered)
        }
        Ok(Input::Work(none)) => match none {},
        Ok(Input::Idle) => unreachable!(),
        Ok(Input::Closed) => After::Ends,
        Err(_) => After::Stops(HOST_FAULT),
    }
}
