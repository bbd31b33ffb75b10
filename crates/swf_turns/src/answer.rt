// What a command is answered, and what it adds to the journal.
ghost use Rattle.std.specs.Prelude.{◌≡◌, ◌≤◌, false, [], None, Ok, IfOk, is_some};
ghost use Rattle.swf_engine.specs.Causes.{EngineCause, WhereUsable};
ghost use Rattle.swf_engine.specs.Core.{IsEngineOf};
ghost use Rattle.swf_protocol.specs.Line.{command_of, is_quit};
ghost use Rattle.swf_protocol.specs.Sayable.{IsSayable, IsModest};
ghost use Rattle.swf_turns.specs.Faults.{CommandFaults, MayAddFault};
ghost use Rattle.swf_turns.specs.Settling.{Answering};
ghost use Rattle.swf_turns.specs.Steps.{LineDone, reply_of, or_memory, queried, IsBreak};
ghost use Rattle.swf_turns.specs.Sorts.{sort_of, accepted_as};
ghost use Rattle.swf_turns.specs.Turns.{refused, settle_reply, fault_reply};
ghost use Rattle.swf_turns.specs.StoreCalls.{CommandCalls};
ghost use Rattle.swf_words.specs.declared.words.Words.{Words as Meaning};

use std::alloc::Global;
use swf_connect::{Parties, Switchboard};
use swf_engine::{Engine, EngineFault, Settled, Submitted};
use swf_meaning::{Answer, Outcome, Query};
use swf_protocol::{Command, CommandFault, Reply, read_command};
use swf_store::Store;
use swf_words::Words;
use swf_world::{Installed, QueryFault, Refusal};

/// What a line is answered, and whether the input ends with it.
#[derive(Drop)]
pub struct Answered {
    pub reply: Reply,
    pub ends: bool,
}

/// What kind of outcome was handed in.
#[derive(Clone, Copy, Debug, PartialEq, Eq)]
pub enum Sort {
    Load,
    Start,
    Event,
    Reply,
    Moment,
}

fn sort_of(outcome: &Outcome) -> Sort
    ensures { result ≡ sort_of outcome.now }
{
    match outcome {
        Outcome::Load(_) => Sort::Load,
        Outcome::Start { .. } => Sort::Start,
        Outcome::Event(_) => Sort::Event,
        Outcome::Reply { .. } => Sort::Reply,
        Outcome::Moment(_) => Sort::Moment,
    }
}

// The reply to an outcome whose label was added.
fn accepted(sort: Sort, installed: Installed) -> Reply
    ensures { result ≡ accepted_as sort installed.place installed.taken }
{
    let Installed { place, taken } = installed;
    match sort {
        Sort::Load => Reply::Loaded(place),
        Sort::Start => Reply::Started(place),
        Sort::Event => Reply::Accepted { place, taken },
        Sort::Reply => Reply::Replied(place),
        Sort::Moment => Reply::Reached(place),
    }
}

fn refused(refusal: Refusal) -> Reply
    ensures { result ≡ refused refusal }
{
    match refusal {
        Refusal::Refused(faults) => Reply::Refused(faults),
        Refusal::Duplicate { place } => Reply::Duplicate(place),
        Refusal::UnknownDocument => Reply::UnknownDocument,
        Refusal::UnknownInstance => Reply::UnknownInstance,
        Refusal::Stale => Reply::Stale,
        Refusal::Past { now } => Reply::Past(now),
        Refusal::Full => Reply::Full,
        Refusal::NotEnabled => Reply::UnknownInstance,
    }
}

// A call of the engine that found no memory is answered so.
fn or_memory(fault: EngineFault) -> Result<Reply, EngineFault>
    ensures { result ≡ or_memory fault }
{
    match fault {
        EngineFault::OutOfMemory => Ok(Reply::Memory),
        EngineFault::Store => Err(EngineFault::Store),
        EngineFault::Damaged { at } => Err(EngineFault::Damaged { at }),
        EngineFault::Full { size } => Err(EngineFault::Full { size }),
    }
}

fn submit<S: Store>(
    store: &mut S,
    engine: &mut Engine,
    outcome: Outcome,
) -> Result<Reply, EngineFault>
    requires place { IsEngineOf (S.seen store.old) engine.old }
    requires modest { IsModest (Command.Do outcome) }
    ensures place { WhereUsable result (IsEngineOf (S.seen store.new) engine.new) }
    ensures done { (words : Meaning) → LineDone words None [] S.moment S.left_since S.said S.may_leave S.seen (Ok (Command.Do outcome)) store.old store.new engine.old engine.new result }
    ensures calls { (words : Meaning) → CommandCalls words S.moment S.left_since S.said S.may_leave S.seen S.calls (Ok (Command.Do outcome)) store.old store.new engine.old engine.new }
    ensures which { IsBreak result }
    ensures faults { MayAddFault result }
    ensures sayable { IfOk result IsSayable }
    ensures said { S.said store.new ≡ S.said store.old }
    ensures beside { S.beside store.new ≡ S.beside store.old }
    ensures honest { is_some (S.seen store.new) ≡ is_some (S.seen store.old) }
    ensures cause { EngineCause (S.store_faults store.old) (S.store_faults store.new) result }
{
    let sort = sort_of(&outcome);
    match engine.submit(store, outcome) {
        Ok(Submitted::Accepted(installed)) => Ok(accepted(sort, installed)),
        Ok(Submitted::Refused(refusal)) => Ok(refused(refusal)),
        Err(fault) => or_memory(fault),
    }
}

// What a settling is answered.
fn settled_reply(settled: Settled, limit: u64) -> Reply
    ensures { result ≡ settle_reply settled.quiet settled.steps limit }
{
    if settled.quiet {
        Reply::Quiet(settled.steps)
    } else {
        Reply::Budget(limit)
    }
}

// A settling of at most so many steps, where the line gives their number, or else as many as the words say.
fn settle<S: Store>(
    words: &Words,
    store: &mut S,
    engine: &mut Engine,
    limit: Option<u64>,
    board: &mut Switchboard,
) -> Result<Reply, EngineFault>
    requires place { IsEngineOf (S.seen store.old) engine.old }
    requires modest { IsModest (Command.Settle limit) }
    requires words { words.now.steps ≤ 1000000 }
    ensures place { WhereUsable result (IsEngineOf (S.seen store.new) engine.new) }
    ensures done { Answering words.now.http (⟦<Switchboard as Parties>⟧.parties board.old) (⟦<Switchboard as Parties>⟧.parties board.new)
        (λ answers. LineDone words.now None answers S.moment S.left_since S.said S.may_leave S.seen (Ok (Command.Settle limit)) store.old store.new engine.old engine.new result) }
    ensures by_hand { words.now.http ≡ false → board.new ≡ board.old }
    ensures calls { CommandCalls words.now S.moment S.left_since S.said S.may_leave S.seen S.calls (Ok (Command.Settle limit)) store.old store.new engine.old engine.new }
    ensures which { IsBreak result }
    ensures faults { MayAddFault result }
    ensures sayable { IfOk result IsSayable }
    ensures said { S.said store.new ≡ S.said store.old }
    ensures beside { S.beside store.new ≡ S.beside store.old }
    ensures honest { is_some (S.seen store.new) ≡ is_some (S.seen store.old) }
    ensures cause { EngineCause (S.store_faults store.old) (S.store_faults store.new) result }
{
    let most = limit.unwrap_or(u64::from(words.steps));
    match engine.settle(store, most, board, words.http) {
        Ok(settled) => Ok(settled_reply(settled, most)),
        Err(fault) => or_memory(fault),
    }
}

/// The reply to a query, by its answer.
pub fn queried(answer: Result<Answer, QueryFault>) -> Reply
    ensures reply { result ≡ queried answer }
    ensures sayable { IsSayable result }
{
    match answer {
        Ok(Answer::Status(value)) => Reply::Report(value),
        Ok(Answer::Pending(value)) => Reply::Pending(value),
        Ok(Answer::Outbox(value)) => Reply::Outbox(value),
        Ok(Answer::History(value)) => Reply::History(value),
        Err(QueryFault::UnknownInstance) => Reply::UnknownInstance,
        Err(QueryFault::OutOfMemory) => Reply::Memory,
    }
}

fn ask<S: Store>(store: &mut S, engine: &mut Engine, query: &Query) -> Result<Reply, EngineFault>
    requires place { IsEngineOf (S.seen store.old) engine.old }
    ensures place { WhereUsable result (IsEngineOf (S.seen store.new) engine.new) }
    ensures done { (words : Meaning) → LineDone words None [] S.moment S.left_since S.said S.may_leave S.seen (Ok (Command.Ask query.now)) store.old store.new engine.old engine.new result }
    ensures calls { (words : Meaning) → CommandCalls words S.moment S.left_since S.said S.may_leave S.seen S.calls (Ok (Command.Ask query.now)) store.old store.new engine.old engine.new }
    ensures which { IsBreak result }
    ensures faults { CommandFaults (S.seen store.new) (Ok (Command.Ask query.now)) result }
    ensures sayable { IfOk result IsSayable }
    ensures said { S.said store.new ≡ S.said store.old }
    ensures beside { S.beside store.new ≡ S.beside store.old }
    ensures honest { is_some (S.seen store.new) ≡ is_some (S.seen store.old) }
    ensures cause { EngineCause (S.store_faults store.old) (S.store_faults store.new) result }
{
    match engine.query(store, query) {
        Ok(answer) => Ok(queried(answer)),
        Err(fault) => or_memory(fault),
    }
}

/// Does what a command says. A fault is one of the store, or that the journal is damaged or full.
pub fn obey<S: Store>(
    words: &Words,
    store: &mut S,
    engine: &mut Engine,
    command: Command,
    board: &mut Switchboard,
) -> Result<Reply, EngineFault>
    requires place { IsEngineOf (S.seen store.old) engine.old }
    requires modest { IsModest command }
    requires words { words.now.steps ≤ 1000000 }
    ensures place { WhereUsable result (IsEngineOf (S.seen store.new) engine.new) }
    ensures done { Answering words.now.http (⟦<Switchboard as Parties>⟧.parties board.old) (⟦<Switchboard as Parties>⟧.parties board.new)
        (λ answers. LineDone words.now None answers S.moment S.left_since S.said S.may_leave S.seen (Ok command) store.old store.new engine.old engine.new result) }
    ensures by_hand { words.now.http ≡ false → board.new ≡ board.old }
    ensures calls { CommandCalls words.now S.moment S.left_since S.said S.may_leave S.seen S.calls (Ok command) store.old store.new engine.old engine.new }
    ensures which { IsBreak result }
    // A history alone finds damage, where the store can not tell it.
    ensures faults { CommandFaults (S.seen store.new) (Ok command) result }
    ensures sayable { IfOk result IsSayable }
    ensures said { S.said store.new ≡ S.said store.old }
    ensures beside { S.beside store.new ≡ S.beside store.old }
    ensures honest { is_some (S.seen store.new) ≡ is_some (S.seen store.old) }
    ensures cause { EngineCause (S.store_faults store.old) (S.store_faults store.new) result }
{
    match command {
        Command::Do(outcome) => submit(store, engine, outcome),
        Command::Ask(query) => ask(store, engine, &query),
        Command::Settle(limit) => settle(words, store, engine, limit, board),
        Command::Quit => Ok(Reply::Quit),
    }
}

/// The reply to what spells no command.
pub fn unread(fault: CommandFault) -> Reply
    ensures reply { result ≡ fault_reply fault }
    ensures sayable { IsSayable result }
{
    match fault {
        CommandFault::BadLine(fault) => Reply::BadLine(fault),
        CommandFault::BadEvent { attribute, kind } => Reply::BadEvent { attribute, kind },
        CommandFault::OutOfMemory => Reply::Memory,
    }
}

fn is_quit(command: &Command) -> bool
    ensures { result ≡ is_quit (Ok command.now) }
{
    matches!(command, Command::Quit)
}

/// Answers a line that is not too long. A fault is one of the store, or that the journal is damaged or full.
pub fn answer_line<S: Store>(
    alloc: Global,
    words: &Words,
    store: &mut S,
    engine: &mut Engine,
    line: &[u8],
    board: &mut Switchboard,
) -> Result<Answered, EngineFault>
    requires place { IsEngineOf (S.seen store.old) engine.old }
    requires words { words.now.steps ≤ 1000000 }
    ensures place { WhereUsable result (IsEngineOf (S.seen store.new) engine.new) }
    ensures done { Answering words.now.http (⟦<Switchboard as Parties>⟧.parties board.old) (⟦<Switchboard as Parties>⟧.parties board.new)
        (λ answers. LineDone words.now None answers S.moment S.left_since S.said S.may_leave S.seen (command_of line.now) store.old store.new engine.old engine.new (reply_of result)) }
    ensures by_hand { words.now.http ≡ false → board.new ≡ board.old }
    ensures calls { CommandCalls words.now S.moment S.left_since S.said S.may_leave S.seen S.calls (command_of line.now) store.old store.new engine.old engine.new }
    ensures ends { IfOk result (λ answered. answered.ends ≡ is_quit (command_of line.now)) }
    ensures which { IsBreak result }
    ensures faults { CommandFaults (S.seen store.new) (command_of line.now) (reply_of result) }
    ensures sayable { IfOk result (λ answered. IsSayable answered.reply) }
    ensures said { S.said store.new ≡ S.said store.old }
    ensures beside { S.beside store.new ≡ S.beside store.old }
    ensures honest { is_some (S.seen store.new) ≡ is_some (S.seen store.old) }
    ensures cause { EngineCause (S.store_faults store.old) (S.store_faults store.new) result }
{
    match read_command(alloc, line) {
        Ok(command) => {
            let ends = is_quit(&command);
            match obey(words, store, engine, command, board) {
                Ok(reply) => Ok(Answered { reply, ends }),
                Err(fault) => Err(fault),
            }
        }
        Err(fault) => Ok(Answered {
            reply: unread(fault),
            ends: false,
        }),
    }
}
