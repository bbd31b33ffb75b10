// What a task is: the workflow of a document, or a task of a list; and what it does.
ghost use Rattle.std.specs.Prelude.{◌≡◌, option_map};
ghost use Rattle.swf_meaning.specs.Parts.{kind_of};
ghost use Rattle.swf_meaning.specs.Fork.{branches_of};
ghost use Rattle.swf_meaning.specs.Lists.{list_of};
ghost use Rattle.swf_catalog.specs.Rounds.{round_of};
ghost use Rattle.swf_catalog.specs.TaskRef.{parts_task, work_kind, listed};

use crate::round::Round;
use swf_document::{
    Callee, Case, Document, ErrorRef, ForSpec, ForkSpec, Kind, ListenSpec, Listing, RunSpec, Task,
    Tasks, Template, TrySpec,
};

/// The parts of a task.
#[derive(Clone, Copy)]
pub enum Parts<'a> {
    Workflow(&'a Document),
    Listed(&'a Task),
}

/// What a task does.
#[derive(Drop)]
pub enum Work<'a> {
    Call(&'a Callee),
    Do(&'a Tasks),
    Emit(&'a Template),
    For(&'a ForSpec),
    Fork(&'a ForkSpec),
    Listen(&'a ListenSpec),
    Raise(&'a ErrorRef),
    Run(&'a RunSpec),
    Set(&'a Template),
    Switch(&'a Listing<Case>),
    Try(&'a TrySpec),
    Wait(u64),
}

impl<'a> Parts<'a> {
    /// What it does.
    pub fn work(self) -> Work<'a>
        ensures { work_kind result (kind_of (parts_task self.entry)) }
    {
        match self {
            Parts::Workflow(document) => Work::Do(&document.tasks),
            Parts::Listed(task) => match &task.kind {
                Kind::Call(callee) => Work::Call(callee),
                Kind::Do(tasks) => Work::Do(tasks),
                Kind::Emit(template) => Work::Emit(template),
                Kind::For(spec) => Work::For(spec),
                Kind::Fork(spec) => Work::Fork(spec),
                Kind::Listen(spec) => Work::Listen(spec),
                Kind::Raise(reference) => Work::Raise(reference),
                Kind::Run(spec) => Work::Run(spec),
                Kind::Set(template) => Work::Set(template),
                Kind::Switch(cases) => Work::Switch(cases),
                Kind::Try(spec) => Work::Try(spec),
                Kind::Wait(duration) => Work::Wait(*duration),
            },
        }
    }

    /// The list of tasks that it runs in a round.
    pub fn list(self, round: &Round) -> Option<&'a Tasks>
        ensures { listed (option_map (λ t. t.now) result) ≡ list_of (parts_task self.entry) (round_of round.now) }
    {
        match (self.work(), round) {
            (Work::Do(tasks), _) => Some(tasks),
            (Work::For(spec), _) => Some(&spec.tasks),
            (Work::Try(spec), Round::Catch(_)) => spec.handler.as_ref(),
            (Work::Try(spec), _) => Some(&spec.tasks),
            (
                Work::Call(_)
                | Work::Emit(_)
                | Work::Fork(_)
                | Work::Listen(_)
                | Work::Raise(_)
                | Work::Run(_)
                | Work::Set(_)
                | Work::Switch(_)
                | Work::Wait(_),
                _,
            ) => None,
        }
    }

    /// The branches, where it is a `fork`.
    pub fn branches(self) -> Option<&'a Tasks>
        ensures { listed (option_map (λ t. t.now) result) ≡ branches_of (parts_task self.entry) }
    {
        match self.work() {
            Work::Fork(spec) => Some(&spec.branches),
            _ => None,
        }
    }
}
