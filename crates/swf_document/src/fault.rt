// What is wrong with a value that is no document.
ghost use Rattle.std.specs.Prelude.{◌≡◌, ◌∷◌, ◌++◌, [], IfOk, IfErr, IsTrue, ◌↔◌, codes};
ghost use Rattle.swf_text.specs.Same.{is_ascii};
ghost use Rattle.swf_document.specs.FaultWord.{fault_word};

use std::alloc::{AllocError, Global};
use std::marker::Model;
use swf_text::Place;

/// A kind of fault.
#[derive(Clone, Copy, Debug, PartialEq, Eq)]
pub enum FaultKind {
    Missing,
    WrongKind,
    UnknownMember,
    BadText,
    BadExpression,
    NotInProfile,
    UnknownTarget,
    DuplicateName,
    UnknownFunction,
    UnknownError,
    UnknownRetry,
    FunctionCycle,
    ExportInFork,
    UnknownVariable,
    TooMany,
}

/// A fault, and the place in the value where it stands.
#[derive(Drop)]
pub struct Fault {
    pub place: Place,
    pub kind: FaultKind,
}

/// Faults in order. Contracts see them as a list.
#[derive(Drop)]
pub struct Faults {
    items: Vec<Fault>,
}

impl Model for Faults {
    ghost use Rattle.std.specs.Prelude.{List};
    ghost use Rattle.swf_document.specs.declared.fault.Fault.{Fault};

    ghost Value = { List Fault };

    ghost view = { λ f. f.items.items };
}

impl FaultKind {
    /// The word by which it is written.
    pub fn word(self) -> &'static str
        ensures text { result.now ≡ fault_word self }
        ensures ascii { IsTrue (is_ascii result.now) }
    {
        match self {
            FaultKind::Missing => "missing",
            FaultKind::WrongKind => "wrong-kind",
            FaultKind::UnknownMember => "unknown-member",
            FaultKind::BadText => "bad-text",
            FaultKind::BadExpression => "bad-expression",
            FaultKind::NotInProfile => "not-in-profile",
            FaultKind::UnknownTarget => "unknown-target",
            FaultKind::DuplicateName => "duplicate-name",
            FaultKind::UnknownFunction => "unknown-function",
            FaultKind::UnknownError => "unknown-error",
            FaultKind::UnknownRetry => "unknown-retry",
            FaultKind::FunctionCycle => "function-cycle",
            FaultKind::ExportInFork => "export-in-fork",
            FaultKind::UnknownVariable => "unknown-variable",
            FaultKind::TooMany => "too-many",
        }
    }
}

impl Faults {
    /// No faults. It takes no memory.
    pub fn new(alloc: Global) -> Faults
        ensures { result ≡ [] }
    {
        Faults {
            items: Vec::new(alloc),
        }
    }

    /// One more fault at the end.
    pub fn push(&mut self, place: Place, kind: FaultKind) -> Result<(), AllocError>
        ensures ok { IfOk result (λ _. self.new ≡ self.old ++ (record { place = place; kind = kind }) ∷ []) }
        ensures err { IfErr result (λ _. self.new ≡ self.old) }
    {
        self.items.push(Fault { place, kind })?;
        Ok(())
    }

    /// The faults in order.
    pub fn as_slice(&self) -> &[Fault]
        ensures { result.now ≡ self.now }
    {
        self.items.as_slice()
    }

    pub fn is_empty(&self) -> bool
        ensures { IsTrue result ↔ (self.now ≡ []) }
    {
        self.items.is_empty()
    }
}
