// Why a rule does not go on: the task ends in an error, or memory runs out.
ghost use Rattle.std.specs.Prelude.{◌≡◌, IfOk, IsTrue, chars};
ghost use Rattle.swf_text.specs.Same.{is_ascii};
ghost use Rattle.swf_document.specs.Errors.{standard};
ghost use Rattle.swf_meaning.specs.Parts.{place_of};
ghost use Rattle.swf_scene.specs.declared.halt.Halt.TheVariants.{OutOfMemory};
ghost use Rattle.swf_meaning.specs.Rule.{value_of};
ghost use Rattle.swf_scene.specs.Halts.{IsFault, Gives};

use std::alloc::{AllocError, AllocFailed, Global};
use swf_catalog::TaskRef;
use swf_document::{ErrorKind, Problem, standard_error};
use swf_transform::{Got, message};

/// Why a rule does not go on.
#[derive(Drop)]
pub enum Halt {
    /// The task ends in this error.
    Fault(Problem),
    OutOfMemory,
}

impl From<AllocError> for Halt {
    ghost from_gives = { λ _ e. e ≡ OutOfMemory };

    fn from(_: AllocError) -> Self {
        Halt::OutOfMemory
    }
}

impl<T: Drop> From<AllocFailed<T>> for Halt {
    ghost from_gives = { λ _ e. e ≡ OutOfMemory };

    fn from(_: AllocFailed<T>) -> Self {
        Halt::OutOfMemory
    }
}

/// A task ends in a standard error at its place, with an ASCII word as its detail.
#[tactic(auto, using(swf_text::proofs::SameLemmas::chars_ascii))]
pub fn fails(alloc: Global, task: &TaskRef, kind: ErrorKind, detail: &str) -> Halt
    requires { IsTrue (is_ascii detail.now) }
    ensures { IsFault task.now kind detail.now result }
{
    match failure(alloc, task, kind, detail) {
        Ok(problem) => Halt::Fault(problem),
        Err(_) => Halt::OutOfMemory,
    }
}

fn failure(
    alloc: Global,
    task: &TaskRef,
    kind: ErrorKind,
    detail: &str,
) -> Result<Problem, AllocError>
    ensures { IfOk result (λ p. p ≡ standard kind (place_of task.now) (chars detail.now)) }
{
    standard_error(alloc, kind, &task.place(alloc)?, detail)
}

/// The value that was got for a task, or its error.
pub fn value_of<T: Drop>(alloc: Global, task: &TaskRef, got: Got<T>) -> Result<T, Halt>
    ensures { Gives (value_of task.now got) result }
{
    match got {
        Got::Value(value) => Ok(value),
        Got::Raised(raised) => {
            let detail = message(alloc, &raised)?;
            let problem = failure(alloc, task, ErrorKind::Expression, detail.as_str())?;
            Err(Halt::Fault(problem))
        }
        Got::TooLarge => Err(fails(alloc, task, ErrorKind::Runtime, "value limit")),
        Got::Limit => Err(fails(alloc, task, ErrorKind::Runtime, "expression limit")),
    }
}
