// For what a task runs its list (DSL 1.0.0, reference, "For", "Try", "Catch", "Function Call" and "Run").
ghost use Rattle.std.specs.Prelude.{◌≡◌, ◌<◌, ◌^◌, IfOk};

use crate::shared::SharedDocument;
use std::alloc::AllocError;
use swf_document::Problem;
use swf_value::{Json, JsonList};

/// An iteration of a `for` over some items.
#[derive(Drop)]
pub struct Iteration {
    pub items: JsonList,
    pub number: u64,
    ghost few: { number < 2 ^ 53 },
}

/// The workflow of a document, on a raw input and with a context of its own.
#[derive(Drop)]
pub struct SubWorkflow {
    pub document: SharedDocument,
    pub input: Json,
    pub context: Json,
}

impl SubWorkflow {
    /// The same with another context. It copies no values.
    pub fn with_context(&self, context: Json) -> Result<SubWorkflow, AllocError>
        ensures { IfOk result (λ s. s ≡ record self.now { context = context }) }
    {
        Ok(SubWorkflow {
            document: self.document.copy()?,
            input: self.input.copy()?,
            context,
        })
    }
}

/// For what a task runs its list.
#[derive(Drop)]
pub enum Round {
    /// Once.
    Seq,
    Each(Iteration),
    /// The attempt of a `try` after so many retries.
    Try { retries: u64 },
    /// To handle an error.
    Catch(Problem),
    /// As a function that was called.
    Function,
    SubWorkflow(SubWorkflow),
}

impl Round {
    /// The same once more. It copies no values.
    pub fn copy(&self) -> Result<Round, AllocError>
        ensures { IfOk result (λ r. r ≡ self.now) }
    {
        match self {
            Round::Seq => Ok(Round::Seq),
            Round::Each(iteration) => Ok(Round::Each(Iteration {
                items: iteration.items.copy()?,
                number: iteration.number,
            })),
            Round::Try { retries } => Ok(Round::Try { retries: *retries }),
            Round::Catch(problem) => Ok(Round::Catch(problem.copy()?)),
            Round::Function => Ok(Round::Function),
            Round::SubWorkflow(sub) => {
                let context = sub.context.copy()?;
                Ok(Round::SubWorkflow(sub.with_context(context)?))
            }
        }
    }
}
