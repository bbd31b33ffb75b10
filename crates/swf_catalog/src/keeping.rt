// A sub-workflow keeps a context of its own (DSL 1.0.0, reference, "Run").
ghost use Rattle.std.specs.Prelude.{◌≡◌, IfOk};
ghost use Rattle.swf_catalog.specs.Rounds.{is_sub, keeping_in};

use crate::round::Round;
use std::alloc::AllocError;
use swf_value::Json;

impl Round {
    /// Whether it is a sub-workflow, which has a context of its own.
    pub fn is_sub(&self) -> bool
        ensures { result ≡ is_sub self.now }
    {
        matches!(self, Round::SubWorkflow(_))
    }

    /// The same once more, with another context where it has one. It copies no values.
    pub fn keeping(&self, context: Json) -> Result<Round, AllocError>
        ensures { IfOk result (λ r. r ≡ keeping_in self.now context) }
    {
        match self {
            Round::SubWorkflow(sub) => Ok(Round::SubWorkflow(sub.with_context(context)?)),
            _ => self.copy(),
        }
    }
}
