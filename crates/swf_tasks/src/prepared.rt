// A step that was prepared.
ghost use Rattle.std.specs.Prelude.{◌≡◌};
ghost use Rattle.swf_tasks.specs.Prepares.{listens, may_listen};

use swf_frames::Forest;
use swf_stack::{SentEvent, Stand, Top};
use swf_text::Strand;
use swf_value::Json;

/// A step that was prepared: what it makes of the instance, and the event that goes out.
#[derive(Drop)]
pub struct Prepared {
    /// The strand that takes the step.
    pub strand: Strand,
    pub strands: Strands,
    /// The context of the instance, where it changes.
    pub context: Option<Json>,
    /// The instance's next number.
    pub number: u64,
    /// The event that goes out, where one does.
    pub emitted: Option<SentEvent>,
}

/// What a step makes of the strands of an instance.
#[derive(Drop)]
pub enum Strands {
    /// One is put anew, with none below it. The first branch numbers of the strand that takes the step, so many, lead to it.
    One { depth: usize, stand: Stand },
    /// These are all of them.
    All(Forest<Stand>),
}

impl Prepared {
    /// Whether a strand may listen that it puts anew. Where none does, an instance that listens for nothing goes on to.
    pub fn may_listen(&self) -> bool
        ensures { result ≡ may_listen self.now.strands }
    {
        match &self.strands {
            Strands::One { stand, .. } => listens(stand.top.get()),
            Strands::All(_) => true,
        }
    }
}

// Whether a task that listens stands innermost.
fn listens(top: &Top) -> bool
    ensures { result ≡ listens top.now }
{
    match top {
        Top::Hearing { .. } => true,
        _ => false,
    }
}
