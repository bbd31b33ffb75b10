// What a context that changed does to the tasks around.
ghost use Rattle.std.specs.Prelude.{◌≡◌, IfOk};
ghost use Rattle.swf_stack.specs.Kept.{context_kept, keeping_frame, kept, kept_by};

use crate::made::Frame;
use std::alloc::{AllocError, Global};
use swf_chain::Chain;
use swf_value::Json;

/// The running tasks behind a step, the innermost first, and the context of the instance, where it changed.
#[derive(Drop)]
pub struct Kept {
    pub around: Chain<Frame>,
    pub context: Option<Json>,
}

impl Frame {
    /// The same once more. It copies no values.
    pub fn copy(&self) -> Result<Frame, AllocError>
        ensures { IfOk result (λ f. f ≡ self.now) }
    {
        Ok(Frame {
            running: self.running.copy()?,
            round: self.round.copy()?,
            place: self.place,
        })
    }

    /// The same once more, with another context where it runs a sub-workflow. It copies no values.
    pub fn keeping(&self, context: Json) -> Result<Frame, AllocError>
        ensures { IfOk result (λ f. f ≡ keeping_frame self.now context) }
    {
        Ok(Frame {
            running: self.running.copy()?,
            round: self.round.keeping(context)?,
            place: self.place,
        })
    }
}

// The running tasks where the innermost sub-workflow keeps a context; none where there is no sub-workflow.
fn kept_by(
    alloc: Global,
    around: &Chain<Frame>,
    context: &Json,
) -> Result<Option<Chain<Frame>>, AllocError>
    ensures { IfOk result (λ o. o ≡ kept_by around.now context.now) }
{
    let Some((frame, outer)) = around.split_first() else {
        return Ok(None);
    };
    if frame.round.is_sub() {
        let frame = frame.keeping(context.copy()?)?;
        return Ok(Some(outer.copy()?.with(alloc, frame)?));
    }
    match kept_by(alloc, outer, context)? {
        Some(outer) => Ok(Some(outer.with(alloc, frame.copy()?)?)),
        None => Ok(None),
    }
}

/// The running tasks behind a step that may change the context. The innermost sub-workflow around keeps a context that changed, and the
/// instance where there is none. It copies no values.
pub fn keep(alloc: Global, around: &Chain<Frame>, context: Option<Json>) -> Result<Kept, AllocError>
    ensures around { IfOk result (λ k. k.around ≡ kept around.now context) }
    ensures context { IfOk result (λ k. k.context ≡ context_kept around.now context) }
{
    let Some(context) = context else {
        let around = around.copy()?;
        return Ok(Kept {
            around,
            context: None,
        });
    };
    match kept_by(alloc, around, &context)? {
        Some(around) => Ok(Kept {
            around,
            context: None,
        }),
        None => Ok(Kept {
            around: around.copy()?,
            context: Some(context),
        }),
    }
}
