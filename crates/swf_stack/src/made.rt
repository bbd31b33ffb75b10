// What an instance is made of, as a stack of the tasks that run inside each other.
ghost use Rattle.std.specs.Prelude.{◌≡◌, ◌<◌, ◌-◌, ◌^◌, ◌++◌, [], IfOk, option_to_list};

use crate::running::Running;
use std::alloc::{AllocError, Global};
use swf_calls::{CallReply, CallRequest};
use swf_catalog::{Round, Shared, TaskRef};
use swf_chain::Chain;
use swf_cloudevents::{Event, NamedValues};
use swf_document::{Boxed, Flow, Listing, Problem};
use swf_frames::CopyFrame;
use swf_meaning::Heard;
use swf_text::Text;
use swf_value::Json;

/// A task that runs, and the place of what runs in its list.
#[derive(Drop)]
pub struct Frame {
    pub running: Running,
    pub round: Round,
    pub place: usize,
    ghost counted: { place < 2 ^ 64 - 1 },
}

/// What stands innermost.
#[derive(Drop)]
pub enum Top {
    Fresh {
        task: TaskRef,
        raw: Json,
    },
    Done {
        output: Json,
        flow: Flow,
    },
    Fault(Problem),
    /// A `wait`, or a `try` that waits to make that retry, until a moment.
    Waiting {
        running: Running,
        retries: Option<u64>,
        until: u64,
    },
    /// A `listen`, with the values that names are bound to and what it heard.
    Hearing {
        running: Running,
        bound: NamedValues,
        heard: Listing<Heard>,
    },
    /// A `call`, with its activity, its request, and what it was answered, once it was.
    Awaiting {
        running: Running,
        activity: Text,
        request: Shared<CallRequest>,
        answer: Option<CallReply>,
    },
    /// A `fork` whose branches run, each on a strand of its own below this one.
    Forked(Running),
}

/// What a strand holds: the tasks that run on it, the innermost first, and what stands innermost, behind a box so that a strand is small.
#[derive(Drop)]
pub struct Stand {
    pub around: Chain<Frame>,
    pub top: Boxed<Top>,
}

/// An event that goes out, behind a box, since most steps send none.
pub type SentEvent = Boxed<Event>;

/// What a step makes of the task that takes it: the task with what runs in it, or what it ended in; the context, where it changed; how
/// many of the instance's numbers it used; and the event that goes out, where one does.
#[derive(Drop)]
pub struct Made {
    pub frame: Option<Boxed<Frame>>,
    pub top: Boxed<Top>,
    pub context: Option<Json>,
    pub used: u64,
    pub emitted: Option<SentEvent>,
}

// What a call was answered once more, where it was.
fn copy_answer(alloc: Global, answer: &Option<CallReply>) -> Result<Option<CallReply>, AllocError>
    ensures { IfOk result (λ o. o ≡ answer.now) }
{
    match answer {
        Some(reply) => Ok(Some(reply.copy(alloc)?)),
        None => Ok(None),
    }
}

impl Top {
    /// The same once more. It copies no values.
    pub fn copy(&self, alloc: Global) -> Result<Top, AllocError>
        ensures { IfOk result (λ t. t ≡ self.now) }
    {
        match self {
            Top::Fresh { task, raw } => Ok(Top::Fresh {
                task: task.copy()?,
                raw: raw.copy()?,
            }),
            Top::Done { output, flow } => Ok(Top::Done {
                output: output.copy()?,
                flow: flow.copy()?,
            }),
            Top::Fault(problem) => Ok(Top::Fault(problem.copy()?)),
            Top::Waiting {
                running,
                retries,
                until,
            } => Ok(Top::Waiting {
                running: running.copy()?,
                retries: *retries,
                until: *until,
            }),
            Top::Hearing {
                running,
                bound,
                heard,
            } => Ok(Top::Hearing {
                running: running.copy()?,
                bound: bound.copy()?,
                heard: heard.copy()?,
            }),
            Top::Awaiting {
                running,
                activity,
                request,
                answer,
            } => Ok(Top::Awaiting {
                running: running.copy()?,
                activity: activity.copy()?,
                request: request.copy()?,
                answer: copy_answer(alloc, answer)?,
            }),
            Top::Forked(running) => Ok(Top::Forked(running.copy()?)),
        }
    }
}

impl Stand {
    /// What a strand holds on which no task runs.
    pub fn alone(alloc: Global, top: Top) -> Result<Stand, AllocError>
        ensures { IfOk result (λ s. s ≡ record { around = []; top = top }) }
    {
        let top = Boxed::new(alloc, top)?;
        Ok(Stand {
            around: Chain::new(),
            top,
        })
    }

    /// What a strand holds with this inside its running tasks.
    pub fn inside(
        alloc: Global,
        mut around: Chain<Frame>,
        frame: Option<Boxed<Frame>>,
        top: Boxed<Top>,
    ) -> Result<Stand, AllocError>
        ensures around { IfOk result (λ s. s.around ≡ option_to_list frame ++ around) }
        ensures top { IfOk result (λ s. s.top ≡ top) }
    {
        if let Some(frame) = frame {
            around = around.with(alloc, frame.into_inner())?;
        }
        Ok(Stand { around, top })
    }
}

impl CopyFrame for Stand {
    fn copy(&self, alloc: Global) -> Result<Stand, AllocError> {
        let top = self.top.get().copy(alloc)?;
        Ok(Stand {
            around: self.around.copy()?,
            top: Boxed::new(alloc, top)?,
        })
    }
}
