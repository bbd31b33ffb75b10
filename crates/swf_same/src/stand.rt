// What a strand holds.
ghost use Rattle.std.specs.Prelude.{◌≡◌, ◌↔◌, IsTrue};
ghost use Rattle.swf_stack.specs.Stack.{plug, top_node};
ghost use Rattle.swf_stack.specs.Stands.{inward};

use crate::same::Same;
use swf_meaning::Heard;
use swf_stack::{Frame, Running, Stand, Top};

impl Same for Heard {
    fn is_same(&self, other: &Heard) -> bool {
        self.filter == other.filter && self.event.is_same(&other.event)
    }
}

impl Same for Running {
    fn is_same(&self, other: &Running) -> bool {
        self.task().is_same(other.task())
            && self.raw().is_same(other.raw())
            && self.input().is_same(other.input())
    }
}

impl Same for Frame {
    fn is_same(&self, other: &Frame) -> bool {
        self.place == other.place
            && self.running.is_same(&other.running)
            && self.round.is_same(&other.round)
    }
}

impl Same for Top {
    fn is_same(&self, other: &Top) -> bool {
        match (self, other) {
            (
                Top::Fresh { task, raw },
                Top::Fresh {
                    task: other_task,
                    raw: other_raw,
                },
            ) => task.is_same(other_task) && raw.is_same(other_raw),
            (
                Top::Done { output, flow },
                Top::Done {
                    output: other_output,
                    flow: other_flow,
                },
            ) => output.is_same(other_output) && flow.is_same(other_flow),
            (Top::Fault(a), Top::Fault(b)) => a.is_same(b),
            (
                Top::Waiting {
                    running,
                    retries,
                    until,
                },
                Top::Waiting {
                    running: other_running,
                    retries: other_retries,
                    until: other_until,
                },
            ) => {
                *until == *other_until
                    && retries.is_same(other_retries)
                    && running.is_same(other_running)
            }
            (
                Top::Hearing {
                    running,
                    bound,
                    heard,
                },
                Top::Hearing {
                    running: other_running,
                    bound: other_bound,
                    heard: other_heard,
                },
            ) => {
                running.is_same(other_running)
                    && bound.is_same(other_bound)
                    && heard.is_same(other_heard)
            }
            (
                Top::Awaiting {
                    running,
                    activity,
                    request,
                    answer,
                },
                Top::Awaiting {
                    running: other_running,
                    activity: other_activity,
                    request: other_request,
                    answer: other_answer,
                },
            ) => {
                activity.is_same(other_activity)
                    && running.is_same(other_running)
                    && request.is_same(other_request)
                    && answer.is_same(other_answer)
            }
            (Top::Forked(a), Top::Forked(b)) => a.is_same(b),
            _ => false,
        }
    }
}

impl Same for Stand {
    fn is_same(&self, other: &Stand) -> bool {
        self.top.is_same(&other.top) && self.around.is_same(&other.around)
    }
}

/// Whether two strands hold the same. Then, and only then, the trees that they stand for are the same.
pub fn same_stand(a: &Stand, b: &Stand) -> bool
    ensures exact { IsTrue result ↔ (a.now ≡ b.now) }
    ensures tree { IsTrue result ↔ (plug (inward a.now.around) (top_node a.now.top) ≡ plug (inward b.now.around) (top_node b.now.top)) }
{
    a.is_same(b)
}
