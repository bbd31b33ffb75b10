// Tasks of a loaded document, and for what they run their lists.
ghost use Rattle.std.specs.Prelude.{◌≡◌, ◌↔◌, IsTrue};
ghost use Rattle.swf_catalog.specs.TaskRef.{parts_task};
ghost use Rattle.swf_document.specs.TaskNode.{task_of};
ghost use Rattle.swf_meaning.specs.Parts.{workflow};

use crate::same::Same;
use crate::task::same_task;
use swf_catalog::{Iteration, Parts, Round, SubWorkflow, TaskRef};
use swf_document::{Document, Flow, Kind, Task};

impl Same for TaskRef {
    fn is_same(&self, other: &TaskRef) -> bool {
        same_parts(self.parts(), other.parts())
    }
}

fn same_parts(a: Parts<'_>, b: Parts<'_>) -> bool
    ensures { IsTrue result ↔ (parts_task a.entry ≡ parts_task b.entry) }
{
    match (a, b) {
        (Parts::Workflow(a), Parts::Workflow(b)) => same_workflow(a, b),
        (Parts::Listed(a), Parts::Listed(b)) => same_task(a, b),
        (Parts::Workflow(a), Parts::Listed(b)) => is_workflow_of(b, a),
        (Parts::Listed(a), Parts::Workflow(b)) => is_workflow_of(a, b),
    }
}

// Whether the workflows of two documents are the same task.
fn same_workflow(a: &Document, b: &Document) -> bool
    ensures { IsTrue result ↔ (workflow a.now ≡ workflow b.now) }
{
    a.input_from.is_same(&b.input_from)
        && a.output_as.is_same(&b.output_as)
        && a.tasks.is_same(&b.tasks)
}

// Whether a task of a list is the one that the workflow of a document is.
fn is_workflow_of(task: &Task, document: &Document) -> bool
    ensures { IsTrue result ↔ (task_of task.now ≡ workflow document.now) }
{
    let common = &task.common;
    match &task.kind {
        Kind::Do(tasks) => {
            common.cond.is_none()
                && common.input_from.is_same(&document.input_from)
                && common.output_as.is_same(&document.output_as)
                && common.export_as.is_none()
                && matches!(common.flow, Flow::Continue)
                && common.place.as_slice().is_empty()
                && tasks.is_same(&document.tasks)
        }
        _ => false,
    }
}

impl Same for Iteration {
    fn is_same(&self, other: &Iteration) -> bool {
        self.items.is_same(&other.items) && self.number == other.number
    }
}

impl Same for SubWorkflow {
    fn is_same(&self, other: &SubWorkflow) -> bool {
        self.document.is_same(&other.document)
            && self.input.is_same(&other.input)
            && self.context.is_same(&other.context)
    }
}

impl Same for Round {
    fn is_same(&self, other: &Round) -> bool {
        match (self, other) {
            (Round::Seq, Round::Seq) | (Round::Function, Round::Function) => true,
            (Round::Each(a), Round::Each(b)) => a.is_same(b),
            (Round::Try { retries: a }, Round::Try { retries: b }) => *a == *b,
            (Round::Catch(a), Round::Catch(b)) => a.is_same(b),
            (Round::SubWorkflow(a), Round::SubWorkflow(b)) => a.is_same(b),
            _ => false,
        }
    }
}
