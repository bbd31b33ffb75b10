// A task that an instance runs: one of a list, or the workflow itself.
ghost use Rattle.std.specs.Prelude.{◌≡◌, [], IfOk, IsSome, ◌<◌, ◌-◌, ◌^◌, option_map};
ghost use Rattle.swf_document.specs.TaskNode.{tasks_of};
ghost use Rattle.swf_meaning.specs.Parts.{common_of, kind_of, place_of, workflow};
ghost use Rattle.swf_meaning.specs.Line.{is_workflow};
ghost use Rattle.swf_meaning.specs.Fork.{branches_of, competes};
ghost use Rattle.swf_meaning.specs.Function.{function_in};
ghost use Rattle.swf_meaning.specs.Next.{task_at};
ghost use Rattle.swf_meaning.specs.Lists.{list_of, guard_of};
ghost use Rattle.swf_meaning.specs.Shared.{is_shared_kind};
ghost use Rattle.swf_catalog.specs.Rounds.{round_of};
ghost use Rattle.swf_catalog.specs.TaskRef.{parts_task, work_kind};

use crate::parts::{Parts, Work};
use crate::round::Round;
use crate::shared::SharedDocument;
use std::alloc::{AllocError, Global};
use std::marker::Model;
use swf_document::{Flow, Kind, Named, Template, unboxed};
use swf_expr::Expr;
use swf_text::{Place, Text};

/// A task of a document, by its number. A copy shares the document. Contracts see it as a `Task` of specs.
#[derive(Drop)]
pub struct TaskRef {
    document: SharedDocument,
    number: usize,
}

impl Model for TaskRef {
    ghost use Rattle.swf_document.specs.Task.{Task as ModelTask};
    ghost use Rattle.swf_document.specs.TaskCode.{task_code};

    ghost Value = { ModelTask };

    ghost coded = { task_code };

    ghost use Rattle.std.specs.Prelude.{◌≡◌, is_some, true};
    ghost use Rattle.swf_catalog.specs.Numbers.{numbered, or_nothing};

    ghost view = { λ t. or_nothing (numbered t.document t.number) };

    ghost invariant = { λ t. is_some (numbered t.document t.number) ≡ true };
}

impl TaskRef {
    /// The workflow of a document.
    pub fn workflow(document: SharedDocument) -> TaskRef
        ensures { result ≡ workflow document }
    {
        TaskRef {
            document,
            number: 0,
        }
    }

    /// The function of a name, where a document has one.
    pub fn function(document: &SharedDocument, name: &Text) -> Result<Option<TaskRef>, AllocError>
        ensures { IfOk result (λ o. o ≡ function_in name.now document.now.functions) }
    {
        match document.get().function(name) {
            Some(number) => {
                let document = document.copy()?;
                Ok(Some(TaskRef { document, number }))
            }
            None => Ok(None),
        }
    }

    /// The same task once more. It copies nothing that is inside.
    pub fn copy(&self) -> Result<TaskRef, AllocError>
        ensures { IfOk result (λ t. t ≡ self.now) }
    {
        Ok(TaskRef {
            document: self.document.copy()?,
            number: self.number,
        })
    }

    /// Its parts.
    pub fn parts(&self) -> Parts<'_>
        ensures { parts_task result ≡ self.now }
    {
        self.document.get().parts(self.number)
    }

    /// Its `if`.
    pub fn cond(&self) -> Option<&Expr>
        ensures { option_map (λ e. e.now) result ≡ (common_of self.now).cond }
    {
        match self.parts() {
            Parts::Workflow(_) => None,
            Parts::Listed(task) => unboxed(&task.common.cond),
        }
    }

    /// Its `input.from`.
    pub fn input_from(&self) -> Option<&Template>
        ensures { option_map (λ e. e.now) result ≡ (common_of self.now).input_from }
    {
        match self.parts() {
            Parts::Workflow(document) => document.input_from.as_ref(),
            Parts::Listed(task) => task.common.input_from.as_ref(),
        }
    }

    /// Its `output.as`.
    pub fn output_as(&self) -> Option<&Template>
        ensures { option_map (λ e. e.now) result ≡ (common_of self.now).output_as }
    {
        match self.parts() {
            Parts::Workflow(document) => document.output_as.as_ref(),
            Parts::Listed(task) => task.common.output_as.as_ref(),
        }
    }

    /// Its `export.as`.
    pub fn export_as(&self) -> Option<&Template>
        ensures { option_map (λ e. e.now) result ≡ (common_of self.now).export_as }
    {
        match self.parts() {
            Parts::Workflow(_) => None,
            Parts::Listed(task) => task.common.export_as.as_ref(),
        }
    }

    /// Its `then`.
    pub fn flow(&self) -> Result<Flow, AllocError>
        ensures { IfOk result (λ f. f ≡ (common_of self.now).flow) }
    {
        match self.parts() {
            Parts::Workflow(_) => Ok(Flow::Continue),
            Parts::Listed(task) => task.common.flow.copy(),
        }
    }

    /// Where it stands in its document.
    pub fn place(&self, alloc: Global) -> Result<Place, AllocError>
        ensures { IfOk result (λ p. p ≡ place_of self.now) }
    {
        match self.parts() {
            Parts::Workflow(_) => Ok(Place::root(alloc)),
            Parts::Listed(task) => task.common.place.copy(alloc),
        }
    }

    /// Where it stands in its document, which is at the root for a workflow.
    pub fn place_or<'a>(&'a self, root: &'a Place) -> &'a Place
        requires { root.now ≡ [] }
        ensures { result.now ≡ place_of self.now }
    {
        match self.parts() {
            Parts::Workflow(_) => root,
            Parts::Listed(task) => &task.common.place,
        }
    }

    /// Whether it is a workflow, which stands at the empty place.
    pub fn is_workflow(&self) -> bool
        ensures { result ≡ is_workflow self.now }
    {
        match self.parts() {
            Parts::Workflow(_) => true,
            Parts::Listed(task) => task.common.place.as_slice().is_empty(),
        }
    }

    /// What it does.
    pub fn work(&self) -> Work<'_>
        ensures { work_kind result (kind_of self.now) }
    {
        self.parts().work()
    }

    /// The tasks that it runs in a round, in order.
    pub fn named(&self, round: &Round) -> &[Named]
        ensures { tasks_of result.now ≡ list_of self.now (round_of round.now) }
    {
        match self.parts().list(round) {
            Some(tasks) => tasks.as_slice(),
            None => &[],
        }
    }

    /// The task of a place of the list that it runs in a round.
    pub fn child(&self, round: &Round, place: usize) -> Result<Option<TaskRef>, AllocError>
        ensures task { IfOk result (λ o. o ≡ task_at (list_of self.now (round_of round.now)) place) }
        ensures place { IfOk result (λ o. IsSome o → place < 2 ^ 64 - 1) }
    {
        match self.document.get().child(self.number, round, place) {
            Some(number) => {
                let document = self.document.copy()?;
                Ok(Some(TaskRef { document, number }))
            }
            None => Ok(None),
        }
    }

    /// Whether it is a `fork` whose branches compete.
    pub fn competes(&self) -> bool
        ensures { result ≡ competes self.now }
    {
        match self.work() {
            Work::Fork(spec) => spec.compete,
            _ => false,
        }
    }

    /// The branch of a number, where it is a `fork`.
    pub fn branch(&self, number: usize) -> Result<Option<TaskRef>, AllocError>
        ensures { IfOk result (λ o. o ≡ task_at (branches_of self.now) number) }
    {
        match self.document.get().branch(self.number, number) {
            Some(number) => {
                let document = self.document.copy()?;
                Ok(Some(TaskRef { document, number }))
            }
            None => Ok(None),
        }
    }

    /// Whether entering it needs more of the world than the instance itself.
    pub fn is_shared(&self) -> bool
        ensures { result ≡ is_shared_kind (kind_of self.now) }
    {
        match self.parts() {
            Parts::Workflow(_) => false,
            Parts::Listed(task) => match &task.kind {
                Kind::Call(_)
                | Kind::Emit(_)
                | Kind::Fork(_)
                | Kind::Listen(_)
                | Kind::Run(_)
                | Kind::Wait(_) => true,
                Kind::Do(_)
                | Kind::For(_)
                | Kind::Raise(_)
                | Kind::Set(_)
                | Kind::Switch(_)
                | Kind::Try(_) => false,
            },
        }
    }

    /// Its `while`.
    pub fn guard(&self) -> Option<&Expr>
        ensures { option_map (λ e. e.now) result ≡ guard_of self.now }
    {
        match self.work() {
            Work::For(spec) => unboxed(&spec.guard),
            _ => None,
        }
    }
}
