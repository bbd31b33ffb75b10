// A document whose tasks have numbers.
ghost use Rattle.std.specs.Prelude.{◌≡◌, ◌+◌, ◌<◌, ◌-◌, ◌^◌, true, is_some, length, IfOk, IfSome, IsSome, Some, MatchOption, option_and_then, option_map, slice_get};
ghost use Rattle.std.specs.Arc.{arc_value};
ghost use Rattle.swf_document.specs.TaskNode.{task_of, tasks_of};
ghost use Rattle.swf_meaning.specs.Fork.{branches_of};
ghost use Rattle.swf_meaning.specs.Function.{function_in};
ghost use Rattle.swf_meaning.specs.Lists.{list_of};
ghost use Rattle.swf_meaning.specs.Next.{task_at};
ghost use Rattle.swf_catalog.specs.Numbers.{begin_of, entries, numbered, or_nothing};
ghost use Rattle.swf_catalog.specs.Rows.{entry_of};
ghost use Rattle.swf_catalog.specs.Rounds.{round_of};
ghost use Rattle.swf_catalog.specs.TaskRef.{parts_task};

use crate::find::place_of;
use crate::numbering::{add_tasks, both};
use crate::parts::Parts;
use crate::round::Round;
use crate::row::{Begins, Row};
use crate::words::Words;
use std::alloc::{AllocError, Global};
use std::marker::Model;
use std::sync::Arc;
use swf_document::{Document, Named, Task};
use swf_text::Text;

/// A document, with its tasks by number, and the names that variables need. The number 0 is the workflow, the tasks of a list follow
/// each other, and the functions come last. Contracts see it as the document.
#[derive(Drop)]
pub struct NumberedDocument {
    document: Arc<Document>,
    /// Where the workflow's list begins.
    begins: Begins,
    /// Where the functions begin.
    functions: usize,
    /// The tasks from 1 on.
    rows: Vec<Row>,
    words: Words,
}

impl Model for NumberedDocument {
    ghost use Rattle.std.specs.Prelude.{◌≡◌};
    ghost use Rattle.std.specs.Arc.{arc_value};
    ghost use Rattle.swf_document.specs.declared.document.Document.{Document};
    ghost use Rattle.swf_document.specs.DocumentCode.{document_code};
    ghost use Rattle.swf_catalog.specs.Numbers.{begin, both, functions_begin, listed_entries};
    ghost use Rattle.swf_catalog.specs.Rows.{entries_of};

    ghost Value = { Document };

    ghost coded = { document_code };

    ghost view = { λ n. arc_value n.document };

    ghost invariant = { λ n. (n.begins ≡ both (begin 1 (arc_value n.document).tasks)) × (n.functions ≡ functions_begin (arc_value n.document)) × (entries_of n.rows.items ≡ listed_entries (arc_value n.document)) };
}

impl NumberedDocument {
    /// The numbers of a document's tasks.
    pub fn new(alloc: Global, document: Arc<Document>) -> Result<NumberedDocument, AllocError>
        ensures { IfOk result (λ n. n ≡ arc_value document) }
    {
        let words = Words::new(alloc)?;
        let mut rows = Vec::new(alloc);
        let begin = add_tasks(alloc, &document.tasks, &mut rows)?;
        let functions = add_tasks(alloc, &document.functions, &mut rows)?;
        Ok(NumberedDocument {
            document,
            begins: both(begin),
            functions,
            rows,
            words,
        })
    }

    /// The document.
    pub fn document(&self) -> &Document
        ensures { result.now ≡ self.now }
    {
        &self.document
    }

    /// The names that variables need.
    pub fn words(&self) -> &Words {
        &self.words
    }

    // The row of a task; none for the workflow.
    fn row(&self, number: usize) -> Option<&Row>
        requires { is_some (numbered self.now number) ≡ true }
        ensures { MatchOption result (number ≡ 0) (λ r. slice_get (entries self.now) number ≡ Some (entry_of r.now)) }
    {
        if number == 0 {
            return None;
        }
        Some(&self.rows[number - 1])
    }

    // Where the lists of a task begin.
    fn begins(&self, number: usize) -> Begins
        requires { is_some (numbered self.now number) ≡ true }
        ensures { option_map (λ e. e.begins) (slice_get (entries self.now) number) ≡ Some result }
    {
        match self.row(number) {
            Some(row) => row.begins,
            None => self.begins,
        }
    }

    /// The task of a number.
    pub(crate) fn parts(&self, number: usize) -> Parts<'_>
        requires { is_some (numbered self.now number) ≡ true }
        ensures { numbered self.now number ≡ Some (parts_task result) }
    {
        match self.row(number) {
            Some(row) => Parts::Listed(at(row.tasks.as_slice(), row.place)),
            None => Parts::Workflow(&self.document),
        }
    }

    // The number of a task of a list that begins at a number. There are fewer rows than a number can count, so the sum fits.
    fn number_at(&self, begin: usize, place: usize) -> usize
        requires { is_some (numbered self.now (begin + place)) ≡ true }
        ensures { result ≡ begin + place }
    {
        let _ = &self.rows;
        begin + place
    }

    /// The number of the task at a place of the list that a task runs in a round.
    pub fn child(&self, number: usize, round: &Round, place: usize) -> Option<usize>
        requires { is_some (numbered self.now number) ≡ true }
        ensures task { option_and_then (numbered self.now) result ≡ task_at (list_of (or_nothing (numbered self.now number)) (round_of round.now)) place }
        ensures there { IfSome result (λ n. is_some (numbered self.now n) ≡ true) }
        ensures place { IsSome result → place < 2 ^ 64 - 1 }
    {
        let tasks = self.parts(number).list(round)?;
        if place >= tasks.as_slice().len() {
            return None;
        }
        Some(self.number_at(begin_of(self.begins(number), round), place))
    }

    /// The number of the function of a name.
    pub fn function(&self, name: &Text) -> Option<usize>
        ensures task { option_and_then (numbered self.now) result ≡ function_in name.now self.now.functions }
        ensures there { IfSome result (λ n. is_some (numbered self.now n) ≡ true) }
    {
        let place = place_of(name, self.document.functions.as_slice())?;
        Some(self.number_at(self.functions, place))
    }

    /// The number of a branch of a task, where it is a `fork`.
    pub fn branch(&self, number: usize, branch: usize) -> Option<usize>
        requires { is_some (numbered self.now number) ≡ true }
        ensures task { option_and_then (numbered self.now) result ≡ task_at (branches_of (or_nothing (numbered self.now number))) branch }
        ensures there { IfSome result (λ n. is_some (numbered self.now n) ≡ true) }
    {
        let tasks = self.parts(number).branches()?;
        if branch >= tasks.as_slice().len() {
            return None;
        }
        Some(self.number_at(self.begins(number).tasks, branch))
    }
}

// Where the list begins that a task runs in a round.
fn begin_of(begins: Begins, round: &Round) -> usize
    ensures { result ≡ begin_of (round_of round.now) begins }
{
    match round {
        Round::Catch(_) => begins.handler,
        Round::Seq | Round::Each(_) | Round::Try { .. } | Round::Function | Round::SubWorkflow(_) =>
            begins.tasks,
    }
}

// The task of a place.
fn at(tasks: &[Named], place: usize) -> &Task
    requires { place < length tasks.now }
    ensures { task_at (tasks_of tasks.now) place ≡ Some (task_of result.now) }
{
    &tasks[place].task
}
