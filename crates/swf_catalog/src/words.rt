// Names that every expression's variables need, made once.
ghost use Rattle.std.specs.Prelude.{◌≡◌, IfOk, codes};

use std::alloc::{AllocError, Global};
use std::marker::Model;
use swf_text::{Text, word};

/// The names of variables.
#[derive(Drop)]
struct Variables {
    workflow: Text,
    context: Text,
    task: Text,
    input: Text,
    output: Text,
}

/// The names of the members of their values.
#[derive(Drop)]
struct Members {
    id: Text,
    started_at: Text,
    epoch: Text,
    milliseconds: Text,
    name: Text,
    reference: Text,
}

/// The names of the variables and of the members of their values. Each is copied by sharing it.
#[derive(Drop)]
pub struct Words {
    variables: Variables,
    members: Members,
}

impl Model for Words {
    ghost use Rattle.swf_catalog.specs.Words.{AreWords, unit_code};

    ghost Value = { Unit {0} };

    ghost coded = { unit_code };

    ghost view = { λ w. tt };

    ghost invariant = { λ w. AreWords w.variables.workflow w.variables.context w.variables.task w.variables.input w.variables.output w.members.id w.members.started_at w.members.epoch w.members.milliseconds w.members.name w.members.reference };
}

/// The names of variables.
fn variable_words(alloc: Global) -> Result<Variables, AllocError>
    ensures workflow { IfOk result (λ w. w.workflow ≡ codes "workflow") }
    ensures context { IfOk result (λ w. w.context ≡ codes "context") }
    ensures task { IfOk result (λ w. w.task ≡ codes "task") }
    ensures input { IfOk result (λ w. w.input ≡ codes "input") }
    ensures output { IfOk result (λ w. w.output ≡ codes "output") }
{
    Ok(Variables {
        workflow: word(alloc, "workflow")?,
        context: word(alloc, "context")?,
        task: word(alloc, "task")?,
        input: word(alloc, "input")?,
        output: word(alloc, "output")?,
    })
}

/// The names of members.
fn member_words(alloc: Global) -> Result<Members, AllocError>
    ensures id { IfOk result (λ w. w.id ≡ codes "id") }
    ensures started_at { IfOk result (λ w. w.started_at ≡ codes "startedAt") }
    ensures epoch { IfOk result (λ w. w.epoch ≡ codes "epoch") }
    ensures milliseconds { IfOk result (λ w. w.milliseconds ≡ codes "milliseconds") }
    ensures name { IfOk result (λ w. w.name ≡ codes "name") }
    ensures reference { IfOk result (λ w. w.reference ≡ codes "reference") }
{
    Ok(Members {
        id: word(alloc, "id")?,
        started_at: word(alloc, "startedAt")?,
        epoch: word(alloc, "epoch")?,
        milliseconds: word(alloc, "milliseconds")?,
        name: word(alloc, "name")?,
        reference: word(alloc, "reference")?,
    })
}

impl Words {
    pub(crate) fn new(alloc: Global) -> Result<Words, AllocError> {
        let variables = variable_words(alloc)?;
        let members = member_words(alloc)?;
        Ok(Words { variables, members })
    }

    pub fn workflow(&self) -> &Text
        ensures { result.now ≡ codes "workflow" }
    {
        &self.variables.workflow
    }

    pub fn context(&self) -> &Text
        ensures { result.now ≡ codes "context" }
    {
        &self.variables.context
    }

    pub fn task(&self) -> &Text
        ensures { result.now ≡ codes "task" }
    {
        &self.variables.task
    }

    pub fn input(&self) -> &Text
        ensures { result.now ≡ codes "input" }
    {
        &self.variables.input
    }

    pub fn output(&self) -> &Text
        ensures { result.now ≡ codes "output" }
    {
        &self.variables.output
    }

    pub fn id(&self) -> &Text
        ensures { result.now ≡ codes "id" }
    {
        &self.members.id
    }

    pub fn started_at(&self) -> &Text
        ensures { result.now ≡ codes "startedAt" }
    {
        &self.members.started_at
    }

    pub fn epoch(&self) -> &Text
        ensures { result.now ≡ codes "epoch" }
    {
        &self.members.epoch
    }

    pub fn milliseconds(&self) -> &Text
        ensures { result.now ≡ codes "milliseconds" }
    {
        &self.members.milliseconds
    }

    pub fn name(&self) -> &Text
        ensures { result.now ≡ codes "name" }
    {
        &self.members.name
    }

    pub fn reference(&self) -> &Text
        ensures { result.now ≡ codes "reference" }
    {
        &self.members.reference
    }
}
