// A step: a strand of an instance takes it, and an event that goes out is offered to all.
ghost use Rattle.std.specs.Prelude.{◌≡◌, ◌<◌, ◌++◌, option_to_list, IfOk};
ghost use Rattle.std.specs.Vec.{vec_len, vec_capacity};
ghost use Rattle.swf_meaning.specs.declared.label.Label.{Label};
ghost use Rattle.swf_meaning.specs.Answer.{instance_at};
ghost use Rattle.swf_instances.specs.Queued.{CanGoAt};
ghost use Rattle.swf_world.specs.Changes.{SuitsStep, with_stepped};
ghost use Rattle.swf_world.specs.Prepares.{Prepares, IsSent, IsStepping, StepsFirst};
ghost use Rattle.swf_world.specs.Refusals.{refusal_of_step, refused_by};

use crate::change::{Change, ChangeKind, ready, untold};
use crate::refusal::{PrepareFault, Refusal};
use crate::world::World;
use std::alloc::{AllocError, Global};
use swf_catalog::Documents;
use swf_cloudevents::Event;
use swf_instances::{Hearing, Instances};
use swf_tasks::{Prepared, SentEvent, Site};
use swf_text::{Strand, Text};

impl World {
    // The number of the instance whose strand can take a step, or why it cannot.
    pub(crate) fn steppable(&self, id: &Text, strand: &Strand) -> Result<usize, Refusal>
        ensures refused { refused_by result ≡ refusal_of_step self.now.world.now strand.now (instance_at id.now self.now.world.instances) }
        ensures can { IfOk result (λ n. CanGoAt self.now.world.now self.now.world.instances n strand.now) }
        ensures first { IfOk result (λ n. StepsFirst self.now.world id.now strand.now n) }
    {
        let Some(number) = self.instances.number_of(id) else {
            return Err(Refusal::UnknownInstance);
        };
        if self.instances.at(number).enabled(strand, self.now()) {
            Ok(number)
        } else {
            Err(Refusal::NotEnabled)
        }
    }

    pub(crate) fn prepare_step(&self, id: &Text, strand: &Strand) -> Result<Change, PrepareFault>
        ensures { Prepares self.now.world (Label.Step id.now strand.now) result }
    {
        let (instances, documents) = (&self.instances, &self.documents);
        match self.steppable(id, strand) {
            Err(refusal) => Err(PrepareFault::Refused(refusal)),
            Ok(number) => ready(step_change(self.alloc, number, instances, strand, documents)),
        }
    }

    // The others that took the event are in their places before the instance itself takes its step.
    pub(crate) fn install_step(&mut self, number: usize, prepared: Prepared, heard: Vec<Hearing>)
        requires suits { SuitsStep self.old.world number prepared heard.items }
        requires room { 0 < self.old.room }
        ensures { self.new.world ≡ with_stepped self.old.world number prepared heard.items }
    {
        self.instances.hear(heard);
        let emitted = self.instances.take(number, prepared);
        put_out(&mut self.outbox, emitted);
        self.count += 1;
    }
}

/// The change of an instance's step at the moment of all. An event that goes out is offered to all, and to it as well.
pub fn step_change<'a>(
    alloc: Global,
    number: usize,
    instances: &'a Instances,
    strand: &Strand,
    documents: &'a Documents,
) -> Result<Change, AllocError>
    requires { CanGoAt instances.now.moment instances.now.instances number strand.now }
    ensures { IfOk result (IsStepping instances.now.moment documents.now.documents number strand.now instances.now.instances) }
{
    let instance = instances.at(number);
    let now = instances.moment();
    let prepared = instance.prepare(alloc, strand, Site { now, documents })?;
    let heard = heard_by(alloc, &prepared.emitted, instances, number)?;
    let prepared = instance.offered(alloc, prepared)?;
    Ok(untold(ChangeKind::Step {
        number,
        prepared,
        heard,
    }))
}

// The others that take the event which goes out, where one does.
fn heard_by(
    alloc: Global,
    emitted: &Option<SentEvent>,
    instances: &Instances,
    number: usize,
) -> Result<Vec<Hearing>, AllocError>
    ensures { IfOk result (λ hs. IsSent number emitted.now instances.now.instances hs.items) }
{
    match emitted {
        Some(sent) => Ok(instances.offer(alloc, sent.get(), number)?.heard),
        None => Ok(Vec::new(alloc)),
    }
}

// The event that goes out is kept, where one does.
fn put_out(outbox: &mut Vec<Event>, emitted: Option<SentEvent>)
    requires { vec_len outbox.old < vec_capacity outbox.old }
    ensures { outbox.new.items ≡ outbox.old.items ++ option_to_list emitted }
{
    if let Some(event) = emitted {
        outbox.push(event.into_inner()).unwrap();
    }
}
