// Which instance takes the next step: those that can take one after another, in the order of the queue.
ghost use Rattle.std.specs.Prelude.{◌≡◌, ◌<◌, IfOk, IfSome, IfNone, [], not, true, false, length};
ghost use Rattle.swf_instances.specs.Held.{instances_in};
ghost use Rattle.swf_instances.specs.Queued.{CanGoAt, IsNextAt, Queued, enabled_at, is_loud};

use crate::instances::Instances;
use indexmap::IndexMap;
use std::alloc::{AllocError, Global};
use swf_duration::Moment;
use swf_queue::Queue;
use swf_tasks::Machine;
use swf_text::{Strand, Text};

impl Instances {
    /// The number of the first instance that can take a step, and its strand that can. It goes behind all others.
    pub fn next_step(&mut self, alloc: Global) -> Result<Option<(usize, Strand)>, AllocError>
        ensures same { self.new ≡ self.old }
        ensures none { IfOk result (λ o. IfNone o (is_loud self.new.moment self.new.instances ≡ false)) }
        ensures some { IfOk result (λ o. IfSome o (λ p. CanGoAt self.new.moment self.new.instances p.0 p.1)) }
    {
        let queue = &mut self.queue;
        let Some(step) = first_step(alloc, queue, &self.machines, self.moment)? else {
            return Ok(None);
        };
        self.queue.rotate();
        Ok(Some(step))
    }

    /// Whether no strand can take a step.
    pub fn is_quiet(&mut self) -> bool
        ensures same { self.new ≡ self.old }
        ensures quiet { result ≡ not (is_loud self.new.moment self.new.instances) }
    {
        first_enabled(&mut self.queue, &self.machines, self.moment).is_none()
    }
}

// The number of the first instance in the queue that can take a step, and its strand. Those before it leave the queue.
fn first_step(
    alloc: Global,
    queue: &mut Queue,
    machines: &IndexMap<Text, Machine>,
    now: Moment,
) -> Result<Option<(usize, Strand)>, AllocError>
    ensures queue { Queued now (instances_in machines.now.entries) queue.old.numbers → Queued now (instances_in machines.now.entries) queue.new.numbers }
    ensures count { queue.new.count ≡ queue.old.count }
    ensures room { queue.new.room ≡ queue.old.room }
    ensures none { IfOk result (λ o. IfNone o (queue.new.numbers ≡ [])) }
    ensures some { IfOk result (λ o. IfSome o (λ p. CanGoAt now (instances_in machines.now.entries) p.0 p.1 × (0 < length queue.new.numbers))) }
{
    while let Some(number) = queue.first() {
        if let Some(strand) = strand_of(alloc, machines, number, now)? {
            return Ok(Some((number, strand)));
        }
        queue.leave();
    }
    Ok(None)
}

// The strand of the instance of a number that takes the next step; none where it can take none.
fn strand_of(
    alloc: Global,
    machines: &IndexMap<Text, Machine>,
    number: usize,
    now: Moment,
) -> Result<Option<Strand>, AllocError>
    ensures { IfOk result (IsNextAt now (instances_in machines.now.entries) number) }
{
    match machines.get_index(number) {
        Some((_, instance)) => instance.next_strand(alloc, now),
        None => Ok(None),
    }
}

// The number of the first instance in the queue that can take a step. Those before it leave the queue. It takes no memory.
fn first_enabled(
    queue: &mut Queue,
    machines: &IndexMap<Text, Machine>,
    now: Moment,
) -> Option<usize>
    ensures queue { Queued now (instances_in machines.now.entries) queue.old.numbers → Queued now (instances_in machines.now.entries) queue.new.numbers }
    ensures count { queue.new.count ≡ queue.old.count }
    ensures room { queue.new.room ≡ queue.old.room }
    ensures none { IfNone result (queue.new.numbers ≡ []) }
    ensures some { IfSome result (λ n. enabled_at now (instances_in machines.now.entries) n ≡ true) }
{
    while let Some(number) = queue.first() {
        if is_enabled(machines, number, now) {
            return Some(number);
        }
        queue.leave();
    }
    None
}

// Whether the instance of a number can take a step.
fn is_enabled(machines: &IndexMap<Text, Machine>, number: usize, now: Moment) -> bool
    ensures { result ≡ enabled_at now (instances_in machines.now.entries) number }
{
    match machines.get_index(number) {
        Some((_, instance)) => instance.is_enabled(now),
        None => false,
    }
}
