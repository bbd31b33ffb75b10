// An event is offered to all that listen.
ghost use Rattle.std.specs.Prelude.{◌≡◌, ◌≤◌, ◌+◌, ◌++◌, ◌∷◌, [], true, length, nat_lt, slice_get, Some, if◌then◌else◌, IfOk};
ghost use Rattle.std.specs.List.{AllByRecursion};
ghost use Rattle.swf_listeners.specs.Listeners.{numbers_where};
ghost use Rattle.swf_meaning.specs.Offer.{takers, takers_in, offered_one};
ghost use Rattle.swf_instances.specs.Offers.{ids, put_all, put_at, Covers, IsHeardFrom, IsOffer};

use crate::instances::Instances;
use std::alloc::{AllocError, Global};
use swf_cloudevents::Event;
use swf_document::Boxed;
use swf_tasks::{BoxedMachine, Machine};
use swf_transform::Offer;

/// An instance that took an event, after it took it.
#[derive(Drop)]
pub struct Hearing {
    pub number: usize,
    pub instance: BoxedMachine,
}

/// Those that took an event, and how many of their tasks did.
#[derive(Drop)]
pub struct Offered {
    pub heard: Vec<Hearing>,
    pub taken: u32,
}

impl Instances {
    /// Offers an event to all instances but that of a number, each of which is copied if it takes it. The value of the event is
    /// made once, and only where some instance may take it.
    pub fn offer(&self, alloc: Global, event: &Event, but: usize) -> Result<Offered, AllocError>
        ensures heard { IfOk result (λ o. IsOffer but event.now self.now.instances o.heard.items) }
        ensures taken { IfOk result (λ o. length self.now.instances ≤ but → o.taken ≡ takers event.now self.now.instances) }
    {
        let numbers = self.may_take(alloc, event)?;
        if numbers.is_empty() {
            let heard = Vec::new(alloc);
            return Ok(Offered { heard, taken: 0 });
        }
        let offer = Offer::new(alloc, event)?;
        self.offer_to(alloc, &offer, numbers, but)
    }

    // Offers an event to the instances of these numbers, but to that of one.
    fn offer_to(
        &self,
        alloc: Global,
        offer: &Offer,
        numbers: Vec<usize>,
        but: usize,
    ) -> Result<Offered, AllocError>
        requires { Covers offer.now self.now.instances numbers.items }
        ensures heard { IfOk result (λ o. IsOffer but offer.now self.now.instances o.heard.items) }
        ensures taken { IfOk result (λ o. length self.now.instances ≤ but → o.taken ≡ takers offer.now self.now.instances) }
    {
        let mut heard = Vec::new(alloc);
        let mut taken: u32 = 0;
        for number in numbers {
            if number != but {
                let more = offer_one(alloc, offer, number, self.at(number), &mut heard)?;
                taken = sum(taken, more)?;
            }
        }
        Ok(Offered { heard, taken })
    }

    // The numbers of those that may take an event, ascending: they listen for its type, or for events of more than one. All, where
    // it is not noted of some what they listen for.
    fn may_take(&self, alloc: Global, event: &Event) -> Result<Vec<usize>, AllocError>
        ensures { IfOk result (λ v. Covers event.now self.now.instances v.items) }
    {
        match self.stale.first() {
            None => self.listeners.who(alloc, &event.kind),
            Some(_) => all_below(alloc, self.len()),
        }
    }

    /// Those that took an event are in their places now, and join the queue. It takes no memory.
    pub fn hear(&mut self, heard: Vec<Hearing>)
        requires from { AllByRecursion (IsHeardFrom self.old.instances) heard.items }
        ensures instances { self.new.instances ≡ put_all heard.items self.old.instances }
        ensures moment { self.new.moment ≡ self.old.moment }
    {
        for Hearing { number, instance } in heard {
            self.put(number, instance.into_inner());
        }
    }

    // An instance stands in the place of another one of its id, and joins the queue. It takes no memory.
    fn put(&mut self, number: usize, instance: Machine)
        requires { slice_get (ids self.old.instances) number ≡ Some instance.id }
        ensures instances { self.new.instances ≡ put_at number instance self.old.instances }
        ensures moment { self.new.moment ≡ self.old.moment }
    {
        self.queue.put(number);
        self.stale.put(number);
        self.alarms.set(number, instance.alarm());
        self.machines[number] = instance;
    }
}

// All numbers below one, ascending.
fn all_below(alloc: Global, end: usize) -> Result<Vec<usize>, AllocError>
    ensures { IfOk result (λ v. v.items ≡ numbers_where (λ n. true) end) }
{
    let mut numbers = Vec::new(alloc);
    for number in 0..end {
        numbers.push(number)?;
    }
    Ok(numbers)
}

// There is none behind the greatest.
fn sum(a: u32, b: u32) -> Result<u32, AllocError>
    ensures { IfOk result (λ n. n ≡ a + b) }
{
    a.checked_add(b).ok_or(AllocError)
}

// Offers an event to an instance. Answers how many of its tasks took it.
fn offer_one(
    alloc: Global,
    offer: &Offer,
    number: usize,
    instance: &Machine,
    heard: &mut Vec<Hearing>,
) -> Result<u32, AllocError>
    ensures taken { IfOk result (λ n. n ≡ takers_in offer.now instance.now) }
    ensures heard { IfOk result (λ n. heard.new.items ≡ heard.old.items ++ (if nat_lt 0 n then (record { number = number; instance = offered_one offer.now instance.now }) ∷ [] else [])) }
{
    if !instance.hears(alloc, offer)? {
        return Ok(0);
    }
    let mut instance = instance.copy(alloc)?;
    let taken = instance.deliver_event(alloc, offer)?;
    let instance = Boxed::new(alloc, instance)?;
    heard.push(Hearing { number, instance })?;
    Ok(taken)
}
