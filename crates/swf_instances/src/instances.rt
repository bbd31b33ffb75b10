// All instances, by id and by number.
ghost use Rattle.std.specs.Prelude.{◌≡◌, ◌<◌, ◌^◌, ◌++◌, ◌∷◌, [], length, position, slice_get, None, OnOk, Some, option_map};
ghost use Rattle.std.specs.List.{list_any};
ghost use Rattle.swf_text.specs.Same.{same};
ghost use Rattle.swf_meaning.specs.Answer.{instance_at};
ghost use Rattle.swf_meaning.specs.Wake.{is_due, waits};
ghost use Rattle.swf_instances.specs.Takes.{FitsAt, take_at};

use crate::listening::{may_change, note_all, note_later};
use indexmap::IndexMap;
use std::alloc::{AllocError, Global};
use std::marker::Model;
use swf_duration::Moment;
use swf_listeners::Listeners;
use swf_queue::{Alarms, Queue};
use swf_tasks::{BoxedMachine, Machine, Prepared, SentEvent};
use swf_text::Text;

/// The instances at a moment. Contracts see them in start order, the moment, and how many more fit without memory.
#[derive(Drop)]
pub struct Instances {
    pub(crate) alloc: Global,
    pub(crate) machines: IndexMap<Text, Machine>,
    pub(crate) queue: Queue,
    /// Of each instance, the least moment that a strand of it waits for.
    pub(crate) alarms: Alarms,
    /// Of each instance, what it listens for.
    pub(crate) listeners: Listeners,
    /// Those of which that is not noted yet: they came, took a step or were answered since room was made last.
    pub(crate) stale: Queue,
    /// The one that was reached last.
    pub(crate) moment: Moment,
}

impl Model for Instances {
    ghost use Rattle.std.specs.Prelude.{min};
    ghost use Rattle.indexmap.specs.IndexMap.{spare};
    ghost use Rattle.swf_instances.specs.Held.{HeldInstances, held_instances_code, instances_in};

    ghost Value = { HeldInstances };

    ghost coded = { held_instances_code };

    ghost use Rattle.swf_instances.specs.Kept.{Kept};

    ghost view = { λ i. record { instances = instances_in i.machines.entries; moment = i.moment; room = min (min (spare i.machines) i.queue.room) (min i.alarms.room (min i.listeners.room i.stale.room)) } };

    ghost invariant = { λ i. Kept i.machines.entries i.moment i.queue i.alarms.moments i.listeners.wanted i.stale };
}

impl Instances {
    /// None was started, and the moment is 0. It takes no memory.
    pub fn new(alloc: Global) -> Instances
        ensures instances { result.instances ≡ [] }
        ensures moment { result.moment ≡ 0 }
    {
        Instances {
            alloc,
            machines: IndexMap::new(alloc),
            queue: Queue::new(alloc),
            alarms: Alarms::new(alloc),
            listeners: Listeners::new(alloc),
            stale: Queue::new(alloc),
            moment: Moment::new(0),
        }
    }

    /// Makes room for one instance more, and notes what those listen for that came, took a step or were answered since it was made last.
    pub fn reserve(&mut self) -> Result<(), AllocError>
        ensures instances { self.new.instances ≡ self.old.instances }
        ensures moment { self.new.moment ≡ self.old.moment }
        ensures room { OnOk result (0 < self.new.room) }
    {
        let (listeners, stale) = (&mut self.listeners, &mut self.stale);
        note_all(self.alloc, &self.machines, listeners, stale)?;
        self.machines.reserve(1)?;
        self.queue.reserve(1)?;
        self.alarms.reserve(1)?;
        self.listeners.reserve(1)?;
        self.stale.reserve(1)
    }

    /// How many there are.
    pub fn len(&self) -> usize
        ensures len { result ≡ length self.now.instances }
        ensures small { result < 2 ^ 63 }
    {
        self.machines.len()
    }

    /// The moment that was reached last.
    pub fn moment(&self) -> Moment
        ensures { result ≡ self.now.moment }
    {
        self.moment
    }

    /// The instance of a number, from 0, in start order, where there is one.
    pub fn get(&self, number: usize) -> Option<&Machine>
        ensures { option_map (λ i. i.now) result ≡ slice_get self.now.instances number }
    {
        let (_, instance) = self.machines.get_index(number)?;
        Some(instance)
    }

    /// The instance of a number. No other one has its id.
    pub fn at(&self, number: usize) -> &Machine
        requires { number < length self.now.instances }
        ensures there { slice_get self.now.instances number ≡ Some result.now }
        ensures alone { position (λ i. same result.now.id i.id) self.now.instances ≡ Some number }
    {
        &self.machines[number]
    }

    /// The instance of an id.
    pub fn of_id(&self, id: &Text) -> Option<&Machine>
        ensures { option_map (λ i. i.now) result ≡ instance_at id.now self.now.instances }
    {
        self.machines.get(id)
    }

    /// The number of the instance of an id.
    pub fn number_of(&self, id: &Text) -> Option<usize>
        ensures { result ≡ position (λ i. same id.now i.id) self.now.instances }
    {
        self.machines.get_index_of(id)
    }

    /// Whether some strand waits until a moment, in milliseconds, or one before it, in one step. It takes no memory.
    pub fn is_over(&self, moment: u64) -> bool
        ensures { result ≡ list_any (λ i. is_due moment i.node) self.now.instances }
    {
        self.alarms.is_over(moment)
    }

    /// Adds an instance under its own id, of which there is none, and which does not wait. It takes no memory.
    pub fn add(&mut self, id: Text, instance: BoxedMachine)
        requires placed { id ≡ instance.id }
        requires new { instance_at id self.old.instances ≡ None }
        requires awake { waits instance.node ≡ [] }
        requires room { 0 < self.old.room }
        ensures instances { self.new.instances ≡ self.old.instances ++ instance ∷ [] }
        ensures moment { self.new.moment ≡ self.old.moment }
    {
        self.machines.insert(id, instance.into_inner()).unwrap();
        self.queue.add();
        self.alarms.add();
        self.listeners.add(self.alloc);
        self.stale.add();
    }

    /// The instance of a number takes a step that was prepared, and joins the queue. Answers the event that goes out, where one does.
    /// It takes no memory.
    pub fn take(&mut self, number: usize, prepared: Prepared) -> Option<SentEvent>
        requires { FitsAt number prepared self.old.instances }
        ensures instances { self.new.instances ≡ take_at number prepared self.old.instances }
        ensures moment { self.new.moment ≡ self.old.moment }
        ensures emitted { result ≡ prepared.emitted }
    {
        self.queue.put(number);
        let may_change = may_change(&self.listeners, number, &prepared);
        note_later(&mut self.stale, number, may_change);
        let instance = &mut self.machines[number];
        let emitted = instance.take(prepared);
        self.alarms.set(number, instance.alarm());
        emitted
    }

    /// A moment is reached: the instances whose wait is over join the queue. It takes no memory.
    pub fn reach(&mut self, moment: Moment)
        ensures instances { self.new.instances ≡ self.old.instances }
        ensures moment { self.new.moment ≡ moment }
    {
        self.alarms.wake(&mut self.queue, moment.milliseconds());
        self.moment = moment;
    }
}
