// All instances, documents and used keys: each a part that equals the list of the definitions.
ghost use Rattle.std.specs.Prelude.{◌≡◌, slice_get, option_map};
ghost use Rattle.swf_meaning.specs.World.{empty};
ghost use Rattle.swf_world.specs.Waits.{is_due};

use std::alloc::Global;
use std::marker::Model;
use swf_catalog::Documents;
use swf_cloudevents::Event;
use swf_duration::Moment;
use swf_instances::Instances;
use swf_registry::UsedKeys;
use swf_text::Text;

/// The world. Contracts see it as the world of the definitions, and how many more changes fit without memory.
#[derive(Drop)]
pub struct World {
    pub(crate) alloc: Global,
    pub(crate) documents: Documents,
    /// At the moment that was reached last.
    pub(crate) instances: Instances,
    pub(crate) used: UsedKeys,
    /// The events that went out.
    pub(crate) outbox: Vec<Event>,
    /// How many labels came.
    pub(crate) count: u64,
}

impl Model for World {
    ghost use Rattle.swf_world.specs.Held.{Held, held_code};

    ghost Value = { Held };

    ghost coded = { held_code };

    ghost use Rattle.swf_world.specs.Parts.{world_of, room_of};
    ghost use Rattle.swf_world.specs.Kept.{Kept};

    ghost view = { λ w. record { world = world_of w; room = room_of w } };

    ghost invariant = { λ w. Kept (world_of w) };
}

impl World {
    /// A world in which nothing happened. It takes no memory.
    pub fn new(alloc: Global) -> World
        ensures { result.world ≡ empty }
    {
        World {
            alloc,
            documents: Documents::new(alloc),
            instances: Instances::new(alloc),
            used: UsedKeys::new(alloc),
            outbox: Vec::new(alloc),
            count: 0,
        }
    }

    /// The moment that was reached last. It takes no memory.
    pub fn now(&self) -> Moment
        ensures { result ≡ self.now.world.now }
    {
        self.instances.moment()
    }

    /// Whether a moment, in milliseconds, is above now, and some strand waits until it, or until one before it. It takes no memory.
    pub fn due(&self, moment: u64) -> bool
        ensures { result ≡ is_due self.now.world moment }
    {
        moment > self.now().milliseconds() && self.instances.is_over(moment)
    }

    /// The instances, to be read. It takes no memory.
    pub fn instances(&self) -> &Instances
        ensures instances { result.now.instances ≡ self.now.world.instances }
        ensures moment { result.now.moment ≡ self.now.world.now }
    {
        &self.instances
    }

    /// The events that went out, in order. It takes no memory.
    pub fn outbox(&self) -> &[Event]
        ensures outbox { result.now ≡ self.now.world.outbox }
    {
        self.outbox.as_slice()
    }

    /// The id of the instance of that number, from 0, in start order. It takes no memory.
    pub fn instance(&self, number: u64) -> Option<&Text>
        ensures { option_map (λ id. id.now) result ≡ option_map (λ i. i.id) (slice_get self.now.world.instances number) }
    {
        let instance = self.instances.get(number as usize)?;
        Some(instance.id())
    }
}
