// What each instance listens for is noted.
ghost use Rattle.std.specs.Prelude.{◌≡◌, ◌<◌, ◌==◌, ◌||◌, ℕ, OnErr, OnOk, length, slice_set, true, false};
ghost use Rattle.swf_listeners.specs.Listeners.{wanted_by};
ghost use Rattle.swf_listeners.specs.Wanted.{nothing, wanted_of};
ghost use Rattle.swf_offers.specs.EventTypes.{event_types};
ghost use Rattle.swf_queue.specs.Queue.{is_among};
ghost use Rattle.swf_tasks.specs.Prepares.{may_listen};
ghost use Rattle.swf_instances.specs.Held.{instances_in};
ghost use Rattle.swf_instances.specs.Kept.{Listening};

use indexmap::IndexMap;
use std::alloc::{AllocError, Global};
use swf_listeners::{Listeners, Wanted};
use swf_queue::Queue;
use swf_tasks::{Machine, Prepared};
use swf_text::Text;

/// What those listen for is noted of which it is not.
pub fn note_all(
    alloc: Global,
    machines: &IndexMap<Text, Machine>,
    listeners: &mut Listeners,
    stale: &mut Queue,
) -> Result<(), AllocError>
    requires { Listening (instances_in machines.now.entries) listeners.old.wanted stale.old }
    ensures listening { Listening (instances_in machines.now.entries) listeners.new.wanted stale.new }
    ensures room { listeners.new.room ≡ listeners.old.room }
    ensures stale { stale.new.room ≡ stale.old.room }
{
    while let Some(number) = stale.first() {
        note(alloc, number, &machines[number], listeners)?;
        stale.leave();
    }
    Ok(())
}

/// Whether what an instance listens for may be another after a step that was prepared.
pub fn may_change(listeners: &Listeners, number: usize, prepared: &Prepared) -> bool
    requires { number < length listeners.now.wanted }
    ensures { result ≡ false → (wanted_by listeners.now.wanted number ≡ nothing) × (may_listen prepared.now.strands ≡ false) }
{
    !listeners.wants_nothing(number) || prepared.may_listen()
}

/// Where what the instance of a number listens for may be another, it is to be noted anew. It takes no memory.
pub fn note_later(stale: &mut Queue, number: usize, may_change: bool)
    requires { number < stale.old.count }
    ensures count { stale.new.count ≡ stale.old.count }
    ensures changed { may_change ≡ true → (n : ℕ) → is_among n stale.new.numbers ≡ (is_among n stale.old.numbers || (n == number)) }
    ensures same { may_change ≡ false → stale.new ≡ stale.old }
{
    if may_change {
        stale.put(number);
    }
}

// What the instance of a number listens for is noted.
fn note(
    alloc: Global,
    number: usize,
    instance: &Machine,
    listeners: &mut Listeners,
) -> Result<(), AllocError>
    requires { number < length listeners.old.wanted }
    ensures err { OnErr result (listeners.new.wanted ≡ listeners.old.wanted) }
    ensures ok { OnOk result (listeners.new.wanted ≡ slice_set listeners.old.wanted number (wanted_of (event_types instance.now.node))) }
    ensures room { listeners.new.room ≡ listeners.old.room }
{
    let types = instance.event_types(alloc)?;
    let wanted = Wanted::of(alloc, &types)?;
    listeners.make_room(alloc, number, &wanted)?;
    listeners.set(number, wanted);
    Ok(())
}
