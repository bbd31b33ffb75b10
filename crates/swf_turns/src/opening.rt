// What is said where no engine could be opened.
ghost use Rattle.std.specs.Prelude.{◌≡◌, ℕ};
ghost use Rattle.swf_turns.specs.Finish.{Tells, ClosesWith};

use crate::saying::{NO_MEMORY, STORE_FAULT, say_damage};
use std::alloc::Global;
use swf_engine::EngineFault;
use swf_host::{Host, NoWork};

/// The status where no engine could be opened.
pub fn not_opened<H: Host<NoWork, NoWork>>(alloc: Global, host: &mut H, fault: EngineFault) -> u8
    requires { (size : ℕ) → fault ≡ EngineFault.Full size → ⊥ }
    ensures tells { Tells H.moment H.left_since H.said H.may_leave H.seen H.taken fault host.old host.new result }
    ensures taken { H.taken host.new ≡ H.taken host.old }
    ensures calls { H.calls host.new ≡ H.calls host.old }
    ensures closes { ClosesWith fault result (H.host_faults host.old) (H.host_faults host.new) (H.store_faults host.old) (H.store_faults host.new) }
{
    match fault {
        EngineFault::Store => STORE_FAULT,
        EngineFault::Damaged { at } => say_damage(alloc, host, 0, at),
        EngineFault::Full { .. } => unreachable!(),
        EngineFault::OutOfMemory => NO_MEMORY,
    }
}
