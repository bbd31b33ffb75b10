// The mode `check`: a document is read whole, and what is said of it goes to connection 0.
ghost use Rattle.std.specs.Prelude.{◌≡◌, ◌⊎◌, length, if◌then◌else◌};
ghost use Rattle.std.specs.Option.{ForSome};
ghost use Rattle.swf_store.specs.Disk.{NothingNew};
ghost use Rattle.swf_store.specs.Said.{SaidPart, and_piece};
ghost use Rattle.swf_store.specs.Stops.{Leaves};
ghost use Rattle.swf_check.specs.Checking.{CheckRun, IsHostFault, Spoken};

use crate::verdict::{Verdict, judge};
use std::alloc::Global;
use swf_host::Host;

/// The document is refused.
const REFUSED: u8 = 1;

/// The host failed.
const HOST_FAULT: u8 = 4;

/// No memory was found.
const NO_MEMORY: u8 = 6;

// Says a verdict to connection 0, and answers the status.
fn tell<G: Drop, W: Drop, H: Host<G, W>>(host: &mut H, verdict: Verdict) -> u8
    ensures tells { Spoken H.moment H.left_since H.said H.may_leave H.taken host.old host.new verdict.lines.items (if verdict.accepted then 0 else 1) result }
    ensures fault { IsHostFault result (H.host_faults host.old) (H.host_faults host.new) }
    ensures store_faults { H.store_faults host.new ≡ H.store_faults host.old }
    ensures calls { H.calls host.new ≡ H.calls host.old }
    ensures seen { H.seen host.new ≡ H.seen host.old }
{
    match host.say(0, &verdict.lines) {
        Ok(()) => { if verdict.accepted { 0 } else { REFUSED } }
        Err(_) => HOST_FAULT,
    }
}

/// Takes one input, which is the whole document, says what is to be said of it, and answers the status: 0 where it is accepted and
/// 1 where not, 4 where the host failed, and 6 for want of memory. It makes no call of the store.
pub fn run_check<G: Drop, W: Drop, H: Host<G, W>>(alloc: Global, host: &mut H) -> u8
    ensures runs { CheckRun H.moment H.left_since H.said H.may_leave H.taken host.old host.new result }
    ensures which { (result ≡ 0) ⊎ (result ≡ 1) ⊎ (result ≡ 4) ⊎ (result ≡ 6) }
    ensures fault { IsHostFault result (H.host_faults host.old) (H.host_faults host.new) }
    ensures store_faults { H.store_faults host.new ≡ H.store_faults host.old }
    ensures calls { H.calls host.new ≡ H.calls host.old }
    ensures seen { H.seen host.new ≡ H.seen host.old }
{
    match host.next(false) {
        Ok(input) => match judge(alloc, &input) {
            Ok(verdict) => tell(host, verdict),
            Err(_) => NO_MEMORY,
        },
        Err(_) => HOST_FAULT,
    }
}
