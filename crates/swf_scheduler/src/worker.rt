// What a worker does.
ghost use Rattle.std.specs.Prelude.{◌≡◌, ◌+◌, ◌-◌, ◌^◌, [], false, min};
ghost use Rattle.crossbeam_channel.specs.Claims.{view, IsSeatAt};
ghost use Rattle.crossbeam_channel.specs.Ends.{receives_on};
ghost use Rattle.swf_scheduler.specs.Rule.{hand};
ghost use Rattle.swf_scheduler.specs.Worked.{IsWorked};

use crate::gate::Gate;
use crate::rule::{Hand, Job, Numbered, Take};
use crate::work::{Outlet, Seat, Work};
use crossbeam_channel::{Pass, RuledReceiver};
use std::sync::Wait;
use std::sync::atomic::{AtomicBool, Ordering};
use std::thread;

/// The end of the channel that jobs come out of.
pub type Taker<W> = RuledReceiver<Job<W>, Hand<W>, Numbered>;

/// What a worker hands in at its end: its seat, the numbers that it took, and its pass.
#[derive(Drop)]
pub struct Worked<W: Work, O> {
    pub seat: Seat<W, O>,
    pub taken: Vec<u64>,
    pub pass: Pass<Job<W>, Hand<W>>,
}

/// Does a job, offers its result, and answers its number. A result that is handed back is dropped.
fn do_job<W: Work, O: Outlet<W::Done>>(seat: &mut Seat<W, O>, job: Job<W>) -> u64
    ensures number { result ≡ job.number }
    ensures done { (done : W.Done) × W.gives job.work seat.old.tool seat.new.tool done }
    ensures offered { O.offered seat.new.outlet ≡ min (O.offered seat.old.outlet + 1) (2 ^ 64 - 1) }
{
    let Job { number, work } = job;
    let done = work.work(&mut seat.tool);
    let _ = seat.outlet.put(done);
    number
}

/// Takes jobs and does them, until no more are to be taken. Where the worker could not be started it takes none. It takes a job only
/// once it has memory to list its number.
pub(crate) fn work_all<W: Work, O: Outlet<W::Done>, R: Wait>(
    rt: &R,
    from: &Taker<W>,
    gate: &Gate,
    is_refused: &AtomicBool,
    mut worked: Worked<W, O>,
) -> Worked<W, O>
    requires channel { IsSeatAt (receives_on from.now) worked.pass }
    requires nothing_taken { (view worked.pass ≡ hand 1 false [] []) × (worked.taken.items ≡ []) }
    requires nothing_offered { O.offered worked.seat.outlet ≡ 0 }
    ensures channel { IsSeatAt (receives_on from.now) result.pass }
    ensures worked { IsWorked W.gives worked.seat.tool result.seat.tool (O.offered result.seat.outlet) result.taken.items (view result.pass) }
{
    if is_refused.load(Ordering::SeqCst) {
        return worked;
    }
    for _ in rt.forever() {
        let seen = gate.look(rt);
        if seen.is_closed {
            break;
        }
        if worked.taken.reserve(1).is_err() {
            thread::yield_now();
            continue;
        }
        match from.try_recv_as::<Take, R>(rt, &mut worked.pass) {
            Ok(job) => {
                let number = do_job(&mut worked.seat, job);
                worked.taken.push_reserved(number);
            }
            Err(_) => gate.wait_past(rt, seen),
        }
    }
    worked
}
