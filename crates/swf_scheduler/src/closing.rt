// How a crew comes to its end.
ghost use Rattle.std.specs.Prelude.{◌≡◌, ◌+◌, ◌≤◌, [], true, length, map, All, vec_len, vec_capacity};
ghost use Rattle.crossbeam_channel.specs.Claims.{view, IsSeatAt};
ghost use Rattle.crossbeam_channel.specs.Ends.{receives_on, sends_on};
ghost use Rattle.swf_scheduler.specs.Rule.{all_parts, most_queued};
ghost use Rattle.swf_scheduler.specs.Hired.{tool_of, IsOn};
ghost use Rattle.swf_scheduler.specs.Gathering.{Gathered, IsDrained};

use crate::crew::Giver;
use crate::hired::Hired;
use crate::rule::{Dismiss, Hand, Job, Take};
use crate::work::{Outlet, Seat, Work};
use crate::worker::{Taker, Worked};
use crossbeam_channel::Pass;
use std::sync::Wait;
use std::thread::Threads;

/// What a closed crew gives back: the seats in their order, for each seat the numbers of the jobs that its worker took, in the order in which it
/// did them, and the work that nobody took, each with its number.
#[derive(Drop)]
pub struct Closed<W: Work, O> {
    pub seats: Vec<Seat<W, O>>,
    pub taken: Vec<Vec<u64>>,
    pub left: Vec<(u64, W)>,
}

/// Waits for the workers' ends, and joins their passes.
pub fn gather<W: Work, O: Outlet<W::Done>, R: Threads>(
    rt: &R,
    to: &Giver<W>,
    pass: &mut Pass<Job<W>, Hand<W>>,
    hired: Vec<Hired<W, O>>,
    seats: &mut Vec<Seat<W, O>>,
    taken: &mut Vec<Vec<u64>>,
)
    requires channel { IsSeatAt (sends_on to.now) pass.old }
    requires nothing_taken { (view pass.old).taken ≡ [] }
    requires bound { All (IsOn W.gives O.offered (sends_on to.now)) hired.items }
    requires room { (vec_len hired ≤ vec_capacity seats.old) × (vec_len hired ≤ vec_capacity taken.old) }
    requires empty { (seats.old.items ≡ []) × (taken.old.items ≡ []) }
    ensures channel { IsSeatAt (sends_on to.now) pass.new }
    ensures gathered { Gathered W.gives O.offered (map tool_of hired.items) seats.new.items taken.new.items (view pass.old) (view pass.new) }
{
    for one in hired {
        let Worked {
            seat,
            taken: numbers,
            pass: theirs,
        } = one.dismiss(rt);
        to.absorb::<Dismiss>(pass, theirs);
        seats.push_reserved(seat);
        taken.push_reserved(numbers);
    }
}

/// Takes what is left in the queue.
pub fn drain<W: Work, R: Wait>(
    rt: &R,
    from: &Taker<W>,
    pass: &mut Pass<Job<W>, Hand<W>>,
    left: &mut Vec<(u64, W)>,
)
    requires channel { IsSeatAt (receives_on from.now) pass.old }
    requires whole { ((view pass.old).parts ≡ all_parts) × ((view pass.old).gives ≡ true) }
    requires few { length (view pass.old).given ≤ length (view pass.old).taken + most_queued }
    requires room { most_queued ≤ vec_capacity left.old }
    requires empty { left.old.items ≡ [] }
    ensures { IsDrained (view pass.old) left.new.items }
{
    for _ in rt.forever() {
        match from.try_recv_as::<Take, R>(rt, pass) {
            Ok(job) => {
                let Job { number, work } = job;
                left.push_reserved((number, work));
            }
            Err(_) => return,
        }
    }
    unreachable!()
}
