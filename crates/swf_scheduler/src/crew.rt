// The crew.
ghost use Rattle.std.specs.Prelude.{◌≡◌, ◌<◌, ◌≤◌, ◌++◌, ◌⊎◌, [], ◌∷◌, length, map, All, IfOk, IfErr, OnOk};
ghost use Rattle.crossbeam_channel.specs.Fifo.{Held};
ghost use Rattle.swf_scheduler.specs.Rule.{most_queued, most_seats, Queued};
ghost use Rattle.swf_scheduler.specs.Closed.{IsClosed};
ghost use Rattle.swf_scheduler.specs.Sending.{IsGiver, IsGiven, IsRefused};

use crate::closing::{Closed, drain, gather};
use crate::gate::Gate;
use crate::hired::{Hired, Post, hire};
use crate::rule::{Hand, Hire, Job, Numbered, Put, Take};
use crate::work::{Outlet, Seat, Work};
use crate::worker::{Taker, Worked};
use crossbeam_channel::{Pass, RuledSender, TrySendError, bounded_with};
use std::alloc::{AllocError, Global};
use std::marker::Model;
use std::sync::atomic::AtomicBool;
use std::sync::{Arc, Wait};
use std::thread::Threads;

/// How many jobs the queue has room for.
const MOST_QUEUED: usize = 64;

/// The end of the channel that jobs go into.
pub type Giver<W> = RuledSender<Job<W>, Hand<W>, Numbered>;

/// Workers, each with a seat of its own, and the jobs that they are given. Contracts see it as a `Roster`: the works that were given, by
/// number, the tools of the start, and how many workers were started. End it by `close` or `abandon`: workers of a crew that is only
/// dropped wait on.
#[derive(Drop)]
pub struct Crew<W: Work, O: Outlet<W::Done>, R> {
    rt: R,
    to: Giver<W>,
    from: Taker<W>,
    pass: Pass<Job<W>, Hand<W>>,
    gate: Arc<Gate>,
    hired: Vec<Hired<W, O>>,
    started: usize,
    next: u64,
}

impl<W: Work, O: Outlet<W::Done>, R> Model for Crew<W, O, R> {
    ghost use Rattle.std.specs.Prelude.{map};
    ghost use Rattle.crossbeam_channel.specs.Ends.{receives_on, sends_on};
    ghost use Rattle.swf_scheduler.specs.Roster.{Roster};
    ghost use Rattle.swf_scheduler.specs.Hired.{hand_of, tool_of};
    ghost use Rattle.swf_scheduler.specs.Crew.{IsCrew};

    ghost Value = { Roster W W.Tool };

    ghost view = { λ c. record { given = (hand_of c.pass).given; tools = map tool_of c.hired.items; started = c.started } };

    ghost invariant = { λ c. IsCrew W.gives O.offered (sends_on c.to) (receives_on c.from) c.pass c.hired.items c.next c.started };
}

/// Puts a job into the queue, unless it is full.
fn send<W: Work, R: Wait>(
    rt: &R,
    to: &Giver<W>,
    pass: &mut Pass<Job<W>, Hand<W>>,
    mut job: Job<W>,
) -> Result<(), Job<W>>
    requires { IsGiver to.now pass.old job }
    ensures sent { OnOk result (IsGiven to.now pass.old job pass.new) }
    ensures full { IfErr result (λ back. (back ≡ job) × IsRefused to.now pass.old pass.new) }
{
    for _ in rt.forever() {
        match to.try_send_as::<Put, R>(rt, pass, job) {
            Ok(()) => return Ok(()),
            Err(TrySendError::Full(back)) => return Err(back),
            Err(refused) => job = refused.into_inner(),
        }
    }
    unreachable!()
}

impl<W: Work, O: Outlet<W::Done>, R> Crew<W, O, R> {
    /// Starts one worker for each of at most eight seats. A worker for whom no thread could be made isn't counted. Where it finds no memory,
    /// the workers that it started have ended. The crew keeps `rt`.
    pub fn start(rt: R, seats: Vec<Seat<W, O>>) -> Result<Crew<W, O, R>, AllocError>
    where
        R: Threads + Wait + Clone + Send + Drop + 'static,
        requires few { length seats.items ≤ most_seats }
        requires nothing_offered { All (λ s. O.offered s.outlet ≡ 0) seats.items }
        ensures nothing_given { IfOk result (λ c. c.given ≡ []) }
        ensures tools { IfOk result (λ c. c.tools ≡ map (λ s. s.tool) seats.items) }
    {
        let mut crew = Crew::empty(rt, *seats.allocator())?;
        for seat in seats {
            match crew.hire(seat) {
                Ok(()) => {}
                Err(refused) => {
                    crew.dismiss_all();
                    return Err(refused);
                }
            }
        }
        Ok(crew)
    }

    /// How many workers were started.
    pub fn workers(&self) -> usize
        ensures number { result ≡ self.now.started }
        ensures most { result ≤ length self.now.tools }
    {
        self.started
    }

    /// Gives the work to the crew, under the next number from 0. It hands the work back, and uses no number, only where no worker was
    /// started, or where the queue, which has room for 64 jobs, was full at some moment of this call. It waits for no worker's job, but for
    /// ever once 2^64 - 1 jobs were given.
    pub fn give(&mut self, work: W) -> Result<(), W>
    where
        R: Wait,
        ensures given { OnOk result ((self.new.given ≡ self.old.given ++ work ∷ []) × (self.new.tools ≡ self.old.tools) × (self.new.started ≡ self.old.started)) }
        ensures handed_back { IfErr result (λ w. (w ≡ work) × (self.new ≡ self.old)) }
        ensures none_or_full { IfErr result (λ _. (self.old.started ≡ 0) ⊎ Held most_queued (Queued self.old.given)) }
    {
        if self.started == 0 {
            return Err(work);
        }
        for _ in self.rt.forever() {
            if self.next < u64::MAX {
                break;
            }
        }
        let job = Job {
            number: self.next,
            work,
        };
        match send(&self.rt, &self.to, &mut self.pass, job) {
            Ok(()) => {
                self.next += 1;
                self.gate.tell(&self.rt);
                Ok(())
            }
            Err(back) => {
                let Job { number: _, work } = back;
                Err(work)
            }
        }
    }

    /// Lets the workers finish the jobs that they are at, joins them, and gives back the seats and what is left. It takes its memory first:
    /// where it finds none, the crew comes back with nothing closed and no worker joined.
    pub fn close(self) -> Result<Closed<W, O>, Crew<W, O, R>>
    where
        R: Threads + Wait + Drop,
        ensures closed { IfOk result (λ c. IsClosed W.gives O.offered self c.seats.items c.taken.items c.left.items) }
        ensures handed_back { IfErr result (λ crew. crew ≡ self) }
    {
        let alloc = *self.hired.allocator();
        let count = self.hired.len();
        let Ok(mut seats) = Vec::with_capacity(alloc, count) else {
            return Err(self);
        };
        let Ok(mut taken) = Vec::with_capacity(alloc, count) else {
            return Err(self);
        };
        let Ok(mut left) = Vec::with_capacity(alloc, MOST_QUEUED) else {
            return Err(self);
        };
        let Crew {
            rt,
            to,
            from,
            mut pass,
            gate,
            hired,
            ..
        } = self;
        gate.close(&rt);
        gather(&rt, &to, &mut pass, hired, &mut seats, &mut taken);
        to.learn_as::<Take>(&mut pass);
        drain(&rt, &from, &mut pass, &mut left);
        Ok(Closed { seats, taken, left })
    }

    /// Tells the workers that no more jobs are to be taken, and joins none of them, for a process that is to end at once. It takes no memory, and
    /// waits for no worker's job. Each worker finishes the job that it is at, offers its result and ends, if the process lasts so long. Its
    /// seat is not dropped then, so a channel that its outlet sends to stays open. Work that nobody took is dropped. No clause says any of this.
    pub fn abandon(self)
    where
        R: Wait + Drop,
    {
        self.gate.close(&self.rt);
    }

    /// A crew with no worker yet.
    fn empty(rt: R, alloc: Global) -> Result<Crew<W, O, R>, AllocError>
    where
        R: Drop,
        ensures fresh { IfOk result (λ c. (c.given ≡ []) × (c.tools ≡ [])) }
    {
        let (to, from, pass) = bounded_with::<Job<W>, Hand<W>, Numbered, Global>(
            alloc,
            MOST_QUEUED,
        )?;
        let Ok(gate) = Arc::new(alloc, Gate::new()) else {
            return Err(AllocError);
        };
        Ok(Crew {
            rt,
            to,
            from,
            pass,
            gate,
            hired: Vec::new(alloc),
            started: 0,
            next: 0,
        })
    }

    /// Starts a worker at a seat.
    fn hire(&mut self, seat: Seat<W, O>) -> Result<(), AllocError>
    where
        R: Threads + Wait + Clone + Send + Drop + 'static,
        requires few { length self.old.tools < most_seats }
        requires nothing_offered { O.offered seat.outlet ≡ 0 }
        ensures given { self.new.given ≡ self.old.given }
        ensures tools { IfOk result (λ _. self.new.tools ≡ self.old.tools ++ seat.tool ∷ []) }
    {
        let alloc = *self.hired.allocator();
        let rt = self.rt.clone()?;
        let from = self.from.try_clone()?;
        let gate = Arc::try_clone(&self.gate)?;
        let is_refused = Arc::new(alloc, AtomicBool::new(false))?;
        let mine = Arc::try_clone(&is_refused)?;
        self.hired.reserve(1)?;
        let pass = self.to.another::<Hire>(&mut self.pass);
        let worked = Worked {
            seat,
            taken: Vec::new(alloc),
            pass,
        };
        let post = Post {
            rt,
            from,
            gate,
            is_refused: mine,
            worked,
        };
        let hired = hire(&self.rt, post, &is_refused);
        self.started += hired.count();
        self.hired.push_reserved(hired);
        Ok(())
    }

    /// Joins the workers that were started, which have nothing to do.
    fn dismiss_all(self)
    where
        R: Threads + Wait + Drop,
    {
        let Crew {
            rt,
            gate,
            hired,
            ..
        } = self;
        gate.close(&rt);
        for one in hired {
            drop(one.dismiss(&rt));
        }
    }
}
