// A worker's thread, and what it promises.
ghost use Rattle.std.specs.Prelude.{◌≡◌, [], ◌∷◌, false, count_by};
ghost use Rattle.crossbeam_channel.specs.Claims.{view, IsSeatAt};
ghost use Rattle.crossbeam_channel.specs.Ends.{receives_on};
ghost use Rattle.swf_scheduler.specs.Rule.{hand};
ghost use Rattle.swf_scheduler.specs.Worked.{IsWorked};
ghost use Rattle.swf_scheduler.specs.Hired.{Keeps, IsOn, is_working, duty_of, tool_of};

use crate::gate::Gate;
use crate::work::{Outlet, Work};
use crate::worker::{Taker, Worked, work_all};
use std::snapshot::Snapshot;
use std::sync::atomic::{AtomicBool, Ordering};
use std::sync::{Arc, Wait};
use std::thread;
use std::thread::{Promise, PromisedHandle, Threads};

/// What a worker is bound to: its channel, and the tool that it began with.
#[derive(Drop)]
pub struct Duty<W: Work> {
    pub from: Snapshot<Taker<W>>,
    pub tool: Snapshot<W::Tool>,
}

impl<W: Work, O: Outlet<W::Done>> Promise<Worked<W, O>> for Duty<W> {
    ghost kept_by = { Keeps W.gives O.offered };
}

/// What a thread is to be started with. All its memory was found.
#[derive(Drop)]
pub(crate) struct Post<W: Work, O, R> {
    pub rt: R,
    pub from: Taker<W>,
    pub gate: Arc<Gate>,
    /// Whether no thread could be made, so that nothing is to be done.
    pub is_refused: Arc<AtomicBool>,
    pub worked: Worked<W, O>,
}

/// A worker's thread, or the worker that could not be started.
#[derive(Drop)]
pub enum Hired<W: Work, O: Outlet<W::Done>> {
    Working(PromisedHandle<Worked<W, O>, Duty<W>>),
    Unstarted(Worked<W, O>, Duty<W>),
}

impl<W: Work, O: Outlet<W::Done>> Hired<W, O> {
    /// 1 for a worker that was started, and else 0.
    pub fn count(&self) -> usize
        ensures { result ≡ count_by is_working (self.now ∷ []) }
    {
        match self {
            Hired::Working(_) => 1,
            Hired::Unstarted(_, _) => 0,
        }
    }

    /// Waits for the worker's end.
    pub fn dismiss<R: Threads>(self, rt: &R) -> Worked<W, O>
        requires { IsOn W.gives O.offered (receives_on (duty_of self).from.value) self }
        ensures { Keeps W.gives O.offered (duty_of self) result }
    {
        match self {
            Hired::Working(handle) => handle.join(rt),
            Hired::Unstarted(worked, _) => worked,
        }
    }
}

/// What the thread runs.
fn serve<W: Work, O: Outlet<W::Done>, R: Wait + Drop>(post: Post<W, O, R>) -> Worked<W, O>
    requires channel { IsSeatAt (receives_on post.from) post.worked.pass }
    requires nothing_taken { (view post.worked.pass ≡ hand 1 false [] []) × (post.worked.taken.items ≡ []) }
    requires nothing_offered { O.offered post.worked.seat.outlet ≡ 0 }
    ensures channel { IsSeatAt (receives_on post.from) result.pass }
    ensures worked { IsWorked W.gives post.worked.seat.tool result.seat.tool (O.offered result.seat.outlet) result.taken.items (view result.pass) }
{
    let Post {
        rt,
        from,
        gate,
        is_refused,
        worked,
    } = post;
    work_all(&rt, &from, &gate, &is_refused, worked)
}

/// Starts a worker's thread. Where none can be made, the worker comes back with its seat as it was.
pub(crate) fn hire<W: Work, O: Outlet<W::Done>, R: Threads + Wait + Send + Drop + 'static>(
    rt: &R,
    post: Post<W, O, R>,
    is_refused: &AtomicBool,
) -> Hired<W, O>
    requires channel { IsSeatAt (receives_on post.from) post.worked.pass }
    requires nothing_taken { (view post.worked.pass ≡ hand 1 false [] []) × (post.worked.taken.items ≡ []) }
    requires nothing_offered { O.offered post.worked.seat.outlet ≡ 0 }
    ensures bound { IsOn W.gives O.offered (receives_on post.from) result }
    ensures tool { tool_of result ≡ post.worked.seat.tool }
{
    let duty = Duty {
        from: Snapshot::of(&post.from),
        tool: Snapshot::of(&post.worked.seat.tool),
    };
    let kept = Duty {
        from: Snapshot::of(&post.from),
        tool: Snapshot::of(&post.worked.seat.tool),
    };
    let run = move || -> Worked<W, O>
        requires { IsSeatAt (receives_on post.from) post.worked.pass × (view post.worked.pass ≡ hand 1 false [] []) × (post.worked.taken.items ≡ []) × (O.offered post.worked.seat.outlet ≡ 0) }
        ensures worked { IsSeatAt (receives_on post.from) result.pass × IsWorked W.gives post.worked.seat.tool result.seat.tool (O.offered result.seat.outlet) result.taken.items (view result.pass) }
    { serve(post) };
    match thread::spawn_with(rt, duty, run) {
        Ok(handle) => Hired::Working(handle),
        Err(refused) => {
            is_refused.store(true, Ordering::SeqCst);
            Hired::Unstarted((refused.value)(), kept)
        }
    }
}
