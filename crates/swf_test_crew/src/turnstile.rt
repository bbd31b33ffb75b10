// A gate that holds job 0 until it is opened, and jobs that pass it.
ghost use Rattle.std.specs.Prelude.{◌≡◌, length, All, IfOk};

use crate::signs::{Counter, Passed, Signs, was_set};
use std::alloc::{AllocError, Global};
use std::sync::Arc;
use std::sync::atomic::{AtomicU64, Ordering};
use swf_scheduler::{Seat, Work};

/// What jobs pass.
pub(crate) trait Gate: Send {
    fn pass(&mut self, job: u64);
}

/// Holds job 0 until it is opened.
#[derive(Drop)]
pub(crate) struct Turnstile {
    signs: Signs,
    /// Whether the last job was job 0, and the gate was opened while it was held.
    pub(crate) was_opened: bool,
}

impl Gate for Turnstile {
    fn pass(&mut self, job: u64) {
        self.was_opened = false;
        if job == 0 {
            self.signs.is_begun.store(true, Ordering::SeqCst);
            self.was_opened = was_set(&self.signs.is_open);
        }
    }
}

/// A job that passes its tool's gate, and says whether the gate was opened while it was held.
pub(crate) struct Through {
    pub(crate) job: u64,
    is_done: bool,
    undone: Arc<AtomicU64>,
}

impl Through {
    /// A job of a number.
    pub(crate) fn of(job: u64, signs: &Signs) -> Result<Through, AllocError> {
        Ok(Through {
            job,
            is_done: false,
            undone: Arc::try_clone(&signs.undone)?,
        })
    }
}

impl Drop for Through {
    fn drop(self) {
        let Through {
            job: _,
            is_done,
            undone,
        } = self;
        if !is_done {
            undone.fetch_add(1, Ordering::SeqCst);
        }
    }
}

impl Work for Through {
    type Tool = Turnstile;

    type Done = Passed;

    ghost gives = { λ w t u d. (d.job ≡ w.job) × (d.was_opened ≡ u.was_opened) };

    fn work(mut self, tool: &mut Turnstile) -> Passed {
        self.is_done = true;
        tool.pass(self.job);
        Passed {
            job: self.job,
            was_opened: tool.was_opened,
        }
    }
}

// A seat at which nothing was done.
fn seat(signs: &Signs) -> Result<Seat<Through, Counter>, AllocError>
    ensures nothing_offered { IfOk result (λ s. s.outlet.offered ≡ 0) }
{
    let tool = Turnstile {
        signs: signs.again()?,
        was_opened: false,
    };
    let outlet = Counter {
        offered: 0,
        signs: signs.again()?,
    };
    Ok(Seat { tool, outlet })
}

/// One seat.
pub(crate) fn one_seat(
    alloc: Global,
    signs: &Signs,
) -> Result<Vec<Seat<Through, Counter>>, AllocError>
    ensures one { IfOk result (λ v. length v.items ≡ 1) }
    ensures nothing_offered { IfOk result (λ v. All (λ s. s.outlet.offered ≡ 0) v.items) }
{
    let mut seats = Vec::new(alloc);
    seats.push(seat(signs)?)?;
    Ok(seats)
}

/// Two seats.
pub(crate) fn two_seats(
    alloc: Global,
    signs: &Signs,
) -> Result<Vec<Seat<Through, Counter>>, AllocError>
    ensures two { IfOk result (λ v. length v.items ≡ 2) }
    ensures nothing_offered { IfOk result (λ v. All (λ s. s.outlet.offered ≡ 0) v.items) }
{
    let mut seats = one_seat(alloc, signs)?;
    seats.push(seat(signs)?)?;
    Ok(seats)
}
