// What the test and the workers see of each other.
ghost use Rattle.std.specs.Prelude.{◌≡◌};

use std::alloc::{AllocError, Global};
use std::sync::Arc;
use std::sync::atomic::{AtomicBool, AtomicU64, Ordering};
use std::thread;
use swf_scheduler::Outlet;

/// How often a thread looks before it gives up.
const TURNS: u64 = 10_000_000;

/// What threads tell each other.
#[derive(Drop)]
pub(crate) struct Signs {
    /// Whether job 0 was begun.
    pub(crate) is_begun: Arc<AtomicBool>,
    /// Whether job 0 may go on.
    pub(crate) is_open: Arc<AtomicBool>,
    /// How many results were offered.
    pub(crate) offered: Arc<AtomicU64>,
    /// Whether one of them said yes.
    pub(crate) is_yes: Arc<AtomicBool>,
    /// How many jobs were dropped that nobody did.
    pub(crate) undone: Arc<AtomicU64>,
}

impl Signs {
    /// Of nothing yet.
    pub(crate) fn new(alloc: Global) -> Result<Signs, AllocError> {
        Ok(Signs {
            is_begun: Arc::new(alloc, AtomicBool::new(false))?,
            is_open: Arc::new(alloc, AtomicBool::new(false))?,
            offered: Arc::new(alloc, AtomicU64::new(0))?,
            is_yes: Arc::new(alloc, AtomicBool::new(false))?,
            undone: Arc::new(alloc, AtomicU64::new(0))?,
        })
    }

    /// For another thread.
    pub(crate) fn again(&self) -> Result<Signs, AllocError> {
        Ok(Signs {
            is_begun: Arc::try_clone(&self.is_begun)?,
            is_open: Arc::try_clone(&self.is_open)?,
            offered: Arc::try_clone(&self.offered)?,
            is_yes: Arc::try_clone(&self.is_yes)?,
            undone: Arc::try_clone(&self.undone)?,
        })
    }
}

/// Whether a flag was set, in so many turns.
pub(crate) fn was_set(flag: &AtomicBool) -> bool {
    for _ in 0..TURNS {
        if flag.load(Ordering::SeqCst) {
            return true;
        }
        thread::yield_now();
    }
    false
}

/// Whether a count came to a number, in so many turns.
pub(crate) fn was_reached(count: &AtomicU64, wanted: u64) -> bool {
    for _ in 0..TURNS {
        if count.load(Ordering::SeqCst) >= wanted {
            return true;
        }
        thread::yield_now();
    }
    false
}

/// A job's result: which job it was, and whether the gate was opened while it was held.
#[derive(Drop)]
pub(crate) struct Passed {
    pub(crate) job: u64,
    pub(crate) was_opened: bool,
}

/// Counts what it was offered, where the test sees it, and opens the gate once job 1 is answered.
#[derive(Drop)]
pub(crate) struct Counter {
    pub(crate) offered: u64,
    pub(crate) signs: Signs,
}

impl Outlet<Passed> for Counter {
    ghost offered = { λ c. c.offered };

    fn put(&mut self, done: Passed) -> Result<(), Passed> {
        self.offered = self.offered.saturating_add(1);
        if done.was_opened {
            self.signs.is_yes.store(true, Ordering::SeqCst);
        }
        if done.job == 1 {
            self.signs.is_open.store(true, Ordering::SeqCst);
        }
        self.signs.offered.fetch_add(1, Ordering::SeqCst);
        Ok(())
    }
}
