// Where workers with nothing to do wait for the next job, and see that no more are to be taken.
use std::sync::{Condvar, Mutex, Wait};

/// How often a job was given, up to a full turn of the number, and whether no more jobs are to be taken.
#[derive(Clone, Copy, Drop)]
pub(crate) struct Moves {
    given: u64,
    pub(crate) is_closed: bool,
}

/// A lock that no one holds for longer than it takes to read or write what is under it.
#[derive(Drop)]
pub(crate) struct Gate {
    moves: Mutex<Moves>,
    moved: Condvar,
}

impl Gate {
    /// At which no job was given yet.
    pub(crate) fn new() -> Gate {
        Gate {
            moves: Mutex::new(Moves {
                given: 0,
                is_closed: false,
            }),
            moved: Condvar::new(),
        }
    }

    /// Tells that a job was given.
    pub(crate) fn tell<R: Wait>(&self, rt: &R) {
        let mut moves = self.moves.lock(rt);
        moves.given = moves.given.wrapping_add(1);
        self.moved.notify_all();
    }

    /// Tells that no worker is to take another job. It takes no memory, and waits for no worker's job.
    pub(crate) fn close<R: Wait>(&self, rt: &R) {
        let mut moves = self.moves.lock(rt);
        moves.is_closed = true;
        self.moved.notify_all();
    }

    /// What a worker remembers before it tries to take a job, so that it misses none that is given meanwhile.
    pub(crate) fn look<R: Wait>(&self, rt: &R) -> Moves {
        *self.moves.lock(rt)
    }

    /// Waits for a job that was given since, or for the close.
    pub(crate) fn wait_past<R: Wait>(&self, rt: &R, seen: Moves) {
        let _moves = self.moved.wait_while(rt, self.moves.lock(rt), |moves| {
            moves.given == seen.given && !moves.is_closed
        });
    }
}
