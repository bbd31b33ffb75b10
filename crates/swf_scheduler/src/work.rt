// What a worker does, with what, and where its results go.
ghost use Rattle.std.specs.Prelude.{◌≡◌, ℕ, ◌+◌, ◌-◌, ◌^◌, min};

/// A job's work. Whichever worker does it lends it the tool of its seat.
pub trait Work: Send + Drop + 'static {
    type Tool: Send + Drop + 'static;

    type Done: Send + Drop + 'static;

    /// How the work, the tool before, the tool after and the result lie to each other.
    ghost gives: { Self → Self.Tool → Self.Tool → Self.Done → Type 0 };

    /// Does the work, and answers its result.
    fn work(self, tool: &mut Self::Tool) -> Self::Done
        ensures leads { gives self tool.old tool.new result };
}

/// Where results are put.
pub trait Outlet<D>: Send + Drop + 'static {
    /// How many results it was offered, up to 2^64 - 1, where the number stands still.
    ghost offered: { Self → ℕ };

    /// Offers a result, which it keeps or hands back.
    fn put(&mut self, done: D) -> Result<(), D>
        ensures counted { offered self.new ≡ min (offered self.old + 1) (2 ^ 64 - 1) };
}

/// A worker's seat: its tool, and where its results go.
#[derive(Drop)]
pub struct Seat<W: Work, O> {
    pub tool: W::Tool,
    pub outlet: O,
}
