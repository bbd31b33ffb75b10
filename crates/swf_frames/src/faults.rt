// Why calls are refused.

/// Why a frame was not pushed, with the frame.
#[derive(Debug, Drop)]
pub enum PushFault<F> {
    /// The forest has no such strand.
    Stale(F),
    OutOfMemory(F),
}

/// Why a strand was not split, with the frames.
#[derive(Debug, Drop)]
pub enum SplitFault<F> {
    /// The forest has no such strand.
    Stale(Vec<F>),
    HasChildren(Vec<F>),
    OutOfMemory(Vec<F>),
}
