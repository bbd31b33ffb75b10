// What a forest asks of its frames.
ghost use Rattle.std.specs.Prelude.{◌≡◌, IfOk};

use std::alloc::{AllocError, Global};

/// A frame that can be copied exactly.
pub trait CopyFrame: Drop {
    /// The same frame once more.
    fn copy(&self, alloc: Global) -> Result<Self, AllocError>
        ensures { IfOk result (λ frame. frame ≡ self.now) };
}
