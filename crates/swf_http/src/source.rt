// Where bytes come from.
ghost use Rattle.std.specs.Prelude.{◌≡◌, ◌≤◌, ℕ, List, Option, length, IfOk, OnErr};
ghost use Rattle.std.specs.Option.{ForSome};
ghost use Rattle.swf_store.specs.Faults.{HasCause};
ghost use Rattle.swf_http.specs.Sources.{Gives};

use swf_store::Failed;

/// A source of bytes.
pub trait Source {
    /// What is left, where the source tells it.
    ghost left: { Self → Option (List ℕ) };

    /// How many calls have failed. It never falls.
    ghost faults: { Self → ℕ };

    /// What there is besides these two: its type, and what it is now. No read changes it.
    ghost Beside: { Type 0 };

    ghost beside: { Self → Beside };

    /// Reads some bytes to the front of a buffer. None come, for a buffer with room, only at the end.
    fn read(&mut self, into: &mut [u8]) -> Result<usize, Failed>
        ensures bound { IfOk result (λ n. n ≤ length into.new) }
        ensures gives { ForSome (left self.old) (λ bytes. IfOk result (λ n. Gives n into.new bytes (left self.new))) }
        ensures cause { HasCause (faults self.old) (faults self.new) result }
        ensures kept { OnErr result (left self.new ≡ left self.old) }
        ensures beside { beside self.new ≡ beside self.old };
}
