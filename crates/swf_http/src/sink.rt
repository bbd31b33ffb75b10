// Where bytes go.
ghost use Rattle.std.specs.Prelude.{◌≡◌, ◌≤◌, ℕ, List, Option, length, IfOk};
ghost use Rattle.swf_http.specs.Sinks.{AfterWrite, WriteCause, AfterWriteAll};
ghost use Rattle.swf_store.specs.Faults.{HasCause};

use swf_store::Failed;

/// A sink of bytes.
pub trait Sink {
    /// What was written, where the sink tells it.
    ghost written: { Self → Option (List ℕ) };

    /// How many calls have failed. It never falls.
    ghost write_faults: { Self → ℕ };

    /// What there is besides these two: its type, and what it is now. No write changes it.
    ghost Kept: { Type 0 };

    ghost kept: { Self → Kept };

    /// Writes the first of some bytes, and says how many. None, of bytes that are not empty, count as a fault.
    fn write(&mut self, bytes: &[u8]) -> Result<usize, Failed>
        ensures bound { IfOk result (λ n. n ≤ length bytes.now) }
        ensures told { AfterWrite bytes.now result (written self.old) (written self.new) }
        ensures cause { WriteCause bytes.now result (write_faults self.old) (write_faults self.new) }
        ensures kept { kept self.new ≡ kept self.old };
}

/// Writes all of some bytes.
pub(crate) fn write_all<W: Sink>(to: &mut W, bytes: &[u8]) -> Result<(), Failed>
    ensures told { AfterWriteAll bytes.now result (W.written to.old) (W.written to.new) }
    ensures cause { HasCause (W.write_faults to.old) (W.write_faults to.new) result }
    ensures kept { W.kept to.new ≡ W.kept to.old }
{
    let mut at = 0;
    'pieces: while at < bytes.len() {
        let count = to.write(&bytes[at..])?;
        if count == 0 {
            return Err(Failed);
        }
        at += count;
    }
    Ok(())
}
