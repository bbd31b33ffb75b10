// A source in memory.
ghost use Rattle.std.specs.Prelude.{◌≤◌, ◌<◌, vec_len};

use crate::Source;
use swf_store::Failed;

/// Gives its bytes in pieces. The calls with the given numbers, from 0, fail.
#[derive(Drop)]
pub struct MemorySource {
    bytes: Vec<u8>,
    at: usize,
    piece: usize,
    failing: Vec<u64>,
    calls: u64,
    faults: u64,
    ghost within: { at ≤ vec_len bytes },
    ghost some: { 0 < piece },
}

impl MemorySource {
    ghost use Rattle.std.specs.Prelude.{◌≡◌, ◌<◌};
    ghost use Rattle.swf_http.specs.Memory.{left_of, piece_of, failing_of, calls_of, faults_of};

    /// These bytes, of which at most `piece` come at once.
    pub fn new(bytes: Vec<u8>, piece: usize, failing: Vec<u64>) -> MemorySource
        requires { 0 < piece }
        ensures left { left_of result ≡ bytes.items }
        ensures piece { piece_of result ≡ piece }
        ensures failing { failing_of result ≡ failing.items }
        ensures calls { calls_of result ≡ 0 }
        ensures faults { faults_of result ≡ 0 }
    {
        MemorySource {
            bytes,
            at: 0,
            piece,
            failing,
            calls: 0,
            faults: 0,
        }
    }
}

impl Source for MemorySource {
    ghost use Rattle.std.specs.Prelude.{◌≡◌, ◌≤◌, ◌↔◌, ℕ, List, length, min, Some, IsErr, IfOk, OnErr};
    ghost use Rattle.std.specs.List.{Contains};
    ghost use Rattle.swf_store.specs.Faults.{HasCause};
    ghost use Rattle.swf_http.specs.Sources.{Gives};
    ghost use Rattle.swf_http.specs.Memory.{left_of, piece_of, failing_of, calls_of, faults_of, source_kept, one_more};

    ghost left = { λ source. Some (left_of source) };

    ghost faults = { faults_of };

    ghost Beside = { ℕ × List ℕ };

    ghost beside = { source_kept };

    fn read(&mut self, into: &mut [u8]) -> Result<usize, Failed>
        ensures bound { IfOk result (λ n. n ≤ length into.new) }
        ensures gives { IfOk result (λ n. Gives n into.new (left_of self.old) (Some (left_of self.new))) }
        ensures cause { HasCause (faults_of self.old) (faults_of self.new) result }
        ensures kept { OnErr result (left_of self.new ≡ left_of self.old) }
        ensures beside { source_kept self.new ≡ source_kept self.old }
        ensures count { IfOk result (λ n. n ≡ min (min (length (left_of self.old)) (length into.old)) (piece_of self.old)) }
        ensures calls { calls_of self.new ≡ one_more (calls_of self.old) }
        ensures fails { IsErr result ↔ Contains (failing_of self.old) (calls_of self.old) }
    {
        let fails = self.failing.contains(&self.calls);
        self.calls = self.calls.saturating_add(1);
        if fails {
            self.faults = self.faults.saturating_add(1);
            return Err(Failed);
        }
        let rest = &self.bytes[self.at..];
        let count = rest.len().min(into.len()).min(self.piece);
        into[..count].copy_from_slice(&rest[..count]);
        self.at += count;
        Ok(count)
    }
}
