// A sink in memory.
ghost use Rattle.std.specs.Prelude.{◌<◌};

use crate::Sink;
use std::alloc::Global;
use swf_store::Failed;

/// Keeps what is written, in pieces. The calls with the given numbers, from 0, fail, and so do those that find no memory.
#[derive(Drop)]
pub struct MemorySink {
    written: Vec<u8>,
    piece: usize,
    failing: Vec<u64>,
    calls: u64,
    faults: u64,
    lacks: u64,
    ghost some: { 0 < piece },
}

impl MemorySink {
    ghost use Rattle.std.specs.Prelude.{◌≡◌, ◌<◌, []};
    ghost use Rattle.swf_http.specs.Memory.{sink_written, sink_piece, sink_failing, sink_calls, sink_faults, sink_lacks};

    /// An empty one, which takes at most `piece` bytes at once.
    pub fn new(alloc: Global, piece: usize, failing: Vec<u64>) -> MemorySink
        requires { 0 < piece }
        ensures written { sink_written result ≡ [] }
        ensures piece { sink_piece result ≡ piece }
        ensures failing { sink_failing result ≡ failing.items }
        ensures calls { sink_calls result ≡ 0 }
        ensures faults { sink_faults result ≡ 0 }
        ensures lacks { sink_lacks result ≡ 0 }
    {
        MemorySink {
            written: Vec::new(alloc),
            piece,
            failing,
            calls: 0,
            faults: 0,
            lacks: 0,
        }
    }

    /// What was written.
    pub fn written(&self) -> &[u8]
        ensures { result.now ≡ sink_written self.now }
    {
        self.written.as_slice()
    }

    /// How many calls found no memory.
    pub fn lacks(&self) -> u64
        ensures { result ≡ sink_lacks self.now }
    {
        self.lacks
    }
}

impl Sink for MemorySink {
    ghost use Rattle.std.specs.Prelude.{◌≡◌, ◌≤◌, ℕ, List, length, Some, IfOk};
    ghost use Rattle.swf_http.specs.Sinks.{AfterWrite, WriteCause};
    ghost use Rattle.swf_http.specs.Memory.{sink_written, sink_kept, sink_faults, TakesPiece};

    ghost written = { λ sink. Some (sink_written sink) };

    ghost write_faults = { sink_faults };

    ghost Kept = { ℕ × List ℕ };

    ghost kept = { sink_kept };

    fn write(&mut self, bytes: &[u8]) -> Result<usize, Failed>
        ensures bound { IfOk result (λ n. n ≤ length bytes.now) }
        ensures told { AfterWrite bytes.now result (Some (sink_written self.old)) (Some (sink_written self.new)) }
        ensures cause { WriteCause bytes.now result (sink_faults self.old) (sink_faults self.new) }
        ensures kept { sink_kept self.new ≡ sink_kept self.old }
        ensures takes { TakesPiece bytes.now self.old self.new result }
    {
        let fails = self.failing.contains(&self.calls);
        self.calls = self.calls.saturating_add(1);
        if fails {
            self.faults = self.faults.saturating_add(1);
            return Err(Failed);
        }
        let count = bytes.len().min(self.piece);
        if self.written.extend_from_slice(&bytes[..count]).is_err() {
            self.faults = self.faults.saturating_add(1);
            self.lacks = self.lacks.saturating_add(1);
            return Err(Failed);
        }
        Ok(count)
    }
}
