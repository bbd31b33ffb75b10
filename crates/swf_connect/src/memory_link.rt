// A link in memory, which gives some bytes and keeps what is written.
ghost use Rattle.std.specs.Prelude.{◌≤◌, vec_len};

use crate::Link;
use crate::talks::{Room, Spoken};
use std::alloc::{AllocError, Global};
use swf_http::{Sink, Source};
use swf_store::Failed;

/// A link of a dial in memory. Its reads never fail, and its writes where they find no memory.
#[derive(Drop)]
pub struct MemoryLink {
    pub(crate) talk: Spoken,
    pub(crate) at: usize,
    pub(crate) lacks: u64,
    pub(crate) room: Room,
    ghost within: { at ≤ vec_len talk.bytes },
}

impl MemoryLink {
    ghost use Rattle.std.specs.Prelude.{◌≡◌, [], IfOk};
    ghost use Rattle.swf_connect.specs.Dialed.{link_about, link_lacks, link_left, link_written};

    /// A new link to a host at a port, which gives these bytes.
    pub(crate) fn new(
        alloc: Global,
        host: &str,
        port: u16,
        bytes: &[u8],
    ) -> Result<MemoryLink, AllocError>
        ensures about { IfOk result (λ link. link_about link ≡ record { host = host.now; port = port; bytes = bytes.now }) }
        ensures left { IfOk result (λ link. link_left link ≡ bytes.now) }
        ensures written { IfOk result (λ link. link_written link ≡ []) }
        ensures lacks { IfOk result (λ link. link_lacks link ≡ 0) }
    {
        let talk = Spoken {
            host: String::from_str(alloc, host)?,
            port,
            bytes: bytes.to_vec(alloc)?,
            written: Vec::new(alloc),
        };
        Ok(MemoryLink {
            talk,
            at: 0,
            lacks: 0,
            room: Room::new(alloc)?,
        })
    }
}

impl Source for MemoryLink {
    ghost use Rattle.std.specs.Prelude.{ℕ, List, Some};
    ghost use Rattle.swf_connect.specs.Talks.{About};
    ghost use Rattle.swf_connect.specs.Dialed.{link_beside, link_left};

    ghost left = { λ link. Some (link_left link) };

    ghost faults = { λ _. 0 };

    ghost Beside = { About × List ℕ × ℕ };

    ghost beside = { link_beside };

    fn read(&mut self, into: &mut [u8]) -> Result<usize, Failed> {
        let rest = &self.talk.bytes[self.at..];
        let count = rest.len().min(into.len());
        into[..count].copy_from_slice(&rest[..count]);
        self.at += count;
        Ok(count)
    }
}

impl Sink for MemoryLink {
    ghost use Rattle.std.specs.Prelude.{ℕ, List, Some};
    ghost use Rattle.swf_connect.specs.Talks.{About};
    ghost use Rattle.swf_connect.specs.Dialed.{link_kept, link_lacks, link_written};

    ghost written = { λ link. Some (link_written link) };

    ghost write_faults = { link_lacks };

    ghost Kept = { About × List ℕ };

    ghost kept = { link_kept };

    fn write(&mut self, bytes: &[u8]) -> Result<usize, Failed> {
        if self.talk.written.extend_from_slice(bytes).is_err() {
            self.lacks = self.lacks.saturating_add(1);
            return Err(Failed);
        }
        Ok(bytes.len())
    }
}

impl Link for MemoryLink {
    ghost use Rattle.std.specs.Prelude.{Some};
    ghost use Rattle.swf_connect.specs.Dialed.{link_about};
    ghost use Rattle.swf_connect.specs.DialedLaws.{read_keeps_all, write_keeps_all};

    ghost about = { λ link. Some (link_about link) };

    ghost read_keeps = { λ a b same. read_keeps_all a b same };

    ghost write_keeps = { λ a b same. write_keeps_all a b same };
}
