// A frame as it is appended: what its gate stands before, and a closed gate behind it.
ghost use Rattle.std.specs.Prelude.{◌≡◌, ◌<◌, length, IfOk};
ghost use Rattle.swf_journal.specs.Frames.{frame_tail};

use std::alloc::{AllocError, Global};
use std::marker::Model;
use swf_store::OutOfMemory;

/// A frame that is ready to be appended. A contract sees its body.
#[derive(Drop)]
pub struct FrameBytes {
    // The length of the body in eight bytes, the body, and a zero.
    bytes: Vec<u8>,
}

impl Model for FrameBytes {
    ghost use Rattle.std.specs.Prelude.{List, ℕ};

    ghost Value = { List ℕ };

    ghost use Rattle.swf_journal.specs.FrameView.{body_of, IsFrameBytes};

    ghost view = { body_of };

    ghost invariant = { IsFrameBytes };
}

impl FrameBytes {
    // What is written behind the frame's gate.
    pub(crate) fn tail(&self) -> &[u8]
        ensures { result.now ≡ frame_tail self.now }
    {
        self.bytes.as_slice()
    }
}

fn write_tail(alloc: Global, body: &[u8]) -> Result<Vec<u8>, AllocError>
    ensures { IfOk result (λ bytes. bytes.items ≡ frame_tail body.now) }
{
    let mut bytes = Vec::with_capacity(alloc, body.len().saturating_add(9))?;
    bytes.extend_from_slice(&(body.len() as u64).to_be_bytes())?;
    bytes.extend_from_slice(body)?;
    bytes.push(0)?;
    Ok(bytes)
}

/// The frame with this body.
pub fn build(alloc: Global, body: &[u8]) -> Result<FrameBytes, OutOfMemory>
    requires { 0 < length body.now }
    ensures { IfOk result (λ frame. frame ≡ body.now) }
{
    let bytes = write_tail(alloc, body)?;
    Ok(FrameBytes { bytes })
}
