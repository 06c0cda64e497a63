//! Frames as bytes, and where they stand in a file.
ghost use Rattle.std.specs.Prelude.{◌≡◌, IfOk};
ghost use Rattle.cp_journal.specs.Frames.{after_gate};

use std::alloc::{AllocError, Global};

/// The tag of a frame that is an entry.
pub const ENTRY: u8 = 0x45;

/// The tag of a frame that is a checkpoint.
pub const CHECKPOINT: u8 = 0x50;

/// Where a frame stands: the offset of its gate, its tag, and the bytes of its body.
#[derive(Clone, Copy, Drop)]
pub struct FrameAt {
    pub at: u64,
    pub tag: u8,
    pub len: u64,
}

// What is written after the gate of a frame: its tag, its length and its body, and the closed gate of the next frame.
pub(crate) fn bytes_after_gate(alloc: Global, tag: u8, body: &[u8]) -> Result<Vec<u8>, AllocError>
    ensures { IfOk result (λ v. v.items ≡ after_gate (record { tag = tag; body = body.now })) }
{
    let mut bytes = Vec::new(alloc);
    bytes.push(tag)?;
    bytes.extend_from_slice(&(body.len() as u64).to_be_bytes())?;
    bytes.extend_from_slice(body)?;
    bytes.push(0)?;
    Ok(bytes)
}
