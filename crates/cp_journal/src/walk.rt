//! The walk over frames from gate to gate.
ghost use Rattle.std.specs.Prelude.{◌≡◌, ◌≤◌, ◌<◌, ◌⊎◌, ◌↔◌, ◌+◌, ◌*◌, IsTrue, IsErrOf, ℕ, length, drop, get_or, if◌then◌else◌, None, Some, IfOk, OnErr};
ghost use Rattle.cp_disk.specs.Counts.{Counted, UsesDisk};
ghost use Rattle.cp_disk.specs.Views.{IfKnown, Rests};
ghost use Rattle.cp_journal.specs.Frames.{fits as may_be_frame, frames_of};
ghost use Rattle.cp_journal.specs.Journals.{AreInRange};
ghost use Rattle.cp_journal.specs.Walks.{length_in, IsSeen, HasRoom, IsWalked};

use crate::fault::JournalFault;
use crate::frame::{CHECKPOINT, ENTRY, FrameAt};
use crate::limits::{BODY_MAX, FRAME_HEAD};
use cp_disk::{DISK_MAX, Disk, DiskFault};
use std::alloc::Global;

// What stands at a gate: it is closed, or no frame stands there whole, or one with this tag and so long a body does.
#[derive(Clone, Copy, Drop)]
pub(crate) enum Seen {
    Closed,
    Broken,
    Whole { tag: u8, len: u64 },
}

// Whether there may be a frame with this tag and so long a body.
fn fits(tag: u8, len: u64) -> bool
    ensures { result ≡ may_be_frame tag len }
{
    let entry = tag == ENTRY && len <= BODY_MAX as u64;
    entry || tag == CHECKPOINT
}

// The length in the nine bytes after an open gate.
fn len_in(head: &[u8; 9]) -> u64
    ensures len { result ≡ length_in head.now }
    ensures bytes { (i : ℕ) → get_or head.now i 0 < 256 }
{
    u64::from_be_bytes([
        head[1], head[2], head[3], head[4], head[5], head[6], head[7], head[8],
    ])
}

// Whether so many bytes come after this offset in a file of this size.
fn is_inside(size: u64, at: u64, len: u64) -> bool
    ensures { IsTrue result ↔ (at + len ≤ size) }
{
    at <= size && len <= size - at
}

// Whether so many bytes come after this offset in the file. Where it was too short when its size was asked for last, the size
// is asked for again: a writer may have added frames meanwhile. Once is enough, since a writer opens a gate only after the
// whole frame and the closed gate of the next one are in the file.
fn has_bytes<D: Disk>(disk: &mut D, size: &mut u64, at: u64, len: u64) -> Result<bool, DiskFault>
    requires size { IfKnown (D.known disk.old) (λ v. size.old ≡ length v.content) }
    requires most { size.old ≤ DISK_MAX }
    ensures bytes { IfOk result (λ b. IsTrue b ↔ (at + len ≤ size.new)) }
    ensures size { IfKnown (D.known disk.old) (λ v. size.new ≡ length v.content) }
    ensures most { size.new ≤ DISK_MAX }
    ensures rests { Rests (D.known disk.old) (D.known disk.new) }
    ensures cause { Counted (D.known disk.old) (D.known disk.new) result }
    ensures reads { (D.known disk.new).counts.reads ≡ (D.known disk.old).counts.reads }
{
    if is_inside(*size, at, len) {
        return Ok(true);
    }
    *size = disk.size()?;
    Ok(is_inside(*size, at, len))
}

// Looks at what comes after an open gate, with one read at most.
fn look_after<D: Disk>(disk: &mut D, size: &mut u64, at: u64) -> Result<Seen, DiskFault>
    requires size { IfKnown (D.known disk.old) (λ v. size.old ≡ length v.content) }
    requires most { size.old ≤ DISK_MAX }
    requires inside { IfKnown (D.known disk.old) (λ v. at < length v.content) }
    requires gate { IfKnown (D.known disk.old) (λ v. get_or v.content at 0 ≡ 1) }
    ensures seen { IfKnown (D.known disk.old) (λ v. IfOk result (λ s. IsSeen at v.content s)) }
    ensures room { IfOk result (λ s. HasRoom at size.new s) }
    ensures size { IfKnown (D.known disk.old) (λ v. size.new ≡ length v.content) }
    ensures most { size.new ≤ DISK_MAX }
    ensures rests { Rests (D.known disk.old) (D.known disk.new) }
    ensures cause { Counted (D.known disk.old) (D.known disk.new) result }
    ensures reads { (D.known disk.new).counts.reads ≤ (D.known disk.old).counts.reads + 1 }
{
    if !has_bytes(disk, size, at, FRAME_HEAD)? {
        return Ok(Seen::Broken);
    }
    let mut head = [0u8; 9];
    disk.read(at + 1, &mut head)?;
    let tag = head[0];
    let len = len_in(&head);
    if !fits(tag, len) {
        return Ok(Seen::Broken);
    }
    if !has_bytes(disk, size, at + FRAME_HEAD, len)? {
        return Ok(Seen::Broken);
    }
    Ok(Seen::Whole { tag, len })
}

// Looks at a gate, with two reads at most.
fn look<D: Disk>(disk: &mut D, size: &mut u64, at: u64) -> Result<Seen, DiskFault>
    requires size { IfKnown (D.known disk.old) (λ v. size.old ≡ length v.content) }
    requires most { size.old ≤ DISK_MAX }
    ensures seen { IfKnown (D.known disk.old) (λ v. IfOk result (λ s. IsSeen at v.content s)) }
    ensures room { IfOk result (λ s. HasRoom at size.new s) }
    ensures size { IfKnown (D.known disk.old) (λ v. size.new ≡ length v.content) }
    ensures most { size.new ≤ DISK_MAX }
    ensures rests { Rests (D.known disk.old) (D.known disk.new) }
    ensures cause { Counted (D.known disk.old) (D.known disk.new) result }
    ensures reads { (D.known disk.new).counts.reads ≤ (D.known disk.old).counts.reads + 2 }
{
    if !has_bytes(disk, size, at, 1)? {
        return Ok(Seen::Broken);
    }
    let mut gate = [0u8; 1];
    disk.read(at, &mut gate)?;
    if gate[0] != 1 {
        return Ok(Seen::Closed);
    }
    look_after(disk, size, at)
}

// The frames from an offset on, the gate after them, and whether that is closed.
#[derive(Drop)]
pub(crate) struct Walked {
    pub(crate) frames: Vec<FrameAt>,
    pub(crate) next: u64,
    pub(crate) clean: bool,
}

// The gate after the frames, where it isn't closed.
pub(crate) fn kept_gate(clean: bool, next: u64) -> Option<u64>
    ensures { result ≡ (if clean then None else Some next) }
{
    if clean { None } else { Some(next) }
}

// Walks the frames from an offset, with two reads for each, and two for the gate after them.
pub(crate) fn walk_frames<D: Disk>(
    alloc: Global,
    disk: &mut D,
    size: u64,
    from: u64,
) -> Result<Walked, JournalFault>
    requires size { IfKnown (D.known disk.old) (λ v. size ≡ length v.content) }
    requires from { from ≤ size }
    requires most { size ≤ DISK_MAX }
    ensures walked { IfKnown (D.known disk.old) (λ v. IfOk result (λ w. IsWalked from v.content w)) }
    ensures kinds { OnErr result (IsErrOf result JournalFault.Disk ⊎ IsErrOf result JournalFault.Memory) }
    ensures range { IfOk result (λ w. (w.next ≤ DISK_MAX) × AreInRange w.frames.items) }
    ensures rests { Rests (D.known disk.old) (D.known disk.new) }
    ensures cause { UsesDisk (λ e. e ≡ JournalFault.Disk) (D.known disk.old) (D.known disk.new) result }
    ensures reads { IfOk result (λ w. (D.known disk.new).counts.reads ≤ (D.known disk.old).counts.reads + 2 * length w.frames.items + 2) }
    ensures most_reads { IfKnown (D.known disk.old) (λ v.
        (D.known disk.new).counts.reads ≤ (D.known disk.old).counts.reads + 2 * length (frames_of (drop from v.content)).frames + 2) }
{
    let mut frames = Vec::new(alloc);
    let mut size = size;
    let mut next = from;
    loop {
        match look(disk, &mut size, next)? {
            Seen::Closed => {
                return Ok(Walked {
                    frames,
                    next,
                    clean: true,
                });
            }
            Seen::Broken => {
                return Ok(Walked {
                    frames,
                    next,
                    clean: false,
                });
            }
            Seen::Whole { tag, len } => {
                frames.push(FrameAt { at: next, tag, len })?;
                next += len + FRAME_HEAD;
            }
        }
    }
}
