//! Calls of a disk that go together.
ghost use Rattle.std.specs.Prelude.{◌≡◌, ◌≤◌, ◌+◌, length, OnOk};
ghost use Rattle.cp_disk.specs.Counts.{Counted};
ghost use Rattle.cp_disk.specs.Views.{ViewKeeps, IfKnown, IsSettled, Steps};
ghost use Rattle.cp_disk.specs.Writes.{Torn, with_bytes};
ghost use Rattle.cp_journal.specs.Frames.{Frame, after_gate};
ghost use Rattle.cp_journal.specs.Holding.{IsAtRest, IsAdded, IsBeforeOrAfter, IsLawful};

use crate::limits::FRAME_HEAD;
use cp_disk::{DISK_MAX, Disk, DiskFault};

// Writes bytes and waits until they are on the disk.
pub(crate) fn put<D: Disk>(disk: &mut D, at: u64, bytes: &[u8]) -> Result<(), DiskFault>
    requires within { IfKnown (D.known disk.old) (λ v. at ≤ length v.content) }
    requires most { at + length bytes.now ≤ DISK_MAX }
    ensures content { IfKnown (D.known disk.old) (λ v.
        OnOk result ((D.known disk.new).view.content ≡ with_bytes v.content at bytes.now)) }
    ensures durable { OnOk result (IsSettled (D.known disk.new)) }
    ensures crash { Steps (Torn at (length bytes.now)) (D.known disk.old) (D.known disk.new) }
    ensures cause { Counted (D.known disk.old) (D.known disk.new) result }
    ensures reads { (D.known disk.new).counts.reads ≡ (D.known disk.old).counts.reads }
{
    disk.write_at(at, bytes)?;
    disk.sync()
}

// Writes what comes after the closed gate of a frame, and opens the gate then.
pub(crate) fn put_frame<D: Disk>(disk: &mut D, at: u64, bytes: &[u8]) -> Result<(), DiskFault>
    requires rest { IfKnown (D.known disk.old) (λ v. IsAtRest at v) }
    requires most { at + 1 + length bytes.now ≤ DISK_MAX }
    ensures added { IfKnown (D.known disk.old) (λ v. (f : Frame) → IsLawful f → bytes.now ≡ after_gate f
        → OnOk result (IsAdded at f v.content (at + length f.body + FRAME_HEAD) (D.known disk.new).view)) }
    ensures crash { IfKnown (D.known disk.old) (λ v. (f : Frame) → IsLawful f → bytes.now ≡ after_gate f
        → ViewKeeps (IsBeforeOrAfter at v.content f) v (D.known disk.new).view) }
    ensures cause { Counted (D.known disk.old) (D.known disk.new) result }
    ensures reads { (D.known disk.new).counts.reads ≡ (D.known disk.old).counts.reads }
{
    put(disk, at + 1, bytes)?;
    put(disk, at, &[1])
}
