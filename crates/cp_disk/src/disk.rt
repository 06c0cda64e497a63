//! A file on a disk.
ghost use Rattle.std.specs.Prelude.{◌≡◌, ◌≤◌, ◌+◌, ◌<◌, List, ℕ, IsTrue, length, IfOk};
ghost use Rattle.cp_outside.specs.Causes.{one_more};
ghost use Rattle.cp_disk.specs.Calls.{Sized, Filled, Wrote, WasCut, Synced};
ghost use Rattle.cp_disk.specs.Counts.{Counted};
ghost use Rattle.cp_disk.specs.Views.{KnownDisk, ReachesTo};

use crate::limits::{DISK_MAX, READ_MAX};
use thiserror::Error;

/// Why a disk did not do what it was asked for.
#[derive(Clone, Copy, Debug, PartialEq, Eq, Drop, Error)]
pub enum DiskFault {
    /// The disk failed; its count of faults has risen. The call may have taken effect, in any part.
    #[error("the disk failed")]
    Failed,
    /// Memory ran out; the count of wants has risen. Nothing has changed.
    #[error("out of memory")]
    Memory,
}

/// One file on a disk, as of an operating system or in memory.
///
/// A crash may come at any moment. Between two syncs it may leave any bytes in what was written and after what was the end,
/// and any size between the least and the greatest; other bytes stay. After a sync it leaves the content.
///
/// Of a disk of which it isn't known what it holds, only the counts are promised.
pub trait Disk {
    /// What is known of a disk: its content, what a crash may leave, and how often it has failed, was read, and ran out of
    /// memory.
    ghost known: { Self → KnownDisk };

    /// The size of the file in bytes, at most [`DISK_MAX`].
    fn size(&mut self) -> Result<u64, DiskFault>
        ensures most { IfOk result (λ n. n ≤ DISK_MAX) }
        ensures sized { Sized result (known self.old) (known self.new) }
        ensures cause { Counted (known self.old) (known self.new) result }
        ensures reads { (known self.new).counts.reads ≡ (known self.old).counts.reads };

    /// Fills `into` with the bytes from the offset `at` on. After an error what `into` holds is not said. Each call counts as a
    /// read, also one that fails.
    fn read(&mut self, at: u64, into: &mut [u8]) -> Result<(), DiskFault>
        requires some { 0 < length into.old }
        requires few { length into.old ≤ READ_MAX }
        requires within { ReachesTo (at + length into.old) (known self.old) }
        ensures filled { Filled at into.new result (known self.old) (known self.new) }
        ensures cause { Counted (known self.old) (known self.new) result }
        ensures reads { (known self.new).counts.reads ≡ one_more (known self.old).counts.reads };

    /// Writes these bytes from the offset `at` on, over those that are there and after the end. After `Failed` the content is
    /// not said: any part of the write may be there.
    fn write_at(&mut self, at: u64, bytes: &[u8]) -> Result<(), DiskFault>
        requires within { ReachesTo at (known self.old) }
        requires most { at + length bytes.now ≤ DISK_MAX }
        ensures wrote { Wrote at bytes.now result (known self.old) (known self.new) }
        ensures cause { Counted (known self.old) (known self.new) result }
        ensures reads { (known self.new).counts.reads ≡ (known self.old).counts.reads };

    /// Drops the bytes after the first `size`. After `Failed` the content is not said.
    fn cut(&mut self, size: u64) -> Result<(), DiskFault>
        requires { ReachesTo size (known self.old) }
        ensures was_cut { WasCut size result (known self.old) (known self.new) }
        ensures cause { Counted (known self.old) (known self.new) result }
        ensures reads { (known self.new).counts.reads ≡ (known self.old).counts.reads };

    /// Waits until a crash leaves the content and nothing else. After an error the content is as it was, and a crash leaves
    /// nothing that it couldn't leave before.
    fn sync(&mut self) -> Result<(), DiskFault>
        ensures synced { Synced result (known self.old) (known self.new) }
        ensures cause { Counted (known self.old) (known self.new) result }
        ensures reads { (known self.new).counts.reads ≡ (known self.old).counts.reads };

    /// A crash now may leave the content.
    ghost leaves_content: { (d : Self) → IsTrue (known d).known → (known d).view.images (known d).view.content };

    /// What a crash may have left since this moment, it may leave now.
    ghost only_now: { (d : Self) (c : List ℕ) → IsTrue (known d).known
        → (known d).view.since (known d).view.moment c → (known d).view.images c };

    /// This moment is one of those since an earlier one.
    ghost counts_now: { (d : Self) (t : ℕ) (c : List ℕ) → IsTrue (known d).known
        → t ≤ (known d).view.moment → (known d).view.images c → (known d).view.since t c };
}
