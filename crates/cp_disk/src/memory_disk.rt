//! A disk in memory that fails at the calls that a list names, or after so many calls, and shows what a crash leaves.
ghost use Rattle.std.specs.Prelude.{◌≡◌, ◌≤◌, ◌<◌, ◌+◌, [], length, None, Some, IfOk, IsErrOf};
ghost use Rattle.cp_outside.specs.Causes.{one_more};
ghost use Rattle.cp_disk.specs.Calls.{ViewSized, ViewFilled, ViewWrote, ViewWasCut, ViewSynced};
ghost use Rattle.cp_disk.specs.Counts.{Counted};
ghost use Rattle.cp_disk.specs.Crashes.{LeavesImage};
ghost use Rattle.cp_disk.specs.MemoryDisks.{
  new_mem,
  mem_file,
  mem_view,
  mem_disk,
  after_read,
  after_write,
  after_cut,
  IsSynced,
  before_read,
  Ends,
};
ghost use Rattle.cp_disk.specs.Views.{IsDurable};

use crate::disk::{Disk, DiskFault};
use crate::limits::{DISK_MAX, READ_MAX};
use crate::plan::Plan;
use crate::replay::Crash;
use crate::sure_disk::SureDisk;
use std::alloc::{AllocError, Global};
use std::marker::Model;

/// A file in memory. The calls whose numbers a list names fail, or all calls after the first so many, and no others do; a write
/// or a cut may run out of memory. It keeps what a [`SureDisk`] keeps.
#[derive(Drop)]
pub struct MemDisk {
    disk: SureDisk,
    plan: Plan,
}

impl Model for MemDisk {
    ghost use Rattle.cp_disk.specs.MemoryDisks.{MemState};

    ghost Value = { MemState };

    ghost view = { λ s. record {
      disk = s.disk;
      fails = s.plan.fails.items;
      fuse = s.plan.fuse;
      called = s.plan.called;
      faults = s.plan.faults;
    } };
}

impl MemDisk {
    /// A disk with these bytes, which are durable. No call fails. Costs the bytes twice.
    pub fn new(alloc: Global, bytes: &[u8]) -> Result<MemDisk, AllocError>
        requires { length bytes.now ≤ DISK_MAX }
        ensures made { IfOk result (λ s. s ≡ new_mem bytes.now [] None) }
        ensures durable { IfOk result (λ s. IsDurable bytes.now (mem_view s)) }
    {
        MemDisk::planned(alloc, bytes, &[], None)
    }

    /// The same, of which the calls whose numbers stand in `fails` fail. The first call has the number 1, and from the last
    /// number of a `u64` on the number stays.
    pub fn with_faults(alloc: Global, bytes: &[u8], fails: &[u64]) -> Result<MemDisk, AllocError>
        requires { length bytes.now ≤ DISK_MAX }
        ensures made { IfOk result (λ s. s ≡ new_mem bytes.now fails.now None) }
        ensures durable { IfOk result (λ s. IsDurable bytes.now (mem_view s)) }
    {
        MemDisk::planned(alloc, bytes, fails, None)
    }

    /// The same, of which the first `passes` calls pass and all later ones fail.
    pub fn with_fuse(alloc: Global, bytes: &[u8], passes: u64) -> Result<MemDisk, AllocError>
        requires { length bytes.now ≤ DISK_MAX }
        ensures made { IfOk result (λ s. s ≡ new_mem bytes.now [] (Some passes)) }
        ensures durable { IfOk result (λ s. IsDurable bytes.now (mem_view s)) }
    {
        MemDisk::planned(alloc, bytes, &[], Some(passes))
    }

    fn planned(
        alloc: Global,
        bytes: &[u8],
        fails: &[u64],
        fuse: Option<u64>,
    ) -> Result<MemDisk, AllocError>
        requires { length bytes.now ≤ DISK_MAX }
        ensures made { IfOk result (λ s. s ≡ new_mem bytes.now fails.now fuse) }
        ensures durable { IfOk result (λ s. IsDurable bytes.now (mem_view s)) }
    {
        Ok(MemDisk {
            disk: SureDisk::new(alloc, bytes)?,
            plan: Plan::new(alloc, fails, fuse)?,
        })
    }

    /// The content. No call of the disk is counted.
    pub fn bytes(&self) -> &[u8]
        ensures { result.now ≡ (mem_file self.now).content }
    {
        self.disk.bytes()
    }

    /// A disk with what a crash now leaves, of the many images that it may leave the one that is asked for. No call of the new
    /// disk fails. Costs the file and the bytes of all writes so far.
    pub fn crash(&self, alloc: Global, how: Crash) -> Result<MemDisk, AllocError>
        ensures image { IfOk result (λ s. (mem_view self.now).images (mem_view s).content) }
        ensures left { IfOk result (λ s. LeavesImage how (mem_file self.now) (mem_view s).content) }
        ensures made { IfOk result (λ s. s ≡ new_mem (mem_view s).content [] None) }
        ensures durable { IfOk result (λ s. IsDurable (mem_view s).content (mem_view s)) }
    {
        let left = self.disk.image(alloc, how)?;
        Ok(MemDisk::new(alloc, &left)?)
    }
}

impl Disk for MemDisk {
    ghost use Rattle.cp_disk.specs.ImageLaws.{image-content, image-now, since-now};
    ghost use Rattle.cp_disk.specs.MemoryDisks.{mem_disk};

    ghost known = { mem_disk };

    ghost leaves_content = { λ s known. image-content s.disk.first s.disk.calls };

    ghost only_now = { λ s c known. image-now s.disk.first s.disk.calls c };

    ghost counts_now = { λ s t c known. since-now s.disk.first s.disk.calls t c };

    fn size(&mut self) -> Result<u64, DiskFault>
        ensures most { IfOk result (λ n. n ≤ DISK_MAX) }
        ensures sized { ViewSized result (mem_view self.old) (mem_view self.new) }
        ensures cause { Counted (mem_disk self.old) (mem_disk self.new) result }
        ensures reads { self.new.disk.reads ≡ self.old.disk.reads }

        // It takes no memory.
        ensures no_want { IsErrOf result DiskFault.Memory → ⊥ }
        ensures ends { Ends self.old self.new (λ s. s ≡ self.old.disk) result }
    {
        if self.plan.fails_now() {
            return Err(DiskFault::Failed);
        }
        self.disk.size()
    }

    fn read(&mut self, at: u64, into: &mut [u8]) -> Result<(), DiskFault>
        requires some { 0 < length into.old }
        requires few { length into.old ≤ READ_MAX }
        requires within { at + length into.old ≤ length (mem_file self.old).content }
        ensures filled { ViewFilled at into.new result (mem_view self.old) (mem_view self.new) }
        ensures cause { Counted (mem_disk self.old) (mem_disk self.new) result }
        ensures reads { self.new.disk.reads ≡ one_more self.old.disk.reads }

        // It takes no memory.
        ensures no_want { IsErrOf result DiskFault.Memory → ⊥ }
        ensures ends { Ends (before_read self.old) self.new (λ s. s ≡ after_read self.old.disk) result }
    {
        self.disk.count_read();
        if self.plan.fails_now() {
            return Err(DiskFault::Failed);
        }
        self.disk.fill(at, into);
        Ok(())
    }

    /// Costs the bytes that are written, of which it keeps a copy.
    fn write_at(&mut self, at: u64, bytes: &[u8]) -> Result<(), DiskFault>
        requires within { at ≤ length (mem_file self.old).content }
        requires most { at + length bytes.now ≤ DISK_MAX }
        ensures wrote { ViewWrote at bytes.now result (mem_view self.old) (mem_view self.new) }
        ensures cause { Counted (mem_disk self.old) (mem_disk self.new) result }
        ensures reads { self.new.disk.reads ≡ self.old.disk.reads }
        ensures ends { Ends self.old self.new (λ s. s ≡ after_write self.old.disk at bytes.now) result }
    {
        if self.plan.fails_now() {
            return Err(DiskFault::Failed);
        }
        self.disk.write_at(at, bytes)
    }

    fn cut(&mut self, size: u64) -> Result<(), DiskFault>
        requires { size ≤ length (mem_file self.old).content }
        ensures was_cut { ViewWasCut size result (mem_view self.old) (mem_view self.new) }
        ensures cause { Counted (mem_disk self.old) (mem_disk self.new) result }
        ensures reads { self.new.disk.reads ≡ self.old.disk.reads }
        ensures ends { Ends self.old self.new (λ s. s ≡ after_cut self.old.disk size) result }
    {
        if self.plan.fails_now() {
            return Err(DiskFault::Failed);
        }
        self.disk.cut(size)
    }

    fn sync(&mut self) -> Result<(), DiskFault>
        ensures synced { ViewSynced result (mem_view self.old) (mem_view self.new) }
        ensures cause { Counted (mem_disk self.old) (mem_disk self.new) result }
        ensures reads { self.new.disk.reads ≡ self.old.disk.reads }

        // It takes no memory.
        ensures no_want { IsErrOf result DiskFault.Memory → ⊥ }
        ensures ends { Ends self.old self.new (IsSynced self.old.disk) result }
    {
        if self.plan.fails_now() {
            return Err(DiskFault::Failed);
        }
        self.disk.settle();
        Ok(())
    }
}
