//! A disk in memory that never fails.
ghost use Rattle.std.specs.Prelude.{◌≡◌, ◌≤◌, ◌<◌, ◌+◌, length, take, drop, Ok, IsOk, IfOk, OnOk, IfErr, OnErr};
ghost use Rattle.cp_outside.specs.Causes.{one_more};
ghost use Rattle.cp_disk.specs.Calls.{ViewSized, ViewFilled, ViewWrote, ViewWasCut, ViewSynced};
ghost use Rattle.cp_disk.specs.Counts.{Counted};
ghost use Rattle.cp_disk.specs.Crashes.{LeavesImage};
ghost use Rattle.cp_disk.specs.Images.{Image};
ghost use Rattle.cp_disk.specs.MemoryDisks.{
  new_sure,
  sure_file,
  sure_view,
  sure_disk,
  after_write,
  after_cut,
  after_read,
  after_want,
  IsSynced,
};
ghost use Rattle.cp_disk.specs.Views.{IsDurable};

use crate::disk::{Disk, DiskFault};
use crate::edit::{LoggedEdit, note_cut, note_sync, write};
use crate::limits::{DISK_MAX, READ_MAX};
use crate::replay::{Crash, left_by};
use std::alloc::{AllocError, Global};
use std::marker::Model;

/// A file in memory that never fails; a write or a cut may run out of memory. Beside its content it keeps the bytes that it
/// began with, its writes and its cuts, so that it answers for every moment.
#[derive(Drop)]
pub struct SureDisk {
    alloc: Global,
    first: Vec<u8>,
    log: Vec<LoggedEdit>,
    file: Vec<u8>,
    reads: u64,
    wants: u64,
}

impl Model for SureDisk {
    ghost use Rattle.cp_disk.specs.Edits.{calls_of};
    ghost use Rattle.cp_disk.specs.MemoryDisks.{SureState, IsKept};

    ghost Value = { SureState };

    ghost view = { λ s. record {
      first = s.first.items;
      calls = calls_of s.log.items;
      reads = s.reads;
      wants = s.wants;
    } };

    ghost invariant = { λ s. IsKept s.first.items (calls_of s.log.items) s.file.items };
}

impl SureDisk {
    /// A disk with these bytes, which are durable. Costs them twice.
    pub fn new(alloc: Global, bytes: &[u8]) -> Result<SureDisk, AllocError>
        requires { length bytes.now ≤ DISK_MAX }
        ensures made { IfOk result (λ s. s ≡ new_sure bytes.now) }
        ensures durable { IfOk result (λ s. IsDurable bytes.now (sure_view s)) }
    {
        Ok(SureDisk {
            alloc,
            first: bytes.to_vec(alloc)?,
            log: Vec::new(alloc),
            file: bytes.to_vec(alloc)?,
            reads: 0,
            wants: 0,
        })
    }

    /// The content.
    pub fn bytes(&self) -> &[u8]
        ensures { result.now ≡ (sure_file self.now).content }
    {
        &self.file
    }

    // What the crash leaves. Costs the file and the bytes of all writes.
    pub(crate) fn image(&self, alloc: Global, how: Crash) -> Result<Vec<u8>, AllocError>
        ensures left { IfOk result (λ v. LeavesImage how (sure_file self.now) v.items) }
        ensures image { IfOk result (λ v. Image (sure_file self.now) v.items) }
        ensures few { IfOk result (λ v. length v.items ≤ DISK_MAX) }
    {
        Ok(left_by(alloc, &self.first, &self.log, &self.file, how)?)
    }

    // Counts a read.
    pub(crate) fn count_read(&mut self)
        ensures { self.new ≡ after_read self.old }
    {
        self.reads = self.reads.saturating_add(1);
    }

    // Notes that the content is durable.
    pub(crate) fn settle(&mut self)
        ensures synced { ViewSynced (Ok (tt {0})) (sure_view self.old) (sure_view self.new) }
        ensures done { IsSynced self.old self.new }
    {
        note_sync(&mut self.log);
    }

    // Fills `into` with the bytes from the offset `at` on.
    pub(crate) fn fill(&self, at: u64, into: &mut [u8])
        requires { at + length into.old ≤ length (sure_file self.now).content }
        ensures { into.new ≡ take (length into.new) (drop at (sure_file self.now).content) }
    {
        let rest = &self.file[at as usize..];
        into.copy_from_slice(&rest[..into.len()]);
    }
}

impl Disk for SureDisk {
    ghost use Rattle.cp_disk.specs.ImageLaws.{image-content, image-now, since-now};
    ghost use Rattle.cp_disk.specs.MemoryDisks.{sure_disk};

    ghost known = { sure_disk };

    ghost leaves_content = { λ s known. image-content s.first s.calls };

    ghost only_now = { λ s c known. image-now s.first s.calls c };

    ghost counts_now = { λ s t c known. since-now s.first s.calls t c };

    fn size(&mut self) -> Result<u64, DiskFault>
        ensures most { IfOk result (λ n. n ≤ DISK_MAX) }
        ensures sized { ViewSized result (sure_view self.old) (sure_view self.new) }
        ensures cause { Counted (sure_disk self.old) (sure_disk self.new) result }
        ensures reads { self.new.reads ≡ self.old.reads }

        // It always answers, and nothing changes.
        ensures ok { IsOk result }
        ensures done { self.new ≡ self.old }
    {
        Ok(self.file.len() as u64)
    }

    fn read(&mut self, at: u64, into: &mut [u8]) -> Result<(), DiskFault>
        requires some { 0 < length into.old }
        requires few { length into.old ≤ READ_MAX }
        requires within { at + length into.old ≤ length (sure_file self.old).content }
        ensures filled { ViewFilled at into.new result (sure_view self.old) (sure_view self.new) }
        ensures cause { Counted (sure_disk self.old) (sure_disk self.new) result }
        ensures reads { self.new.reads ≡ one_more self.old.reads }

        // It always answers, and nothing changes but the count.
        ensures ok { IsOk result }
        ensures done { self.new ≡ after_read self.old }
    {
        self.count_read();
        self.fill(at, into);
        Ok(())
    }

    /// Costs the bytes that are written, of which it keeps a copy.
    fn write_at(&mut self, at: u64, bytes: &[u8]) -> Result<(), DiskFault>
        requires within { at ≤ length (sure_file self.old).content }
        requires most { at + length bytes.now ≤ DISK_MAX }
        ensures wrote { ViewWrote at bytes.now result (sure_view self.old) (sure_view self.new) }
        ensures cause { Counted (sure_disk self.old) (sure_disk self.new) result }
        ensures reads { self.new.reads ≡ self.old.reads }

        // It never fails, and is done where there is memory.
        ensures sure { IfErr result (λ e. e ≡ DiskFault.Memory) }
        ensures done { OnOk result (self.new ≡ after_write self.old at bytes.now) }
        ensures memory { OnErr result (self.new ≡ after_want self.old) }
    {
        if write(self.alloc, &mut self.log, &mut self.file, at, bytes).is_err() {
            self.wants = self.wants.saturating_add(1);
            return Err(DiskFault::Memory);
        }
        Ok(())
    }

    fn cut(&mut self, size: u64) -> Result<(), DiskFault>
        requires { size ≤ length (sure_file self.old).content }
        ensures was_cut { ViewWasCut size result (sure_view self.old) (sure_view self.new) }
        ensures cause { Counted (sure_disk self.old) (sure_disk self.new) result }
        ensures reads { self.new.reads ≡ self.old.reads }

        // It never fails, and is done where there is memory.
        ensures sure { IfErr result (λ e. e ≡ DiskFault.Memory) }
        ensures done { OnOk result (self.new ≡ after_cut self.old size) }
        ensures memory { OnErr result (self.new ≡ after_want self.old) }
    {
        if note_cut(&mut self.log, size).is_err() {
            self.wants = self.wants.saturating_add(1);
            return Err(DiskFault::Memory);
        }
        self.file.truncate(size as usize);
        Ok(())
    }

    fn sync(&mut self) -> Result<(), DiskFault>
        ensures synced { ViewSynced result (sure_view self.old) (sure_view self.new) }
        ensures cause { Counted (sure_disk self.old) (sure_disk self.new) result }
        ensures reads { self.new.reads ≡ self.old.reads }

        // It always answers.
        ensures ok { IsOk result }
        ensures done { IsSynced self.old self.new }
    {
        self.settle();
        Ok(())
    }
}
