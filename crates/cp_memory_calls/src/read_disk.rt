//! A disk in memory that tells how often it was read.
ghost use Rattle.std.specs.Prelude.{◌≡◌, ◌≤◌, length, IfOk};
ghost use Rattle.cp_disk.specs.MemoryDisks.{mem_disk};

use cp_disk::{DISK_MAX, Disk, DiskFault, MemDisk};
use std::alloc::{AllocError, Global};

/// A disk in memory, and how often it was read, up to the end of a `u64`.
#[derive(Drop)]
pub(crate) struct ReadDisk {
    disk: MemDisk,
    pub(crate) reads: u64,
}

impl ReadDisk {
    /// A disk with these bytes, as many of them as a disk may have.
    pub(crate) fn new(alloc: Global, bytes: &[u8]) -> Result<ReadDisk, AllocError> {
        let size = bytes.len().min(DISK_MAX as usize);
        let disk = MemDisk::new(alloc, &bytes[..size])?;
        Ok(ReadDisk { disk, reads: 0 })
    }
}

impl Disk for ReadDisk {
    ghost use Rattle.cp_disk.specs.ImageLaws.{image-content, image-now, since-now};
    ghost use Rattle.cp_disk.specs.MemoryDisks.{mem_disk};

    ghost known = { λ s. mem_disk s.disk };

    ghost leaves_content = { λ s known. image-content s.disk.disk.first s.disk.disk.calls };

    ghost only_now = { λ s c known. image-now s.disk.disk.first s.disk.disk.calls c };

    ghost counts_now = { λ s t c known. since-now s.disk.disk.first s.disk.disk.calls t c };

    fn size(&mut self) -> Result<u64, DiskFault> {
        self.disk.size()
    }

    fn read(&mut self, at: u64, into: &mut [u8]) -> Result<(), DiskFault> {
        self.reads = self.reads.saturating_add(1);
        self.disk.read(at, into)
    }

    fn write_at(&mut self, at: u64, bytes: &[u8]) -> Result<(), DiskFault> {
        self.disk.write_at(at, bytes)
    }

    fn cut(&mut self, size: u64) -> Result<(), DiskFault> {
        self.disk.cut(size)
    }

    fn sync(&mut self) -> Result<(), DiskFault> {
        self.disk.sync()
    }
}
