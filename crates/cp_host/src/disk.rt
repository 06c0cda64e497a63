//! A real file as a disk.
ghost use Rattle.std.specs.Prelude.{◌≡◌, ◌≤◌, ◌<◌, ◌+◌, length, IfOk, IsErrOf};
ghost use Rattle.cp_outside.specs.Causes.{one_more};
ghost use Rattle.cp_disk.specs.Counts.{Counted};
ghost use Rattle.cp_host.specs.Disks.{disk_access, disk_counts, known_file_disk, no_counts, after_read, after_answer};

use crate::access::Access;
use crate::named_file::NamedFile;
use cp_disk::{DISK_MAX, Disk, DiskFault, READ_MAX};
use std::fs::File;
use std::rt;

/// A file of the operating system, by its name. It tells nothing of what the file holds.
///
/// The first call opens the file, to be read alone, or, of a disk that may write, to be read and
/// written. It stays open until the disk is dropped. A file that isn't there is an empty one, which
/// the first write makes; if the name names something by then, even a link that leads nowhere, that
/// write fails. The name of anything but a file, as of a folder, fails, and so does a file that may
/// not be read.
///
/// A disk that may write takes the lock on its file as it opens or makes it (`flock`, exclusive),
/// and keeps it until it is dropped. Where someone else has it, that call fails. A file system that
/// knows no locks is no failure, and a file that may not be written is opened to be read alone,
/// without a lock. A disk that only reads takes none, and each of its writes and cuts fails.
///
/// A call that a signal interrupts is tried again. Running out of memory is `Memory` where nothing
/// has changed; of a write, a cut or a sync that has begun it is a failure, as is every other error.
#[derive(Drop)]
pub struct FileDisk<R> {
    file: NamedFile<R>,
    faults: u64,
    reads: u64,
    wants: u64,
}

impl<R> FileDisk<R> {
    /// The file that this runtime, as `&rt` in `main`, knows by this name. Nothing is opened yet.
    pub fn new(runtime: R, name: String, access: Access) -> FileDisk<R>
        ensures counts { disk_counts result ≡ no_counts }
        ensures access { disk_access result ≡ access }
    {
        FileDisk {
            file: NamedFile::new(runtime, name, access),
            faults: 0,
            reads: 0,
            wants: 0,
        }
    }

    // Counts what this answer has to be counted as.
    fn count<T>(&mut self, answer: Result<T, DiskFault>) -> Result<T, DiskFault>
        ensures same { result ≡ answer }
        ensures counts { disk_counts self.new ≡ after_answer answer (disk_counts self.old) }
        ensures cause { Counted (known_file_disk self.old) (known_file_disk self.new) result }
        ensures access { disk_access self.new ≡ disk_access self.old }
    {
        match &answer {
            Ok(_) => {}
            Err(DiskFault::Failed) => self.faults = self.faults.saturating_add(1),
            Err(DiskFault::Memory) => self.wants = self.wants.saturating_add(1),
        }
        answer
    }
}

impl<R: rt::Files<File = File>> Disk for FileDisk<R> {
    ghost known = { known_file_disk };

    ghost leaves_content = { λ d known. tt };

    ghost only_now = { λ d c known since. tt };

    ghost counts_now = { λ d t c known before image. tt };

    /// Asks the system for the file's length; more than [`DISK_MAX`] bytes are a failure.
    fn size(&mut self) -> Result<u64, DiskFault>
        ensures most { IfOk result (λ n. n ≤ DISK_MAX) }
        ensures cause { Counted (known_file_disk self.old) (known_file_disk self.new) result }
        ensures reads { (disk_counts self.new).reads ≡ (disk_counts self.old).reads }

        // Each fault is counted once.
        ensures counted { disk_counts self.new ≡ after_answer result (disk_counts self.old) }
        ensures access { disk_access self.new ≡ disk_access self.old }
    {
        let answer = self.file.size();
        self.count(answer)
    }

    /// Reads until `into` is full; a file that ends before is a failure.
    fn read(&mut self, at: u64, into: &mut [u8]) -> Result<(), DiskFault>
        requires some { 0 < length into.old }
        requires few { length into.old ≤ READ_MAX }
        ensures cause { Counted (known_file_disk self.old) (known_file_disk self.new) result }
        ensures reads { (disk_counts self.new).reads ≡ one_more (disk_counts self.old).reads }

        // Each read and each fault is counted once.
        ensures counted { disk_counts self.new
            ≡ after_answer result (after_read (disk_counts self.old)) }
        ensures access { disk_access self.new ≡ disk_access self.old }
    {
        self.reads = self.reads.saturating_add(1);
        let answer = self.file.read(at, into);
        self.count(answer)
    }

    /// Writes until all bytes are written. A missing file is made, with the rights that the process
    /// gives to new files. Where the offset lies after the end, zeros fill what is between.
    fn write_at(&mut self, at: u64, bytes: &[u8]) -> Result<(), DiskFault>
        requires { at + length bytes.now ≤ DISK_MAX }
        ensures cause { Counted (known_file_disk self.old) (known_file_disk self.new) result }
        ensures reads { (disk_counts self.new).reads ≡ (disk_counts self.old).reads }

        // Each fault is counted once.
        ensures counted { disk_counts self.new ≡ after_answer result (disk_counts self.old) }
        ensures access { disk_access self.new ≡ disk_access self.old }

        // A disk that only reads changes nothing.
        ensures only_reads { disk_access self.old ≡ Access.Reads → IsErrOf result DiskFault.Failed }
    {
        let answer = self.file.write_at(at, bytes);
        self.count(answer)
    }

    /// Sets the file's length; a size greater than it adds zeros. A missing file stays missing: a cut
    /// to 0 does nothing, and any other fails.
    fn cut(&mut self, size: u64) -> Result<(), DiskFault>
        ensures cause { Counted (known_file_disk self.old) (known_file_disk self.new) result }
        ensures reads { (disk_counts self.new).reads ≡ (disk_counts self.old).reads }

        // Each fault is counted once.
        ensures counted { disk_counts self.new ≡ after_answer result (disk_counts self.old) }
        ensures access { disk_access self.new ≡ disk_access self.old }

        // A disk that only reads changes nothing.
        ensures only_reads { disk_access self.old ≡ Access.Reads → IsErrOf result DiskFault.Failed }
    {
        let answer = self.file.cut(size);
        self.count(answer)
    }

    /// Asks the system to bring the file's bytes and length to the device, whoever wrote them, and
    /// waits for it. The first sync after a write or a cut does the same for the folder in which the
    /// name stands, whoever made the file. For a missing file nothing is done. Once the system has
    /// failed to do this, each later call fails, since it may have given up what was written.
    fn sync(&mut self) -> Result<(), DiskFault>
        ensures cause { Counted (known_file_disk self.old) (known_file_disk self.new) result }
        ensures reads { (disk_counts self.new).reads ≡ (disk_counts self.old).reads }

        // Each fault is counted once.
        ensures counted { disk_counts self.new ≡ after_answer result (disk_counts self.old) }
        ensures access { disk_access self.new ≡ disk_access self.old }
    {
        let answer = self.file.sync();
        self.count(answer)
    }
}
