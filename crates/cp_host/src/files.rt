//! Real files.
ghost use Rattle.std.specs.Prelude.{◌≡◌, ◌↔◌, [], None, Ok, IfOk, IsErr, IsErrOf};
ghost use Rattle.std.specs.IoError.{error_kind};
ghost use Rattle.cp_outside.specs.Causes.{Accounts, one_more};
ghost use Rattle.cp_outside.specs.FileReads.{ReadsFile};
ghost use Rattle.cp_host.specs.Adapters.{files_reads, files_faults, ReadsAll};

use cp_outside::{FileEnd, Files, FilesFault};
use std::fs::File;
use std::io::{ErrorKind, Read};
use std::{io, rt};

/// The files of the operating system, by their paths. It tells nothing of what they hold. That the
/// file of the given name is the one that is opened no clause says, since std's `File::open` says
/// nothing of its path: a test shows it.
///
/// The empty name, and a name that opening tells is not there, are `Missing`. Running out of memory
/// is `Memory`. Every other error is `Failed`, and is counted: a name with a NUL byte, a folder, a
/// way that leads through a file, a file that may not be read. A read that a signal interrupts is
/// tried again. The files are read as they stand, and nothing is held open between two calls.
#[derive(Drop)]
pub struct HostFiles<R> {
    runtime: R,
    reads: u64,
    faults: u64,
}

impl<R> HostFiles<R> {
    /// The files that this runtime opens, as `&rt` in `main`. None was read yet, and none failed.
    pub fn new(runtime: R) -> HostFiles<R>
        ensures reads { files_reads result ≡ 0 }
        ensures faults { files_faults result ≡ 0 }
    {
        HostFiles {
            runtime,
            reads: 0,
            faults: 0,
        }
    }

    // What a read answers that met this error, which is counted unless memory ran out.
    fn refuse(&mut self, error: &io::Error) -> Result<FileEnd, FilesFault>
        ensures refused { IsErr result }
        ensures reads { files_reads self.new ≡ files_reads self.old }
        ensures cause { Accounts (λ e. e ≡ FilesFault.Failed) (files_faults self.old) (files_faults self.new) result }
        ensures failed { IsErrOf result FilesFault.Failed
            → files_faults self.new ≡ one_more (files_faults self.old) }
        ensures memory { IsErrOf result FilesFault.Memory
            → files_faults self.new ≡ files_faults self.old }
        ensures kind { IsErrOf result FilesFault.Memory
            ↔ error_kind error.now ≡ ErrorKind.OutOfMemory }
    {
        if error.kind() == ErrorKind::OutOfMemory {
            return Err(FilesFault::Memory);
        }
        self.faults = self.faults.saturating_add(1);
        Err(FilesFault::Failed)
    }
}

// Reads at most a byte more than `limit`, to see whether more follow, and keeps at most `limit`.
#[tactic(auto, using(crate::proofs::Reading::reads_whole, crate::proofs::Reading::reads_too_long))]
fn read_front<F: Read + Drop>(file: F, limit: u64, into: &mut Vec<u8>) -> io::Result<FileEnd>
    ensures { IfOk result (ReadsAll (F.remaining file) limit into.new.items) }
{
    into.clear();
    file.take(limit.saturating_add(1)).read_to_end(into)?;
    if into.len() as u64 <= limit {
        return Ok(FileEnd::Whole);
    }
    into.truncate(limit as usize);
    Ok(FileEnd::TooLong)
}

// The file of this name, where there is one.
fn open<R: rt::Files>(runtime: &R, name: &str) -> io::Result<Option<R::File>>
    ensures { name.now ≡ [] → result ≡ Ok None }
{
    if name.is_empty() {
        return Ok(None);
    }
    match File::open(runtime, name) {
        Ok(file) => Ok(Some(file)),
        Err(error) if error.kind() == ErrorKind::NotFound => Ok(None),
        Err(error) => Err(error),
    }
}

// Opens the file of this name and reads it.
fn read_named<R: rt::Files>(
    runtime: &R,
    name: &str,
    limit: u64,
    into: &mut Vec<u8>,
) -> io::Result<FileEnd>
    ensures read { IfOk result (ReadsFile None name.now limit into.new.items) }
    ensures nameless { name.now ≡ [] → result ≡ Ok FileEnd.Missing }
{
    match open(runtime, name)? {
        Some(file) => read_front(file, limit, into),
        None => {
            into.clear();
            Ok(FileEnd::Missing)
        }
    }
}

impl<R: rt::Files> Files for HostFiles<R> {
    ghost found = { λ _. None };

    ghost reads = { files_reads };

    ghost faults = { files_faults };

    fn read_file(
        &mut self,
        name: &str,
        limit: u64,
        into: &mut Vec<u8>,
    ) -> Result<FileEnd, FilesFault>
        ensures read { IfOk result (λ end. ReadsFile None name.now limit into.new.items end) }
        ensures counted { files_reads self.new ≡ one_more (files_reads self.old) }
        ensures cause { Accounts (λ e. e ≡ FilesFault.Failed) (files_faults self.old) (files_faults self.new) result }

        // The empty name names nothing, and each failure is counted once.
        ensures nameless { name.now ≡ [] → result ≡ Ok FileEnd.Missing }
        ensures failed { IsErrOf result FilesFault.Failed
            → files_faults self.new ≡ one_more (files_faults self.old) }
        ensures memory { IsErrOf result FilesFault.Memory
            → files_faults self.new ≡ files_faults self.old }
    {
        self.reads = self.reads.saturating_add(1);
        match read_named(&self.runtime, name, limit, into) {
            Ok(end) => Ok(end),
            Err(error) => self.refuse(&error),
        }
    }
}
