//! Files in memory.
ghost use Rattle.std.specs.Prelude.{◌≡◌, [], ◌↔◌, Some, IfOk, OnOk, IsErrOf, Contains};
ghost use Rattle.std.specs.Option.{option_map};
ghost use Rattle.cp_outside.specs.FileReads.{EndsAs, ReadsFile};
ghost use Rattle.cp_outside.specs.Causes.{Accounts, one_more};
ghost use Rattle.cp_outside.specs.MemoryStates.{file_named, new_files, after_file, after_failed_file};

use crate::files::{FileEnd, Files, FilesFault};
use crate::plan::Plan;
use std::alloc::{AllocError, Global};
use std::marker::Model;

/// A file in memory.
#[derive(Drop)]
pub struct MemFile {
    /// The name that it is read by.
    pub name: String,
    /// All of it.
    pub bytes: Vec<u8>,
}

impl Model for MemFile {
    ghost use Rattle.std.specs.Prelude.{string_bytes};
    ghost use Rattle.cp_outside.specs.MemoryStates.{FileState};

    ghost Value = { FileState };

    ghost view = { λ f. record { name = string_bytes f.name; bytes = f.bytes.items } };
}

impl Clone for MemFile {
    ghost is_clone = { λ a b. b ≡ a };

    fn clone(&self) -> Result<MemFile, AllocError> {
        Ok(MemFile {
            name: self.name.clone()?,
            bytes: self.bytes.clone()?,
        })
    }
}

/// Files of its own, which tell what they hold. Of two with one name the first is the one that is
/// read. The reads whose numbers a list names fail, and no others do; any may run out of memory.
#[derive(Drop)]
pub struct MemFiles {
    files: Vec<MemFile>,
    plan: Plan,
}

impl Model for MemFiles {
    ghost use Rattle.cp_outside.specs.MemoryStates.{FilesState};

    ghost Value = { FilesState };

    ghost view = { λ s. record {
      files = s.files.items;
      fails = s.plan.fails.items;
      calls = s.plan.calls;
      faults = s.plan.faults;
    } };
}

impl MemFiles {
    /// Copies of these files, of which no read fails.
    pub fn new(alloc: Global, files: &[MemFile]) -> Result<MemFiles, AllocError>
        ensures { IfOk result (λ s. s ≡ new_files files.now []) }
    {
        MemFiles::with_faults(alloc, files, &[])
    }

    /// Copies of these files, of which the reads whose numbers stand in `fails` fail. The first
    /// read has the number 1, and from the last number of a `u64` on the number stays.
    pub fn with_faults(
        alloc: Global,
        files: &[MemFile],
        fails: &[u64],
    ) -> Result<MemFiles, AllocError>
        ensures { IfOk result (λ s. s ≡ new_files files.now fails.now) }
    {
        Ok(MemFiles {
            files: files.to_vec(alloc)?,
            plan: Plan::new(alloc, fails)?,
        })
    }
}

// The bytes of the first file of this name.
fn bytes_of<'a>(files: &'a [MemFile], name: &str) -> Option<&'a [u8]>
    ensures { option_map (λ bytes. bytes.now) result ≡ file_named files.now name.now }
{
    for file in files {
        if file.name.as_str() == name {
            return Some(file.bytes.as_slice());
        }
    }
    None
}

// Puts at most `limit` of the bytes into `into`.
fn keep(bytes: &[u8], limit: u64, into: &mut Vec<u8>) -> Result<FileEnd, AllocError>
    ensures { IfOk result (EndsAs (Some bytes.now) limit into.new.items) }
{
    into.clear();
    if bytes.len() as u64 <= limit {
        into.extend_from_slice(bytes)?;
        return Ok(FileEnd::Whole);
    }
    into.extend_from_slice(&bytes[..limit as usize])?;
    Ok(FileEnd::TooLong)
}

// Puts at most `limit` bytes of what the name names into `into`.
fn find(
    files: &[MemFile],
    name: &str,
    limit: u64,
    into: &mut Vec<u8>,
) -> Result<FileEnd, AllocError>
    ensures { IfOk result (EndsAs (file_named files.now name.now) limit into.new.items) }
{
    match bytes_of(files, name) {
        Some(bytes) => keep(bytes, limit, into),
        None => {
            into.clear();
            Ok(FileEnd::Missing)
        }
    }
}

impl Files for MemFiles {
    ghost found = { λ s. Some (file_named s.files) };

    ghost reads = { λ s. s.calls };

    ghost faults = { λ s. s.faults };

    #[tactic(auto, using(crate::proofs::Named::told))]
    fn read_file(
        &mut self,
        name: &str,
        limit: u64,
        into: &mut Vec<u8>,
    ) -> Result<FileEnd, FilesFault>
        ensures read { IfOk result (λ end.
            ReadsFile (Some (file_named self.old.files)) name.now limit into.new.items end) }
        ensures same { Some (file_named self.new.files) ≡ Some (file_named self.old.files) }
        ensures counted { self.new.calls ≡ one_more self.old.calls }
        ensures cause { Accounts (λ e. e ≡ FilesFault.Failed) self.old.faults self.new.faults result }

        // The reads that the list names fail, and the others give what the name names, where there
        // is memory.
        ensures listed { IsErrOf result FilesFault.Failed
            ↔ Contains self.old.fails (one_more self.old.calls) }
        ensures ends { IfOk result (EndsAs (file_named self.old.files name.now) limit into.new.items) }
        ensures done { OnOk result (self.new ≡ after_file self.old) }
        ensures failed { IsErrOf result FilesFault.Failed → self.new ≡ after_failed_file self.old }
        ensures memory { IsErrOf result FilesFault.Memory → self.new ≡ after_file self.old }
    {
        if self.plan.fails_now() {
            return Err(FilesFault::Failed);
        }
        Ok(find(self.files.as_slice(), name, limit, into)?)
    }
}
