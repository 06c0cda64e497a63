//! The files of a case.
ghost use Rattle.cp_calls.specs.CaseFiles.{table_of, reads_of, faults_of};

use cp_host::HostFiles;
use cp_outside::{FileEnd, Files, FilesFault, MemFiles};
use std::rt;

/// The files that a case names, or the real ones of a runtime. They are one type, so that a program is compiled for it once.
#[derive(Drop)]
pub(crate) enum CaseFiles<R> {
    Named(MemFiles),
    Real(HostFiles<R>),
}

impl<R: rt::Files> Files for CaseFiles<R> {
    ghost found = { table_of };

    ghost reads = { reads_of };

    ghost faults = { faults_of };

    fn read_file(
        &mut self,
        name: &str,
        limit: u64,
        into: &mut Vec<u8>,
    ) -> Result<FileEnd, FilesFault> {
        match self {
            CaseFiles::Named(files) => files.read_file(name, limit, into),
            CaseFiles::Real(files) => files.read_file(name, limit, into),
        }
    }
}
