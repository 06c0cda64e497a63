//! What a call meets: the program, the store, and the files of its case.

use crate::call::{Call, Outcome};
use crate::files::CaseFiles;
use crate::program::Program;
use crate::triple::TripleTree;
use cp_disk::MemDisk;
use cp_host::HostFiles;
use cp_outside::{MemFile, MemFiles};
use cp_tree::TreeRep;
use cp_tree_arena::ArenaTree;
use cp_tree_box::BoxTree;
use cp_tree_rows::RowTree;
use cp_tree_share::ShareTree;
use std::alloc::{AllocError, Global};
use std::rt::Files;

/// The committed tree in every form but the `ShareTree` that calls are made with first.
type OtherCommitted = TripleTree<BoxTree, RowTree, ArenaTree>;

/// A source's tree in every form but the `ArenaTree` that calls are made with first.
type OtherLoaded = TripleTree<BoxTree, RowTree, ShareTree>;

/// The program that is called, and what is there at a call.
#[derive(Drop)]
pub struct Setting<'a, R, P> {
    pub(crate) runtime: &'a R,
    pub(crate) program: &'a P,
    /// Whether the files are the real ones of the runtime.
    pub(crate) real: bool,
    pub(crate) files: Vec<MemFile>,
    /// The bytes of the disk before the call.
    pub(crate) before: Vec<u8>,
}

impl<R: Files, P: Program> Setting<'_, R, P> {
    /// What the call gives over this disk, with these forms of the committed tree and of sources' trees.
    fn outcome_on<T: TreeRep, S: TreeRep>(
        &self,
        alloc: Global,
        call: &Call,
        disk: &mut MemDisk,
    ) -> Result<Outcome, AllocError> {
        let mut files = if self.real {
            CaseFiles::Real(HostFiles::new(self.runtime))
        } else {
            CaseFiles::Named(MemFiles::with_faults(alloc, &self.files, call.failing_files())?)
        };
        call.make::<P, T, S, _, _>(alloc, self.program, disk, &mut files)
    }

    /// What the call gives, with these forms of trees, and the disk that it leaves.
    pub(crate) fn outcome_of<T: TreeRep, S: TreeRep>(
        &self,
        alloc: Global,
        call: &Call,
    ) -> Result<(Outcome, MemDisk), AllocError> {
        let mut disk = call.disk_of(alloc, &self.before)?;
        match self.outcome_on::<T, S>(alloc, call, &mut disk) {
            Ok(outcome) => Ok((outcome, disk)),
            Err(fault) => {
                drop(disk);
                Err(fault)
            }
        }
    }

    /// Says whether the call gives the same as another, with these forms of trees, and leaves the same store.
    fn is_same<T: TreeRep, S: TreeRep>(
        &self,
        alloc: Global,
        call: &Call,
        other: &Outcome,
        left: &[u8],
    ) -> Result<bool, AllocError> {
        let (outcome, disk) = self.outcome_of::<T, S>(alloc, call)?;
        Ok(outcome.is_same(other) && disk.bytes() == left)
    }

    /// Says whether the call gives the same as the first with trees that have every other form, and leaves the same store.
    pub(crate) fn is_same_in_other_forms(
        &self,
        alloc: Global,
        call: &Call,
        first: &Outcome,
        left: &[u8],
    ) -> Result<bool, AllocError> {
        self.is_same::<OtherCommitted, OtherLoaded>(alloc, call, first, left)
    }

    /// Says whether the input, the files and the store have at most 65,536 bytes.
    pub(crate) fn is_small(&self, call: &Call) -> bool {
        let mut bytes = call.input_len().saturating_add(self.before.len());
        for file in &self.files {
            bytes = bytes.saturating_add(file.bytes.len());
        }
        bytes <= 65_536
    }
}
