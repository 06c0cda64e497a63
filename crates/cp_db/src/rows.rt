//! The rows of a history that is opened.
ghost use Rattle.std.specs.Prelude.{◌≡◌, ⊤};
ghost use Rattle.std.specs.List.{flat_map};
ghost use Rattle.cp_frame.specs.Items.{records_in};

use crate::committed::replay_commit;
use crate::work::{CommitAt, Passed, Work};
use cp_model::Kind;
use cp_operation::Sources;
use cp_store::{MemoryStore, ProvStore};
use cp_tree::TreeRep;
use std::alloc::{AllocError, Global};

/// A walk that opens a file keeps the records of each commit, as they are packed in its entry.
impl Work for MemoryStore {
    ghost fits = { λ rows kind last tree. (rows.kind ≡ kind) × (rows.rows.upto ≡ last) };

    ghost done = { λ rows first place items. rows.rows.list ≡ flat_map records_in items };

    fn begin<R: TreeRep>(
        alloc: Global,
        kind: Kind,
        last: u64,
        _tree: &R,
    ) -> Result<MemoryStore, AllocError> {
        Ok(MemoryStore::new(alloc, kind, last))
    }

    fn commit<R: TreeRep, S: TreeRep>(
        &mut self,
        alloc: Global,
        kind: Kind,
        last: u64,
        tree: &mut R,
        sources: &Sources<S>,
        commit: CommitAt,
    ) -> Result<Option<u64>, AllocError> {
        let replayed = replay_commit(
            alloc,
            kind,
            last,
            tree,
            sources,
            &commit.ops,
            &commit.records,
        )?;
        let Some(tids) = replayed else {
            return Ok(None);
        };
        match self.absorb_packed(alloc, tids, &commit.records) {
            Ok(()) => Ok(Some(tids)),
            Err(_) => Err(AllocError),
        }
    }

    fn pass(&mut self, _passed: Passed) {}
}
