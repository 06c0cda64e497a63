//! The archive of a file: the trees of all versions of its history, and the records of its steps.
ghost use Rattle.std.specs.Prelude.{◌≡◌, ◌<◌, ◌++◌, Bool, true, List, filter, length, IfOk, OnOk};
ghost use Rattle.std.specs.declared.option.Option.TheVariants.{None, Some};
ghost use Rattle.cp_model.specs.History.{Entry, State};
ghost use Rattle.cp_model.specs.Laws.{is_upto};
ghost use Rattle.cp_model.specs.Past.{tree_of};
ghost use Rattle.cp_model.specs.Versions.{version};
ghost use Rattle.cp_disk.specs.Counts.{UsesDisk};
ghost use Rattle.cp_disk.specs.Views.{IfKnown, Rests};
ghost use Rattle.cp_frame.specs.Items.{Item};
ghost use Rattle.cp_query.specs.Asked.{IsStateOf};
ghost use Rattle.cp_store.specs.Stores.{in_memory};
ghost use Rattle.cp_db.specs.Archives.{ArchivesAs, AreVersionsOf, GoesOnFrom, HasVersions, IsWithinTids};
ghost use Rattle.cp_db.specs.Opening.{IsOpenDisk};

use crate::committed::tids_lie_between;
use crate::fault::OpenFault;
use crate::parts::Parts;
use crate::walk::work_over;
use crate::work::{CommitAt, Passed, Work};
use cp_archive::Archive;
use cp_disk::Disk;
use cp_engine::steps_of;
use cp_model::Kind;
use cp_operation::Sources;
use cp_record::PackedRecords;
use cp_store::{MemoryStore, ProvStore};
use cp_tree::TreeRep;
use std::alloc::{AllocError, Global};

/// All versions of a history, its kind, and the records of its steps, which stay packed.
#[derive(Drop)]
pub struct Kept {
    pub kind: Kind,
    pub archive: Archive,
    pub rows: PackedRecords,
}

/// Appends records to others. Costs their bytes. After an error some of them may have been appended.
fn append(rows: &mut PackedRecords, more: &PackedRecords) -> Result<(), AllocError>
    ensures { OnOk result (rows.new ≡ rows.old ++ more.now) }
{
    let mut rest = more.iter();
    loop {
        let Some(record) = rest.next() else {
            return Ok(());
        };
        rows.push_packed(&record)?;
    }
}

/// A walk that keeps all versions adds those of each commit, and its records as they are packed in its entry.
impl Work for Kept {
    ghost fits = { GoesOnFrom };

    ghost done = { λ kept first place items. first ≡ None → AreVersionsOf items kept };

    fn begin<R: TreeRep>(
        alloc: Global,
        kind: Kind,
        _last: u64,
        tree: &R,
    ) -> Result<Kept, AllocError> {
        let archive = Archive::new(alloc, tree)?;
        let rows = PackedRecords::new(alloc);
        Ok(Kept {
            kind,
            archive,
            rows,
        })
    }

    fn commit<R: TreeRep, S: TreeRep>(
        &mut self,
        alloc: Global,
        kind: Kind,
        last: u64,
        tree: &mut R,
        sources: &Sources<S>,
        commit: CommitAt,
    ) -> Result<Option<u64>, AllocError> {
        let tids = steps_of(kind, commit.ops.items.len() as u32);
        if !tids_lie_between(&commit.records, last, last + tids) {
            return Ok(None);
        }
        let ops = commit.ops.items.as_slice();
        if !self.archive.replay_commit(alloc, kind, tree, sources, ops)? {
            return Ok(None);
        }
        append(&mut self.rows, &commit.records)?;
        Ok(Some(tids))
    }

    fn pass(&mut self, _passed: Passed) {}
}

/// All versions of the history in a file, with its kind and the records of its steps. Replays its entries as an opening does, and
/// refuses the same files. Begins with a sync, writes nothing, and reads each frame once; beside the tree, the sources and the
/// answer it has one entry at a time in memory. Costs the bytes of the file and the operations, and for each step the rows at
/// and below the places that it touches, before and after.
pub fn archive_of<R: TreeRep, S: TreeRep, D: Disk>(
    alloc: Global,
    disk: &mut D,
) -> Result<Kept, OpenFault>
    ensures archived { IfKnown (D.known disk.old) (λ v. ArchivesAs v.content result) }
    ensures tids { IfOk result IsWithinTids }
    ensures rests { Rests (D.known disk.old) (D.known disk.new) }
    ensures cause { UsesDisk IsOpenDisk (D.known disk.old) (D.known disk.new) result }
{
    work_over::<R, S, Kept, D>(alloc, disk)
}

/// The records of the steps up to this one. Costs the labels of all, and the bytes of those.
fn rows_upto(alloc: Global, rows: &PackedRecords, tid: u64) -> Result<PackedRecords, AllocError>
    ensures { IfOk result (λ v. v ≡ filter (is_upto tid) rows.now) }
{
    let mut kept = PackedRecords::new(alloc);
    let mut rest = rows.iter();
    loop {
        let Some(record) = rest.next() else {
            return Ok(kept);
        };
        if record.tid() <= tid {
            kept.push_packed(&record)?;
        }
    }
}

impl Kept {
    /// What the history leads to after this step: the tree of the version, and the rows of the steps up to it. Costs a logarithm of
    /// the phases of each path that was ever there, the tree, the labels of all records, and a logarithm of the places for each
    /// record up to the step.
    pub fn at_version<R: TreeRep>(self, alloc: Global, tid: u64) -> Result<Parts<R>, AllocError>
        requires there { tid < length self.archive }
        requires tids { IsWithinTids self }
        ensures state { (h : List Entry) (items : List Item) (z : State) → HasVersions true h items self → version h tid ≡ Some z
            → IfOk result (λ parts. IsStateOf in_memory R.TreeRep parts.store parts.tree z) }
        ensures tree { (right : Bool) (h : List Entry) (items : List Item) (z : State) → HasVersions right h items self
            → version h tid ≡ Some z → IfOk result (λ parts. R.contents parts.tree ≡ tree_of z.tree) }
    {
        let Kept {
            kind,
            archive,
            rows,
        } = self;
        let tree = archive.tree_at::<R>(alloc, tid)?;
        drop(archive);
        let rows = rows_upto(alloc, &rows, tid)?;
        let mut store = MemoryStore::new(alloc, kind, 0);
        match store.absorb_packed(alloc, tid, &rows) {
            Ok(()) => Ok(Parts { tree, store }),
            Err(_) => Err(AllocError),
        }
    }
}
