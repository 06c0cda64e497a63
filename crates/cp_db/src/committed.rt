//! What a history leads to, in memory.
ghost use Rattle.std.specs.Prelude.{◌≡◌, ◌≤◌, ◌+◌, ◌∷◌, ◌↔◌, [], true, false, Bool, IsTrue, List, length, IfOk, OnOk};
ghost use Rattle.std.specs.List.{AllByRecursion};
ghost use Rattle.cp_model.specs.Answers.{stats};
ghost use Rattle.cp_model.specs.History.{State, start_state};
ghost use Rattle.cp_model.specs.declared.limits.TheConstants.{OPS_MAX, SOURCES_MAX};
ghost use Rattle.cp_model.specs.Changes.{AreNext};
ghost use Rattle.cp_db.specs.declared.limits.TheConstants.{TIDS_MAX};
ghost use Rattle.cp_frame.specs.Sound.{IsSoundBatch, IsSoundSource};
ghost use Rattle.cp_operation.specs.Loaded.{sources_in};
ghost use Rattle.cp_db.specs.Committed.{HasRows, KeepsState, TidsLieBetween, HasKept, LoadsSource, ReplaysCommit};

use crate::limits::TIDS_MAX;
use cp_engine::{replay, steps_of};
use cp_model::{Kind, Literal, OpList, SOURCES_MAX, Stats};
use cp_operation::Sources;
use cp_path::Name;
use cp_record::PackedRecords;
use cp_store::{MemoryStore, ProvStore};
use cp_tree::{TreeRep, tree_of};
use std::alloc::{AllocError, Global};

/// The committed tree, the sources and the rows of all steps, and the number of commits. A plain value: what it says is
/// that of a history only where a contract says so.
#[derive(Drop)]
pub struct Committed<R: TreeRep, S: TreeRep> {
    pub tree: R,
    pub sources: Sources<S>,
    pub store: MemoryStore,
    pub commits: u64,
}

/// Whether each record has a Tid after `low` and up to `high`. Costs the labels of the records up to the first that
/// has none.
pub fn tids_lie_between(records: &PackedRecords, low: u64, high: u64) -> bool
    ensures { IsTrue result ↔ TidsLieBetween low high records.now }
{
    let mut rest = records.iter();
    loop {
        let Some(record) = rest.next() else {
            return true;
        };
        let tid = record.tid();
        if tid <= low || tid > high {
            return false;
        }
    }
}

/// Keeps a tree as a source, if one may be loaded under the name; says whether it may. Where it may not, and after an
/// error, the sources are as they were. Costs the tree.
pub(crate) fn load_source<S: TreeRep>(
    alloc: Global,
    sources: &mut Sources<S>,
    name: Name,
    literal: &Literal,
) -> Result<bool, AllocError>
    requires sound { IsSoundSource name literal.now }
    requires few { length (sources_in S.contents sources.old) ≤ SOURCES_MAX }
    ensures loaded { IfOk result (LoadsSource (sources_in S.contents sources.old)
        (sources_in S.contents sources.new) name literal.now) }
{
    if name.is_target() || sources.get(&name).is_some() || sources.len() == SOURCES_MAX {
        return Ok(false);
    }
    let tree = tree_of::<S>(alloc, literal)?;
    sources.add(name, tree)?;
    Ok(true)
}

/// Applies the operations of a commit after the Tid `last`, if each is accepted and each record has one of the commit's
/// Tids; gives the number of these Tids, `None` where it isn't so. Of the records it looks at nothing else. After `None`,
/// and after an error, what the tree holds isn't said. Costs the operations and a comparison for each record.
pub(crate) fn replay_commit<R: TreeRep, S: TreeRep>(
    alloc: Global,
    kind: Kind,
    last: u64,
    tree: &mut R,
    sources: &Sources<S>,
    ops: &OpList,
    records: &PackedRecords,
) -> Result<Option<u64>, AllocError>
    requires few { last ≤ TIDS_MAX }
    requires sound { (trees : Bool) × IsSoundBatch trees ops.now records.now }
    ensures replayed { IfOk result (ReplaysCommit (sources_in S.contents sources.now)
        (R.contents tree.old) (R.contents tree.new) kind last ops.now records.now) }
{
    let tids = steps_of(kind, ops.items.len() as u32);
    if !tids_lie_between(records, last, last + tids) {
        return Ok(None);
    }
    if !replay(alloc, tree, sources, &ops.items)? {
        return Ok(None);
    }
    Ok(Some(tids))
}

impl<R: TreeRep, S: TreeRep> Committed<R, S> {
    /// A tree without sources and without rows.
    pub(crate) fn start(alloc: Global, kind: Kind, tree: R) -> Committed<R, S>
        ensures keeps { KeepsState R.contents S.contents result (start_state kind (R.contents tree)) }
        ensures none { result.store.rows.list ≡ [] }
    {
        Committed {
            tree,
            sources: Sources::new(alloc),
            store: MemoryStore::new(alloc, kind, 0),
            commits: 0,
        }
    }

    /// The numbers of the committed state.
    pub(crate) fn stats(&self) -> Stats
        requires { (s : State) × KeepsState R.contents S.contents self.now s }
        ensures { (s : State) → KeepsState R.contents S.contents self.now s → HasRows self.now s → result ≡ stats s }
    {
        Stats {
            kind: self.store.kind(),
            tid: self.store.upto(),
            transactions: self.commits,
            records: self.store.len(),
            nodes: self.tree.count(),
            sources: self.sources.len() as u32,
        }
    }

    /// Keeps the records of the next commit, which has so many Tids. After an error what is kept isn't said.
    pub(crate) fn keep_records(
        &mut self,
        alloc: Global,
        tids: u64,
        records: &PackedRecords,
    ) -> Result<(), AllocError>
        requires few { (self.old.store.rows.upto ≤ TIDS_MAX) × (tids ≤ OPS_MAX) }
        requires counted { self.old.commits ≤ self.old.store.rows.upto }
        requires next { AreNext self.old.store.rows.upto (self.old.store.rows.upto + tids) records.now }
        ensures kept { OnOk result (HasKept self.old self.new tids records.now) }
    {
        if self.store.upto() + tids > TIDS_MAX {
            return Err(AllocError);
        }
        match self.store.absorb_packed(alloc, tids, records) {
            Ok(()) => {
                self.commits += 1;
                Ok(())
            }
            Err(_) => Err(AllocError),
        }
    }
}
