//! A store whose rows lie in pages, and those after them in memory.
ghost use Rattle.std.specs.Prelude.{◌≡◌, ◌+◌, ◌<◌, ◌≤◌, ◌^◌, [], List, IfOk};

use crate::answers::{absorb, absorb_packed};
use crate::on_disk::{last_change, losses, rows_of, tells_below};
use crate::room::KeyRoom;
use cp_disk::Disk;
use cp_model::{Change, Kind, Record, RecordList, TidList};
use cp_path::{Label, Loc};
use cp_record::PackedRecords;
use cp_run::{Run, RunSet};
use cp_store::{MemoryStore, ProvStore, StoreFault};
use std::alloc::{AllocError, Global};
use std::marker::Model;

/// The rows after those on pages, and the step up to which rows are there.
#[derive(Drop)]
pub struct LaterRows {
    pub(crate) upto: u64,
    pub(crate) tail: MemoryStore,
}

impl Model for LaterRows {
    ghost use Rattle.cp_paged.specs.Paged.{PagedRows};

    ghost Value = { PagedRows };

    ghost view = { λ s. record { upto = s.upto; tail = s.tail } };
}

impl LaterRows {
    /// No rows, of this kind, after those up to `upto`.
    fn new(alloc: Global, kind: Kind, upto: u64) -> LaterRows
        ensures upto { result.upto ≡ upto }
        ensures kind { result.tail.kind ≡ kind }
        ensures last { result.tail.rows.upto ≡ upto }
        ensures list { result.tail.rows.list ≡ [] }
    {
        let tail = MemoryStore::new(alloc, kind, upto);
        LaterRows { upto, tail }
    }

    /// The Tid of the last step.
    pub(crate) fn last(&self) -> u64
        ensures { result ≡ self.now.tail.rows.upto }
    {
        self.tail.upto()
    }
}

/// Rows on the pages of runs, and those after them in memory; of a kind that is chosen when it begins.
#[derive(Drop)]
pub struct PagedStore {
    pub(crate) kind: Kind,
    pub(crate) runs: RunSet,
    pub(crate) later: LaterRows,
    /// In which the keys are made that are looked for.
    pub(crate) room: KeyRoom,
}

impl PagedStore {
    /// A store of this kind, whose rows up to the step `upto` are on the pages of these runs.
    pub fn new(alloc: Global, kind: Kind, upto: u64, runs: RunSet) -> Result<PagedStore, AllocError>
        ensures runs { IfOk result (λ s. s.runs ≡ runs) }
        ensures upto { IfOk result (λ s. s.later.upto ≡ upto) }
        ensures kind { IfOk result (λ s. (s.kind ≡ kind) × (s.later.tail.kind ≡ kind)) }
        ensures last { IfOk result (λ s. s.later.tail.rows.upto ≡ upto) }
        ensures list { IfOk result (λ s. s.later.tail.rows.list ≡ []) }
    {
        let room = KeyRoom::new(alloc)?;
        let later = LaterRows::new(alloc, kind, upto);
        Ok(PagedStore {
            kind,
            runs,
            later,
            room,
        })
    }

    /// The runs on whose pages its rows are. Takes no memory.
    pub fn run_list(&self) -> &[Run]
        ensures { result.now ≡ self.now.runs.runs }
    {
        self.runs.runs()
    }

    /// The Tid of the last step.
    pub(crate) fn last(&self) -> u64
        ensures { result ≡ self.now.later.tail.rows.upto }
    {
        self.later.last()
    }
}

/// The store with the disk on which its pages lie, both borrowed.
#[derive(Drop)]
pub struct Paged<'a, D: Disk> {
    pub store: &'a mut PagedStore,
    pub disk: &'a mut D,
}

impl<'a, D: Disk> ProvStore for Paged<'a, D> {
    ghost use Rattle.std.specs.Prelude.{◌≡◌, ◌∷◌, [], ◌++◌};
    ghost use Rattle.cp_paged.specs.OnDisk.{stored_on};

    ghost kept_kind = { λ p. (stored_on D.Disk).kept_kind (p.store.now, p.disk.now) };

    ghost last_tid = { λ p. (stored_on D.Disk).last_tid (p.store.now, p.disk.now) };

    ghost keeps = { λ p. (stored_on D.Disk).keeps (p.store.now, p.disk.now) };

    ghost holds = { λ p. p.store.ghost_name ∷ p.disk.ghost_name ∷ [] };

    ghost cost = { λ p. (stored_on D.Disk).cost (p.store.now, p.disk.now) };

    ghost reads = { λ p. (stored_on D.Disk).reads (p.store.now, p.disk.now) };

    ghost faults = { λ p. (stored_on D.Disk).faults (p.store.now, p.disk.now) };

    fn kind(&self) -> Kind {
        self.store.kind
    }

    fn upto(&self) -> u64 {
        self.store.last()
    }

    fn last_change(
        &mut self,
        alloc: Global,
        loc: &Loc,
        t: u64,
    ) -> Result<Option<Change>, StoreFault> {
        last_change(self.store, self.disk, alloc, loc, t)
    }

    fn losses(
        &mut self,
        alloc: Global,
        loc: &Loc,
        low: u64,
        high: u64,
    ) -> Result<TidList, StoreFault> {
        losses(self.store, self.disk, alloc, loc, low, high)
    }

    fn tells_below(
        &mut self,
        alloc: Global,
        loc: &Loc,
        label: Option<&Label>,
    ) -> Result<bool, StoreFault> {
        tells_below(self.store, self.disk, alloc, loc, label)
    }

    fn rows_of(&mut self, alloc: Global, t: u64) -> Result<RecordList, StoreFault> {
        rows_of(self.store, self.disk, alloc, t)
    }

    fn absorb(&mut self, alloc: Global, tids: u64, rows: &[Record]) -> Result<(), StoreFault> {
        absorb(&mut self.store.later, alloc, tids, rows)
    }

    fn absorb_packed(
        &mut self,
        alloc: Global,
        tids: u64,
        rows: &PackedRecords,
    ) -> Result<(), StoreFault> {
        absorb_packed(&mut self.store.later, alloc, tids, rows)
    }
}
