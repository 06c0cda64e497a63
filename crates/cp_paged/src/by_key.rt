//! The rows of places and steps, by way of their keys.
use crate::keyed::KeyedRows;
use crate::looking::{lost_tids, newest_row, step_records, step_takes_child};
use crate::places::{PlaceRow, PlaceRows};
use crate::room::KeyRoom;
use cp_model::{Kind, RecordList, TidList};
use cp_path::Label;
use cp_store::StoreFault;
use std::alloc::Global;

/// Rows of this kind, looked up by their keys. All keys by place are made in a buffer that is borrowed.
#[derive(Drop)]
pub(crate) struct ByKey<'a, L: KeyedRows> {
    pub(crate) rows: L,
    pub(crate) kind: Kind,
    pub(crate) room: &'a mut KeyRoom,
}

impl<'a, L: KeyedRows> PlaceRows for ByKey<'a, L> {
    ghost use Rattle.std.specs.Prelude.{◌≡◌, ◌∷◌};
    ghost use Rattle.cp_paged.specs.Keyed.{HasRecords};

    ghost kept_kind = { λ p. p.kind };

    ghost last_tid = { λ p. 0 };

    ghost keeps = { λ p. HasRecords (L.has_rows p.rows) p.kind };

    ghost holds = { λ p. p.room.ghost_name ∷ L.holds p.rows };

    ghost cost = { λ p. L.cost p.rows };

    ghost reads = { λ p. L.reads p.rows };

    ghost faults = { λ p. L.faults p.rows };

    fn kind(&self) -> Kind {
        self.kind
    }

    fn is_empty(&self) -> bool {
        self.rows.is_empty()
    }

    fn newest(
        &mut self,
        alloc: Global,
        labels: &[Label],
        t: u64,
    ) -> Result<Option<PlaceRow>, StoreFault> {
        newest_row(&mut self.rows, alloc, self.room, labels, t)
    }

    fn lost(
        &mut self,
        alloc: Global,
        labels: &[Label],
        low: u64,
        high: u64,
    ) -> Result<TidList, StoreFault> {
        lost_tids(&mut self.rows, alloc, labels, low, high)
    }

    fn child_gone(&mut self, alloc: Global, labels: &[Label], t: u64) -> Result<bool, StoreFault> {
        step_takes_child(&mut self.rows, alloc, labels, t)
    }

    fn rows_of(&mut self, alloc: Global, t: u64) -> Result<RecordList, StoreFault> {
        step_records(&mut self.rows, alloc, t)
    }
}
