ghost use Rattle.std.specs.Prelude.{◌≡◌, ◌↔◌, IsTrue, IfOk};
ghost use Rattle.std.specs.List.{flat_map};
ghost use Rattle.std.specs.Option.{option_map};
ghost use Rattle.cp_model.specs.Changes.{goes_before};
ghost use Rattle.cp_model.specs.Place.{parent};
ghost use Rattle.cp_model.specs.declared.record.Record.{Record as RecordValue};
ghost use Rattle.cp_path.specs.Encoding.{counted_bytes};
ghost use Rattle.cp_record.specs.Bytes.{record_bytes};
ghost use Rattle.cp_record.specs.Kept.{IsPackable};

use crate::order::path_order;
use crate::unpack::{first_above, first_labels, first_op, record_at, tid_at};
use cp_model::{RecOp, Record};
use std::alloc::{AllocError, Global};
use std::marker::Model;

/// A record in the bytes that it is packed in.
#[derive(Drop)]
pub struct PackedRecord<'a> {
    pub(crate) bytes: &'a [u8],
}

impl<'a> Model for PackedRecord<'a> {
    ghost use Rattle.cp_model.specs.declared.record.Record.{Record};
    ghost use Rattle.cp_record.specs.Unpacked.{record_in, IsPackedOne};

    ghost Value = { Record };

    ghost view = { λ r. (record_in r.bytes.now).0 };

    ghost invariant = { λ r. IsPackedOne r.bytes.now };
}

impl<'a> PackedRecord<'a> {
    /// The record that these bytes are, as they stand.
    pub fn of(bytes: &'a [u8]) -> PackedRecord<'a>
        requires { (r : RecordValue) × IsPackable r × (bytes.now ≡ record_bytes r) }
        ensures { (r : RecordValue) → IsPackable r → bytes.now ≡ record_bytes r → result ≡ r }
    {
        PackedRecord { bytes }
    }

    pub fn tid(&self) -> u64
        ensures { result ≡ self.now.tid }
    {
        let (tid, _) = tid_at(self.bytes);
        tid
    }

    pub fn op(&self) -> RecOp
        ensures { result ≡ self.now.op }
    {
        first_op(self.bytes)
    }

    /// The labels of its place, each behind its length. Costs their number.
    pub fn labels(&self) -> &'a [u8]
        ensures { result.now ≡ flat_map counted_bytes self.now.loc.path }
    {
        first_labels(self.bytes)
    }

    /// The labels of the place above its place, each behind its length; none where its place is a root. Costs their number.
    pub fn labels_above(&self) -> Option<&'a [u8]>
        ensures { option_map (λ k. k.now) result ≡ option_map (flat_map counted_bytes) (parent self.now.loc.path) }
    {
        first_above(self.bytes)
    }

    /// Whether it is of an earlier step than the other, or of the same step and an earlier place. Costs the bytes of their
    /// places, as far as these are the same.
    pub fn goes_before(&self, next: &PackedRecord<'_>) -> bool
        ensures { result ≡ goes_before self.now next.now }
    {
        let tid = self.tid();
        let later = next.tid();
        tid < later || (tid == later && path_order(self.labels(), next.labels()).is_lt())
    }

    /// Whether the other is the same record. Costs its bytes, as far as they are the same.
    pub fn is_same(&self, other: &PackedRecord<'_>) -> bool
        ensures { IsTrue result ↔ (self.now ≡ other.now) }
    {
        self.bytes == other.bytes
    }

    /// The record by itself. Costs its bytes.
    pub fn record(&self, alloc: Global) -> Result<Record, AllocError>
        ensures { IfOk result (λ r. r ≡ self.now) }
    {
        let (record, _) = record_at(alloc, self.bytes)?;
        Ok(record)
    }
}
