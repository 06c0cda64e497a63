ghost use Rattle.std.specs.Prelude.{◌≡◌, ◌≤◌, ◌<◌, ◌+◌, ◌^◌, ◌++◌, ◌∷◌, [], List, length, drop, is_some, IfOk, OnOk, OnErr, IfSome};
ghost use Rattle.std.specs.declared.option.Option.TheVariants.{Some};
ghost use Rattle.std.specs.List.{slice_get, AllByRecursion};
ghost use Rattle.std.specs.Option.{option_map};
ghost use Rattle.cp_model.specs.Records.{mark_by};
ghost use Rattle.cp_model.specs.declared.record.Record.{Record};
ghost use Rattle.cp_record.specs.Bytes.{records_bytes, record_below};
ghost use Rattle.cp_record.specs.Kept.{is_copy, IsPackable};
ghost use Rattle.cp_record.specs.Packed.{EndsAt};

use crate::pack::push_record;
use crate::packed_iter::PackedIter;
use crate::packed_record::PackedRecord;
use crate::unpack::{behind_record, mark_at, record_at, tid_at};
use cp_model::{RecOp, Record, RecordList, RowMark};
use cp_path::{LABELS_MAX, Loc, Path};
use std::alloc::{AllocError, Global};
use std::marker::Model;

/// Records of T, one after another, in about as many bytes as their labels have.
#[derive(Drop)]
pub struct PackedRecords {
    bytes: Vec<u8>,
}

impl Model for PackedRecords {
    ghost use Rattle.std.specs.Prelude.{List};
    ghost use Rattle.cp_model.specs.declared.record.Record.{Record};
    ghost use Rattle.cp_record.specs.Unpacked.{records_in, IsPacked};

    ghost Value = { List Record };

    ghost view = { λ p. records_in p.bytes.items };

    ghost invariant = { λ p. IsPacked p.bytes.items };
}

impl PackedRecords {
    /// No records.
    pub fn new(alloc: Global) -> PackedRecords
        ensures { result ≡ [] }
    {
        PackedRecords {
            bytes: Vec::new(alloc),
        }
    }

    /// Appends the record of the place `below` the place `base` of T; of a copy the source is the place `below` the one
    /// given. Costs the bytes of the places. After an error the records are as they were.
    pub fn push(
        &mut self,
        tid: u64,
        op: RecOp,
        base: &Path,
        below: &Path,
        source: Option<&Loc>,
    ) -> Result<(), AllocError>
        requires place { length base.now + length below.now ≤ LABELS_MAX }
        requires source { IfSome source (λ q. length q.now.path + length below.now ≤ LABELS_MAX) }
        requires source_of_copy { is_some source ≡ is_copy op }
        ensures ok { OnOk result (self.new ≡ self.old ++ record_below tid op base.now below.now (option_map (λ q. q.now) source.entry) ∷ []) }
        ensures err { OnErr result (self.new ≡ self.old) }
    {
        let len = self.bytes.len();
        match push_record(&mut self.bytes, tid, op, base, below, source) {
            Ok(()) => Ok(()),
            Err(e) => {
                self.bytes.truncate(len);
                Err(e)
            }
        }
    }

    /// Appends a record that is packed already. Costs its bytes. After an error the records are as they were.
    pub fn push_packed(&mut self, row: &PackedRecord<'_>) -> Result<(), AllocError>
        ensures ok { OnOk result (self.new ≡ self.old ++ row.now ∷ []) }
        ensures err { OnErr result (self.new ≡ self.old) }
    {
        self.bytes.extend_from_slice(row.bytes)?;
        Ok(())
    }

    /// The records in order, as they are packed.
    pub fn iter(&self) -> PackedIter<'_>
        ensures { result ≡ self.now }
    {
        PackedIter {
            rest: self.bytes.as_slice(),
        }
    }

    /// How many records there are. Costs their labels.
    pub fn count(&self) -> usize
        ensures { result ≡ length self.now }
    {
        let _ = self.len();
        let mut count = 0;
        let mut rest = self.iter();
        while rest.next().is_some() {
            count += 1;
        }
        count
    }

    /// The bytes of the records, one after another.
    pub fn as_bytes(&self) -> &[u8]
        ensures bytes { result.now ≡ records_bytes self.now }
        ensures kept { AllByRecursion IsPackable self.now }
    {
        self.bytes.as_slice()
    }

    /// The bytes that the records take.
    pub fn len(&self) -> usize
        ensures bytes { result ≡ length (records_bytes self.now) }
        ensures bound { length (records_bytes self.now) < 2 ^ 63 }
    {
        self.bytes.len()
    }

    /// Gives up all records behind the first so many bytes.
    pub fn truncate(&mut self, len: usize)
        requires { EndsAt self.old len }
        ensures { (rs qs : List Record) → self.old ≡ rs ++ qs → len ≡ length (records_bytes rs) → self.new ≡ rs }
    {
        self.bytes.truncate(len);
    }

    /// The records in order. Costs their bytes.
    pub fn records(&self, alloc: Global) -> Result<RecordList, AllocError>
        ensures { IfOk result (λ l. l ≡ self.now) }
    {
        let mut items = Vec::new(alloc);
        let mut rest = self.bytes.as_slice();
        while !rest.is_empty() {
            let (record, behind) = record_at(alloc, rest)?;
            items.push(record)?;
            rest = behind;
        }
        Ok(RecordList { items })
    }

    /// The bytes of the record of this number and of all behind it. Costs the labels of those before it.
    fn bytes_from(&self, number: usize) -> &[u8]
        requires { number < length self.now }
        ensures bytes { result.now ≡ records_bytes (drop number self.now) }
        ensures kept { AllByRecursion IsPackable self.now }
    {
        let mut rest = self.bytes.as_slice();
        for _ in 0..number {
            rest = behind_record(rest);
        }
        rest
    }

    /// The record of this number, the first being 0. Costs the labels of those before it, and its own size.
    pub fn record(&self, alloc: Global, number: usize) -> Result<Record, AllocError>
        requires { number < length self.now }
        ensures { IfOk result (λ r. slice_get self.now number ≡ Some r) }
    {
        let (record, _) = record_at(alloc, self.bytes_from(number))?;
        Ok(record)
    }

    /// The Tid of the record of this number. Costs the labels of those before it.
    pub fn tid(&self, number: usize) -> u64
        requires { number < length self.now }
        ensures { option_map (λ r. r.tid) (slice_get self.now number) ≡ Some result }
    {
        let (tid, _) = tid_at(self.bytes_from(number));
        tid
    }

    /// What the record of this number says of its place. Costs the labels of those before it, and its source's size.
    pub fn mark(&self, alloc: Global, number: usize) -> Result<RowMark, AllocError>
        requires { number < length self.now }
        ensures { IfOk result (λ m. option_map (λ r. mark_by r.op r.src) (slice_get self.now number) ≡ Some m) }
    {
        Ok(mark_at(alloc, self.bytes_from(number))?)
    }
}
