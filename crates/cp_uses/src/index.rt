//! The copies among rows, by the places from which they copied.
ghost use Rattle.std.specs.Prelude.{◌≡◌, ◌<◌, ◌++◌, ◌∷◌, [], List, true, length, filter, nat_lt, IfOk, OnOk};
ghost use Rattle.std.specs.List.{slice_get};
ghost use Rattle.std.specs.List.Sorted.{IsNonDecreasingBy};
ghost use Rattle.std.specs.declared.option.Option.TheVariants.{Some};
ghost use Rattle.cp_model.specs.Changes.{rises};
ghost use Rattle.cp_model.specs.declared.record.Record.{Record as Row};
ghost use Rattle.cp_uses.specs.Index.{AreCopiesOf, AreStepsOf, copies_by};
ghost use Rattle.std.specs.Option.{option_copied};
ghost use Rattle.cp_uses.specs.Sources.{source_of, copies_after};

use crate::source::{key_of, write_key};
use cp_model::{RecOp, Record};
use cp_path::Loc;
use cp_store::{Index, Step, note, steps_at};
use std::alloc::{AllocError, Global};
use std::collections::BTreeMap;
use std::marker::Model;

/// The copies among rows, by the places from which they copied, those of each in the order of the rows.
#[derive(Drop)]
pub struct UseIndex<'a> {
    rows: &'a [Record],
    copies: Index,
}

impl<'a> Model for UseIndex<'a> {
    ghost use Rattle.std.specs.Prelude.{List};
    ghost use Rattle.cp_model.specs.declared.record.Record.{Record};
    ghost use Rattle.cp_uses.specs.Index.{IsIndexOf};

    ghost Value = { List Record };

    ghost view = { λ x. x.rows.now };

    ghost invariant = { λ x. IsIndexOf x.rows.now x.copies };
}

/// The place from which a row was copied, if it was.
pub(crate) fn source_of(row: &Record) -> Option<&Loc>
    ensures { option_copied result ≡ source_of row.now }
{
    match row.op {
        RecOp::C => row.src.as_ref(),
        RecOp::I | RecOp::D | RecOp::K => None,
    }
}

/// A copy of a row.
fn copy_of(row: &Record) -> Result<Record, AllocError>
    ensures { IfOk result (λ r. r ≡ row.now) }
{
    Ok(row.clone()?)
}

/// Notes the row of this number, if it is that of a copy; `key` is room for a key. Costs its source's size, and a logarithm of
/// the places noted.
fn note_copy(
    copies: &mut Index,
    alloc: Global,
    key: &mut Vec<u8>,
    number: usize,
    row: &Record,
) -> Result<(), AllocError>
    ensures { OnOk result ((rs : List Row) → number ≡ length rs → AreCopiesOf rs copies.old
        → AreCopiesOf (rs ++ row.now ∷ []) copies.new) }
{
    let Some(source) = source_of(row) else {
        return Ok(());
    };
    write_key(key, source)?;
    let step = Step {
        tid: row.tid,
        row: number,
    };
    note(copies, alloc, key.as_slice(), step)
}

/// The steps of these that are after one. Costs a logarithm of them.
fn steps_after(steps: &[Step], after: u64) -> &[Step]
    requires { IsNonDecreasingBy (λ s. s.tid) steps.now }
    ensures { result.now ≡ filter (λ s. nat_lt after s.tid) steps.now }
{
    let count = steps.partition_point(|step| step.tid <= after);
    steps.split_at(count).1
}

/// The row of this number.
fn row_of(rows: &[Record], number: usize) -> &Record
    requires { number < length rows.now }
    ensures { slice_get rows.now number ≡ Some result.now }
{
    &rows[number]
}

impl<'a> UseIndex<'a> {
    /// The index of these rows. Costs a logarithm of the places for each copy, and the sizes of their sources.
    pub fn new(alloc: Global, rows: &'a [Record]) -> Result<UseIndex<'a>, AllocError>
        requires { rises rows.now ≡ true }
        ensures { IfOk result (λ x. x ≡ rows.now) }
    {
        let mut copies = BTreeMap::new(alloc);
        let mut key = Vec::new(alloc);
        for (number, row) in rows.iter().enumerate() {
            note_copy(&mut copies, alloc, &mut key, number, row)?;
        }
        Ok(UseIndex { rows, copies })
    }

    /// The copies in the steps after one from the place with this key, in the order of the rows. Costs a logarithm of the places
    /// and one of the copies from the place.
    pub(crate) fn copies_by(&self, key: &[u8], after: u64) -> &[Step]
        ensures steps { AreStepsOf self.now result.now (copies_by self.now key.now after) }
        ensures order { IsNonDecreasingBy (λ r. r.tid) (copies_by self.now key.now after) }
    {
        steps_after(steps_at(&self.copies, key), after)
    }

    /// The row of a copy, by its number.
    pub(crate) fn row(&self, number: usize) -> &'a Record
        requires { number < length self.now }
        ensures { slice_get self.now number ≡ Some result.now }
    {
        row_of(self.rows, number)
    }

    /// The copies from this place in the steps after one, by Tid and then by place. Costs a logarithm of the places and one of the
    /// copies from it, and copies of the rows that it gives.
    pub fn copies_of(
        &self,
        alloc: Global,
        source: &Loc,
        after: u64,
    ) -> Result<Vec<Record>, AllocError>
        ensures { IfOk result (λ v. v.items ≡ copies_after self.now source.now after) }
    {
        let key = key_of(alloc, source)?;
        let mut found = Vec::new(alloc);
        let steps = self.copies_by(key.as_slice(), after);
        for step in steps {
            found.push(copy_of(self.row(step.row))?)?;
        }
        Ok(found)
    }
}
