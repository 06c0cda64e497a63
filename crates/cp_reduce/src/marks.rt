//! Rows by place, as they are found.
ghost use Rattle.std.specs.Prelude.{◌≡◌, ◌++◌, ◌∷◌, [], cond, IfOk, OnOk};
ghost use Rattle.std.specs.declared.option.Option.TheVariants.{Some};
ghost use Rattle.std.specs.BTreeMap.{IsOrdered};
ghost use Rattle.cp_model.specs.Place.{Path as PathValue, path_cmp, path_eq};
ghost use Rattle.cp_model.specs.Keyed.{look};
ghost use Rattle.cp_model.specs.History.{record_of, with_tid};

use cp_model::{RecOp, Record, RecordList, RowMark};
use cp_path::{Loc, Name, Path};
use std::alloc::{AllocError, Global};
use std::collections::BTreeMap;

/// What the rows of a step say, by place.
pub(crate) type Marks = BTreeMap<Path, RowMark>;

/// Notes the row of a place, in the place of one that was noted there. Costs a logarithm of the rows.
pub(crate) fn note(marks: &mut Marks, place: Path, mark: RowMark) -> Result<(), AllocError>
    ensures { OnOk result ((r : PathValue) → look r marks.new.entries ≡ cond (path_eq r place) (Some mark) (look r marks.old.entries)) }
{
    drop(marks.insert(place, mark)?);
    Ok(())
}

/// The rows as records of a step, in the order of their places. Costs their bytes.
pub(crate) fn records(alloc: Global, tid: u64, marks: Marks) -> Result<RecordList, AllocError>
    ensures value { IfOk result (λ rs. rs ≡ with_tid tid marks.entries) }
    ensures order { IsOrdered path_cmp marks }
{
    let _ = marks.len();
    let mut marks = marks;
    let mut items = Vec::new(alloc);
    while let Some(row) = marks.pop_first() {
        push_row(alloc, &mut items, tid, row)?;
    }
    Ok(RecordList { items })
}

/// Appends the record of a row.
fn push_row(
    alloc: Global,
    items: &mut Vec<Record>,
    tid: u64,
    row: (Path, RowMark),
) -> Result<(), AllocError>
    ensures { OnOk result (items.new.items ≡ items.old.items ++ record_of tid row.0 row.1 ∷ []) }
{
    let (place, mark) = row;
    let record = record_of(alloc, tid, place, mark)?;
    items.push(record)?;
    Ok(())
}

/// The record of a row.
fn record_of(alloc: Global, tid: u64, path: Path, mark: RowMark) -> Result<Record, AllocError>
    ensures { IfOk result (λ r. r ≡ record_of tid path mark) }
{
    let Ok(db) = Name::target(alloc) else {
        drop(path);
        drop(mark);
        return Err(AllocError);
    };
    let loc = Loc { db, path };
    let (op, src) = match mark {
        RowMark::Made => (RecOp::I, None),
        RowMark::Copied(from) => (RecOp::C, Some(from)),
        RowMark::Gone => (RecOp::D, None),
        RowMark::Kept => (RecOp::K, None),
    };
    Ok(Record { tid, op, loc, src })
}
