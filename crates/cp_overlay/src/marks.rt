//! Rows by place, as they are found.
ghost use Rattle.std.specs.Prelude.{◌≡◌, ◌++◌, ◌∷◌, [], false, cond, IfOk, OnOk};
ghost use Rattle.std.specs.declared.option.Option.TheVariants.{None, Some};
ghost use Rattle.std.specs.BTreeMap.{IsOrdered};
ghost use Rattle.cp_model.specs.Place.{Path as PathValue, at_target, path_cmp, path_eq};
ghost use Rattle.cp_model.specs.Keyed.{look};
ghost use Rattle.cp_model.specs.History.{record_of, with_tid};
ghost use Rattle.cp_model.specs.declared.record.RowMark.TheVariants.{Copied};
ghost use Rattle.cp_record.specs.Kept.{is_copy};

use cp_model::{RecOp, RowMark};
use cp_path::{Loc, Path};
use cp_record::PackedRecords;
use std::alloc::{AllocError, Global};
use std::collections::BTreeMap;

/// What the rows of a step say, by place.
pub(crate) type Marks = BTreeMap<Path, RowMark>;

/// Notes the row of a place, in the place of one that was noted there. Costs a logarithm of the rows.
pub(crate) fn note(marks: &mut Marks, place: Path, mark: RowMark) -> Result<(), AllocError>
    ensures { OnOk result ((r : PathValue) → look r marks.new.entries ≡ cond (path_eq r place) (Some mark) (look r marks.old.entries)) }
{
    drop(marks.insert(place, mark)?);
    Ok(())
}

/// The rows as records of a step, in the order of their places. Costs their bytes.
pub(crate) fn records(alloc: Global, tid: u64, marks: Marks) -> Result<PackedRecords, AllocError>
    ensures value { IfOk result (λ rs. rs ≡ with_tid tid marks.entries) }
    ensures order { IsOrdered path_cmp marks }
{
    let _ = marks.len();
    let mut marks = marks;
    let mut records = PackedRecords::new(alloc);
    while let Some(row) = marks.pop_first() {
        push_row(alloc, &mut records, tid, row)?;
    }
    Ok(records)
}

/// Appends the record of a row.
fn push_row(
    alloc: Global,
    records: &mut PackedRecords,
    tid: u64,
    row: (Path, RowMark),
) -> Result<(), AllocError>
    ensures { OnOk result (records.new ≡ records.old ++ record_of tid row.0 row.1 ∷ []) }
{
    let (place, mark) = row;
    let pushed = push(alloc, records, tid, &place, &mark);
    drop(place);
    drop(mark);
    pushed
}

/// Appends the record that says this of a place.
fn push(
    alloc: Global,
    records: &mut PackedRecords,
    tid: u64,
    place: &Path,
    mark: &RowMark,
) -> Result<(), AllocError>
    ensures { OnOk result (records.new ≡ records.old ++ record_of tid place.now mark.now ∷ []) }
{
    match mark {
        RowMark::Made => push_sourceless(alloc, records, tid, RecOp::I, place),
        RowMark::Copied(from) => push_copied(alloc, records, tid, place, from),
        RowMark::Gone => push_sourceless(alloc, records, tid, RecOp::D, place),
        RowMark::Kept => push_sourceless(alloc, records, tid, RecOp::K, place),
    }
}

/// Appends the record of a place, which isn't of a copy.
fn push_sourceless(
    alloc: Global,
    records: &mut PackedRecords,
    tid: u64,
    op: RecOp,
    place: &Path,
) -> Result<(), AllocError>
    requires { is_copy op ≡ false }
    ensures { OnOk result (records.new ≡ records.old ++ record { tid = tid; op = op; loc = at_target place.now; src = None } ∷ []) }
{
    let root = Path::root(alloc);
    let _ = place.labels();
    records.push(tid, op, place, &root, None)
}

/// Appends the record of a place that was copied from another.
fn push_copied(
    alloc: Global,
    records: &mut PackedRecords,
    tid: u64,
    place: &Path,
    from: &Loc,
) -> Result<(), AllocError>
    ensures { OnOk result (records.new ≡ records.old ++ record_of tid place.now (Copied from.now) ∷ []) }
{
    let root = Path::root(alloc);
    let _ = place.labels();
    let _ = from.path.labels();
    records.push(tid, RecOp::C, place, &root, Some(from))
}
