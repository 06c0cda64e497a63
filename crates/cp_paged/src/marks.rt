//! What the row of a record says.
ghost use Rattle.std.specs.Prelude.{◌≡◌, ◌≤◌, length, IfOk};
ghost use Rattle.std.specs.declared.option.Option.TheVariants.{Some};
ghost use Rattle.cp_path.specs.declared.limits.TheConstants.{LABELS_MAX};
ghost use Rattle.cp_model.specs.Records.{is_D, mark_by};
ghost use Rattle.cp_model.specs.Rows.{read_mark};
ghost use Rattle.cp_model.specs.declared.record.RowMark.{RowMark as Mark};
ghost use Rattle.cp_store.specs.Told.{reading_if};
ghost use Rattle.cp_paged.specs.Marks.{Says};

use cp_model::{RecOp, Record, RowMark, What};
use cp_page::{PageRow, record_by_place};
use cp_path::Label;
use cp_store::done_by;
use std::alloc::{AllocError, Global};

/// What a record says of its place.
fn mark_of(record: Record) -> RowMark
    ensures { result ≡ mark_by record.op record.src }
{
    let Record { op, src, .. } = record;
    match op {
        RecOp::I => RowMark::Made,
        RecOp::C => match src {
            Some(from) => RowMark::Copied(from),
            None => RowMark::Kept,
        },
        RecOp::D => RowMark::Gone,
        RecOp::K => RowMark::Kept,
    }
}

/// What the record of a row in the order by place says of it; none where the row is of no record. Costs the row's bytes.
fn mark_of_row(alloc: Global, row: &PageRow) -> Result<Option<RowMark>, AllocError>
    ensures { (m : Mark) → Says row.now m → IfOk result (λ o. o ≡ Some m) }
{
    let key = row.key.as_slice();
    let record = record_by_place(alloc, key, row.value.as_slice())?;
    match record {
        Some(record) => Ok(Some(mark_of(record))),
        None => Ok(None),
    }
}

/// What a row in the order by place has done to the place at these labels below its own; none where that is the same, or the row
/// is of no record. Costs the row's bytes, and the labels.
pub(crate) fn done_by_row(
    alloc: Global,
    row: &PageRow,
    rest: &[Label],
) -> Result<Option<What>, AllocError>
    requires { length rest.now ≤ LABELS_MAX }
    ensures { (m : Mark) → Says row.now m → IfOk result (λ w. reading_if w ≡ read_mark m rest.now) }
{
    let mark = mark_of_row(alloc, row)?;
    match mark {
        Some(mark) => done_by(mark, rest),
        None => Ok(None),
    }
}

/// Whether it says that the place is gone.
fn is_gone(mark: &RowMark) -> bool
    ensures { result ≡ is_D mark.now }
{
    match mark {
        RowMark::Gone => true,
        RowMark::Made | RowMark::Copied(_) | RowMark::Kept => false,
    }
}

/// Whether a row in the order by place says that its place is gone. Costs the row's bytes.
pub(crate) fn says_gone(alloc: Global, row: &PageRow) -> Result<bool, AllocError>
    ensures { (m : Mark) → Says row.now m → IfOk result (λ b. b ≡ is_D m) }
{
    let mark = mark_of_row(alloc, row)?;
    match mark {
        Some(mark) => Ok(is_gone(&mark)),
        None => Ok(false),
    }
}
