//! Whether rows are those of the next steps, in their order, as a store has to get them.
ghost use Rattle.std.specs.Prelude.{◌≡◌, true, IsTrue};
ghost use Rattle.cp_model.specs.Changes.{AreNext, rises, goes_before, is_between, is_source};

use cp_model::{RecOp, Record};

/// Whether a row is of an earlier step than another, or of the same step and an earlier place.
fn goes_before(row: &Record, next: &Record) -> bool
    ensures { result ≡ goes_before row.now next.now }
{
    row.tid < next.tid || (row.tid == next.tid && row.loc.path.cmp(&next.loc.path).is_lt())
}

/// Whether each row goes before the next.
fn rises(rows: &[Record]) -> bool
    ensures { IsTrue result → rises rows.now ≡ true }
{
    for number in 1..rows.len() {
        if !goes_before(&rows[number - 1], &rows[number]) {
            return false;
        }
    }
    true
}

/// Whether a row is of a place of T and of a step after `low` up to `high`, with a source exactly where it is a copy.
fn is_row(row: &Record, low: u64, high: u64) -> bool
    ensures between { IsTrue result → is_between low high row.now ≡ true }
    ensures source { IsTrue result → is_source row.now.op row.now.src ≡ true }
{
    let is_copy = row.op == RecOp::C;
    row.loc.db.is_target() && low < row.tid && row.tid <= high && is_copy == row.src.is_some()
}

/// Whether the rows are those of the steps after `low` up to `high`, in their order.
pub(crate) fn are_next(rows: &[Record], low: u64, high: u64) -> bool
    ensures { IsTrue result → AreNext low high rows.now }
{
    for row in rows {
        if !is_row(row, low, high) {
            return false;
        }
    }
    rises(rows)
}
