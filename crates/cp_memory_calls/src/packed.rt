//! Rows that are packed and come back.

use crate::fault::Fault;
use crate::row::{add_line, add_rows, rows_of};
use cp_model::{RecOp, Record};
use cp_path::{LABELS_MAX, Path};
use cp_record::PackedRecords;
use std::alloc::{AllocError, Global};

/// Packs a row. The last `count` labels of its place stand below the others and, of a copy, below the source that is given.
fn push(
    alloc: Global,
    packed: &mut PackedRecords,
    row: &Record,
    count: usize,
) -> Result<(), Fault> {
    let labels = row.loc.path.labels();
    let (above, below) = labels.split_at(labels.len().saturating_sub(count));
    let base = Path::of(alloc, above)?;
    let below = Path::of(alloc, below)?;
    let pushed = match &row.src {
        None if row.op != RecOp::C => Some(packed.push(row.tid, row.op, &base, &below, None)),
        Some(source)
            if row.op == RecOp::C
                && source.path.labels().len() + below.labels().len() <= LABELS_MAX => {
            Some(packed.push(row.tid, row.op, &base, &below, Some(source)))
        }
        _ => None,
    };
    drop(base);
    drop(below);
    let Some(pushed) = pushed else {
        return Err(Fault::Source);
    };
    Ok(pushed?)
}

/// The rows, packed.
pub(crate) fn pack(alloc: Global, count: usize, rows: &[Record]) -> Result<PackedRecords, Fault> {
    let mut packed = PackedRecords::new(alloc);
    for row in rows {
        push(alloc, &mut packed, row, count)?;
    }
    Ok(packed)
}

/// Adds the rows that come back, and how many bytes they take packed.
fn add_back(alloc: Global, packed: &PackedRecords, lines: &mut String) -> Result<(), AllocError> {
    let back = packed.records(alloc)?;
    let added = add_rows(alloc, lines, back.items.as_slice());
    drop(back);
    added?;
    let bytes = packed.len();
    let line = format!(in alloc; "{bytes} bytes")?;
    add_line(lines, line.as_str())
}

/// Adds the rows that come back where these are packed, and how many bytes they take.
pub(crate) fn add_packed(
    alloc: Global,
    count: usize,
    text: &str,
    lines: &mut String,
) -> Result<(), Fault> {
    let rows = rows_of(alloc, text)?;
    let packed = pack(alloc, count, rows.as_slice());
    drop(rows);
    let packed = packed?;
    let added = add_back(alloc, &packed, lines);
    drop(packed);
    Ok(added?)
}
