//! The rows of records in an order: `place`, `step`, or `loser`, in which a loss, `PLACE TID`, has a row.

use crate::fault::Fault;
use crate::pages::{row_on, row_text};
use crate::row::{add_line, first_line, row_of};
use crate::series::Series;
use cp_cases::number_of;
use cp_model::Record;
use cp_page::{
    PageRow, loss_of, record_by_place, record_by_step, row_by_loser, row_by_place, row_by_step,
};
use cp_path::Loc;
use cp_reply::record_text;
use cp_spelling::{place_text, read_place};
use std::alloc::{AllocError, Global};

// ---- Writing

/// The row of a loss.
fn row_of_loss(alloc: Global, line: &str) -> Result<PageRow, Fault> {
    let (place, tid) = line.rsplit_once(' ').unwrap_or((line, ""));
    let place = read_place(alloc, place)?;
    let row = row_by_loser(alloc, &place, number_of(tid));
    drop(place);
    Ok(row?)
}

/// The row of the record or of the loss on a line.
fn row_in(alloc: Global, order: &str, line: &str) -> Result<PageRow, Fault> {
    if order == "loser" {
        return row_of_loss(alloc, line);
    }
    let record = row_of(alloc, line)?;
    let row = if order == "step" {
        row_by_step(alloc, &record)
    } else {
        row_by_place(alloc, &record)
    };
    drop(record);
    Ok(row?)
}

/// Adds the row in an order of each record or loss of a text.
pub(crate) fn add_rows(
    alloc: Global,
    order: &str,
    text: &str,
    lines: &mut String,
) -> Result<(), Fault> {
    for line in text.split_terminator('\n') {
        let row = row_in(alloc, order, line)?;
        let line = row_text(alloc, &row)?;
        add_line(lines, line.as_str())?;
    }
    Ok(())
}

// ---- Reading

/// The record, if there is one.
fn text_of_record(alloc: Global, record: Option<Record>) -> Result<Option<String>, AllocError> {
    let text = match &record {
        Some(record) => record_text(alloc, record),
        None => return Ok(None),
    };
    drop(record);
    Ok(Some(text?))
}

/// The loss, if there is one.
fn text_of_loss(alloc: Global, loss: Option<(Loc, u64)>) -> Result<Option<String>, AllocError> {
    let Some((place, tid)) = loss else {
        return Ok(None);
    };
    let place = place_text(alloc, &place)?;
    Ok(Some(format!(in alloc; "{place} {tid}")?))
}

/// The record or the loss of which this is the row, if there is one.
fn text_in(alloc: Global, order: &str, row: &PageRow) -> Result<Option<String>, AllocError> {
    let key = row.key.as_slice();
    let value = row.value.as_slice();
    match order {
        "loser" => text_of_loss(alloc, loss_of(alloc, key, value)?),
        "step" => text_of_record(alloc, record_by_step(alloc, key, value)?),
        _ => text_of_record(alloc, record_by_place(alloc, key, value)?),
    }
}

/// Adds the record or the loss of each row of a text, or that it is of none.
pub(crate) fn add_records(
    alloc: Global,
    order: &str,
    text: &str,
    lines: &mut String,
) -> Result<(), Fault> {
    for line in text.split_terminator('\n') {
        let row = row_on(alloc, line)?;
        match text_in(alloc, order, &row)? {
            Some(text) => add_line(lines, text.as_str())?,
            None => add_line(lines, "none")?,
        }
    }
    Ok(())
}

// ---- Rows with other bytes

/// Whether the row with this byte at an offset is of a record or of a loss; the value's bytes are numbered after the key's.
fn is_read(
    alloc: Global,
    order: &str,
    line: &str,
    at: usize,
    byte: u8,
) -> Result<bool, AllocError> {
    let mut row = row_on(alloc, line)?;
    let size = row.key.items.len();
    if let Some(place) = row.key.items.get_mut(at) {
        *place = byte;
    } else if let Some(place) = row.value.items.get_mut(at.wrapping_sub(size)) {
        *place = byte;
    }
    Ok(text_in(alloc, order, &row)?.is_some())
}

/// With which bytes at an offset the row is read.
fn varied_at(alloc: Global, order: &str, line: &str, at: usize) -> Result<String, AllocError> {
    let mut series = Series::new(alloc, ", ");
    for byte in 0..=255u8 {
        let word = if is_read(alloc, order, line, at, byte)? {
            "yes"
        } else {
            "no"
        };
        series.add(alloc, word.to_string(alloc)?)?;
    }
    Ok(series.written)
}

/// Adds for each byte of a row, the value's after the key's, with which bytes in its place it is of a record or of a loss.
pub(crate) fn add_varied(
    alloc: Global,
    order: &str,
    text: &str,
    lines: &mut String,
) -> Result<(), Fault> {
    let (line, _) = first_line(text);
    let row = row_on(alloc, line)?;
    let size = row.key.items.len().saturating_add(row.value.items.len());
    drop(row);
    for at in 0..size {
        let bytes = varied_at(alloc, order, line, at)?;
        let line = format!(in alloc; "{at}: {bytes}")?;
        add_line(lines, line.as_str())?;
    }
    Ok(())
}
