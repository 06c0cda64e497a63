//! Rows of records in three orders.
//!
//! By place: the place's key, then the Tid in eight bytes. By step: the Tid first. In both the value is the record's letter and,
//! of a copy, the bytes of its source. By the place that lost a child: that place's key and the Tid, and no value.
ghost use Rattle.std.specs.Prelude.{◌≡◌, ◌≤◌, ◌++◌, length, IfErr, IfOk, OnOk};
ghost use Rattle.std.specs.Option.{option_map};
ghost use Rattle.cp_format.specs.Faults.{FaultAt};
ghost use Rattle.cp_format.specs.Formats.{ReadsAt};
ghost use Rattle.cp_format.specs.Parts.{source_format};
ghost use Rattle.cp_format.specs.Spelled.{IsSpelled};
ghost use Rattle.cp_record.specs.Bytes as stored;
ghost use Rattle.cp_record.specs.Packed.{Grew};
ghost use Rattle.cp_page.specs.KeyReading.{IsReadAs};
ghost use Rattle.cp_page.specs.Orders.{by_loser, by_place, by_step, mark_bytes, place_tid, tid_place, IsLoss, IsMark};
ghost use Rattle.cp_page.specs.Rows.{row_of};

use crate::place_key::{place_of_key, put_place_key};
use crate::row::PageRow;
use cp_format::{FormatFault, letter_at, place_at, put_place};
use cp_model::{RecOp, Record};
use cp_path::{Bytes, Label, Loc, Name};
use std::alloc::{AllocError, Global};

// ---- Writing

/// Appends the key of the place at these labels of a database, and the Tid after it. Costs its bytes. After an error `out` begins
/// with what it held.
pub fn put_place_tid(
    db: &Name,
    labels: &[Label],
    tid: u64,
    out: &mut Vec<u8>,
) -> Result<(), AllocError>
    ensures ok { OnOk result (out.new.items ≡ out.old.items ++ place_tid (record { db = db.now; path = labels.now }) tid) }
    ensures err { Grew out.old.items out.new.items }
{
    put_place_key(db, labels, out)?;
    out.extend_from_slice(&tid.to_be_bytes())
}

/// Appends the Tid, and after it the key of the place at these labels of a database. Costs its bytes. After an error `out` begins
/// with what it held.
pub fn put_tid_place(
    db: &Name,
    labels: &[Label],
    tid: u64,
    out: &mut Vec<u8>,
) -> Result<(), AllocError>
    ensures ok { OnOk result (out.new.items ≡ out.old.items ++ tid_place (record { db = db.now; path = labels.now }) tid) }
    ensures err { Grew out.old.items out.new.items }
{
    out.extend_from_slice(&tid.to_be_bytes())?;
    put_place_key(db, labels, out)
}

/// The letter of a record in ASCII.
fn letter(op: RecOp) -> u8
    ensures { result ≡ stored.letter op }
{
    match op {
        RecOp::I => b'I',
        RecOp::C => b'C',
        RecOp::D => b'D',
        RecOp::K => b'K',
    }
}

/// Appends the place that a copy came from, if there is one.
fn put_source(source: Option<&Loc>, out: &mut Vec<u8>) -> Result<(), AllocError>
    ensures { OnOk result (out.new.items ≡ out.old.items ++ stored.source_bytes (option_map (λ q. q.now) source.entry)) }
{
    match source {
        None => Ok(()),
        Some(place) => put_place(place, out),
    }
}

/// The value of a record's row.
fn value_of(alloc: Global, record: &Record) -> Result<Bytes, AllocError>
    ensures { IfOk result (λ v. v ≡ mark_bytes («record».now.op, «record».now.src)) }
{
    let mut items = Vec::new(alloc);
    items.push(letter(record.op))?;
    put_source(record.src.as_ref(), &mut items)?;
    Ok(Bytes { items })
}

/// The row of a record in the order by place. Costs its bytes.
pub fn row_by_place(alloc: Global, record: &Record) -> Result<PageRow, AllocError>
    ensures { IfOk result (λ r. r ≡ by_place «record».now) }
{
    let mut items = Vec::new(alloc);
    put_place_tid(
        &record.loc.db,
        record.loc.path.labels(),
        record.tid,
        &mut items,
    )?;
    let value = value_of(alloc, record)?;
    Ok(PageRow {
        key: Bytes { items },
        value,
    })
}

/// The row of a record in the order by step. Costs its bytes.
pub fn row_by_step(alloc: Global, record: &Record) -> Result<PageRow, AllocError>
    ensures { IfOk result (λ r. r ≡ by_step «record».now) }
{
    let mut items = Vec::new(alloc);
    put_tid_place(
        &record.loc.db,
        record.loc.path.labels(),
        record.tid,
        &mut items,
    )?;
    let value = value_of(alloc, record)?;
    Ok(PageRow {
        key: Bytes { items },
        value,
    })
}

/// The row of a place that lost a child in the step of this Tid. Costs its bytes.
pub fn row_by_loser(alloc: Global, place: &Loc, tid: u64) -> Result<PageRow, AllocError>
    ensures { IfOk result (λ r. r ≡ by_loser (place.now, tid)) }
{
    let mut items = Vec::new(alloc);
    put_place_tid(&place.db, place.path.labels(), tid, &mut items)?;
    let value = Bytes {
        items: Vec::new(alloc),
    };
    Ok(PageRow {
        key: Bytes { items },
        value,
    })
}

// ---- Reading

/// What follows the letter of a record of this operation: of a copy the place that it came from.
fn source_at(
    alloc: Global,
    op: RecOp,
    bytes: &[u8],
    at: usize,
) -> Result<(Option<Loc>, usize), FormatFault>
    requires { at ≤ length bytes.now }
    ensures read { IfOk result (λ x. ReadsAt (source_format op) bytes.now at x.0 x.1) }
    ensures fault { IfErr result (FaultAt (source_format op) bytes.now at) }
{
    match op {
        RecOp::C => {
            let (place, at) = place_at(alloc, bytes, at)?;
            Ok((Some(place), at))
        }
        _ => Ok((None, at)),
    }
}

/// The letter and the source that a row's value is; none where it is no such value.
fn mark_of(alloc: Global, value: &[u8]) -> Result<Option<(RecOp, Option<Loc>)>, AllocError>
    ensures { IfOk result (IsReadAs IsMark mark_bytes value.now) }
{
    let (op, at) = match letter_at(value, 0) {
        Ok(read) => read,
        Err(FormatFault::BadByte(_)) => return Ok(None),
        Err(FormatFault::Memory) => return Err(AllocError),
    };
    let (source, end) = match source_at(alloc, op, value, at) {
        Ok(read) => read,
        Err(FormatFault::BadByte(_)) => return Ok(None),
        Err(FormatFault::Memory) => return Err(AllocError),
    };
    if end < value.len() {
        return Ok(None);
    }
    Ok(Some((op, source)))
}

/// The record that a row has in the order by place; none where the key or the value is of no record. Costs its bytes.
pub fn record_by_place(
    alloc: Global,
    key: &[u8],
    value: &[u8],
) -> Result<Option<Record>, AllocError>
    ensures { IfOk result (IsReadAs IsSpelled by_place (row_of key.now value.now)) }
{
    let Some((front, last)) = key.split_last_chunk::<8>() else {
        return Ok(None);
    };
    let Some(loc) = place_of_key(alloc, front)? else {
        return Ok(None);
    };
    let Some((op, src)) = mark_of(alloc, value)? else {
        return Ok(None);
    };
    let tid = u64::from_be_bytes(*last);
    Ok(Some(Record { tid, op, loc, src }))
}

/// The record that a row has in the order by step; none where the key or the value is of no record. Costs its bytes.
pub fn record_by_step(alloc: Global, key: &[u8], value: &[u8]) -> Result<Option<Record>, AllocError>
    ensures { IfOk result (IsReadAs IsSpelled by_step (row_of key.now value.now)) }
{
    let Some((first, behind)) = key.split_first_chunk::<8>() else {
        return Ok(None);
    };
    let Some(loc) = place_of_key(alloc, behind)? else {
        return Ok(None);
    };
    let Some((op, src)) = mark_of(alloc, value)? else {
        return Ok(None);
    };
    let tid = u64::from_be_bytes(*first);
    Ok(Some(Record { tid, op, loc, src }))
}

/// The place that lost a child, and the Tid of the step, by a row of that order; none where the key is of no such place, or there
/// is a value. Costs its bytes.
pub fn loss_of(alloc: Global, key: &[u8], value: &[u8]) -> Result<Option<(Loc, u64)>, AllocError>
    ensures { IfOk result (IsReadAs IsLoss by_loser (row_of key.now value.now)) }
{
    let Some((front, last)) = key.split_last_chunk::<8>() else {
        return Ok(None);
    };
    if !value.is_empty() {
        return Ok(None);
    }
    match place_of_key(alloc, front)? {
        Some(place) => Ok(Some((place, u64::from_be_bytes(*last)))),
        None => Ok(None),
    }
}
