//! Rows on pages, looked up by their keys.
ghost use Rattle.std.specs.Prelude.{◌≡◌, ◌<◌, ◌≤◌, ◌+◌, ◌^◌, ◌==◌, ◌&&◌, ◌++◌, ◌∷◌, [], ℕ, List, true, length, map, IfOk, IfSome, MatchOption, OnOk};
ghost use Rattle.std.specs.List.{AllByRecursion, list_all, list_any};
ghost use Rattle.std.specs.Option.{option_copied};
ghost use Rattle.std.specs.declared.option.Option.TheVariants.{None, Some};
ghost use Rattle.cp_format.specs.Spelled.{IsSpelled};
ghost use Rattle.cp_path.specs.declared.loc.Loc.{Loc};
ghost use Rattle.cp_model.specs.Changes.{records_at};
ghost use Rattle.cp_model.specs.Leaps.{losts};
ghost use Rattle.cp_model.specs.Past.{is_child};
ghost use Rattle.cp_model.specs.Place.{at_target, strip};
ghost use Rattle.cp_model.specs.Records.{is_D, loses, mark_by};
ghost use Rattle.cp_model.specs.declared.kind.Kind.{Kind};
ghost use Rattle.cp_model.specs.declared.record.Record.{Record};
ghost use Rattle.cp_page.specs.Orders.{by_step, place_tid};
ghost use Rattle.cp_store.specs.Lost.{is_within};
ghost use Rattle.cp_paged.specs.Calls.{AsksKeys};
ghost use Rattle.cp_paged.specs.Keyed.{AreTidsAt, IsOneMore, IsOther, IsTidAt, KeepsByKey};
ghost use Rattle.cp_paged.specs.Listing.{Lists, survives};
ghost use Rattle.cp_paged.specs.Newest.{IsNewestRow};

use crate::keyed::KeyedRows;
use crate::places::PlaceRow;
use crate::room::{KeyRoom, place_key_at, step_end};
use cp_model::{RecOp, Record, RecordList, TidList};
use cp_page::{PageRow, record_by_step};
use cp_path::Label;
use cp_store::StoreFault;
use std::alloc::{AllocError, Global};

// ---- By place

/// The Tid after the place, where the key of a row is of the same place as another key.
fn tid_at_place(row_key: &[u8], key: &[u8]) -> Option<u64>
    ensures { (q : Loc) (u : ℕ) → key.now ≡ place_tid q u
        → MatchOption result (IsOther q row_key.now) (λ t. (t < 2 ^ 64) × (row_key.now ≡ place_tid q t)) }
{
    let Some((front, last)) = row_key.split_last_chunk::<8>() else {
        return None;
    };
    let Some((place, _)) = key.split_last_chunk::<8>() else {
        return None;
    };
    if front != place {
        return None;
    }
    Some(u64::from_be_bytes(*last))
}

/// The row, where its key is of the same place as another key, and of a step up to `t`.
fn row_at_place(found: Option<PageRow>, key: &[u8], t: u64) -> Option<PlaceRow>
    ensures row { (q : Loc) (u : ℕ) → key.now ≡ place_tid q u → IfSome result (λ d.
        (found ≡ Some d.row) × (d.tid < 2 ^ 64) × (d.row.key ≡ place_tid q d.tid)) }
    ensures within { IfSome result (λ d. d.tid ≤ t) }
    ensures none { (q : Loc) (u : ℕ) → key.now ≡ place_tid q u → result ≡ None
        → IfSome found (λ r. (v : ℕ) → v < 2 ^ 64 → v ≤ t → r.key ≡ place_tid q v → ⊥) }
{
    let Some(row) = found else {
        return None;
    };
    let Some(tid) = tid_at_place(row.key.as_slice(), key) else {
        return None;
    };
    if tid > t {
        return None;
    }
    Some(PlaceRow { tid, row })
}

/// The row of the newest step up to `t` at the place of these labels. The buffer is for its key. Costs one look.
pub(crate) fn newest_row<L: KeyedRows>(
    rows: &mut L,
    alloc: Global,
    room: &mut KeyRoom,
    labels: &[Label],
    t: u64,
) -> Result<Option<PlaceRow>, StoreFault>
    ensures newest { (k : Kind) (upto : ℕ) (rs : List Record) → KeepsByKey (L.has_rows rows.old) k upto rs
        → IfOk result (λ o. IsNewestRow rs labels.now t o) }
    ensures within { IfOk result (λ o. IfSome o (λ d. d.tid ≤ t)) }
    ensures reads { L.reads rows.new ≤ L.reads rows.old + (L.cost rows.old).look }
    ensures asks { AsksKeys L.KeyedRows (λ e. e ≡ StoreFault.Disk) rows.old rows.new result }
{
    room.set(labels, t)?;
    let key = room.as_slice();
    let found = rows.greatest_by_place(alloc, key)?;
    Ok(row_at_place(found, key, t))
}

// ---- By the place that lost a child

/// Whether the Tid is after `low`, and no later than `high`.
fn is_within(tid: u64, low: u64, high: u64) -> bool
    ensures { result ≡ is_within low high tid }
{
    low < tid && tid <= high
}

/// Adds the Tid of the key of a row, if that is of the same place as another key, and the Tid after `low` up to `high`.
fn push_tid(
    tids: &mut Vec<u64>,
    row: &PageRow,
    key: &[u8],
    low: u64,
    high: u64,
) -> Result<(), AllocError>
    ensures tid { (q : Loc) (u : ℕ) → key.now ≡ place_tid q u → IsTidAt q low high row.now
        → OnOk result (IsOneMore q row.now.key tids.old.items tids.new.items) }
    ensures within { list_all (is_within low high) tids.old.items ≡ true
        → OnOk result (list_all (is_within low high) tids.new.items ≡ true) }
{
    let Some(tid) = tid_at_place(row.key.as_slice(), key) else {
        return Ok(());
    };
    if !is_within(tid, low, high) {
        return Ok(());
    }
    tids.push(tid)?;
    Ok(())
}

/// The Tids after `low` up to `high` of those of the rows that are of the same place as a key.
fn tids_at_place(
    alloc: Global,
    rows: &[PageRow],
    key: &[u8],
    low: u64,
    high: u64,
) -> Result<TidList, AllocError>
    ensures all { (q : Loc) (u : ℕ) → key.now ≡ place_tid q u → AreTidsAt q low high rows.now
        → IfOk result (λ v. map (λ r. r.key) rows.now ≡ map (place_tid q) v) }
    ensures within { IfOk result (λ v. list_all (is_within low high) v ≡ true) }
{
    let mut items = Vec::new(alloc);
    for row in rows {
        push_tid(&mut items, row, key, low, high)?;
    }
    Ok(TidList { items })
}

/// The steps after `low` up to `high` that left the place of these labels, and of which a row says that a child of it is gone;
/// rising. Costs a look, and one more for each run, and the answer.
pub(crate) fn lost_tids<L: KeyedRows>(
    rows: &mut L,
    alloc: Global,
    labels: &[Label],
    low: u64,
    high: u64,
) -> Result<TidList, StoreFault>
    ensures lost { (k : Kind) (upto : ℕ) (rs : List Record) → KeepsByKey (L.has_rows rows.old) k upto rs
        → IfOk result (λ v. Lists (survives rs labels.now) low high v) }
    ensures within { IfOk result (λ v. list_all (is_within low high) v ≡ true) }
    ensures reads { (k : Kind) (upto : ℕ) (rs : List Record) → KeepsByKey (L.has_rows rows.old) k upto rs → L.reads rows.new
        ≤ L.reads rows.old + ((L.cost rows.old).look + (L.cost rows.old).runs + length (losts (λ t p. survives rs p t) low high labels.now)) }
    ensures asks { AsksKeys L.KeyedRows (λ e. e ≡ StoreFault.Disk) rows.old rows.new result }
{
    if high <= low {
        return Ok(TidList {
            items: Vec::new(alloc),
        });
    }
    let from = place_key_at(alloc, labels, low + 1)?;
    let to = place_key_at(alloc, labels, high)?;
    let key = to.as_slice();
    let found = rows.between_by_loser(alloc, from.as_slice(), key)?;
    Ok(tids_at_place(alloc, found.as_slice(), key, low, high)?)
}

// ---- By step

/// Adds the record of a row in the order by step, if it is of one.
fn push_record(alloc: Global, records: &mut Vec<Record>, row: &PageRow) -> Result<(), AllocError>
    ensures { (r : Record) → IsSpelled r → by_step r ≡ row.now → OnOk result (records.new.items ≡ records.old.items ++ r ∷ []) }
{
    let key = row.key.as_slice();
    let record = record_by_step(alloc, key, row.value.as_slice())?;
    let Some(record) = record else {
        return Ok(());
    };
    records.push(record)?;
    Ok(())
}

/// The records of rows in the order by step; of those that are of no record, none.
fn records_of(alloc: Global, rows: &[PageRow]) -> Result<RecordList, AllocError>
    ensures { (rs : List Record) → AllByRecursion IsSpelled rs → rows.now ≡ map by_step rs → IfOk result (λ l. l ≡ rs) }
{
    let mut items = Vec::new(alloc);
    for row in rows {
        push_record(alloc, &mut items, row)?;
    }
    Ok(RecordList { items })
}

/// The rows of one step, by place.
pub(crate) fn step_records<L: KeyedRows>(
    rows: &mut L,
    alloc: Global,
    t: u64,
) -> Result<RecordList, StoreFault>
    ensures found { (k : Kind) (upto : ℕ) (rs : List Record) → KeepsByKey (L.has_rows rows.old) k upto rs
        → IfOk result (λ v. v ≡ records_at rs t) }
    ensures asks { AsksKeys L.KeyedRows (λ e. e ≡ StoreFault.Disk) rows.old rows.new result }
{
    let low = step_end(alloc, t, b'T')?;
    let high = step_end(alloc, t, b'U')?;
    let found = rows.between_by_step(alloc, low.as_slice(), high.as_slice())?;
    Ok(records_of(alloc, found.as_slice())?)
}

/// What of a place follows its prefix, if that is one.
fn rest_of<'a>(place: &'a [Label], prefix: &[Label]) -> Option<&'a [Label]>
    ensures { option_copied result ≡ strip prefix.now place.now }
{
    place.strip_prefix(prefix)
}

/// Whether it is one label.
fn is_one(rest: &[Label]) -> bool
    ensures { result ≡ (length rest.now == 1) }
{
    rest.len() == 1
}

/// Whether a place is a child of another.
fn is_child(place: &[Label], parent: &[Label]) -> bool
    ensures { result ≡ is_child parent.now place.now }
{
    match rest_of(place, parent) {
        Some(rest) => is_one(rest),
        None => false,
    }
}

/// Whether a record says that a child of the place of these labels is gone.
fn takes_child(record: &Record, labels: &[Label]) -> bool
    ensures { result ≡ (is_child labels.now record.now.loc.path && is_D (mark_by record.now.op record.now.src)) }
{
    if record.op != RecOp::D {
        return false;
    }
    is_child(record.loc.path.labels(), labels)
}

/// Whether one of the records does.
fn take_child(records: &[Record], labels: &[Label]) -> bool
    ensures { result ≡ list_any (λ r. is_child labels.now r.loc.path && is_D (mark_by r.op r.src)) records.now }
{
    for record in records {
        if takes_child(record, labels) {
            return true;
        }
    }
    false
}

/// Whether a row of the step says that a child of the place of these labels is gone. Costs the rows of the step.
pub(crate) fn step_takes_child<L: KeyedRows>(
    rows: &mut L,
    alloc: Global,
    labels: &[Label],
    t: u64,
) -> Result<bool, StoreFault>
    ensures gone { (k : Kind) (upto : ℕ) (rs : List Record) → KeepsByKey (L.has_rows rows.old) k upto rs
        → IfOk result (λ b. b ≡ loses rs t labels.now) }
    ensures asks { AsksKeys L.KeyedRows (λ e. e ≡ StoreFault.Disk) rows.old rows.new result }
{
    let records = step_records(rows, alloc, t)?;
    let RecordList { items } = records;
    Ok(take_child(items.as_slice(), labels))
}
