//! The answers of pages and of the rows after them, as one.
ghost use Rattle.std.specs.Prelude.{◌≡◌, ◌+◌, ◌<◌, ◌≤◌, ◌^◌, ◌++◌, ℕ, List, true, false, IfOk, IfSome, OnOk};
ghost use Rattle.std.specs.List.{list_all};
ghost use Rattle.cp_path.specs.declared.limits.TheConstants.{LABELS_MAX};
ghost use Rattle.std.specs.Option.{option_map};
ghost use Rattle.cp_outside.specs.Causes.{Accounts};
ghost use Rattle.cp_model.specs.Below.{losses_at, tells_below};
ghost use Rattle.cp_model.specs.Changes.{change_told, change_at, records_at, AreNext};
ghost use Rattle.cp_model.specs.declared.record.Record.{Record};
ghost use Rattle.cp_store.specs.Calls.{Asks, ReadsAtMost};
ghost use Rattle.cp_store.specs.Costs.{IsQuiet, change_cost, losses_cost};
ghost use Rattle.cp_store.specs.Lost.{is_within};
ghost use Rattle.cp_paged.specs.Paged.{KeepsMore, both};

use crate::losing::losses_on;
use crate::newest::newest_change;
use crate::paged::LaterRows;
use crate::places::PlaceRows;
use cp_model::{Change, Record, RecordList, TidList};
use cp_path::{Label, Loc};
use cp_record::PackedRecords;
use cp_store::{ProvStore, StoreFault};
use std::alloc::{AllocError, Global};

/// The newest change up to `t`: that of the rows after those on pages, and where they have none, that of the pages.
pub(crate) fn last_change<K: PlaceRows>(
    store: &mut LaterRows,
    rows: &mut K,
    alloc: Global,
    loc: &Loc,
    t: u64,
) -> Result<Option<Change>, StoreFault>
    ensures found { (rs : List Record) → (both K.PlaceRows).keeps (store.old, rows.old) rs
        → IfOk result (λ c. change_told c ≡ change_at (K.kept_kind rows.old) rs t loc.now) }
    ensures within { IfOk result (λ c. IfSome c (λ d. (0 < d.tid) × (d.tid ≤ t))) }
    ensures reads { ReadsAtMost (both K.PlaceRows) (λ k rs c. change_cost k rs c t loc.now.path)
        (store.old, rows.old) (store.new, rows.new) }
    ensures asks { Asks (both K.PlaceRows) (λ e. e ≡ StoreFault.Disk) (store.old, rows.old) (store.new, rows.new) result }
{
    if !loc.db.is_target() {
        return Ok(None);
    }
    if let Some(change) = store.tail.last_change(alloc, loc, t)? {
        return Ok(Some(change));
    }
    let kind = rows.kind();
    newest_change(rows, alloc, kind, loc.path.labels(), t.min(store.upto))
}

/// The rows of one step: those on pages, or those after them.
pub(crate) fn rows_of<K: PlaceRows>(
    store: &mut LaterRows,
    rows: &mut K,
    alloc: Global,
    t: u64,
) -> Result<RecordList, StoreFault>
    ensures found { (rs : List Record) → (both K.PlaceRows).keeps (store.old, rows.old) rs
        → IfOk result (λ v. v ≡ records_at rs t) }
    ensures asks { Asks (both K.PlaceRows) (λ e. e ≡ StoreFault.Disk) (store.old, rows.old) (store.new, rows.new) result }
{
    if t <= store.upto {
        return rows.rows_of(alloc, t);
    }
    store.tail.rows_of(alloc, t)
}

/// The Tids of both, one list after the other.
fn joined(first: TidList, then: TidList) -> Result<TidList, AllocError>
    ensures { IfOk result (λ v. v ≡ first ++ then) }
{
    let TidList { mut items } = first;
    let TidList { items: more } = then;
    items.extend_from_slice(more.as_slice())?;
    Ok(TidList { items })
}

/// The losses after `low` up to `high`: those of the steps on pages, and those of the steps after them.
pub(crate) fn losses<K: PlaceRows>(
    store: &mut LaterRows,
    rows: &mut K,
    alloc: Global,
    loc: &Loc,
    low: u64,
    high: u64,
) -> Result<TidList, StoreFault>
    ensures found { (rs : List Record) → (both K.PlaceRows).keeps (store.old, rows.old) rs
        → IfOk result (λ v. v ≡ losses_at rs low high loc.now) }
    ensures within { IfOk result (λ v. list_all (is_within low high) v ≡ true) }
    ensures reads { (rs : List Record) → (both K.PlaceRows).keeps (store.old, rows.old) rs
        → IsQuiet (K.kept_kind rows.old) rs low high loc.now.path → K.reads rows.new
        ≤ K.reads rows.old + losses_cost (K.kept_kind rows.old) rs (K.cost rows.old) low high loc.now.path }
    ensures asks { Asks (both K.PlaceRows) (λ e. e ≡ StoreFault.Disk) (store.old, rows.old) (store.new, rows.new) result }
{
    if !loc.db.is_target() {
        return Ok(TidList {
            items: Vec::new(alloc),
        });
    }
    let later = store.tail.losses(alloc, loc, low.max(store.upto), high)?;
    let kind = rows.kind();
    let labels = loc.path.labels();
    let found = losses_on(rows, alloc, kind, labels, low, high.min(store.upto))?;
    Ok(joined(found, later)?)
}

/// Whether a row may be of a place below this one. Where there are no pages, the answer is exact; nothing is read for it.
pub(crate) fn tells_below<K: PlaceRows>(
    store: &mut LaterRows,
    rows: &mut K,
    alloc: Global,
    loc: &Loc,
    label: Option<&Label>,
) -> Result<bool, StoreFault>
    ensures found { (rs : List Record) → (both K.PlaceRows).keeps (store.old, rows.old) rs → IfOk result (λ b. b ≡ false
        → tells_below rs (option_map (λ a. a.now) label.entry) loc.now ≡ false) }
    ensures reads { K.reads rows.new ≡ K.reads rows.old }
    ensures asks { Asks (both K.PlaceRows) (λ e. e ≡ StoreFault.Disk) (store.old, rows.old) (store.new, rows.new) result }
{
    if !rows.is_empty() {
        return Ok(true);
    }
    store.tail.tells_below(alloc, loc, label)
}

/// Keeps the rows of the next steps in memory.
pub(crate) fn absorb(
    store: &mut LaterRows,
    alloc: Global,
    tids: u64,
    rows: &[Record],
) -> Result<(), StoreFault>
    requires room { store.old.tail.rows.upto + tids < 2 ^ 64 }
    requires next { AreNext store.old.tail.rows.upto (store.old.tail.rows.upto + tids) rows.now }
    ensures last { OnOk result (store.new.tail.rows.upto ≡ store.old.tail.rows.upto + tids) }
    ensures rows { OnOk result (KeepsMore store.old store.new rows.now) }
    ensures account { (n : ℕ) → Accounts (λ e. e ≡ StoreFault.Disk) n n result }
{
    store.tail.absorb(alloc, tids, rows)
}

/// The same of rows that are packed.
pub(crate) fn absorb_packed(
    store: &mut LaterRows,
    alloc: Global,
    tids: u64,
    rows: &PackedRecords,
) -> Result<(), StoreFault>
    requires room { store.old.tail.rows.upto + tids < 2 ^ 64 }
    requires next { AreNext store.old.tail.rows.upto (store.old.tail.rows.upto + tids) rows.now }
    ensures last { OnOk result (store.new.tail.rows.upto ≡ store.old.tail.rows.upto + tids) }
    ensures rows { OnOk result (KeepsMore store.old store.new rows.now) }
    ensures account { (n : ℕ) → Accounts (λ e. e ≡ StoreFault.Disk) n n result }
{
    store.tail.absorb_packed(alloc, tids, rows)
}
