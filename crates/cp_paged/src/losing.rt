//! The losses of a place, by the rows on pages.
ghost use Rattle.std.specs.Prelude.{◌≡◌, ◌<◌, ◌≤◌, ◌+◌, ◌&&◌, ◌||◌, ◌*◌, ℕ, suc, List, [], ◌∷◌, ◌++◌, ◌⊎◌, true, false, length, map, IfOk, OnOk, if◌then◌else◌};
ghost use Rattle.std.specs.List.{list_all};
ghost use Rattle.cp_path.specs.declared.limits.TheConstants.{LABELS_MAX};
ghost use Rattle.cp_model.specs.Answers.{tid_of};
ghost use Rattle.cp_model.specs.Leaps.{losts};
ghost use Rattle.cp_model.specs.Place.{Path};
ghost use Rattle.cp_model.specs.Records.{is_D, loses};
ghost use Rattle.cp_model.specs.declared.record.Record.{Record};
ghost use Rattle.cp_model.specs.declared.record.RowMark.{RowMark as Mark};
ghost use Rattle.cp_store.specs.Calls.{Asks};
ghost use Rattle.cp_store.specs.Costs.{IsQuiet, losses_cost, has_row, rows_within};
ghost use Rattle.cp_store.specs.Lost.{is_within, AreRisingTids};
ghost use Rattle.cp_paged.specs.Calls.{as_store};
ghost use Rattle.cp_model.specs.declared.kind.Kind.TheVariants as kind;
ghost use Rattle.cp_paged.specs.Marks.{Says};
ghost use Rattle.cp_paged.specs.Listing.{is_tid, goes_whole, can_go_whole, NeverGone};

use crate::marks::says_gone;
use crate::places::{PlaceRow, PlaceRows};
use cp_model::{Kind, TidList};
use cp_path::Label;
use cp_store::StoreFault;
use std::alloc::{AllocError, Global};

/// The Tids of both, rising. Costs a sort of them, where there are others.
fn united(lost: TidList, others: &[u64]) -> Result<TidList, AllocError>
    ensures rise { AreRisingTids lost → IfOk result (λ v. AreRisingTids v) }
    ensures all { IfOk result (λ v. (t : ℕ) → is_tid t v ≡ (is_tid t lost || is_tid t others.now)) }
{
    if others.is_empty() {
        return Ok(lost);
    }
    let TidList { mut items } = lost;
    items.extend_from_slice(others)?;
    items.sort()?;
    items.dedup();
    Ok(TidList { items })
}

/// Notes the step of the row, if the place of these labels went itself in it, and a child of it.
fn note_whole<K: PlaceRows>(
    rows: &mut K,
    alloc: Global,
    labels: &[Label],
    told: &PlaceRow,
    whole: &mut Vec<u64>,
) -> Result<(), StoreFault>
    ensures noted { (rs : List Record) (m : Mark) → K.keeps rows.old rs → Says told.now.row m → OnOk result (whole.new.items
        ≡ whole.old.items ++ (if loses rs told.now.tid labels.now && is_D m then told.now.tid ∷ [] else [])) }
    ensures others { OnOk result ((t : ℕ) → is_tid t whole.new.items ≡ true
        → (is_tid t whole.old.items ≡ true) ⊎ (told.now.tid ≡ t)) }
    ensures reads { (m : Mark) → Says told.now.row m → is_D m ≡ false → K.reads rows.new ≡ K.reads rows.old }
    ensures asks { Asks (as_store K.PlaceRows) (λ e. e ≡ StoreFault.Disk) rows.old rows.new result }
{
    if !says_gone(alloc, &told.row)? {
        return Ok(());
    }
    if rows.child_gone(alloc, labels, told.tid)? {
        whole.push(told.tid)?;
    }
    Ok(())
}

/// The steps after `low` up to `high` in which the place of these labels went itself, and a child of it: from the last on.
fn whole_losses<K: PlaceRows>(
    rows: &mut K,
    alloc: Global,
    labels: &[Label],
    low: u64,
    high: u64,
) -> Result<Vec<u64>, StoreFault>
    ensures all { (rs : List Record) → K.keeps rows.old rs → IfOk result (λ v.
        (t : ℕ) → is_tid t v.items ≡ (is_within low high t && goes_whole rs labels.now t)) }
    ensures within { IfOk result (λ v. (t : ℕ) → is_tid t v.items ≡ true → is_within low high t ≡ true) }
    ensures reads { (rs : List Record) → K.keeps rows.old rs → NeverGone rs labels.now low high → K.reads rows.new
        ≤ K.reads rows.old + suc (rows_within (has_row kind.N rs labels.now) (suc low) high) * (K.cost rows.old).look }
    ensures asks { Asks (as_store K.PlaceRows) (λ e. e ≡ StoreFault.Disk) rows.old rows.new result }
{
    let mut whole = Vec::new(alloc);
    let mut to = high;
    while to > low {
        let Some(told) = rows.newest(alloc, labels, to)? else {
            return Ok(whole);
        };
        let tid = told.tid;
        if tid <= low {
            return Ok(whole);
        }
        note_whole(rows, alloc, labels, &told, &mut whole)?;
        to = tid - 1;
    }
    Ok(whole)
}

/// Whether a step can remove the place of these labels together with a child of it, so that rows say both.
fn can_go_whole(kind: Kind, labels: &[Label]) -> bool
    ensures { result ≡ can_go_whole kind labels.now }
{
    match kind {
        Kind::N | Kind::T => !labels.is_empty(),
        Kind::H | Kind::HT => false,
    }
}

/// The losses of the place of these labels.
pub fn losses_on<K: PlaceRows>(
    rows: &mut K,
    alloc: Global,
    kind: Kind,
    labels: &[Label],
    low: u64,
    high: u64,
) -> Result<TidList, StoreFault>
    requires kind { kind ≡ K.kept_kind rows.old }
    ensures found { (rs : List Record) → K.keeps rows.old rs
        → IfOk result (λ v. v ≡ map tid_of (losts (loses rs) low high labels.now)) }
    ensures within { IfOk result (λ v. list_all (is_within low high) v ≡ true) }
    ensures reads { (rs : List Record) → K.keeps rows.old rs → IsQuiet (K.kept_kind rows.old) rs low high labels.now
        → K.reads rows.new ≤ K.reads rows.old
        + losses_cost (K.kept_kind rows.old) rs (K.cost rows.old) low high labels.now }
    ensures asks { Asks (as_store K.PlaceRows) (λ e. e ≡ StoreFault.Disk) rows.old rows.new result }
{
    let lost = rows.lost(alloc, labels, low, high)?;
    if !can_go_whole(kind, labels) {
        return Ok(lost);
    }
    let whole = whole_losses(rows, alloc, labels, low, high)?;
    Ok(united(lost, whole.as_slice())?)
}
