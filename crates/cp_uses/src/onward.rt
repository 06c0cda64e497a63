//! From what was reached on, by one copy.
ghost use Rattle.std.specs.Prelude.{◌≡◌, ◌<◌, ◌≤◌, ◌+◌, ℕ, not, List, IfOk, OnOk};
ghost use Rattle.std.specs.List.{slice_get};
ghost use Rattle.std.specs.declared.option.Option.TheVariants.{Some};
ghost use Rattle.cp_model.specs.Place.{over_limit};
ghost use Rattle.cp_model.specs.Changes.{reading_of_what};
ghost use Rattle.cp_model.specs.declared.record.Record.{Record as Row};
ghost use Rattle.cp_store.specs.Calls.{Asks};
ghost use Rattle.cp_store.specs.Counts.{store_in, calls_in, counted};
ghost use Rattle.cp_uses.specs.Front.{IsFront};
ghost use Rattle.cp_uses.specs.Carrying.{landing};
ghost use Rattle.cp_uses.specs.InTime.{calls_to_bring};
ghost use Rattle.cp_uses.specs.Following.{if_brought, progress, Follows, IsKept};
ghost use Rattle.cp_uses.specs.Onward.{is_from, came, add_new, AddsLater};
ghost use Rattle.cp_uses.specs.Sources.{is_copy_of};
ghost use Rattle.cp_uses.specs.Stays.{IsKnown};

use crate::front::Front;
use crate::index::source_of;
use crate::landing::landing;
use crate::reached::Reached;
use crate::stay::{Stay, stands};
use cp_model::{Kind, Record, What};
use cp_path::{LABELS_MAX, LOC_MAX, Loc};
use cp_store::{Counted, ProvStore, StoreFault};
use std::alloc::Global;

/// Whether a change was a copy of the place.
fn is_from(what: &What, place: &Loc) -> bool
    ensures { result ≡ is_from place.now (reading_of_what what.now) }
{
    match what {
        What::From(from) => from.is_at(place),
        What::New | What::Gone => false,
    }
}

/// Whether this came from the place in its step. Costs a look-up.
fn came<P: ProvStore>(
    alloc: Global,
    store: &mut Counted<P>,
    reached: &Reached,
    from: &Loc,
) -> Result<bool, StoreFault>
    ensures came { (rs : List Row) → P.keeps (store_in store.old) rs
        → IfOk result (λ b. b ≡ came (P.kept_kind (store_in store.old)) rs reached.now from.now) }
    ensures calls { calls_in store.new ≤ calls_in store.old + 1 }
    ensures asks { Asks (counted P.ProvStore) (λ e. e ≡ StoreFault.Disk) store.old store.new result }
{
    match store.last_change(alloc, &reached.place, reached.tid)? {
        Some(change) => Ok(change.tid == reached.tid && is_from(&change.what, from)),
        None => Ok(false),
    }
}

/// Whether a row is that of a copy of the place itself.
fn is_copy_of(row: &Record, place: &Loc) -> bool
    ensures { result ≡ is_copy_of place.now row.now }
{
    match source_of(row) {
        Some(source) => place.is_at(source),
        None => false,
    }
}

/// Whether a place is within the limits of places. Costs its labels.
fn is_within_limits(place: &Loc) -> bool
    ensures { result ≡ not (over_limit place.now) }
{
    place.path.labels().len() <= LABELS_MAX && place.size() <= LOC_MAX as u32
}

/// Whether what was reached came to where the copy of a row took it. Costs a look-up, and none where the copy was of the place
/// itself: that of a place over a limit brings nothing.
fn came_by<P: ProvStore>(
    alloc: Global,
    store: &mut Counted<P>,
    row: &Record,
    from: &Reached,
    to: &Reached,
) -> Result<bool, StoreFault>
    requires tid { to.now.tid ≡ row.now.tid }
    requires place { landing (P.kept_kind (store_in store.old)) row.now from.now.place ≡ Some to.now.place }
    requires later { from.now.tid < to.now.tid }
    ensures came { (rs : List Row) → IsKept P.ProvStore (store_in store.old) rs → (n : ℕ) → slice_get rs n ≡ Some row.now
        → IfOk result (λ b. b ≡ came (P.kept_kind (store_in store.old)) rs to.now from.now.place) }
    ensures calls { calls_in store.new ≤ calls_in store.old + calls_to_bring from.now row.now }
    ensures asks { Asks (counted P.ProvStore) (λ e. e ≡ StoreFault.Disk) store.old store.new result }
{
    if is_copy_of(row, &from.place) {
        return Ok(is_within_limits(&from.place));
    }
    came(alloc, store, to, &from.place)
}

/// Adds what was reached where the copy of a row took it, if it came there and wasn't reached there before. Costs a look-up, and
/// none where the copy was of the place itself.
fn carry<P: ProvStore>(
    alloc: Global,
    store: &mut Counted<P>,
    kind: Kind,
    row: &Record,
    from: &Reached,
    front: &mut Front,
) -> Result<(), StoreFault>
    requires kind { kind ≡ P.kept_kind (store_in store.old) }
    requires later { from.now.tid < row.now.tid }
    requires front { IsFront front.old }
    ensures front { OnOk result (IsFront front.new) }
    ensures later { OnOk result (AddsLater from.now.tid 1 front.old.found.items front.new.found.items) }
    ensures found { (rs : List Row) → IsKept P.ProvStore (store_in store.old) rs → (n : ℕ) → slice_get rs n ≡ Some row.now
        → OnOk result (front.new.found.items ≡ add_new front.old.found.items
        (if_brought kind rs from.now row.now.tid (landing kind row.now from.now.place))) }
    ensures calls { calls_in store.new ≤ calls_in store.old + calls_to_bring from.now row.now }
    ensures asks { Asks (counted P.ProvStore) (λ e. e ≡ StoreFault.Disk) store.old store.new result }
{
    let Some(place) = landing(kind, row, &from.place)? else {
        return Ok(());
    };
    let to = Reached {
        place,
        tid: row.tid,
    };
    if !front.has(&to) && came_by(alloc, store, row, from, &to)? {
        front.add(to)?;
    }
    Ok(())
}

/// Follows the copy of a row from what was reached, if that stood at its place until then, and says whether it did. Costs at most
/// two look-ups.
pub(crate) fn follow<P: ProvStore>(
    alloc: Global,
    store: &mut Counted<P>,
    kind: Kind,
    row: &Record,
    from: &Reached,
    stay: &mut Stay,
    front: &mut Front,
) -> Result<bool, StoreFault>
    requires kind { kind ≡ P.kept_kind (store_in store.old) }
    requires later { from.now.tid < row.now.tid }
    requires front { IsFront front.old }
    ensures front { OnOk result (IsFront front.new) }
    ensures later { OnOk result (AddsLater from.now.tid 1 front.old.found.items front.new.found.items) }
    ensures follows { (rs : List Row) → IsKept P.ProvStore (store_in store.old) rs → (n : ℕ) → slice_get rs n ≡ Some row.now
        → IsKnown kind rs from.now stay.old
        → IfOk result (λ b. Follows kind rs from.now row.now b
        (progress front.old stay.old store.old) (progress front.new stay.new store.new)) }
    ensures asks { Asks (counted P.ProvStore) (λ e. e ≡ StoreFault.Disk) store.old store.new result }
{
    let stood = stands(alloc, store, from, row.tid - 1, stay)?;
    if stood {
        carry(alloc, store, kind, row, from, front)?;
    }
    Ok(stood)
}
