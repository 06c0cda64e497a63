//! From what was reached on, by all copies that took it along.
ghost use Rattle.std.specs.Prelude.{◌≡◌, length, OnOk, if◌then◌else◌};
ghost use Rattle.cp_store.specs.Calls.{Asks};
ghost use Rattle.cp_store.specs.Counts.{store_in, counted};
ghost use Rattle.cp_uses.specs.Carrying.{fan};
ghost use Rattle.cp_uses.specs.Front.{IsFront};
ghost use Rattle.cp_uses.specs.Index.{copies_by};
ghost use Rattle.cp_uses.specs.InTime.{has_late, late_sources};
ghost use Rattle.cp_uses.specs.Following.{progress, IsKept, Spreads};
ghost use Rattle.cp_uses.specs.Onward.{AddsLater};
ghost use Rattle.cp_uses.specs.Stays.{IsKnown};
ghost use Rattle.cp_uses.specs.Sources.{copies_along, copies_from, places_above, sources};

use crate::front::Front;
use crate::index::UseIndex;
use crate::onward::follow;
use crate::reached::Reached;
use crate::source::{key_of, push_label, root_key};
use crate::stay::Stay;
use cp_model::Kind;
use cp_store::{Counted, ProvStore, StoreFault};
use std::alloc::Global;

/// Follows the copies from the place with this key, up to the first before which what was reached had changed. Costs a logarithm
/// of the places, at most two look-ups for each copy that it follows, and one where there is one too late.
fn spread_by<P: ProvStore>(
    alloc: Global,
    index: &UseIndex<'_>,
    store: &mut Counted<P>,
    kind: Kind,
    key: &[u8],
    from: &Reached,
    stay: &mut Stay,
    front: &mut Front,
) -> Result<(), StoreFault>
    requires kind { kind ≡ P.kept_kind (store_in store.old) }
    requires front { IsFront front.old }
    ensures front { OnOk result (IsFront front.new) }
    ensures later { OnOk result (AddsLater from.now.tid (length (copies_by index.now key.now from.now.tid))
        front.old.found.items front.new.found.items) }
    ensures spreads { IsKept P.ProvStore (store_in store.old) index.now → IsKnown kind index.now from.now stay.old
        → OnOk result (Spreads kind index.now from.now (copies_by index.now key.now from.now.tid)
        (if has_late kind index.now from.now (copies_by index.now key.now from.now.tid) then 1 else 0)
        (P.last_tid (store_in store.old))
        (progress front.old stay.old store.old) (progress front.new stay.new store.new)) }
    ensures asks { Asks (counted P.ProvStore) (λ e. e ≡ StoreFault.Disk) store.old store.new result }
{
    let steps = index.copies_by(key, from.tid);
    for step in steps {
        let stood = follow(alloc, store, kind, index.row(step.row), from, stay, front)?;
        if !stood {
            return Ok(());
        }
    }
    Ok(())
}

/// Follows the copies from the place and from all places above it. Costs for each of these what `spread_by` costs.
fn spread_above<P: ProvStore>(
    alloc: Global,
    index: &UseIndex<'_>,
    store: &mut Counted<P>,
    kind: Kind,
    from: &Reached,
    stay: &mut Stay,
    front: &mut Front,
) -> Result<(), StoreFault>
    requires kind { kind ≡ P.kept_kind (store_in store.old) }
    requires front { IsFront front.old }
    ensures front { OnOk result (IsFront front.new) }
    ensures later { OnOk result (AddsLater from.now.tid (length (copies_from index.now (places_above from.now.place) from.now.tid))
        front.old.found.items front.new.found.items) }
    ensures spreads { IsKept P.ProvStore (store_in store.old) index.now → IsKnown kind index.now from.now stay.old
        → OnOk result (Spreads kind index.now from.now (copies_from index.now (places_above from.now.place) from.now.tid)
        (late_sources kind index.now from.now (places_above from.now.place))
        (P.last_tid (store_in store.old))
        (progress front.old stay.old store.old) (progress front.new stay.new store.new)) }
    ensures asks { Asks (counted P.ProvStore) (λ e. e ≡ StoreFault.Disk) store.old store.new result }
{
    let mut key = root_key(alloc, &from.place.db)?;
    spread_by(alloc, index, store, kind, key.as_slice(), from, stay, front)?;
    let labels = from.place.path.labels();
    for label in labels {
        push_label(&mut key, label)?;
        spread_by(alloc, index, store, kind, key.as_slice(), from, stay, front)?;
    }
    Ok(())
}

/// Follows all copies that took along what was reached, while it stood at its place. Costs what `spread_by` costs, for each of its
/// labels where a copy takes along what lies below.
pub(crate) fn spread<P: ProvStore>(
    alloc: Global,
    index: &UseIndex<'_>,
    store: &mut Counted<P>,
    kind: Kind,
    from: &Reached,
    stay: &mut Stay,
    front: &mut Front,
) -> Result<(), StoreFault>
    requires kind { kind ≡ P.kept_kind (store_in store.old) }
    requires front { IsFront front.old }
    ensures front { OnOk result (IsFront front.new) }
    ensures later { OnOk result (AddsLater from.now.tid (fan kind index.now from.now)
        front.old.found.items front.new.found.items) }
    ensures spreads { IsKept P.ProvStore (store_in store.old) index.now → IsKnown kind index.now from.now stay.old
        → OnOk result (Spreads kind index.now from.now (copies_along kind index.now from.now)
        (late_sources kind index.now from.now (sources kind from.now.place))
        (P.last_tid (store_in store.old))
        (progress front.old stay.old store.old) (progress front.new stay.new store.new)) }
    ensures asks { Asks (counted P.ProvStore) (λ e. e ≡ StoreFault.Disk) store.old store.new result }
{
    match kind {
        Kind::N | Kind::T => {
            let key = key_of(alloc, &from.place)?;
            spread_by(alloc, index, store, kind, key.as_slice(), from, stay, front)
        }
        Kind::H | Kind::HT => spread_above(alloc, index, store, kind, from, stay, front),
    }
}
