//! The places at which what was reached stands now.
ghost use Rattle.std.specs.Prelude.{◌≡◌, ◌≤◌, ◌+◌, ◌||◌, ◌∷◌, [], true, List, IfOk, OnOk};
ghost use Rattle.std.specs.List.Sorted.{IsStrictlySortedBy};
ghost use Rattle.cp_path.specs.declared.loc.Loc.{Loc as Place};
ghost use Rattle.cp_model.specs.Place.{place_eq};
ghost use Rattle.cp_model.specs.declared.record.Record.{Record as Row};
ghost use Rattle.cp_store.specs.Calls.{Asks};
ghost use Rattle.cp_store.specs.Counts.{store_in, calls_in, counted};
ghost use Rattle.cp_uses.specs.Current.{stands_now};
ghost use Rattle.cp_uses.specs.Stays.{is_over, IsKnown};
ghost use Rattle.cp_uses.specs.Users.{is_among, place_cmp};

use crate::current::is_current;
use crate::reached::Reached;
use crate::stay::Stay;
use cp_path::Loc;
use cp_store::{Counted, ProvStore, StoreFault};
use cp_tree::TreeRep;
use std::alloc::{AllocError, Global};
use std::collections::BTreeSet;

/// Notes a place. Costs a logarithm of those noted, and a copy.
fn note_user(users: &mut BTreeSet<Loc>, place: &Loc) -> Result<(), AllocError>
    ensures { OnOk result ((p : Place) → is_among p users.new.keys ≡ (is_among p users.old.keys || place_eq p place.now)) }
{
    users.insert(place.clone()?)?;
    Ok(())
}

/// Notes the place, if what was reached stands there now. Costs a look-up at most, and none where the place is known to have
/// changed.
pub(crate) fn note_current<P: ProvStore, R: TreeRep>(
    alloc: Global,
    store: &mut Counted<P>,
    tree: &R,
    reached: &Reached,
    stay: &mut Stay,
    users: &mut BTreeSet<Loc>,
) -> Result<(), StoreFault>
    ensures users { (rs : List Row) → P.keeps (store_in store.old) rs
        → IsKnown (P.kept_kind (store_in store.old)) rs reached.now stay.old
        → OnOk result ((p : Place) → is_among p users.new.keys ≡ (is_among p users.old.keys
        || stands_now (P.kept_kind (store_in store.old)) rs (P.last_tid (store_in store.old))
        (R.contents tree.now) (reached.now ∷ []) p)) }
    ensures calls { calls_in store.new ≤ calls_in store.old + 1 }
    ensures known { is_over (P.last_tid (store_in store.old)) stay.old.changed ≡ true → calls_in store.new ≡ calls_in store.old }
    ensures asks { Asks (counted P.ProvStore) (λ e. e ≡ StoreFault.Disk) store.old store.new result }
{
    if is_current(alloc, store, tree, reached, stay)? {
        note_user(users, &reached.place)?;
    }
    Ok(())
}

/// Lists places, in order.
pub(crate) fn list_places(alloc: Global, users: &BTreeSet<Loc>) -> Result<Vec<Loc>, AllocError>
    ensures all { IfOk result (λ v. v.items ≡ users.now.keys) }
    ensures order { IfOk result (λ v. IsStrictlySortedBy place_cmp v.items) }
{
    let mut items = Vec::with_capacity(alloc, users.len())?;
    for place in users {
        items.push(place.clone()?)?;
    }
    Ok(items)
}
