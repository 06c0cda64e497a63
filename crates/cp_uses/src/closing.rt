//! From what was reached on and on, until nothing new is reached.
ghost use Rattle.std.specs.Prelude.{◌≡◌, ◌<◌, ◌≤◌, ◌+◌, ◌^◌, ◌||◌, ◌∷◌, [], sum_by, IfOk, OnOk};
ghost use Rattle.cp_path.specs.declared.loc.Loc.{Loc as Place};
ghost use Rattle.cp_store.specs.Calls.{Asks};
ghost use Rattle.cp_store.specs.Counts.{store_in, calls_in, counted};
ghost use Rattle.cp_uses.specs.Front.{IsFront};
ghost use Rattle.cp_uses.specs.Carrying.{fan};
ghost use Rattle.cp_uses.specs.Closing.{nexts, Closes};
ghost use Rattle.cp_uses.specs.Current.{stands_now};
ghost use Rattle.cp_uses.specs.InTime.{calls_in_time};
ghost use Rattle.cp_uses.specs.Following.{IsKept};
ghost use Rattle.cp_uses.specs.Onward.{add_new, AddsLater};
ghost use Rattle.cp_uses.specs.Users.{is_among};

use crate::front::Front;
use crate::index::UseIndex;
use crate::noting::note_current;
use crate::reached::Reached;
use crate::spreading::spread;
use crate::stay::Stay;
use cp_model::Kind;
use cp_path::Loc;
use cp_store::{Counted, ProvStore, StoreFault};
use cp_tree::TreeRep;
use std::alloc::{AllocError, Global};
use std::collections::BTreeSet;

/// The number, and that it is one of a `u64`.
fn seen_as_number(tid: u64) -> u64
    ensures same { result ≡ tid }
    ensures bound { result < 2 ^ 64 }
{
    let rest = u64::MAX - tid;
    u64::MAX - rest
}

/// A copy.
fn copy_of(reached: &Reached) -> Result<Reached, AllocError>
    ensures same { IfOk result (λ x. x ≡ reached.now) }
    ensures bound { IfOk result (λ x. x.tid < 2 ^ 64) }
{
    let place = reached.place.clone()?;
    let tid = seen_as_number(reached.tid);
    Ok(Reached { place, tid })
}

/// Follows all copies that took along what was reached, and notes its place if it stands there now. Costs what `spread` costs, and
/// a look-up where no copy came too late.
fn visit<P: ProvStore, R: TreeRep>(
    alloc: Global,
    index: &UseIndex<'_>,
    store: &mut Counted<P>,
    kind: Kind,
    tree: &R,
    from: &Reached,
    front: &mut Front,
    users: &mut BTreeSet<Loc>,
) -> Result<(), StoreFault>
    requires kind { kind ≡ P.kept_kind (store_in store.old) }
    requires front { IsFront front.old }
    ensures front { OnOk result (IsFront front.new) }
    ensures later { OnOk result (AddsLater from.now.tid (fan kind index.now from.now)
        front.old.found.items front.new.found.items) }
    ensures found { IsKept P.ProvStore (store_in store.old) index.now
        → OnOk result (front.new.found.items ≡ add_new front.old.found.items (nexts kind index.now index.now from.now)) }
    ensures users { IsKept P.ProvStore (store_in store.old) index.now
        → OnOk result ((p : Place) → is_among p users.new.keys ≡ (is_among p users.old.keys
        || stands_now kind index.now (P.last_tid (store_in store.old)) (R.contents tree.now) (from.now ∷ []) p)) }
    ensures calls { IsKept P.ProvStore (store_in store.old) index.now
        → OnOk result (calls_in store.new ≤ calls_in store.old + calls_in_time kind index.now from.now) }
    ensures asks { Asks (counted P.ProvStore) (λ e. e ≡ StoreFault.Disk) store.old store.new result }
{
    let mut stay = Stay::of(from);
    spread(alloc, index, store, kind, from, &mut stay, front)?;
    note_current(alloc, store, tree, from, &mut stay, users)?;
    Ok(())
}

/// Adds all that is reached from what was, by the copies of the index, and notes the places at which any of it stands now. Costs
/// for each that is reached what `visit` costs.
pub(crate) fn close<P: ProvStore, R: TreeRep>(
    alloc: Global,
    index: &UseIndex<'_>,
    store: &mut Counted<P>,
    kind: Kind,
    tree: &R,
    front: &mut Front,
    users: &mut BTreeSet<Loc>,
) -> Result<(), StoreFault>
    requires kind { kind ≡ P.kept_kind (store_in store.old) }
    requires front { IsFront front.old }
    ensures closed { IsKept P.ProvStore (store_in store.old) index.now
        → OnOk result (Closes kind index.now index.now front.old.found.items front.new.found.items) }
    ensures users { IsKept P.ProvStore (store_in store.old) index.now
        → OnOk result ((p : Place) → is_among p users.new.keys ≡ (is_among p users.old.keys
        || stands_now kind index.now (P.last_tid (store_in store.old)) (R.contents tree.now) front.new.found.items p)) }
    ensures calls { IsKept P.ProvStore (store_in store.old) index.now
        → OnOk result (calls_in store.new ≤ calls_in store.old + sum_by (calls_in_time kind index.now) front.new.found.items) }
    ensures asks { Asks (counted P.ProvStore) (λ e. e ≡ StoreFault.Disk) store.old store.new result }
{
    let mut next = 0;
    while next < front.found.len() {
        let from = copy_of(&front.found[next])?;
        visit(alloc, index, store, kind, tree, &from, front, users)?;
        next += 1;
    }
    Ok(())
}
