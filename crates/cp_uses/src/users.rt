//! The places whose trace passes through a place.
ghost use Rattle.std.specs.Prelude.{◌≡◌, IfOk, OnOk};
ghost use Rattle.cp_model.specs.History.{State};
ghost use Rattle.cp_query.specs.Asked.{IsStateOf};
ghost use Rattle.cp_store.specs.Calls.{Asks};
ghost use Rattle.cp_store.specs.Counts.{calls_in, counted};
ghost use Rattle.cp_uses.specs.InTime.{calls_in_time};
ghost use Rattle.cp_uses.specs.Users.{AreOf, AreUsers, IsServed};

use crate::closing::close;
use crate::front::Front;
use crate::index::UseIndex;
use crate::noting::list_places;
use crate::reached::Reached;
use crate::renewals::renew;
use cp_path::Loc;
use cp_query::records;
use cp_store::{Counted, ProvStore, StoreFault};
use cp_tree::TreeRep;
use std::alloc::Global;
use std::collections::BTreeSet;

/// The places of the tree whose trace passes through this one, in order. The copies of the index are those of the rows that the
/// store keeps, and the tree is that of its last step; where they aren't, what is answered isn't said.
///
/// Costs a look-up for each step that changed the place, and one; for each place that its data reached, from each step on that
/// brought it there, a look-up, a logarithm of the places for it and for each place above it, and at most two look-ups for each
/// copy of a later step that took it along before it changed. Where copies of places above it came after that, one for each such
/// place. Fails with `Memory` or, where the store's disk fails, with `Disk`.
pub fn uses<P: ProvStore, R: TreeRep>(
    alloc: Global,
    index: &UseIndex<'_>,
    store: &mut Counted<P>,
    tree: &R,
    place: &Loc,
) -> Result<Vec<Loc>, StoreFault>
    ensures users { (s : State) → AreOf (counted P.ProvStore) R.TreeRep index.now store.old tree.now s
        → IfOk result (λ places. AreUsers s place.now places.items) }
    ensures calls { (s : State) → AreOf (counted P.ProvStore) R.TreeRep index.now store.old tree.now s
        → OnOk result (IsServed s place.now (calls_in_time s.kind s.rows) (calls_in store.old) (calls_in store.new)) }
    ensures asks { Asks (counted P.ProvStore) (λ e. e ≡ StoreFault.Disk) store.old store.new result }
{
    let kind = store.kind();
    let mut front = Front::new(alloc);
    let start = place.clone()?;
    front.add(Reached {
        place: start,
        tid: 0,
    })?;
    renew(alloc, store, place, &mut front)?;
    let mut users = BTreeSet::new(alloc);
    close(alloc, index, store, kind, tree, &mut front, &mut users)?;
    Ok(list_places(alloc, &users)?)
}

/// The places of the tree whose trace passes through this one, in order, where the store keeps the rows of the tree's history.
/// Costs the listing of all records and their index, and what `uses` costs.
pub fn users_of<P: ProvStore, R: TreeRep>(
    alloc: Global,
    mut store: P,
    tree: &R,
    place: &Loc,
) -> Result<Vec<Loc>, StoreFault>
    ensures users { (s : State) → IsStateOf P.ProvStore R.TreeRep store tree.now s
        → IfOk result (λ places. AreUsers s place.now places.items) }
{
    let rows = records(alloc, &mut store, None)?;
    let index = UseIndex::new(alloc, &rows.items)?;
    let mut counted = Counted::new(store);
    uses(alloc, &index, &mut counted, tree, place)
}
