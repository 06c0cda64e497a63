//! Whether what was reached stands there now.
ghost use Rattle.std.specs.Prelude.{◌≡◌, ◌≤◌, ◌+◌, true, List, IfOk};
ghost use Rattle.cp_model.specs.declared.record.Record.{Record as Row};
ghost use Rattle.cp_store.specs.Calls.{Asks};
ghost use Rattle.cp_store.specs.Counts.{store_in, calls_in, counted};
ghost use Rattle.cp_uses.specs.Current.{is_current};
ghost use Rattle.cp_uses.specs.Stays.{is_over, IsKnown};

use crate::reached::Reached;
use crate::stay::{Stay, stands};
use cp_store::{Counted, ProvStore, StoreFault};
use cp_tree::TreeRep;
use std::alloc::Global;

/// Whether what was reached stands there now. Costs a look-up at most, and none where its place is known to have changed.
pub(crate) fn is_current<P: ProvStore, R: TreeRep>(
    alloc: Global,
    store: &mut Counted<P>,
    tree: &R,
    reached: &Reached,
    stay: &mut Stay,
) -> Result<bool, StoreFault>
    ensures current { (rs : List Row) → P.keeps (store_in store.old) rs
        → IsKnown (P.kept_kind (store_in store.old)) rs reached.now stay.old
        → IfOk result (λ b. b ≡ is_current (P.kept_kind (store_in store.old)) rs
        (P.last_tid (store_in store.old)) (R.contents tree.now) reached.now) }
    ensures calls { calls_in store.new ≤ calls_in store.old + 1 }
    ensures known { is_over (P.last_tid (store_in store.old)) stay.old.changed ≡ true → calls_in store.new ≡ calls_in store.old }
    ensures asks { Asks (counted P.ProvStore) (λ e. e ≡ StoreFault.Disk) store.old store.new result }
{
    if !reached.place.db.is_target() || !tree.is_there(&reached.place.path) {
        return Ok(false);
    }
    let last = store.upto();
    stands(alloc, store, reached, last, stay)
}
