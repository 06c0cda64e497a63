//! The place itself, from the start and from each step that brought new data there.
ghost use Rattle.std.specs.Prelude.{◌≡◌, ◌<◌, ◌≤◌, ◌+◌, ◌-◌, ◌++◌, List, IfOk, OnOk};
ghost use Rattle.cp_model.specs.Changes.{reading_of_what};
ghost use Rattle.cp_model.specs.declared.record.Record.{Record as Row};
ghost use Rattle.cp_store.specs.Calls.{Asks};
ghost use Rattle.cp_store.specs.Counts.{store_in, calls_in, counted};
ghost use Rattle.cp_uses.specs.Reach.{is_new_data};
ghost use Rattle.cp_uses.specs.Front.{IsFront};
ghost use Rattle.cp_uses.specs.Renewals.{if_new, renewals_at, changes_at};

use crate::front::Front;
use crate::reached::Reached;
use cp_model::{Change, What};
use cp_path::Loc;
use cp_store::{Counted, ProvStore, StoreFault};
use std::alloc::{AllocError, Global};

/// Whether a change brought new data.
fn brings_data(what: &What) -> bool
    ensures { result ≡ is_new_data (reading_of_what what.now) }
{
    match what {
        What::New | What::From(_) => true,
        What::Gone => false,
    }
}

/// Adds the place from the step of the change on, if that brought new data; gives the version before the step.
fn note(front: &mut Front, place: &Loc, change: Change) -> Result<u64, AllocError>
    requires later { 0 < change.tid }
    requires front { IsFront front.old }
    ensures front { OnOk result (IsFront front.new) }
    ensures found { OnOk result (front.new.found.items
        ≡ front.old.found.items ++ if_new place.now change.tid (reading_of_what change.what)) }
    ensures before { IfOk result (λ n. n ≡ change.tid - 1) }
{
    let Change { tid, what } = change;
    let brings = brings_data(&what);
    drop(what);
    if brings {
        let place = place.clone()?;
        front.add(Reached { place, tid })?;
    }
    Ok(tid - 1)
}

/// Adds the place from each step on that brought new data there. Costs a look-up for each step that changed it, and one.
pub(crate) fn renew<P: ProvStore>(
    alloc: Global,
    store: &mut Counted<P>,
    place: &Loc,
    front: &mut Front,
) -> Result<(), StoreFault>
    requires front { IsFront front.old }
    ensures front { OnOk result (IsFront front.new) }
    ensures found { (rs : List Row) → P.keeps (store_in store.old) rs
        → OnOk result (front.new.found.items ≡ front.old.found.items
        ++ renewals_at (P.kept_kind (store_in store.old)) rs place.now (P.last_tid (store_in store.old))) }
    ensures calls { (rs : List Row) → P.keeps (store_in store.old) rs
        → OnOk result (calls_in store.new ≤ calls_in store.old
        + (changes_at (P.kept_kind (store_in store.old)) rs place.now (P.last_tid (store_in store.old)) + 1)) }
    ensures asks { Asks (counted P.ProvStore) (λ e. e ≡ StoreFault.Disk) store.old store.new result }
{
    let mut high = store.upto();
    while let Some(change) = store.last_change(alloc, place, high)? {
        high = note(front, place, change)?;
    }
    Ok(())
}
