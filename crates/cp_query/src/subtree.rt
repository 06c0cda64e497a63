//! The steps that changed a place or one below it.
ghost use Rattle.std.specs.Prelude.{◌≡◌, ◌<◌, ◌+◌, ◌&&◌, true, List, length, not, IfOk, OnOk};
ghost use Rattle.std.specs.List.{list_all};
ghost use Rattle.std.specs.Option.{option_map};
ghost use Rattle.cp_path.specs.declared.limits.TheConstants.{LABELS_MAX};
ghost use Rattle.cp_model.specs.Place.{in_target, child_place};
ghost use Rattle.cp_model.specs.Subtrees.{is_there};
ghost use Rattle.cp_model.specs.Below.{tells_below};
ghost use Rattle.cp_store.specs.Calls.{Asks, ReadsAtMost};
ghost use Rattle.cp_query.specs.Events.{has_room, HasEvent, Gathers};
ghost use Rattle.cp_query.specs.Bounds.{past_cost, paths_in, sum_below};
ghost use Rattle.cp_model.specs.Records.{reads, loses};
ghost use Rattle.cp_model.specs.declared.record.Record.{Record};

use crate::tids::Tids;
use crate::walk::Walk;
use cp_path::{LABELS_MAX, LOC_MAX, Label, Loc};
use cp_store::{ProvStore, StoreFault};
use cp_tree::{Reach, TreeRep};
use std::alloc::{AllocError, Global};

/// The place at the label below another.
fn child_of(at: &Loc, label: &Label) -> Result<Loc, AllocError>
    requires { length at.now.path < LABELS_MAX }
    ensures { IfOk result (λ q. q ≡ child_place at.now label.now) }
{
    let db = at.db.clone()?;
    let path = at.path.child(label)?;
    Ok(Loc { db, path })
}

/// Whether all places that lie so far below this one are within the limits.
fn has_room(place: &Loc, reach: Reach) -> bool
    ensures { result ≡ has_room reach place.now }
{
    let labels = place.path.labels().len() + reach.depth as usize;
    let size = u64::from(place.size()) + u64::from(reach.size);
    labels <= LABELS_MAX && size <= LOC_MAX as u64
}

/// Whether this is so of each of these places.
fn have_room(places: &[Loc], reach: Reach) -> bool
    ensures { result ≡ list_all (has_room reach) places.now }
{
    for place in places {
        if !has_room(place, reach) {
            return false;
        }
    }
    true
}

/// Whether no row is of a place below one of these; where a label is given, of the place at it, or of one below that. `true` is
/// answered only where that is so. Costs a look-up for each place.
fn is_quiet<P: ProvStore>(
    alloc: Global,
    store: &mut P,
    places: &[Loc],
    label: Option<&Label>,
) -> Result<bool, StoreFault>
    ensures quiet { (rs : List Record) → P.keeps store.old rs → IfOk result (λ b. b ≡ true
        → list_all (λ q. not (tells_below rs (option_map (λ a. a.now) label.entry) q)) places.now ≡ true) }
    ensures reads { P.reads store.new ≡ P.reads store.old }
    ensures asks { Asks P.ProvStore (λ e. e ≡ StoreFault.Disk) store.old store.new result }
{
    for place in places {
        if store.tells_below(alloc, place, label)? {
            return Ok(false);
        }
    }
    Ok(true)
}

/// Whether the data below these places came along with theirs: they are `together`, as it has room below each of them, and no
/// row is of a place below one, by the label where one is given. `true` is answered only where that is so. Costs a look-up for
/// each place, and none where they are not.
fn came_along<P: ProvStore>(
    alloc: Global,
    store: &mut P,
    together: bool,
    places: &[Loc],
    label: Option<&Label>,
) -> Result<bool, StoreFault>
    ensures along { (rs : List Record) → P.keeps store.old rs → IfOk result (λ b. b ≡ true → (together
        && list_all (λ q. not (tells_below rs (option_map (λ a. a.now) label.entry) q)) places.now) ≡ true) }
    ensures reads { P.reads store.new ≡ P.reads store.old }
    ensures asks { Asks P.ProvStore (λ e. e ≡ StoreFault.Disk) store.old store.new result }
{
    if !together {
        return Ok(false);
    }
    is_quiet(alloc, store, places, label)
}

/// Notes the steps of all events of the place at which a walk begins, and of those below it.
///
/// Where no row is of a place below those at which the data of a place stood, the data below it has come with it, and the
/// steps are its own; so nothing is asked of the places there, nor are they listed. Of each other node the places below it
/// are listed, and each at or below which a row is costs a walk. In the kinds `h` and `ht` a subtree that was inserted or
/// copied as one is one place.
pub(crate) fn visit<P: ProvStore, R: TreeRep>(
    alloc: Global,
    store: &mut P,
    tree: &R,
    walk: Walk,
    found: &mut Tids,
) -> Result<(), StoreFault>
    requires target { in_target walk.at ≡ true }
    requires there { is_there (R.contents tree.now) walk.at.path ≡ true }
    ensures found { (rs : List Record) → P.keeps store.old rs → OnOk result (Gathers
        (HasEvent (reads (P.kept_kind store.old) rs) (loses rs) walk.high (R.contents tree.now) walk.at.path)
        found.old.keys found.new.keys) }
    ensures reads { ReadsAtMost P.ProvStore
        (λ k rs c. sum_below (past_cost k rs c walk.high) walk.at.path (paths_in (R.contents tree.now))) store.old store.new }
    ensures asks { Asks P.ProvStore (λ e. e ≡ StoreFault.Disk) store.old store.new result }
{
    let is_node = tree.is_node(&walk.at.path);
    let high = walk.high;
    let places = walk.note_past(alloc, store, found)?;
    if !is_node {
        return Ok(());
    }
    let places = places.as_slice();
    let at = &places[0];
    let together = have_room(places, tree.reach(&at.path));
    if came_along(alloc, store, together, places, None)? {
        return Ok(());
    }
    for label in &tree.labels_of(alloc, &at.path)? {
        if came_along(alloc, store, together, places, Some(label))? {
            continue;
        }
        let at = child_of(at, label)?;
        visit(alloc, store, tree, Walk { at, high }, found)?;
    }
    Ok(())
}
