//! The newest change of a place, by its rows on pages.
ghost use Rattle.std.specs.Prelude.{◌≡◌, ◌<◌, ◌≤◌, ◌+◌, ◌-◌, ◌*◌, ℕ, List, length, take, IfOk, IfSome};
ghost use Rattle.cp_path.specs.declared.limits.TheConstants.{LABELS_MAX};
ghost use Rattle.cp_model.specs.Leaps.{last};
ghost use Rattle.cp_model.specs.Place.{Path};
ghost use Rattle.cp_model.specs.Records.{reads};
ghost use Rattle.cp_model.specs.declared.record.Record.{Record};
ghost use Rattle.cp_model.specs.Changes.{change_told};
ghost use Rattle.cp_store.specs.Calls.{Asks, ReadsAtMost};
ghost use Rattle.cp_store.specs.Costs.{change_cost};
ghost use Rattle.cp_paged.specs.Calls.{as_store};
ghost use Rattle.cp_paged.specs.Newest.{IsNewestRow, IsNewestAbove, first_depth};

use crate::marks::done_by_row;
use crate::places::{PlaceRow, PlaceRows};
use cp_model::{Change, Kind};
use cp_path::Label;
use cp_store::StoreFault;
use std::alloc::Global;

/// A row at a place above another, or at that place itself, and how many labels its place has.
#[derive(Drop)]
pub(crate) struct Above {
    pub(crate) told: PlaceRow,
    pub(crate) depth: usize,
}

/// The newer of two; of two of one step the deeper, which comes second.
fn newer(best: Option<Above>, told: Option<PlaceRow>, depth: usize) -> Option<Above>
    ensures newest { (rs : List Record) (p : Path) (first t : ℕ) → first ≤ depth → IsNewestAbove rs p first depth t best
        → IsNewestRow rs (take depth p) t told → IsNewestAbove rs p first (depth + 1) t result }
    ensures within { (t n : ℕ) → IfSome best (λ a. (a.told.tid ≤ t) × (a.depth ≤ n)) → IfSome told (λ d. d.tid ≤ t) → depth ≤ n
        → IfSome result (λ a. (a.told.tid ≤ t) × (a.depth ≤ n)) }
{
    let Some(told) = told else {
        return best;
    };
    match best {
        None => Some(Above { told, depth }),
        Some(best) => {
            if told.tid < best.told.tid {
                Some(best)
            } else {
                Some(Above { told, depth })
            }
        }
    }
}

/// The newest row up to `t` of the prefixes of these labels from `first` labels on; of those of one step the deepest.
fn newest_above<K: PlaceRows>(
    rows: &mut K,
    alloc: Global,
    labels: &[Label],
    first: usize,
    t: u64,
) -> Result<Option<Above>, StoreFault>
    requires some { first ≤ length labels.now }
    requires few { length labels.now ≤ LABELS_MAX }
    ensures newest { (rs : List Record) → K.keeps rows.old rs
        → IfOk result (λ o. IsNewestAbove rs labels.now first (length labels.now + 1) t o) }
    ensures within { IfOk result (λ o. IfSome o (λ a. (a.told.tid ≤ t) × (a.depth ≤ length labels.now))) }
    ensures reads { K.reads rows.new ≤ K.reads rows.old + (length labels.now + 1 - first) * (K.cost rows.old).look }
    ensures asks { Asks (as_store K.PlaceRows) (λ e. e ≡ StoreFault.Disk) rows.old rows.new result }
{
    let mut best = None;
    for depth in first..labels.len() + 1 {
        let told = rows.newest(alloc, &labels[..depth], t)?;
        best = newer(best, told, depth);
    }
    Ok(best)
}

/// Of how many labels the shortest prefix is whose rows count.
fn first_depth(kind: Kind, labels: &[Label]) -> usize
    ensures { result ≡ first_depth kind labels.now }
{
    match kind {
        Kind::N | Kind::T => labels.len(),
        Kind::H | Kind::HT => 0,
    }
}

/// The newest change up to `t` of the place of these labels.
pub fn newest_change<K: PlaceRows>(
    rows: &mut K,
    alloc: Global,
    kind: Kind,
    labels: &[Label],
    t: u64,
) -> Result<Option<Change>, StoreFault>
    requires few { length labels.now ≤ LABELS_MAX }
    requires kind { kind ≡ K.kept_kind rows.old }
    ensures found { (rs : List Record) → K.keeps rows.old rs
        → IfOk result (λ c. change_told c ≡ last (reads (K.kept_kind rows.old) rs) t labels.now) }
    ensures within { IfOk result (λ c. IfSome c (λ d. (0 < d.tid) × (d.tid ≤ t))) }
    ensures reads { ReadsAtMost (as_store K.PlaceRows) (λ k rs c. change_cost k rs c t labels.now) rows.old rows.new }
    ensures asks { Asks (as_store K.PlaceRows) (λ e. e ≡ StoreFault.Disk) rows.old rows.new result }
{
    let first = first_depth(kind, labels);
    let mut high = t;
    while high > 0 {
        let Some(above) = newest_above(rows, alloc, labels, first, high)? else {
            return Ok(None);
        };
        let tid = above.told.tid;
        if tid == 0 {
            return Ok(None);
        }
        if let Some(what) = done_by_row(alloc, &above.told.row, &labels[above.depth..])? {
            return Ok(Some(Change { tid, what }));
        }
        high = tid - 1;
    }
    Ok(None)
}
