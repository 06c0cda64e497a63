//! The greatest row of a run, and of several, whose key isn't above one.
ghost use Rattle.std.specs.Prelude.{◌≡◌, ◌∷◌, [], ℕ, List, IfOk, IsErrOf, is_some, true, nat_eq};
ghost use Rattle.std.specs.declared.option.Option.TheVariants.{None, Some};
ghost use Rattle.std.specs.Option.{option_map};
ghost use Rattle.std.specs.Map.{keys_of, lookup};
ghost use Rattle.cp_disk.specs.Views.{IfKnown, Rests};
ghost use Rattle.cp_page.specs.Rows as page;
ghost use Rattle.cp_run.specs.Answers.{later, IsGreatest};
ghost use Rattle.cp_run.specs.Bad.{IsBadPage, IsBadAmong};
ghost use Rattle.cp_run.specs.Causes.{UsesPages};
ghost use Rattle.cp_run.specs.Holding.{page_at, run_rows, IsRunOfRows};
ghost use Rattle.cp_run.specs.Looks.{Looks};
ghost use Rattle.cp_run.specs.Pages.{ArePagesOf, KeepsPages};
ghost use Rattle.cp_run.specs.Searching.{IsWithinLog};
ghost use Rattle.cp_run.specs.Sets.{of_order, runs_rows, AreRunsOfRows, Fit, Fits, IsCache, IsWithinLogs};

use crate::fault::{RunFault, fault_at};
use crate::look::{PAGES_KEPT, look};
use crate::run::Run;
use crate::search::pages_before;
use cp_disk::Disk;
use cp_page::{PAGE_SIZE, Page, PageRow, find};
use lru::LruCache;
use std::alloc::Global;

/// The greatest row not above the key of the page at this offset, which is kept.
fn row_at(
    alloc: Global,
    cache: &LruCache<u64, Page>,
    at: u64,
    key: &[u8],
) -> Result<Option<PageRow>, RunFault>
    requires here { is_some (lookup (nat_eq at) cache.now.entries) ≡ true }
    ensures row { (content : List ℕ) → ArePagesOf content cache.now.entries
        → IfOk result (λ r. option_map (page.greatest key.now) (page.rows_of (page_at content at)) ≡ Some r) }
    ensures bad { (content : List ℕ) → ArePagesOf content cache.now.entries → (n : ℕ) → IsErrOf result (RunFault.BadRun n)
        → (n ≡ at) × (page.rows_of (page_at content at) ≡ None) }
    ensures calm { IsErrOf result RunFault.Disk → ⊥ }
{
    match cache.peek(&at) {
        Some(page) => match find(alloc, page, key) {
            Ok(found) => Ok(found),
            Err(fault) => Err(fault_at(at, fault)),
        },
        None => unreachable!(),
    }
}

/// The greatest row of the run whose key isn't above this one. Costs a logarithm of its pages in looks, and two more.
fn greatest_in<D: Disk>(
    alloc: Global,
    cache: &mut LruCache<u64, Page>,
    disk: &mut D,
    run: &Run,
    key: &[u8],
) -> Result<Option<PageRow>, RunFault>
    requires fits { Fits run.now }
    requires cache { IsCache cache.old }
    ensures cache { IsCache cache.new }
    ensures looks { Looks PAGES_KEPT (IsWithinLog 2 run.now.pages) (keys_of cache.old.entries) (keys_of cache.new.entries)
        (D.known disk.old).counts.reads (D.known disk.new).counts.reads result }
    ensures row { IfKnown (D.known disk.old) (λ v. ArePagesOf v.content cache.old.entries → IsRunOfRows v.content run.now
        → IfOk result (IsGreatest key.now (run_rows v.content run.now))) }
    ensures pages { KeepsPages (D.known disk.old) (D.known disk.new) cache.old.entries cache.new.entries }
    ensures bad { IfKnown (D.known disk.old) (λ v. ArePagesOf v.content cache.old.entries
        → (n : ℕ) → IsErrOf result (RunFault.BadRun n) → IsBadPage v.content run.now n) }
    ensures rests { Rests (D.known disk.old) (D.known disk.new) }
    ensures cause { UsesPages (D.known disk.old) (D.known disk.new) result }
{
    let count = pages_before(cache, disk, run, key)?;
    if count == 0 {
        return Ok(None);
    }
    let at = run.at + (count - 1) * PAGE_SIZE as u64;
    look(cache, disk, at)?;
    row_at(alloc, cache, at, key)
}

/// The same where the run is of this order; of another none, without a look.
fn greatest_if<D: Disk>(
    alloc: Global,
    cache: &mut LruCache<u64, Page>,
    disk: &mut D,
    run: &Run,
    order: u8,
    key: &[u8],
) -> Result<Option<PageRow>, RunFault>
    requires fits { Fits run.now }
    requires cache { IsCache cache.old }
    ensures cache { IsCache cache.new }
    ensures looks { Looks PAGES_KEPT (IsWithinLogs (of_order order (run.now ∷ []))) (keys_of cache.old.entries)
        (keys_of cache.new.entries) (D.known disk.old).counts.reads (D.known disk.new).counts.reads result }
    ensures row { IfKnown (D.known disk.old) (λ v. ArePagesOf v.content cache.old.entries
        → AreRunsOfRows v.content (of_order order (run.now ∷ []))
        → IfOk result (IsGreatest key.now (runs_rows v.content (of_order order (run.now ∷ []))))) }
    ensures pages { KeepsPages (D.known disk.old) (D.known disk.new) cache.old.entries cache.new.entries }
    ensures bad { IfKnown (D.known disk.old) (λ v. ArePagesOf v.content cache.old.entries
        → (n : ℕ) → IsErrOf result (RunFault.BadRun n) → IsBadAmong v.content (of_order order (run.now ∷ [])) n) }
    ensures rests { Rests (D.known disk.old) (D.known disk.new) }
    ensures cause { UsesPages (D.known disk.old) (D.known disk.new) result }
{
    if run.order != order {
        return Ok(None);
    }
    greatest_in(alloc, cache, disk, run, key)
}

/// The row with the later key; of equal keys the first.
fn later(best: Option<PageRow>, found: Option<PageRow>) -> Option<PageRow>
    ensures { result ≡ later best found }
{
    let Some(found) = found else {
        return best;
    };
    let Some(best) = best else {
        return Some(found);
    };
    if best.key.as_slice().cmp(found.key.as_slice()).is_lt() {
        Some(found)
    } else {
        Some(best)
    }
}

/// The greatest row of the runs of this order whose key isn't above this one. Costs a logarithm of the pages in looks for each.
pub(crate) fn greatest_of<D: Disk>(
    alloc: Global,
    cache: &mut LruCache<u64, Page>,
    disk: &mut D,
    runs: &[Run],
    order: u8,
    key: &[u8],
) -> Result<Option<PageRow>, RunFault>
    requires fits { Fit runs.now }
    requires cache { IsCache cache.old }
    ensures cache { IsCache cache.new }
    ensures looks { Looks PAGES_KEPT (IsWithinLogs (of_order order runs.now)) (keys_of cache.old.entries)
        (keys_of cache.new.entries) (D.known disk.old).counts.reads (D.known disk.new).counts.reads result }
    ensures row { IfKnown (D.known disk.old) (λ v. ArePagesOf v.content cache.old.entries
        → AreRunsOfRows v.content (of_order order runs.now)
        → IfOk result (IsGreatest key.now (runs_rows v.content (of_order order runs.now)))) }
    ensures pages { KeepsPages (D.known disk.old) (D.known disk.new) cache.old.entries cache.new.entries }
    ensures bad { IfKnown (D.known disk.old) (λ v. ArePagesOf v.content cache.old.entries
        → (n : ℕ) → IsErrOf result (RunFault.BadRun n) → IsBadAmong v.content (of_order order runs.now) n) }
    ensures rests { Rests (D.known disk.old) (D.known disk.new) }
    ensures cause { UsesPages (D.known disk.old) (D.known disk.new) result }
{
    let mut best = None;
    for run in runs {
        let found = greatest_if(alloc, cache, disk, run, order, key)?;
        best = later(best, found);
    }
    Ok(best)
}
