//! The rows of a run, and of several, from one key to another.
ghost use Rattle.std.specs.Prelude.{◌≡◌, ◌≤◌, ◌+◌, ◌-◌, ◌*◌, ◌++◌, ◌∷◌, [], ℕ, List, length, IfOk, OnOk, IsErrOf, IsPermutation, IsSortedByKey, is_some, true, false, nat_eq, if◌then◌else◌};
ghost use Rattle.std.specs.declared.option.Option.TheVariants.{None, Some};
ghost use Rattle.std.specs.Option.{option_map};
ghost use Rattle.std.specs.Map.{keys_of, lookup};
ghost use Rattle.cp_path.specs.Text.{text_cmp};
ghost use Rattle.cp_run.specs.Answers.{IsBetween};
ghost use Rattle.cp_disk.specs.Views.{IfKnown, Rests};
ghost use Rattle.cp_page.specs.Ranges.{rows_between, found_with};
ghost use Rattle.cp_page.specs.Rows.{rows_of};
ghost use Rattle.cp_run.specs.Bad.{IsBadPage, IsBadAmong};
ghost use Rattle.cp_run.specs.Causes.{UsesPages};
ghost use Rattle.cp_run.specs.Holding.{page_at, rows_after, run_rows, IsRunOfRows};
ghost use Rattle.cp_run.specs.Looks.{Looks};
ghost use Rattle.cp_run.specs.Pages.{ArePagesOf, KeepsPages};
ghost use Rattle.cp_run.specs.Searching.{IsSplit};
ghost use Rattle.cp_run.specs.Sets.{of_order, runs_rows, AreRunsOfRows, Fit, Fits, IsCache, IsWithinRun, IsWithinRange};

use crate::fault::{RunFault, fault_at};
use crate::look::{PAGES_KEPT, look};
use crate::run::Run;
use crate::search::pages_before;
use cp_disk::Disk;
use cp_page::{PAGE_SIZE, Page, PageRow, add_rows_between};
use lru::LruCache;
use std::alloc::Global;

/// The keys from which and to which rows are wanted, both with them.
#[derive(Clone, Copy, Drop)]
pub(crate) struct Range<'a> {
    pub(crate) low: &'a [u8],
    pub(crate) high: &'a [u8],
}

/// Adds the rows of this range of the page at this offset, which is kept, and answers whether its last row is above the range.
fn add_kept(
    alloc: Global,
    cache: &LruCache<u64, Page>,
    at: u64,
    range: Range<'_>,
    found: &mut Vec<PageRow>,
) -> Result<bool, RunFault>
    requires here { is_some (lookup (nat_eq at) cache.now.entries) ≡ true }
    ensures rows { (content : List ℕ) → ArePagesOf content cache.now.entries
        → IfOk result (λ past. option_map (found_with range.entry.low.now range.entry.high.now found.old.items false)
        (rows_of (page_at content at)) ≡ Some (found.new.items, past)) }
    ensures bad { (content : List ℕ) → ArePagesOf content cache.now.entries → (n : ℕ) → IsErrOf result (RunFault.BadRun n)
        → (n ≡ at) × (rows_of (page_at content at) ≡ None) }
    ensures calm { IsErrOf result RunFault.Disk → ⊥ }
{
    match cache.peek(&at) {
        Some(page) => match add_rows_between(alloc, page, range.low, range.high, found) {
            Ok(past) => Ok(past),
            Err(fault) => Err(fault_at(at, fault)),
        },
        None => unreachable!(),
    }
}

/// The number of the page to go on with: the next, or the run's end where the rows after this page are above the range.
fn next_page(run: &Run, number: u64, past: bool) -> u64
    requires { number + 1 ≤ run.now.pages }
    ensures { result ≡ (if past then run.now.pages else number + 1) }
{
    let end = run.pages;
    if past { end } else { number + 1 }
}

/// Adds the rows of this range from the page of this number on. Costs a look at each page up to the first that ends above it.
fn add_from<D: Disk>(
    alloc: Global,
    cache: &mut LruCache<u64, Page>,
    disk: &mut D,
    run: &Run,
    first: u64,
    range: Range<'_>,
    found: &mut Vec<PageRow>,
) -> Result<(), RunFault>
    requires fits { Fits run.now }
    requires first { first ≤ run.now.pages }
    requires cache { IsCache cache.old }
    ensures cache { IsCache cache.new }
    ensures looks { Looks PAGES_KEPT (λ looks. IfKnown (D.known disk.old) (λ v. ArePagesOf v.content cache.old.entries
        → IsRunOfRows v.content run.now → ((n : ℕ) × IsSplit v.content run.now range.entry.low.now n n × (first ≡ n - 1))
        → looks ≤ 2 + length (rows_between range.entry.low.now range.entry.high.now (rows_after v.content run.now first))))
        (keys_of cache.old.entries) (keys_of cache.new.entries) (D.known disk.old).counts.reads (D.known disk.new).counts.reads
        result }
    ensures rows { IfKnown (D.known disk.old) (λ v. ArePagesOf v.content cache.old.entries → IsRunOfRows v.content run.now
        → OnOk result (found.new.items ≡ found.old.items ++ rows_between range.entry.low.now range.entry.high.now
        (rows_after v.content run.now first))) }
    ensures pages { KeepsPages (D.known disk.old) (D.known disk.new) cache.old.entries cache.new.entries }
    ensures bad { IfKnown (D.known disk.old) (λ v. ArePagesOf v.content cache.old.entries
        → (n : ℕ) → IsErrOf result (RunFault.BadRun n) → IsBadPage v.content run.now n) }
    ensures rests { Rests (D.known disk.old) (D.known disk.new) }
    ensures cause { UsesPages (D.known disk.old) (D.known disk.new) result }
{
    let mut number = first;
    while number < run.pages {
        let at = run.at + number * PAGE_SIZE as u64;
        look(cache, disk, at)?;
        let past = add_kept(alloc, cache, at, range, found)?;
        number = next_page(run, number, past);
    }
    Ok(())
}

/// Adds the rows of the run in this range. Costs a logarithm of its pages in looks, three more, and one for each of these rows.
fn add_between<D: Disk>(
    alloc: Global,
    cache: &mut LruCache<u64, Page>,
    disk: &mut D,
    run: &Run,
    range: Range<'_>,
    found: &mut Vec<PageRow>,
) -> Result<(), RunFault>
    requires fits { Fits run.now }
    requires cache { IsCache cache.old }
    ensures cache { IsCache cache.new }
    ensures looks { Looks PAGES_KEPT (λ looks. IfKnown (D.known disk.old) (λ v. ArePagesOf v.content cache.old.entries
        → IsWithinRun v.content range.entry.low.now range.entry.high.now run.now looks))
        (keys_of cache.old.entries) (keys_of cache.new.entries) (D.known disk.old).counts.reads (D.known disk.new).counts.reads
        result }
    ensures rows { IfKnown (D.known disk.old) (λ v. ArePagesOf v.content cache.old.entries → IsRunOfRows v.content run.now
        → OnOk result (found.new.items ≡ found.old.items ++ rows_between range.entry.low.now range.entry.high.now
        (run_rows v.content run.now))) }
    ensures pages { KeepsPages (D.known disk.old) (D.known disk.new) cache.old.entries cache.new.entries }
    ensures bad { IfKnown (D.known disk.old) (λ v. ArePagesOf v.content cache.old.entries
        → (n : ℕ) → IsErrOf result (RunFault.BadRun n) → IsBadPage v.content run.now n) }
    ensures rests { Rests (D.known disk.old) (D.known disk.new) }
    ensures cause { UsesPages (D.known disk.old) (D.known disk.new) result }
{
    let count = pages_before(cache, disk, run, range.low)?;
    let first = count.saturating_sub(1);
    add_from(alloc, cache, disk, run, first, range, found)
}

/// The same where the run is of this order; of another nothing, without a look.
fn add_if<D: Disk>(
    alloc: Global,
    cache: &mut LruCache<u64, Page>,
    disk: &mut D,
    run: &Run,
    order: u8,
    range: Range<'_>,
    found: &mut Vec<PageRow>,
) -> Result<(), RunFault>
    requires fits { Fits run.now }
    requires cache { IsCache cache.old }
    ensures cache { IsCache cache.new }
    ensures looks { Looks PAGES_KEPT (λ looks. IfKnown (D.known disk.old) (λ v. ArePagesOf v.content cache.old.entries
        → IsWithinRange v.content range.entry.low.now range.entry.high.now (of_order order (run.now ∷ [])) looks))
        (keys_of cache.old.entries) (keys_of cache.new.entries) (D.known disk.old).counts.reads (D.known disk.new).counts.reads
        result }
    ensures rows { IfKnown (D.known disk.old) (λ v. ArePagesOf v.content cache.old.entries
        → AreRunsOfRows v.content (of_order order (run.now ∷ []))
        → OnOk result (found.new.items ≡ found.old.items ++ rows_between range.entry.low.now range.entry.high.now
        (runs_rows v.content (of_order order (run.now ∷ []))))) }
    ensures pages { KeepsPages (D.known disk.old) (D.known disk.new) cache.old.entries cache.new.entries }
    ensures bad { IfKnown (D.known disk.old) (λ v. ArePagesOf v.content cache.old.entries
        → (n : ℕ) → IsErrOf result (RunFault.BadRun n) → IsBadAmong v.content (of_order order (run.now ∷ [])) n) }
    ensures rests { Rests (D.known disk.old) (D.known disk.new) }
    ensures cause { UsesPages (D.known disk.old) (D.known disk.new) result }
{
    if run.order != order {
        return Ok(());
    }
    add_between(alloc, cache, disk, run, range, found)
}

/// Adds the rows of the runs of this order in this range, run after run.
fn add_of<D: Disk>(
    alloc: Global,
    cache: &mut LruCache<u64, Page>,
    disk: &mut D,
    runs: &[Run],
    order: u8,
    range: Range<'_>,
    found: &mut Vec<PageRow>,
) -> Result<(), RunFault>
    requires fits { Fit runs.now }
    requires cache { IsCache cache.old }
    ensures cache { IsCache cache.new }
    ensures looks { Looks PAGES_KEPT (λ looks. IfKnown (D.known disk.old) (λ v. ArePagesOf v.content cache.old.entries
        → IsWithinRange v.content range.entry.low.now range.entry.high.now (of_order order runs.now) looks))
        (keys_of cache.old.entries) (keys_of cache.new.entries) (D.known disk.old).counts.reads (D.known disk.new).counts.reads
        result }
    ensures rows { IfKnown (D.known disk.old) (λ v. ArePagesOf v.content cache.old.entries
        → AreRunsOfRows v.content (of_order order runs.now)
        → OnOk result (found.new.items ≡ found.old.items ++ rows_between range.entry.low.now range.entry.high.now
        (runs_rows v.content (of_order order runs.now)))) }
    ensures pages { KeepsPages (D.known disk.old) (D.known disk.new) cache.old.entries cache.new.entries }
    ensures bad { IfKnown (D.known disk.old) (λ v. ArePagesOf v.content cache.old.entries
        → (n : ℕ) → IsErrOf result (RunFault.BadRun n) → IsBadAmong v.content (of_order order runs.now) n) }
    ensures rests { Rests (D.known disk.old) (D.known disk.new) }
    ensures cause { UsesPages (D.known disk.old) (D.known disk.new) result }
{
    for run in runs {
        add_if(alloc, cache, disk, run, order, range, found)?;
    }
    Ok(())
}

/// Puts rows in order of their keys. Takes no memory.
fn sort(rows: &mut [PageRow])
    ensures same { IsPermutation rows.old rows.new }
    ensures sorted { IsSortedByKey (λ r. r.key) text_cmp rows.new }
{
    rows.sort_unstable_by(|a, b| a.key.as_slice().cmp(b.key.as_slice()));
}

/// The rows of the runs of this order in this range, in order of keys.
pub(crate) fn between_of<D: Disk>(
    alloc: Global,
    cache: &mut LruCache<u64, Page>,
    disk: &mut D,
    runs: &[Run],
    order: u8,
    range: Range<'_>,
) -> Result<Vec<PageRow>, RunFault>
    requires fits { Fit runs.now }
    requires cache { IsCache cache.old }
    ensures cache { IsCache cache.new }
    ensures looks { Looks PAGES_KEPT (λ looks. IfKnown (D.known disk.old) (λ v. ArePagesOf v.content cache.old.entries
        → IsWithinRange v.content range.entry.low.now range.entry.high.now (of_order order runs.now) looks))
        (keys_of cache.old.entries) (keys_of cache.new.entries) (D.known disk.old).counts.reads (D.known disk.new).counts.reads
        result }
    ensures rows { IfKnown (D.known disk.old) (λ v. ArePagesOf v.content cache.old.entries
        → AreRunsOfRows v.content (of_order order runs.now)
        → IfOk result (λ found. IsBetween range.entry.low.now range.entry.high.now (runs_rows v.content (of_order order runs.now))
        found.items)) }
    ensures pages { KeepsPages (D.known disk.old) (D.known disk.new) cache.old.entries cache.new.entries }
    ensures bad { IfKnown (D.known disk.old) (λ v. ArePagesOf v.content cache.old.entries
        → (n : ℕ) → IsErrOf result (RunFault.BadRun n) → IsBadAmong v.content (of_order order runs.now) n) }
    ensures rests { Rests (D.known disk.old) (D.known disk.new) }
    ensures cause { UsesPages (D.known disk.old) (D.known disk.new) result }
{
    let mut found = Vec::new(alloc);
    add_of(alloc, cache, disk, runs, order, range, &mut found)?;
    sort(&mut found);
    Ok(found)
}
