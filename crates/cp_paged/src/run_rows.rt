//! Rows by key, of runs on a disk.
ghost use Rattle.std.specs.Prelude.{◌≡◌, ◌+◌, ◌*◌, ◌≤◌, ℕ, List, length, IfOk};
ghost use Rattle.cp_page.specs.Ranges.{rows_between};
ghost use Rattle.cp_page.specs.declared.row.PageRow.{PageRow};
ghost use Rattle.cp_run.specs.Answers.{IsBetween, IsGreatest};
ghost use Rattle.cp_run.specs.Sets.{of_order};
ghost use Rattle.cp_paged.specs.Calls.{AsksKeys};
ghost use Rattle.cp_paged.specs.Stored.{HasRowsOf, answer_of, log_up, most_pages, rows_on};

use crate::keyed::KeyedRows;
use cp_disk::Disk;
use cp_page::PageRow;
use cp_run::{RunFault, RunSet};
use cp_store::StoreFault;
use std::alloc::Global;

/// What a look-up answers: nothing where it met a page that isn't one of rows.
fn unless_bad<T: Drop>(found: Result<T, RunFault>, none: T) -> Result<T, StoreFault>
    ensures { result ≡ answer_of none found }
{
    match found {
        Ok(found) => Ok(found),
        Err(RunFault::BadRun(_)) => Ok(none),
        Err(RunFault::Disk) => Err(StoreFault::Disk),
        Err(RunFault::Memory) => Err(StoreFault::Memory),
    }
}

/// The greatest row of the runs of this order whose key isn't above this one. Costs for each of these runs the logarithm of the
/// most pages of a run, and two more, in reads.
fn greatest_of<D: Disk>(
    runs: &mut RunSet,
    disk: &mut D,
    alloc: Global,
    order: u8,
    key: &[u8],
) -> Result<Option<PageRow>, StoreFault>
    ensures found { (stored : ℕ → List PageRow) → HasRowsOf (D.known disk.old) runs.old stored
        → IfOk result (IsGreatest key.now (stored order)) }
    ensures reads { (D.known disk.new).counts.reads ≤ (D.known disk.old).counts.reads
        + length (of_order order runs.old.runs) * (2 + log_up (most_pages runs.old.runs)) }
    ensures asks { AsksKeys (rows_on D.Disk) (λ e. e ≡ StoreFault.Disk) (runs.old, disk.old) (runs.new, disk.new) result }
{
    if runs.runs().is_empty() {
        return Ok(None);
    }
    let found = runs.greatest(alloc, disk, order, key);
    unless_bad(found, None)
}

/// The rows of the runs of this order from one key to another. Costs for each of these runs the logarithm of the most pages of a
/// run, and three more, in reads, and one for each of these rows.
fn between_of<D: Disk>(
    runs: &mut RunSet,
    disk: &mut D,
    alloc: Global,
    order: u8,
    low: &[u8],
    high: &[u8],
) -> Result<Vec<PageRow>, StoreFault>
    ensures found { (stored : ℕ → List PageRow) → HasRowsOf (D.known disk.old) runs.old stored
        → IfOk result (λ v. IsBetween low.now high.now (stored order) v.items) }
    ensures reads { (stored : ℕ → List PageRow) → HasRowsOf (D.known disk.old) runs.old stored
        → (D.known disk.new).counts.reads ≤ (D.known disk.old).counts.reads
        + (length (of_order order runs.old.runs) * (3 + log_up (most_pages runs.old.runs))
        + length (rows_between low.now high.now (stored order))) }
    ensures asks { AsksKeys (rows_on D.Disk) (λ e. e ≡ StoreFault.Disk) (runs.old, disk.old) (runs.new, disk.new) result }
{
    if runs.runs().is_empty() {
        return Ok(Vec::new(alloc));
    }
    let found = runs.between(alloc, disk, order, low, high);
    unless_bad(found, Vec::new(alloc))
}

/// The rows of runs, with the disk on which they lie, both borrowed. A look-up that meets a page that isn't one of rows finds
/// nothing.
#[derive(Drop)]
pub struct RunRows<'a, D: Disk> {
    pub runs: &'a mut RunSet,
    pub disk: &'a mut D,
}

impl<'a, D: Disk> KeyedRows for RunRows<'a, D> {
    ghost use Rattle.std.specs.Prelude.{◌≡◌, ◌∷◌, []};
    ghost use Rattle.cp_paged.specs.Stored.{HasRowsOf, cost_of};

    ghost has_rows = { λ p. HasRowsOf (D.known p.disk.now) p.runs.now };

    ghost holds = { λ p. p.runs.ghost_name ∷ p.disk.ghost_name ∷ [] };

    ghost cost = { λ p. cost_of p.runs.now.runs };

    ghost reads = { λ p. (D.known p.disk.now).counts.reads };

    ghost faults = { λ p. (D.known p.disk.now).counts.faults };

    fn is_empty(&self) -> bool {
        self.runs.runs().is_empty()
    }

    fn greatest_by_place(
        &mut self,
        alloc: Global,
        key: &[u8],
    ) -> Result<Option<PageRow>, StoreFault> {
        greatest_of(self.runs, self.disk, alloc, 0, key)
    }

    fn between_by_step(
        &mut self,
        alloc: Global,
        low: &[u8],
        high: &[u8],
    ) -> Result<Vec<PageRow>, StoreFault> {
        between_of(self.runs, self.disk, alloc, 1, low, high)
    }

    fn between_by_loser(
        &mut self,
        alloc: Global,
        low: &[u8],
        high: &[u8],
    ) -> Result<Vec<PageRow>, StoreFault> {
        between_of(self.runs, self.disk, alloc, 2, low, high)
    }
}
