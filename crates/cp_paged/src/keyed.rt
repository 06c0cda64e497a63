//! What is asked of rows by their keys.
ghost use Rattle.std.specs.Prelude.{◌≡◌, ◌+◌, ◌≤◌, ℕ, true, List, [], length, IfOk};
ghost use Rattle.cp_page.specs.Ranges.{rows_between};
ghost use Rattle.cp_page.specs.declared.row.PageRow.{PageRow};
ghost use Rattle.cp_run.specs.Answers.{IsBetween, IsGreatest};
ghost use Rattle.cp_store.specs.Costs.{Cost};
ghost use Rattle.cp_paged.specs.Asking.{StaysKeyed};

use cp_page::PageRow;
use cp_store::StoreFault;
use std::alloc::Global;

/// Rows by key, in three orders: of the number 0 by place, of 1 by step, of 2 by the place that lost a child.
///
/// A look-up leaves the rows as they are, also where its answer is an error. It returns whatever the rows are.
pub trait KeyedRows: Drop {
    /// It has these rows, by the number of their order. One whose disk holds something else may have none.
    ghost has_rows: { Self → (ℕ → List PageRow) → Type 0 };

    /// The references that it holds, by their ghost names.
    ghost holds: { Self → List ℕ };

    /// What its disk is read for.
    ghost cost: { Self → Cost };

    /// How often its disk was read, up to the end of a `u64`.
    ghost reads: { Self → ℕ };

    /// How often its disk has failed, up to the end of a `u64`.
    ghost faults: { Self → ℕ };

    /// Whether there are no runs, and so no rows.
    fn is_empty(&self) -> bool
        ensures { result ≡ true → (stored : ℕ → List PageRow) → has_rows self.now stored → (o : ℕ) → o ≤ 2 → stored o ≡ [] };

    /// By place, the row with the greatest key that isn't above this one. Costs one look.
    fn greatest_by_place(
        &mut self,
        alloc: Global,
        key: &[u8],
    ) -> Result<Option<PageRow>, StoreFault>
        ensures found { (stored : ℕ → List PageRow) → has_rows self.old stored → IfOk result (IsGreatest key.now (stored 0)) }
        ensures reads { reads self.new ≤ reads self.old + (cost self.old).look }
        ensures asks { StaysKeyed has_rows holds cost reads faults (λ e. e ≡ StoreFault.Disk) self.old self.new result };

    /// By step, the rows whose keys aren't below the first and aren't above the second, in the order of their keys.
    fn between_by_step(
        &mut self,
        alloc: Global,
        low: &[u8],
        high: &[u8],
    ) -> Result<Vec<PageRow>, StoreFault>
        ensures found { (stored : ℕ → List PageRow) → has_rows self.old stored
            → IfOk result (λ v. IsBetween low.now high.now (stored 1) v.items) }
        ensures asks { StaysKeyed has_rows holds cost reads faults (λ e. e ≡ StoreFault.Disk) self.old self.new result };

    /// The same by the place that lost a child. Costs a look, and one more for each run, and the answer.
    fn between_by_loser(
        &mut self,
        alloc: Global,
        low: &[u8],
        high: &[u8],
    ) -> Result<Vec<PageRow>, StoreFault>
        ensures found { (stored : ℕ → List PageRow) → has_rows self.old stored
            → IfOk result (λ v. IsBetween low.now high.now (stored 2) v.items) }
        ensures reads { (stored : ℕ → List PageRow) → has_rows self.old stored → reads self.new
            ≤ reads self.old + ((cost self.old).look + (cost self.old).runs + length (rows_between low.now high.now (stored 2))) }
        ensures asks { StaysKeyed has_rows holds cost reads faults (λ e. e ≡ StoreFault.Disk) self.old self.new result };
}
