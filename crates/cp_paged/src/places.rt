//! What is asked of the rows on pages.
ghost use Rattle.std.specs.Prelude.{◌≡◌, ◌+◌, ◌<◌, ◌≤◌, ℕ, true, List, [], length, IfOk, IfSome};
ghost use Rattle.std.specs.List.{list_all};
ghost use Rattle.cp_model.specs.declared.kind.Kind.{Kind};
ghost use Rattle.cp_model.specs.declared.record.Record.{Record};
ghost use Rattle.cp_model.specs.Changes.{records_at};
ghost use Rattle.cp_model.specs.Leaps.{losts};
ghost use Rattle.cp_model.specs.Records.{loses};
ghost use Rattle.cp_store.specs.Costs.{Cost};
ghost use Rattle.cp_store.specs.Questions.{StaysThrough};
ghost use Rattle.cp_store.specs.Lost.{is_within};
ghost use Rattle.cp_paged.specs.Newest.{IsNewestRow};
ghost use Rattle.cp_paged.specs.Listing.{Lists, survives, IsTopmost};

use cp_model::{Kind, RecordList, TidList};
use cp_page::PageRow;
use cp_path::Label;
use cp_store::StoreFault;
use std::alloc::Global;

/// A row of the order by place, and its step.
#[derive(Drop)]
pub struct PlaceRow {
    pub tid: u64,
    pub row: PageRow,
}

/// Rows on pages.
pub trait PlaceRows: Drop {
    ghost kept_kind: { Self → Kind };

    ghost last_tid: { Self → ℕ };

    ghost keeps: { Self → List Record → Type 0 };

    ghost holds: { Self → List ℕ };

    ghost cost: { Self → Cost };

    ghost reads: { Self → ℕ };

    ghost faults: { Self → ℕ };

    fn kind(&self) -> Kind
        ensures { result ≡ kept_kind self.now };

    /// Whether there are no runs, and so no rows.
    fn is_empty(&self) -> bool
        ensures { result ≡ true → (rs : List Record) → keeps self.now rs → rs ≡ [] };

    /// The row of the newest step up to `t` at the place of these labels. Costs one look.
    fn newest(
        &mut self,
        alloc: Global,
        labels: &[Label],
        t: u64,
    ) -> Result<Option<PlaceRow>, StoreFault>
        ensures newest { (rs : List Record) → keeps self.old rs → IfOk result (λ o. IsNewestRow rs labels.now t o) }
        ensures within { IfOk result (λ o. IfSome o (λ d. d.tid ≤ t)) }
        ensures reads { reads self.new ≤ reads self.old + (cost self.old).look }
        ensures asks { StaysThrough kept_kind last_tid keeps holds cost reads faults (λ e. e ≡ StoreFault.Disk) self.old self.new result };

    /// The steps after `low` up to `high` that left the place, and of which a row says that a child of it is gone; rising. Costs
    /// a look, and one more for each run, and the answer.
    fn lost(
        &mut self,
        alloc: Global,
        labels: &[Label],
        low: u64,
        high: u64,
    ) -> Result<TidList, StoreFault>
        ensures lost { (rs : List Record) → keeps self.old rs → IfOk result (λ v. Lists (survives rs labels.now) low high v) }
        ensures within { IfOk result (λ v. list_all (is_within low high) v ≡ true) }
        ensures topmost { (rs : List Record) → keeps self.old rs → IsTopmost (kept_kind self.old) rs }
        ensures reads { (rs : List Record) → keeps self.old rs → reads self.new
            ≤ reads self.old + ((cost self.old).look + (cost self.old).runs + length (losts (λ t p. survives rs p t) low high labels.now)) }
        ensures asks { StaysThrough kept_kind last_tid keeps holds cost reads faults (λ e. e ≡ StoreFault.Disk) self.old self.new result };

    /// Whether a row of the step says that a child of the place is gone.
    fn child_gone(&mut self, alloc: Global, labels: &[Label], t: u64) -> Result<bool, StoreFault>
        ensures gone { (rs : List Record) → keeps self.old rs → IfOk result (λ b. b ≡ loses rs t labels.now) }
        ensures asks { StaysThrough kept_kind last_tid keeps holds cost reads faults (λ e. e ≡ StoreFault.Disk) self.old self.new result };

    /// The rows of one step, by place.
    fn rows_of(&mut self, alloc: Global, t: u64) -> Result<RecordList, StoreFault>
        ensures found { (rs : List Record) → keeps self.old rs → IfOk result (λ v. v ≡ records_at rs t) }
        ensures asks { StaysThrough kept_kind last_tid keeps holds cost reads faults (λ e. e ≡ StoreFault.Disk) self.old self.new result };
}
