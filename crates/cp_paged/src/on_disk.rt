//! The answers of a store whose pages lie on a disk.
ghost use Rattle.std.specs.Prelude.{◌≡◌, ◌+◌, ◌<◌, ◌≤◌, ℕ, List, true, false, IfOk, IfSome};
ghost use Rattle.std.specs.List.{list_all};
ghost use Rattle.std.specs.Option.{option_map};
ghost use Rattle.cp_model.specs.Below.{losses_at, tells_below};
ghost use Rattle.cp_model.specs.Changes.{change_told, change_at, records_at};
ghost use Rattle.cp_model.specs.declared.record.Record.{Record};
ghost use Rattle.cp_store.specs.Calls.{Asks, ReadsAtMost};
ghost use Rattle.cp_store.specs.Costs.{IsQuiet, change_cost, losses_cost};
ghost use Rattle.cp_store.specs.Lost.{is_within};
ghost use Rattle.cp_paged.specs.OnDisk.{stored_on};

use crate::answers;
use crate::by_key::ByKey;
use crate::paged::PagedStore;
use crate::run_rows::RunRows;
use cp_disk::Disk;
use cp_model::{Change, RecordList, TidList};
use cp_path::{Label, Loc};
use cp_store::StoreFault;
use std::alloc::Global;

/// The newest change up to `t`.
pub(crate) fn last_change<D: Disk>(
    store: &mut PagedStore,
    disk: &mut D,
    alloc: Global,
    loc: &Loc,
    t: u64,
) -> Result<Option<Change>, StoreFault>
    ensures found { (rs : List Record) → (stored_on D.Disk).keeps (store.old, disk.old) rs
        → IfOk result (λ c. change_told c ≡ change_at store.old.kind rs t loc.now) }
    ensures within { IfOk result (λ c. IfSome c (λ d. (0 < d.tid) × (d.tid ≤ t))) }
    ensures reads { ReadsAtMost (stored_on D.Disk) (λ k rs c. change_cost k rs c t loc.now.path)
        (store.old, disk.old) (store.new, disk.new) }
    ensures asks { Asks (stored_on D.Disk) (λ e. e ≡ StoreFault.Disk) (store.old, disk.old) (store.new, disk.new) result }
{
    let kind = store.kind;
    let mut rows = ByKey {
        rows: RunRows {
            runs: &mut store.runs,
            disk,
        },
        kind,
        room: &mut store.room,
    };
    answers::last_change(&mut store.later, &mut rows, alloc, loc, t)
}

/// The losses after `low` up to `high`.
pub(crate) fn losses<D: Disk>(
    store: &mut PagedStore,
    disk: &mut D,
    alloc: Global,
    loc: &Loc,
    low: u64,
    high: u64,
) -> Result<TidList, StoreFault>
    ensures found { (rs : List Record) → (stored_on D.Disk).keeps (store.old, disk.old) rs
        → IfOk result (λ v. v ≡ losses_at rs low high loc.now) }
    ensures within { IfOk result (λ v. list_all (is_within low high) v ≡ true) }
    ensures reads { (rs : List Record) → (stored_on D.Disk).keeps (store.old, disk.old) rs
        → IsQuiet store.old.kind rs low high loc.now.path
        → (stored_on D.Disk).reads (store.new, disk.new) ≤ (stored_on D.Disk).reads (store.old, disk.old)
        + losses_cost store.old.kind rs ((stored_on D.Disk).cost (store.old, disk.old)) low high loc.now.path }
    ensures asks { Asks (stored_on D.Disk) (λ e. e ≡ StoreFault.Disk) (store.old, disk.old) (store.new, disk.new) result }
{
    let kind = store.kind;
    let mut rows = ByKey {
        rows: RunRows {
            runs: &mut store.runs,
            disk,
        },
        kind,
        room: &mut store.room,
    };
    answers::losses(&mut store.later, &mut rows, alloc, loc, low, high)
}

/// Whether a row may be of a place below this one. Where there are no runs, the answer is exact; nothing is read for it.
pub(crate) fn tells_below<D: Disk>(
    store: &mut PagedStore,
    disk: &mut D,
    alloc: Global,
    loc: &Loc,
    label: Option<&Label>,
) -> Result<bool, StoreFault>
    ensures found { (rs : List Record) → (stored_on D.Disk).keeps (store.old, disk.old) rs → IfOk result (λ b. b ≡ false
        → tells_below rs (option_map (λ a. a.now) label.entry) loc.now ≡ false) }
    ensures reads { (stored_on D.Disk).reads (store.new, disk.new) ≡ (stored_on D.Disk).reads (store.old, disk.old) }
    ensures asks { Asks (stored_on D.Disk) (λ e. e ≡ StoreFault.Disk) (store.old, disk.old) (store.new, disk.new) result }
{
    let kind = store.kind;
    let mut rows = ByKey {
        rows: RunRows {
            runs: &mut store.runs,
            disk,
        },
        kind,
        room: &mut store.room,
    };
    answers::tells_below(&mut store.later, &mut rows, alloc, loc, label)
}

/// The rows of one step, by place.
pub(crate) fn rows_of<D: Disk>(
    store: &mut PagedStore,
    disk: &mut D,
    alloc: Global,
    t: u64,
) -> Result<RecordList, StoreFault>
    ensures found { (rs : List Record) → (stored_on D.Disk).keeps (store.old, disk.old) rs → IfOk result (λ v. v ≡ records_at rs t) }
    ensures asks { Asks (stored_on D.Disk) (λ e. e ≡ StoreFault.Disk) (store.old, disk.old) (store.new, disk.new) result }
{
    let kind = store.kind;
    let mut rows = ByKey {
        rows: RunRows {
            runs: &mut store.runs,
            disk,
        },
        kind,
        room: &mut store.room,
    };
    answers::rows_of(&mut store.later, &mut rows, alloc, t)
}
