ghost use Rattle.std.specs.Prelude.{◌≡◌, [], ℕ, IfOk, IsErrOf};
ghost use Rattle.std.specs.Map.{keys_of};
ghost use Rattle.cp_disk.specs.Views.{IfKnown, Rests};
ghost use Rattle.cp_run.specs.Answers.{IsGreatest, IsBetween};
ghost use Rattle.cp_run.specs.Bad.{IsBadAmong};
ghost use Rattle.cp_run.specs.Causes.{UsesPages};
ghost use Rattle.cp_run.specs.Looks.{Looks};
ghost use Rattle.cp_run.specs.Pages.{ArePagesOf, KeepsPages};
ghost use Rattle.cp_run.specs.Sets.{of_order, runs_rows, AreRunsOfRows, Fit, IsWithinLogs, IsWithinRange, RunSet};

use crate::between::{Range, between_of};
use crate::fault::RunFault;
use crate::greatest::greatest_of;
use crate::look::PAGES_KEPT;
use crate::run::Run;
use cp_disk::Disk;
use cp_page::{Page, PageRow};
use lru::LruCache;
use std::alloc::{AllocError, Global};
use std::marker::Model;
use std::num::NonZeroUsize;

/// Runs, with the pages of them that were looked at last.
#[derive(Drop)]
pub struct RunSet {
    runs: Vec<Run>,
    cache: LruCache<u64, Page>,
}

impl Model for RunSet {
    ghost use Rattle.cp_run.specs.Sets.{Fit, RunSet, IsCache};

    ghost Value = { RunSet };

    ghost view = { λ s. record { runs = s.runs.items; pages = s.cache.entries } };

    ghost invariant = { λ s. IsCache s.cache × Fit s.runs.items };
}

impl RunSet {
    /// A set of these runs. No page is kept.
    pub fn new(alloc: Global, runs: &[Run]) -> Result<RunSet, AllocError>
        requires fit { Fit runs.now }
        ensures runs { IfOk result (λ s. s.runs ≡ runs.now) }
        ensures pages { IfOk result (λ s. s.pages ≡ []) }
    {
        let runs = runs.to_vec(alloc)?;
        let cap = NonZeroUsize::new(PAGES_KEPT).unwrap_or(NonZeroUsize::MIN);
        let cache = LruCache::sparse(alloc, cap)?;
        Ok(RunSet { runs, cache })
    }

    /// The runs that it was made of. Takes no memory.
    pub fn runs(&self) -> &[Run]
        ensures { result.now ≡ self.now.runs }
    {
        self.runs.as_slice()
    }

    /// The greatest row of the runs of this order whose key isn't above this one. Costs for each of these runs the logarithm of its
    /// pages, and two more, in looks at pages; a look at a page that isn't kept reads it. `BadRun` where a page that is looked at
    /// doesn't lie whole in the file or isn't one of rows.
    pub fn greatest<D: Disk>(
        &mut self,
        alloc: Global,
        disk: &mut D,
        order: u8,
        key: &[u8],
    ) -> Result<Option<PageRow>, RunFault>
        ensures runs { self.new.runs ≡ self.old.runs }
        ensures row { IfKnown (D.known disk.old) (λ v. ArePagesOf v.content self.old.pages
            → AreRunsOfRows v.content (of_order order self.old.runs)
            → IfOk result (IsGreatest key.now (runs_rows v.content (of_order order self.old.runs)))) }
        ensures pages { KeepsPages (D.known disk.old) (D.known disk.new) self.old.pages self.new.pages }
        ensures bad { IfKnown (D.known disk.old) (λ v. ArePagesOf v.content self.old.pages
            → (n : ℕ) → IsErrOf result (RunFault.BadRun n) → IsBadAmong v.content (of_order order self.old.runs) n) }
        ensures looks { Looks PAGES_KEPT (IsWithinLogs (of_order order self.old.runs)) (keys_of self.old.pages)
            (keys_of self.new.pages) (D.known disk.old).counts.reads (D.known disk.new).counts.reads result }
        ensures rests { Rests (D.known disk.old) (D.known disk.new) }
        ensures cause { UsesPages (D.known disk.old) (D.known disk.new) result }
    {
        greatest_of(alloc, &mut self.cache, disk, &self.runs, order, key)
    }

    /// The rows of the runs of this order whose keys are from `low` to `high`, both with them, in order of keys. Costs for each of
    /// these runs the logarithm of its pages, and three more, in looks at pages, one for each of these rows, and memory for them.
    /// `BadRun` where a page that is looked at doesn't lie whole in the file or isn't one of rows.
    pub fn between<D: Disk>(
        &mut self,
        alloc: Global,
        disk: &mut D,
        order: u8,
        low: &[u8],
        high: &[u8],
    ) -> Result<Vec<PageRow>, RunFault>
        ensures runs { self.new.runs ≡ self.old.runs }
        ensures rows { IfKnown (D.known disk.old) (λ v. ArePagesOf v.content self.old.pages
            → AreRunsOfRows v.content (of_order order self.old.runs)
            → IfOk result (λ found. IsBetween low.now high.now (runs_rows v.content (of_order order self.old.runs))
            found.items)) }
        ensures pages { KeepsPages (D.known disk.old) (D.known disk.new) self.old.pages self.new.pages }
        ensures bad { IfKnown (D.known disk.old) (λ v. ArePagesOf v.content self.old.pages
            → (n : ℕ) → IsErrOf result (RunFault.BadRun n) → IsBadAmong v.content (of_order order self.old.runs) n) }
        ensures looks { Looks PAGES_KEPT (λ looks. IfKnown (D.known disk.old) (λ v. ArePagesOf v.content self.old.pages
            → IsWithinRange v.content low.now high.now (of_order order self.old.runs) looks)) (keys_of self.old.pages)
            (keys_of self.new.pages) (D.known disk.old).counts.reads (D.known disk.new).counts.reads result }
        ensures rests { Rests (D.known disk.old) (D.known disk.new) }
        ensures cause { UsesPages (D.known disk.old) (D.known disk.new) result }
    {
        let range = Range { low, high };
        between_of(alloc, &mut self.cache, disk, &self.runs, order, range)
    }
}
