//! The search for the page of a run in which a key would stand.
ghost use Rattle.std.specs.Prelude.{◌≡◌, ◌≤◌, ℕ, List, IfOk, IsErrOf, is_some, true, nat_eq};
ghost use Rattle.std.specs.declared.option.Option.TheVariants.{None, Some};
ghost use Rattle.std.specs.Option.{option_map};
ghost use Rattle.std.specs.Map.{keys_of, lookup};
ghost use Rattle.cp_disk.specs.Views.{IfKnown, Rests};
ghost use Rattle.cp_page.specs.Keys.{first_key};
ghost use Rattle.cp_run.specs.Bad.{IsBadPage};
ghost use Rattle.cp_run.specs.Causes.{UsesPages};
ghost use Rattle.cp_run.specs.Holding.{page_at};
ghost use Rattle.cp_run.specs.Looks.{Looks};
ghost use Rattle.cp_run.specs.Pages.{ArePagesOf, KeepsPages};
ghost use Rattle.cp_run.specs.Searching.{is_by, IsSplit, IsWithinLog};
ghost use Rattle.cp_run.specs.Sets.{Fits, IsCache};

use crate::fault::RunFault;
use crate::look::{PAGES_KEPT, look};
use crate::run::Run;
use cp_disk::Disk;
use cp_page::{PAGE_SIZE, Page};
use lru::LruCache;

/// Whether there is a first key, and it isn't above this one.
fn is_by(first: Option<&[u8]>, key: &[u8]) -> bool
    ensures { result ≡ is_by key.now (Some (option_map (λ k. k.now) first.entry)) }
{
    match first {
        Some(first) => first.cmp(key).is_le(),
        None => false,
    }
}

/// Whether the page at this offset, which is kept, begins with a key that isn't above this one.
fn begins_by(cache: &LruCache<u64, Page>, at: u64, key: &[u8]) -> Result<bool, RunFault>
    requires here { is_some (lookup (nat_eq at) cache.now.entries) ≡ true }
    ensures begins { (content : List ℕ) → ArePagesOf content cache.now.entries
        → IfOk result (λ b. b ≡ is_by key.now (first_key (page_at content at))) }
    ensures bad { (content : List ℕ) → ArePagesOf content cache.now.entries → (n : ℕ) → IsErrOf result (RunFault.BadRun n)
        → (n ≡ at) × (first_key (page_at content at) ≡ None) }
    ensures calm { IsErrOf result RunFault.Disk → ⊥ }
{
    match cache.peek(&at) {
        Some(page) => match page.first_key() {
            Ok(first) => Ok(is_by(first, key)),
            Err(_) => Err(RunFault::BadRun(at)),
        },
        None => unreachable!(),
    }
}

/// How many pages of a run begin with a key that isn't above this one, where their keys rise. Costs a logarithm of the pages in
/// looks.
pub(crate) fn pages_before<D: Disk>(
    cache: &mut LruCache<u64, Page>,
    disk: &mut D,
    run: &Run,
    key: &[u8],
) -> Result<u64, RunFault>
    requires fits { Fits run.now }
    requires cache { IsCache cache.old }
    ensures cache { IsCache cache.new }
    ensures looks { Looks PAGES_KEPT (IsWithinLog 1 run.now.pages) (keys_of cache.old.entries) (keys_of cache.new.entries)
        (D.known disk.old).counts.reads (D.known disk.new).counts.reads result }
    ensures within { IfOk result (λ n. n ≤ run.now.pages) }
    ensures split { IfKnown (D.known disk.old) (λ v. ArePagesOf v.content cache.old.entries
        → IfOk result (λ n. IsSplit v.content run.now key.now n n)) }
    ensures pages { KeepsPages (D.known disk.old) (D.known disk.new) cache.old.entries cache.new.entries }
    ensures bad { IfKnown (D.known disk.old) (λ v. ArePagesOf v.content cache.old.entries
        → (n : ℕ) → IsErrOf result (RunFault.BadRun n) → IsBadPage v.content run.now n) }
    ensures rests { Rests (D.known disk.old) (D.known disk.new) }
    ensures cause { UsesPages (D.known disk.old) (D.known disk.new) result }
{
    let mut low = 0;
    let mut high = run.pages;
    while low < high {
        let middle = low + (high - low) / 2;
        let at = run.at + middle * PAGE_SIZE as u64;
        look(cache, disk, at)?;
        if begins_by(cache, at, key)? {
            low = middle + 1;
        } else {
            high = middle;
        }
    }
    Ok(low)
}
