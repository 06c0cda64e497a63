//! Pages of a disk, through a cache of those looked at last.
ghost use Rattle.std.specs.Prelude.{ℕ, length, IsErrOf, ◌≡◌, ◌≤◌, ◌<◌, ◌+◌, ◌^◌, ◌∷◌, [], IfOk, OnOk, is_some, true, nat_eq};
ghost use Rattle.std.specs.Map.{keys_of, lookup};
ghost use Rattle.cp_disk.specs.Views.{IfKnown, Rests};
ghost use Rattle.cp_run.specs.Causes.{UsesPages};
ghost use Rattle.cp_run.specs.Looks.{Looked};
ghost use Rattle.cp_run.specs.Pages.{IsPageAt, KeepsPages};
ghost use Rattle.cp_run.specs.Sets.{IsCache};

use crate::fault::RunFault;
use cp_disk::Disk;
use cp_page::{PAGE_SIZE, Page};
use lru::LruCache;

/// How many pages are kept.
pub const PAGES_KEPT: usize = 256;

/// The page at this offset; `BadRun` where it doesn't lie whole in the file. Costs one read at most.
fn read_page<D: Disk>(disk: &mut D, at: u64) -> Result<Page, RunFault>
    requires fits { at + PAGE_SIZE < 2 ^ 64 }
    ensures page { IfKnown (D.known disk.old) (λ v. IfOk result (IsPageAt v.content at)) }
    ensures bad { IfKnown (D.known disk.old) (λ v. (n : ℕ) → IsErrOf result (RunFault.BadRun n)
        → (n ≡ at) × (length v.content < at + PAGE_SIZE)) }
    ensures rests { Rests (D.known disk.old) (D.known disk.new) }
    ensures cause { UsesPages (D.known disk.old) (D.known disk.new) result }
    ensures reads { (D.known disk.new).counts.reads ≤ (D.known disk.old).counts.reads + 1 }
{
    if disk.size()? < at + PAGE_SIZE as u64 {
        return Err(RunFault::BadRun(at));
    }
    let mut page = Page::blank();
    disk.read(at, &mut page.bytes)?;
    Ok(page)
}

/// Makes a page the one looked at last. Costs a read where it isn't kept.
pub(crate) fn look<D: Disk>(
    cache: &mut LruCache<u64, Page>,
    disk: &mut D,
    at: u64,
) -> Result<(), RunFault>
    requires fits { at + PAGE_SIZE < 2 ^ 64 }
    requires cache { IsCache cache.old }
    ensures cache { IsCache cache.new }
    ensures looked { Looked PAGES_KEPT (at ∷ []) (keys_of cache.old.entries) (keys_of cache.new.entries)
        (D.known disk.old).counts.reads (D.known disk.new).counts.reads result }
    ensures here { OnOk result (is_some (lookup (nat_eq at) cache.new.entries) ≡ true) }
    ensures pages { KeepsPages (D.known disk.old) (D.known disk.new) cache.old.entries cache.new.entries }
    ensures bad { IfKnown (D.known disk.old) (λ v. (n : ℕ) → IsErrOf result (RunFault.BadRun n)
        → (n ≡ at) × (length v.content < at + PAGE_SIZE)) }
    ensures rests { Rests (D.known disk.old) (D.known disk.new) }
    ensures cause { UsesPages (D.known disk.old) (D.known disk.new) result }
{
    if cache.promote(&at) {
        return Ok(());
    }
    let page = read_page(disk, at)?;
    cache.put(at, page)?;
    Ok(())
}
