ghost use Rattle.std.specs.Prelude.{◌≡◌, ℕ};
ghost use Rattle.cp_page.specs.declared.fault.PageFault.TheVariants as page_fault;

use cp_disk::DiskFault;
use cp_page::PageFault;
use std::alloc::{AllocError, AllocFailed};
use thiserror::Error;

/// Why a set of runs did not answer.
#[derive(Clone, Copy, Debug, Drop, Error)]
pub enum RunFault {
    /// The disk failed; its count of faults has risen.
    #[error("the disk failed")]
    Disk,
    /// The page at this offset doesn't lie whole in the file, or isn't one of rows.
    #[error("not a page of rows, at {0}")]
    BadRun(u64),
    #[error("out of memory")]
    Memory,
}

/// What a fault of the page at this offset is to a run.
pub(crate) fn fault_at(at: u64, fault: PageFault) -> RunFault
    ensures bad { (n : ℕ) → result ≡ RunFault.BadRun n → (n ≡ at) × (fault ≡ page_fault.BadPage) }
    ensures calm { result ≡ RunFault.Disk → ⊥ }
{
    match fault {
        PageFault::BadPage => RunFault::BadRun(at),
        PageFault::Memory => RunFault::Memory,
    }
}

impl From<DiskFault> for RunFault {
    ghost use Rattle.std.specs.Prelude.{◌≡◌};
    ghost use Rattle.cp_disk.specs.declared.disk.DiskFault.TheVariants as disk_fault;
    ghost use Rattle.cp_run.specs.declared.fault.RunFault.TheVariants.{Disk, Memory};

    ghost from_gives = { λ f e. (f ≡ disk_fault.Failed → e ≡ Disk) × (f ≡ disk_fault.Memory → e ≡ Memory) };

    fn from(fault: DiskFault) -> RunFault {
        match fault {
            DiskFault::Failed => RunFault::Disk,
            DiskFault::Memory => RunFault::Memory,
        }
    }
}

impl<T: Drop> From<AllocFailed<T>> for RunFault {
    ghost use Rattle.std.specs.Prelude.{◌≡◌};
    ghost use Rattle.cp_run.specs.declared.fault.RunFault.TheVariants.{Memory};

    ghost from_gives = { λ _ e. e ≡ Memory };

    fn from(_refused: AllocFailed<T>) -> RunFault {
        RunFault::Memory
    }
}
