ghost use Rattle.std.specs.Prelude.{◌≡◌};

use cp_disk::DiskFault;
use std::alloc::{AllocError, AllocFailed};
use thiserror::Error;

/// Why a journal did not do what it was asked for.
#[derive(Clone, Copy, Debug, Drop, Error)]
pub enum JournalFault {
    /// The disk failed; its count of faults has risen.
    #[error("the disk failed")]
    Disk,
    /// The file is no store's. The number is the offset of what isn't as it has to be.
    #[error("not a store, at {0}")]
    NoStore(u64),
    /// An entry is over the limit, or the file would be. Nothing has changed.
    #[error("too large")]
    TooLarge,
    #[error("out of memory")]
    Memory,
}

impl From<DiskFault> for JournalFault {
    ghost use Rattle.std.specs.Prelude.{◌≡◌};
    ghost use Rattle.cp_disk.specs.declared.disk.DiskFault.TheVariants as disk_fault;
    ghost use Rattle.cp_journal.specs.declared.fault.JournalFault.TheVariants.{Disk, Memory};

    ghost from_gives = { λ f e. (f ≡ disk_fault.Failed → e ≡ Disk) × (f ≡ disk_fault.Memory → e ≡ Memory) };

    fn from(fault: DiskFault) -> JournalFault {
        match fault {
            DiskFault::Failed => JournalFault::Disk,
            DiskFault::Memory => JournalFault::Memory,
        }
    }
}

impl From<AllocError> for JournalFault {
    ghost use Rattle.std.specs.Prelude.{◌≡◌};
    ghost use Rattle.cp_journal.specs.declared.fault.JournalFault.TheVariants.{Memory};

    ghost from_gives = { λ _ e. e ≡ Memory };

    fn from(_refused: AllocError) -> JournalFault {
        JournalFault::Memory
    }
}

impl<T: Drop> From<AllocFailed<T>> for JournalFault {
    ghost use Rattle.std.specs.Prelude.{◌≡◌};
    ghost use Rattle.cp_journal.specs.declared.fault.JournalFault.TheVariants.{Memory};

    ghost from_gives = { λ _ e. e ≡ Memory };

    fn from(_refused: AllocFailed<T>) -> JournalFault {
        JournalFault::Memory
    }
}
