use cp_outside::{Failed, FilesFault};
use std::alloc::{AllocError, AllocFailed};
use thiserror::Error;

/// Why a statement was not run to its end.
#[derive(Clone, Copy, Debug, Drop, Error)]
pub enum WorkspaceFault {
    /// A source file failed; its count of faults has risen.
    #[error("a file failed")]
    File,
    /// The disk failed; its count of faults has risen.
    #[error("the disk failed")]
    Disk,
    /// The clock failed; its count of faults has risen.
    #[error("the clock failed")]
    Clock,
    #[error("out of memory")]
    Memory,
}

impl From<AllocError> for WorkspaceFault {
    ghost use Rattle.std.specs.Prelude.{◌≡◌};
    ghost use Rattle.cp_workspace.specs.declared.fault.WorkspaceFault.TheVariants.{Memory};

    ghost from_gives = { λ _ e. e ≡ Memory };

    fn from(_refused: AllocError) -> WorkspaceFault {
        WorkspaceFault::Memory
    }
}

impl<T: Drop> From<AllocFailed<T>> for WorkspaceFault {
    ghost use Rattle.std.specs.Prelude.{◌≡◌};
    ghost use Rattle.cp_workspace.specs.declared.fault.WorkspaceFault.TheVariants.{Memory};

    ghost from_gives = { λ _ e. e ≡ Memory };

    fn from(_refused: AllocFailed<T>) -> WorkspaceFault {
        WorkspaceFault::Memory
    }
}

impl From<FilesFault> for WorkspaceFault {
    ghost use Rattle.std.specs.Prelude.{◌≡◌};
    ghost use Rattle.cp_outside.specs.declared.files.FilesFault.TheVariants as fault;
    ghost use Rattle.cp_workspace.specs.declared.fault.WorkspaceFault.TheVariants.{File, Memory};

    ghost from_gives = { λ f e. (f ≡ fault.Failed → e ≡ File) × (f ≡ fault.Memory → e ≡ Memory) };

    fn from(fault: FilesFault) -> WorkspaceFault {
        match fault {
            FilesFault::Failed => WorkspaceFault::File,
            FilesFault::Memory => WorkspaceFault::Memory,
        }
    }
}

impl From<Failed> for WorkspaceFault {
    ghost use Rattle.std.specs.Prelude.{◌≡◌};
    ghost use Rattle.cp_workspace.specs.declared.fault.WorkspaceFault.TheVariants.{Clock};

    ghost from_gives = { λ _ e. e ≡ Clock };

    fn from(_failed: Failed) -> WorkspaceFault {
        WorkspaceFault::Clock
    }
}
