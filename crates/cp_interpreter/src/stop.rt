use cp_db::OpenFault;
use cp_journal::JournalFault;
use cp_outside::{FilesFault, SinkFault};
use cp_workspace::WorkspaceFault;
use std::alloc::{AllocError, AllocFailed};
use thiserror::Error;

/// Why a session ended before its input did, or wasn't begun.
#[derive(Clone, Copy, Debug, Drop, Error)]
pub enum Stop {
    #[error("the output failed")]
    Output,
    /// The output's own want of memory.
    #[error("the output ran out of memory")]
    Full,
    #[error("a file failed")]
    File,
    #[error("the disk failed")]
    Disk,
    /// The file is no store, from this offset on.
    #[error("not a store, at {0}")]
    NoStore(u64),
    #[error("the clock failed")]
    Clock,
    #[error("out of memory")]
    Memory,
}

impl From<AllocError> for Stop {
    ghost use Rattle.std.specs.Prelude.{◌≡◌};
    ghost use Rattle.cp_interpreter.specs.declared.stop.Stop.TheVariants.{Memory};

    ghost from_gives = { λ _ e. e ≡ Memory };

    fn from(_refused: AllocError) -> Stop {
        Stop::Memory
    }
}

impl<T: Drop> From<AllocFailed<T>> for Stop {
    ghost use Rattle.std.specs.Prelude.{◌≡◌};
    ghost use Rattle.cp_interpreter.specs.declared.stop.Stop.TheVariants.{Memory};

    ghost from_gives = { λ _ e. e ≡ Memory };

    fn from(_refused: AllocFailed<T>) -> Stop {
        Stop::Memory
    }
}

impl From<SinkFault> for Stop {
    ghost use Rattle.std.specs.Prelude.{◌≡◌};
    ghost use Rattle.cp_outside.specs.declared.sink.SinkFault.TheVariants as fault;
    ghost use Rattle.cp_interpreter.specs.declared.stop.Stop.TheVariants.{Output, Full};

    ghost from_gives = { λ f e. (f ≡ fault.Failed → e ≡ Output) × (f ≡ fault.Memory → e ≡ Full) };

    fn from(fault: SinkFault) -> Stop {
        match fault {
            SinkFault::Failed => Stop::Output,
            SinkFault::Memory => Stop::Full,
        }
    }
}

impl From<FilesFault> for Stop {
    ghost use Rattle.std.specs.Prelude.{◌≡◌};
    ghost use Rattle.cp_outside.specs.declared.files.FilesFault.TheVariants as fault;
    ghost use Rattle.cp_interpreter.specs.declared.stop.Stop.TheVariants.{File, Memory};

    ghost from_gives = { λ f e. (f ≡ fault.Failed → e ≡ File) × (f ≡ fault.Memory → e ≡ Memory) };

    fn from(fault: FilesFault) -> Stop {
        match fault {
            FilesFault::Failed => Stop::File,
            FilesFault::Memory => Stop::Memory,
        }
    }
}

impl From<WorkspaceFault> for Stop {
    ghost use Rattle.std.specs.Prelude.{◌≡◌};
    ghost use Rattle.cp_workspace.specs.declared.fault.WorkspaceFault.TheVariants as fault;
    ghost use Rattle.cp_interpreter.specs.declared.stop.Stop.TheVariants.{File, Disk, Clock, Memory};

    ghost from_gives = { λ f e. (f ≡ fault.File → e ≡ File) × (f ≡ fault.Disk → e ≡ Disk)
        × (f ≡ fault.Clock → e ≡ Clock) × (f ≡ fault.Memory → e ≡ Memory) };

    fn from(fault: WorkspaceFault) -> Stop {
        match fault {
            WorkspaceFault::File => Stop::File,
            WorkspaceFault::Disk => Stop::Disk,
            WorkspaceFault::Clock => Stop::Clock,
            WorkspaceFault::Memory => Stop::Memory,
        }
    }
}

impl From<OpenFault> for Stop {
    ghost use Rattle.std.specs.Prelude.{◌≡◌, ℕ};
    ghost use Rattle.cp_db.specs.declared.fault.OpenFault.TheVariants as fault;
    ghost use Rattle.cp_interpreter.specs.declared.stop.Stop.TheVariants.{Disk, NoStore, Memory};

    ghost from_gives = { λ f e. (f ≡ fault.Disk → e ≡ Disk) × (f ≡ fault.Memory → e ≡ Memory)
        × ((at : ℕ) → f ≡ fault.NoStore at → e ≡ NoStore at) };

    fn from(fault: OpenFault) -> Stop {
        match fault {
            OpenFault::NoStore(at) => Stop::NoStore(at),
            OpenFault::Disk => Stop::Disk,
            OpenFault::Memory => Stop::Memory,
        }
    }
}

/// What the journal has no reason to answer here is read as want of memory.
impl From<JournalFault> for Stop {
    ghost use Rattle.std.specs.Prelude.{◌≡◌};
    ghost use Rattle.cp_journal.specs.declared.fault.JournalFault.TheVariants as fault;
    ghost use Rattle.cp_interpreter.specs.declared.stop.Stop.TheVariants.{Disk, Memory};

    ghost from_gives = { λ f e. (f ≡ fault.Disk → e ≡ Disk) × (f ≡ fault.Memory → e ≡ Memory) };

    fn from(fault: JournalFault) -> Stop {
        match fault {
            JournalFault::Disk => Stop::Disk,
            _ => Stop::Memory,
        }
    }
}
