use cp_engine::FinishFault;
use cp_journal::JournalFault;
use cp_model::Cause;
use std::alloc::AllocError;
use thiserror::Error;

/// Why no store was made.
#[derive(Clone, Copy, Debug, Drop, Error)]
pub enum InitFault {
    /// The file isn't vacant. It is as it was.
    #[error("a store exists")]
    Exists,
    /// The disk failed; its count of faults has risen.
    #[error("the disk failed")]
    Disk,
    #[error("out of memory")]
    Memory,
}

/// Why a file wasn't opened.
#[derive(Clone, Copy, Debug, Drop, Error)]
pub enum OpenFault {
    /// The file is no store's. The number is the offset of what isn't as it has to be: 0 for the header, that of a slot
    /// that is open, or that of the gate of a frame.
    #[error("not a store, at {0}")]
    NoStore(u64),
    /// The disk failed; its count of faults has risen.
    #[error("the disk failed")]
    Disk,
    #[error("out of memory")]
    Memory,
}

/// Why an entry wasn't added, or a file not made one of version 2.
#[derive(Clone, Copy, Debug, Drop, Error)]
pub enum WriteFault {
    /// The entry is over its limit, or the file would be. Nothing has changed.
    #[error("too large")]
    TooLarge,
    /// The disk failed; its count of faults has risen.
    #[error("the disk failed")]
    Disk,
    #[error("out of memory")]
    Memory,
}

/// Why a source wasn't kept.
#[derive(Clone, Copy, Debug, Drop, Error)]
pub enum LoadFault {
    /// A source of this name is there. Nothing has changed.
    #[error("a source of this name is there")]
    SourceThere,
    /// As many sources are there as may be. Nothing has changed.
    #[error("too many sources")]
    TooManySources,
    /// The entry is over its limit, or the file would be. Nothing has changed.
    #[error("too large")]
    TooLarge,
    /// The disk failed; its count of faults has risen.
    #[error("the disk failed")]
    Disk,
    #[error("out of memory")]
    Memory,
}

/// Why a transaction wasn't committed.
#[derive(Clone, Copy, Debug, Drop, Error)]
pub enum CommitFault {
    /// It holds no operation.
    #[error("no operation")]
    Empty,
    /// It had failed at this operation.
    #[error("failed at {0}")]
    Failed(u32, Cause),
    /// Its entry is over the limit, or the file would be.
    #[error("too large")]
    TooLarge,
    /// The disk failed; its count of faults has risen.
    #[error("the disk failed")]
    Disk,
    #[error("out of memory")]
    Memory,
}

impl From<AllocError> for InitFault {
    ghost use Rattle.std.specs.Prelude.{◌≡◌};
    ghost use Rattle.cp_db.specs.declared.fault.InitFault.TheVariants.{Memory};

    ghost from_gives = { λ _ e. e ≡ Memory };

    fn from(_refused: AllocError) -> InitFault {
        InitFault::Memory
    }
}

impl From<AllocError> for OpenFault {
    ghost use Rattle.std.specs.Prelude.{◌≡◌};
    ghost use Rattle.cp_db.specs.declared.fault.OpenFault.TheVariants.{Memory};

    ghost from_gives = { λ _ e. e ≡ Memory };

    fn from(_refused: AllocError) -> OpenFault {
        OpenFault::Memory
    }
}

impl From<AllocError> for WriteFault {
    ghost use Rattle.std.specs.Prelude.{◌≡◌};
    ghost use Rattle.cp_db.specs.declared.fault.WriteFault.TheVariants.{Memory};

    ghost from_gives = { λ _ e. e ≡ Memory };

    fn from(_refused: AllocError) -> WriteFault {
        WriteFault::Memory
    }
}

impl From<AllocError> for LoadFault {
    ghost use Rattle.std.specs.Prelude.{◌≡◌};
    ghost use Rattle.cp_db.specs.declared.fault.LoadFault.TheVariants.{Memory};

    ghost from_gives = { λ _ e. e ≡ Memory };

    fn from(_refused: AllocError) -> LoadFault {
        LoadFault::Memory
    }
}

/// What the journal has no reason to answer here is read as want of memory.
impl From<JournalFault> for InitFault {
    ghost use Rattle.std.specs.Prelude.{◌≡◌};
    ghost use Rattle.cp_journal.specs.declared.fault.JournalFault.TheVariants as journal;
    ghost use Rattle.cp_db.specs.declared.fault.InitFault.TheVariants.{Disk, Memory};

    ghost from_gives = { λ f e. (f ≡ journal.Disk → e ≡ Disk) × (f ≡ journal.Memory → e ≡ Memory) };

    fn from(fault: JournalFault) -> InitFault {
        match fault {
            JournalFault::Disk => InitFault::Disk,
            _ => InitFault::Memory,
        }
    }
}

/// What the journal has no reason to answer here is read as want of memory.
impl From<JournalFault> for OpenFault {
    ghost use Rattle.std.specs.Prelude.{◌≡◌, ℕ};
    ghost use Rattle.cp_journal.specs.declared.fault.JournalFault.TheVariants as journal;
    ghost use Rattle.cp_db.specs.declared.fault.OpenFault.TheVariants.{NoStore, Disk, Memory};

    ghost from_gives = { λ f e. (f ≡ journal.Disk → e ≡ Disk) × (f ≡ journal.Memory → e ≡ Memory)
        × ((at : ℕ) → f ≡ journal.NoStore at → e ≡ NoStore at) };

    fn from(fault: JournalFault) -> OpenFault {
        match fault {
            JournalFault::Disk => OpenFault::Disk,
            JournalFault::NoStore(at) => OpenFault::NoStore(at),
            _ => OpenFault::Memory,
        }
    }
}

/// What the journal has no reason to answer here is read as want of memory.
impl From<JournalFault> for WriteFault {
    ghost use Rattle.std.specs.Prelude.{◌≡◌};
    ghost use Rattle.cp_journal.specs.declared.fault.JournalFault.TheVariants as journal;
    ghost use Rattle.cp_db.specs.declared.fault.WriteFault.TheVariants.{TooLarge, Disk, Memory};

    ghost from_gives = { λ f e. (f ≡ journal.Disk → e ≡ Disk) × (f ≡ journal.Memory → e ≡ Memory)
        × (f ≡ journal.TooLarge → e ≡ TooLarge) };

    fn from(fault: JournalFault) -> WriteFault {
        match fault {
            JournalFault::Disk => WriteFault::Disk,
            JournalFault::TooLarge => WriteFault::TooLarge,
            _ => WriteFault::Memory,
        }
    }
}

impl From<WriteFault> for LoadFault {
    ghost use Rattle.std.specs.Prelude.{◌≡◌};
    ghost use Rattle.cp_db.specs.declared.fault.WriteFault.TheVariants as write;
    ghost use Rattle.cp_db.specs.declared.fault.LoadFault.TheVariants.{TooLarge, Disk, Memory};

    ghost from_gives = { λ f e. (f ≡ write.Disk → e ≡ Disk) × (f ≡ write.Memory → e ≡ Memory)
        × (f ≡ write.TooLarge → e ≡ TooLarge) };

    fn from(fault: WriteFault) -> LoadFault {
        match fault {
            WriteFault::TooLarge => LoadFault::TooLarge,
            WriteFault::Disk => LoadFault::Disk,
            WriteFault::Memory => LoadFault::Memory,
        }
    }
}

impl From<WriteFault> for CommitFault {
    ghost use Rattle.std.specs.Prelude.{◌≡◌};
    ghost use Rattle.cp_db.specs.declared.fault.WriteFault.TheVariants as write;
    ghost use Rattle.cp_db.specs.declared.fault.CommitFault.TheVariants.{TooLarge, Disk, Memory};

    ghost from_gives = { λ f e. (f ≡ write.Disk → e ≡ Disk) × (f ≡ write.Memory → e ≡ Memory)
        × (f ≡ write.TooLarge → e ≡ TooLarge) };

    fn from(fault: WriteFault) -> CommitFault {
        match fault {
            WriteFault::TooLarge => CommitFault::TooLarge,
            WriteFault::Disk => CommitFault::Disk,
            WriteFault::Memory => CommitFault::Memory,
        }
    }
}

impl From<FinishFault> for CommitFault {
    ghost use Rattle.std.specs.Prelude.{◌≡◌, ℕ};
    ghost use Rattle.cp_model.specs.declared.refusal.Cause.{Cause as CauseValue};
    ghost use Rattle.cp_engine.specs.declared.fault.FinishFault.TheVariants as finish;
    ghost use Rattle.cp_db.specs.declared.fault.CommitFault.TheVariants.{Empty, Failed, TooLarge, Memory};

    ghost from_gives = { λ f e. (f ≡ finish.Empty → e ≡ Empty) × (f ≡ finish.TooLarge → e ≡ TooLarge)
        × (f ≡ finish.Memory → e ≡ Memory)
        × ((n : ℕ) (c : CauseValue) → f ≡ finish.Failed n c → e ≡ Failed n c) };

    fn from(fault: FinishFault) -> CommitFault {
        match fault {
            FinishFault::Empty => CommitFault::Empty,
            FinishFault::Failed(number, cause) => CommitFault::Failed(number, cause),
            FinishFault::TooLarge => CommitFault::TooLarge,
            FinishFault::Memory => CommitFault::Memory,
        }
    }
}
