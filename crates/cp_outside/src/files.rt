//! Files that are read whole.
ghost use Rattle.std.specs.Prelude.{◌≡◌, ℕ, IfOk};
ghost use Rattle.std.specs.declared.option.Option.{Option};
ghost use Rattle.cp_outside.specs.Causes.{Accounts, one_more};
ghost use Rattle.cp_outside.specs.FileReads.{FileTable, ReadsFile};

use std::alloc::{AllocError, AllocFailed};
use thiserror::Error;

/// How a file was read.
#[derive(Clone, Copy, PartialEq, Eq, Drop)]
pub enum FileEnd {
    /// All of it.
    Whole,
    /// Only its first bytes; more follow.
    TooLong,
    /// There is no such file.
    Missing,
}

/// Why a file was not read.
#[derive(Clone, Copy, Debug, Drop, Error)]
pub enum FilesFault {
    /// The file could not be read; the count of faults has risen.
    #[error("the file could not be read")]
    Failed,
    /// There was no memory to keep the bytes in. No fault is counted.
    #[error("out of memory")]
    Memory,
}

impl From<AllocError> for FilesFault {
    ghost use Rattle.std.specs.Prelude.{◌≡◌};
    ghost use Rattle.cp_outside.specs.declared.files.FilesFault.TheVariants.{Memory};

    ghost from_gives = { λ _ e. e ≡ Memory };

    fn from(_refused: AllocError) -> FilesFault {
        FilesFault::Memory
    }
}

impl<T: Drop> From<AllocFailed<T>> for FilesFault {
    ghost use Rattle.std.specs.Prelude.{◌≡◌};
    ghost use Rattle.cp_outside.specs.declared.files.FilesFault.TheVariants.{Memory};

    ghost from_gives = { λ _ e. e ≡ Memory };

    fn from(_refused: AllocFailed<T>) -> FilesFault {
        FilesFault::Memory
    }
}

/// Files that are read by their names, as those of an operating system or those in memory.
pub trait Files {
    /// What each name names, where the object tells.
    ghost found: { Self → Option FileTable };

    /// How many files it was asked for, up to the end of a `u64`.
    ghost reads: { Self → ℕ };

    /// How often it has failed, up to the end of a `u64`.
    ghost faults: { Self → ℕ };

    /// Reads the file of this name into `into`, whose old contents are dropped, and keeps at most
    /// `limit` bytes of it. `Missing` counts as no failure, and leaves `into` empty. After an error
    /// what `into` holds is not said, and a later read may still succeed. Costs the bytes kept.
    fn read_file(
        &mut self,
        name: &str,
        limit: u64,
        into: &mut Vec<u8>,
    ) -> Result<FileEnd, FilesFault>
        ensures read { IfOk result (λ end.
            ReadsFile (found self.old) name.now limit into.new.items end) }
        ensures same { found self.new ≡ found self.old }
        ensures counted { reads self.new ≡ one_more (reads self.old) }
        ensures cause { Accounts (λ e. e ≡ FilesFault.Failed) (faults self.old) (faults self.new) result };
}
