use std::alloc::{AllocError, AllocFailed};
use thiserror::Error;

/// Why nothing was read.
#[derive(Clone, Copy, Debug, Drop, Error)]
pub enum FormatFault {
    /// The offset of the first byte with which no spelling goes on, or the end where the bytes end too early.
    #[error("no spelling goes on at byte {0}")]
    BadByte(usize),
    #[error("out of memory")]
    Memory,
}

impl From<AllocError> for FormatFault {
    ghost use Rattle.std.specs.Prelude.{◌≡◌};
    ghost use Rattle.cp_format.specs.declared.fault.FormatFault.TheVariants.{Memory};

    ghost from_gives = { λ _ e. e ≡ Memory };

    fn from(_refused: AllocError) -> FormatFault {
        FormatFault::Memory
    }
}

impl<T: Drop> From<AllocFailed<T>> for FormatFault {
    ghost use Rattle.std.specs.Prelude.{◌≡◌};
    ghost use Rattle.cp_format.specs.declared.fault.FormatFault.TheVariants.{Memory};

    ghost from_gives = { λ _ e. e ≡ Memory };

    fn from(_refused: AllocFailed<T>) -> FormatFault {
        FormatFault::Memory
    }
}
