use std::alloc::{AllocError, AllocFailed};
use thiserror::Error;

/// Why a word is no place, label, name or value. The offset of `BadEscape` counts from the word's first byte.
#[derive(Clone, Copy, Debug, Drop, Error)]
pub enum PathFault {
    #[error("bad escape at {0}")]
    BadEscape(usize),
    #[error("label too long")]
    LabelTooLong,
    #[error("place too deep")]
    TooDeep,
    #[error("place too long")]
    PathTooLong,
    #[error("bad value")]
    BadValue,
    #[error("bad name")]
    BadName,
    #[error("out of memory")]
    Memory,
}

impl From<AllocError> for PathFault {
    ghost use Rattle.std.specs.Prelude.{◌≡◌};
    ghost use Rattle.cp_path.specs.declared.fault.PathFault.TheVariants.{Memory};

    ghost from_gives = { λ _ fault. fault ≡ Memory };

    fn from(_refused: AllocError) -> PathFault {
        PathFault::Memory
    }
}

impl<T: Drop> From<AllocFailed<T>> for PathFault {
    ghost use Rattle.std.specs.Prelude.{◌≡◌};
    ghost use Rattle.cp_path.specs.declared.fault.PathFault.TheVariants.{Memory};

    ghost from_gives = { λ _ fault. fault ≡ Memory };

    fn from(_refused: AllocFailed<T>) -> PathFault {
        PathFault::Memory
    }
}
