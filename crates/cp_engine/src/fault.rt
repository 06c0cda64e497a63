use cp_model::{Cause, Refusal};
use std::alloc::{AllocError, AllocFailed};
use thiserror::Error;

/// Why an operation isn't applied.
#[derive(Clone, Copy, Debug, Drop, Error)]
pub enum ApplyFault {
    /// The transaction had failed at the operation of this number.
    #[error("the transaction has failed")]
    Failed(u32),
    /// The operation is refused, and the transaction has failed at it.
    #[error("the operation is refused")]
    Refused(Refusal),
    /// The transaction is as it was.
    #[error("out of memory")]
    Memory,
}

/// Why a transaction gives no step.
#[derive(Clone, Copy, Debug, Drop, Error)]
pub enum FinishFault {
    /// It holds no operation.
    #[error("no operation")]
    Empty,
    /// It had failed at the operation of this number.
    #[error("the transaction has failed")]
    Failed(u32, Cause),
    /// The bytes of its commit are more than the limit, or than an entry may have.
    #[error("the transaction is too large")]
    TooLarge,
    #[error("out of memory")]
    Memory,
}

impl From<AllocError> for ApplyFault {
    ghost use Rattle.std.specs.Prelude.{◌≡◌};
    ghost use Rattle.cp_engine.specs.declared.fault.ApplyFault.TheVariants.{Memory};

    ghost from_gives = { λ _ e. e ≡ Memory };

    fn from(_refused: AllocError) -> ApplyFault {
        ApplyFault::Memory
    }
}

impl<T: Drop> From<AllocFailed<T>> for ApplyFault {
    ghost use Rattle.std.specs.Prelude.{◌≡◌};
    ghost use Rattle.cp_engine.specs.declared.fault.ApplyFault.TheVariants.{Memory};

    ghost from_gives = { λ _ e. e ≡ Memory };

    fn from(_refused: AllocFailed<T>) -> ApplyFault {
        ApplyFault::Memory
    }
}

impl From<AllocError> for FinishFault {
    ghost use Rattle.std.specs.Prelude.{◌≡◌};
    ghost use Rattle.cp_engine.specs.declared.fault.FinishFault.TheVariants.{Memory};

    ghost from_gives = { λ _ e. e ≡ Memory };

    fn from(_refused: AllocError) -> FinishFault {
        FinishFault::Memory
    }
}
