use crate::row::BadPage;
use std::alloc::{AllocError, AllocFailed};
use thiserror::Error;

/// Why rows weren't read.
#[derive(Clone, Copy, Debug, Drop, Error)]
pub enum PageFault {
    /// The bytes are no page of rows.
    #[error("not a page of rows")]
    BadPage,
    #[error("out of memory")]
    Memory,
}

impl From<BadPage> for PageFault {
    ghost use Rattle.std.specs.Prelude.{◌≡◌};
    ghost use Rattle.cp_page.specs.declared.fault.PageFault.TheVariants.{BadPage};

    ghost from_gives = { λ _ e. e ≡ BadPage };

    fn from(_bad: BadPage) -> PageFault {
        PageFault::BadPage
    }
}

impl From<AllocError> for PageFault {
    ghost use Rattle.std.specs.Prelude.{◌≡◌};
    ghost use Rattle.cp_page.specs.declared.fault.PageFault.TheVariants.{Memory};

    ghost from_gives = { λ _ e. e ≡ Memory };

    fn from(_refused: AllocError) -> PageFault {
        PageFault::Memory
    }
}

impl<T: Drop> From<AllocFailed<T>> for PageFault {
    ghost use Rattle.std.specs.Prelude.{◌≡◌};
    ghost use Rattle.cp_page.specs.declared.fault.PageFault.TheVariants.{Memory};

    ghost from_gives = { λ _ e. e ≡ Memory };

    fn from(_refused: AllocFailed<T>) -> PageFault {
        PageFault::Memory
    }
}
