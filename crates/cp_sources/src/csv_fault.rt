use std::alloc::{AllocError, AllocFailed};
use thiserror::Error;

/// Why a CSV text has no tree. Rows are numbered from 1, the header being 0, and so are columns.
#[derive(Clone, Copy, Debug, Drop, Error)]
pub enum CsvFault {
    /// There is no record at all.
    #[error("no header")]
    NoHeader,
    /// Some field of this row isn't UTF-8.
    #[error("row {0} isn't UTF-8")]
    NotUtf8(u64),
    /// A header or a row's key has more bytes than a label.
    #[error("a label is too long")]
    LabelTooLong,
    /// The header of this column stood in an earlier one.
    #[error("column {0} repeats a header")]
    RepeatedHeader(u64),
    /// The key is no header.
    #[error("no such column")]
    NoColumn,
    /// This row has more or fewer fields than the header.
    #[error("row {0} has another number of fields than the header")]
    Ragged(u64),
    /// A field has more bytes than a text value.
    #[error("a text is too long")]
    TextTooLong,
    /// An earlier row has the key of this one.
    #[error("row {0} repeats a key")]
    RepeatedKey(u64),
    /// With this row the tree has more places than a tree may have.
    #[error("too many places")]
    TooMany,
    /// With this row the tree weighs more than a tree may.
    #[error("too large a tree")]
    TooBig,
    #[error("out of memory")]
    Memory,
}

impl From<AllocError> for CsvFault {
    ghost use Rattle.std.specs.Prelude.{◌≡◌};
    ghost use Rattle.cp_sources.specs.declared.csv_fault.CsvFault.TheVariants.{Memory};

    ghost from_gives = { λ _ e. e ≡ Memory };

    fn from(_refused: AllocError) -> CsvFault {
        CsvFault::Memory
    }
}

impl<T: Drop> From<AllocFailed<T>> for CsvFault {
    ghost use Rattle.std.specs.Prelude.{◌≡◌};
    ghost use Rattle.cp_sources.specs.declared.csv_fault.CsvFault.TheVariants.{Memory};

    ghost from_gives = { λ _ e. e ≡ Memory };

    fn from(_refused: AllocFailed<T>) -> CsvFault {
        CsvFault::Memory
    }
}
