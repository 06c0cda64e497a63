use cp_path::Path;
use std::alloc::{AllocError, AllocFailed};
use std::fmt;
use thiserror::Error;

/// Why bytes give no tree.
#[derive(Drop, Error)]
pub enum JsonFault {
    /// The bytes aren't UTF-8, `serde_json` doesn't read them, or arrays and objects nest more than 127 deep.
    #[error("not JSON")]
    NotJson,
    /// A label has more than 255 bytes.
    #[error("label too long")]
    LabelTooLong,
    /// A place has more than 64 labels.
    #[error("place too deep")]
    TooDeep,
    /// A place's size, that of the name counted, is above 1,024.
    #[error("place too long")]
    PathTooLong,
    /// A text has more than 1,048,576 bytes.
    #[error("text too long")]
    TextTooLong,
    /// There are more than 1,048,576 places.
    #[error("too many nodes")]
    TooMany,
    /// The weight is above 33,554,432.
    #[error("tree too big")]
    TooBig,
    /// A number is neither a u64 nor an i64; of these the one whose place comes first.
    #[error("number not whole")]
    NotWhole(Path),
    #[error("out of memory")]
    Memory,
}

/// As the message; a path has no form for programmers.
impl fmt::Debug for JsonFault {
    fn fmt<W: fmt::Write>(&self, f: &mut fmt::Formatter<W>) -> fmt::Result {
        write!(f, "JsonFault({self})")
    }
}

impl From<AllocError> for JsonFault {
    ghost use Rattle.std.specs.Prelude.{◌≡◌};
    ghost use Rattle.cp_sources.specs.declared.json_fault.JsonFault.TheVariants.{Memory};

    ghost from_gives = { λ _ fault. fault ≡ Memory };

    fn from(_refused: AllocError) -> JsonFault {
        JsonFault::Memory
    }
}

impl<T: Drop> From<AllocFailed<T>> for JsonFault {
    ghost use Rattle.std.specs.Prelude.{◌≡◌};
    ghost use Rattle.cp_sources.specs.declared.json_fault.JsonFault.TheVariants.{Memory};

    ghost from_gives = { λ _ fault. fault ≡ Memory };

    fn from(_refused: AllocFailed<T>) -> JsonFault {
        JsonFault::Memory
    }
}
