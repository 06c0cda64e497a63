use thiserror::Error;

/// Something outside the program failed, as an input, a file or a clock. Its count of faults has
/// risen.
#[derive(Clone, Copy, Debug, Drop, Error)]
#[error("the device failed; its count of faults has risen")]
pub struct Failed;
