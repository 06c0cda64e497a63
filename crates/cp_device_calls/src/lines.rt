//! Lines of what calls give.

use std::alloc::{AllocError, Global};
use std::fmt::Display;

/// Adds a line of what this prints.
pub(crate) fn add_line(
    alloc: Global,
    value: &impl Display,
    lines: &mut Vec<u8>,
) -> Result<(), AllocError> {
    let line = format!(in alloc; "{value}\n")?;
    lines.extend_from_slice(line.as_bytes())
}

/// Adds a line of what this answer, or its fault, prints.
pub(crate) fn add_answer<T: Display, E: Display>(
    alloc: Global,
    answer: &Result<T, E>,
    lines: &mut Vec<u8>,
) -> Result<(), AllocError> {
    match answer {
        Ok(value) => add_line(alloc, value, lines),
        Err(fault) => add_line(alloc, fault, lines),
    }
}

/// Adds these bytes and a line feed.
pub(crate) fn add_bytes(bytes: &[u8], lines: &mut Vec<u8>) -> Result<(), AllocError> {
    lines.extend_from_slice(bytes)?;
    lines.extend_from_slice(b"\n")
}
