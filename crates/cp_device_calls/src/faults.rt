//! The faults of devices.

use crate::lines::{add_answer, add_line};
use cp_outside::{Failed, FilesFault, SinkFault};
use std::alloc::{AllocError, AllocFailed, Global};

/// Adds what faults print: of a device, of a sink, and of files.
pub(crate) fn add_texts(alloc: Global, lines: &mut Vec<u8>) -> Result<(), AllocError> {
    add_line(alloc, &Failed, lines)?;
    add_line(alloc, &SinkFault::Failed, lines)?;
    add_line(alloc, &SinkFault::from(AllocError), lines)?;
    add_line(alloc, &FilesFault::Failed, lines)?;
    add_line(alloc, &FilesFault::from(AllocError), lines)
}

/// Grows a list by one, where running out of memory would be a fault of this type.
fn push<E: From<AllocFailed<u8>>>(list: &mut Vec<u8>, byte: u8) -> Result<(), E> {
    list.push(byte)?;
    Ok(())
}

/// Adds how a list grows as a sink in memory might, and as files in memory might.
pub(crate) fn add_grown(alloc: Global, lines: &mut Vec<u8>) -> Result<(), AllocError> {
    let mut list = Vec::new(alloc);
    let first = push::<SinkFault>(&mut list, 1).and(Ok("done"));
    let second = push::<FilesFault>(&mut list, 2).and(Ok("done"));
    drop(list);
    add_answer(alloc, &first, lines)?;
    add_answer(alloc, &second, lines)
}
