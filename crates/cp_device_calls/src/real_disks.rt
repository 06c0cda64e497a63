//! Calls of a disk over a real file: `size`, `read AT`, of four bytes, `write AT BYTES`, `cut SIZE`, and
//! `sync`, which any other word is taken for.

use crate::lines::{add_answer, add_bytes, add_line};
use crate::outside::word_and_rest;
use cp_cases::number_of;
use cp_disk::{DISK_MAX, Disk, DiskFault};
use cp_host::FileDisk;
use std::alloc::{AllocError, Global};

/// Writes bytes from an offset on; none beyond the end of the largest disk.
fn write(disk: &mut FileDisk<&HostRuntime>, words: &str) -> Result<(), DiskFault> {
    let (at, bytes) = word_and_rest(words);
    let at = number_of(at);
    if at > DISK_MAX || bytes.len() as u64 > DISK_MAX - at {
        return Err(DiskFault::Memory);
    }
    disk.write_at(at, bytes.as_bytes())
}

/// Makes a call that gives nothing: a write, a cut or a sync.
pub(crate) fn changed(disk: &mut FileDisk<&HostRuntime>, call: &str) -> Result<(), DiskFault> {
    let (word, rest) = word_and_rest(call);
    match word {
        "write" => write(disk, rest),
        "cut" => disk.cut(number_of(rest)),
        _ => disk.sync(),
    }
}

/// Adds four bytes from here on.
fn add_four(
    alloc: Global,
    disk: &mut FileDisk<&HostRuntime>,
    at: u64,
    lines: &mut Vec<u8>,
) -> Result<(), AllocError> {
    let mut room = [0; 4];
    match disk.read(at, &mut room) {
        Ok(()) => add_bytes(&room, lines),
        Err(fault) => add_line(alloc, &fault, lines),
    }
}

/// Adds what a call gives.
pub(crate) fn add_called(
    alloc: Global,
    disk: &mut FileDisk<&HostRuntime>,
    call: &str,
    lines: &mut Vec<u8>,
) -> Result<(), AllocError> {
    let (word, rest) = word_and_rest(call);
    match word {
        "size" => add_answer(alloc, &disk.size(), lines),
        "read" => add_four(alloc, disk, number_of(rest), lines),
        _ => add_answer(alloc, &changed(disk, call).and(Ok("done")), lines),
    }
}
