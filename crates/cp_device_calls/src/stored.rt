//! Calls of entries, files of stores and disks in memory.

use crate::{checkpoints, crashes, disks, entries, files};
use cp_cases::{Step, bytes_in};
use std::alloc::{AllocError, Global};

/// The lines of a call of one entry, or of a part of it, on these bytes; `None` where the keyword is of no such call.
fn entry_lines(alloc: Global, step: &Step, bytes: &[u8]) -> Option<Result<String, AllocError>> {
    let words = step.rest.as_str();
    Some(match step.key.as_str() {
        "entry" => entries::entry(alloc, bytes),
        "fronts" => entries::fronts(alloc, bytes),
        "changes" => entries::changes(alloc, bytes),
        "again" => entries::again(alloc, bytes),
        "record" => entries::record(alloc, bytes),
        "content" => entries::content(alloc, words, bytes),
        "operation" => entries::operation(alloc, words, bytes),
        _ => return None,
    })
}

/// The lines of a call of a file or of a disk; `None` where the keyword is of no such call.
fn file_lines(alloc: Global, step: &Step, bytes: &[u8]) -> Option<Result<String, AllocError>> {
    let words = step.rest.as_str();
    Some(match step.key.as_str() {
        "header" => files::header(alloc, bytes),
        "headers" => files::headers(alloc, bytes),
        "walk" => files::walk(alloc, bytes),
        "walks" => files::walks(alloc, bytes),
        "calls" => disks::calls(alloc, words, step.text.as_slice()),
        "sweep" => crashes::sweep(alloc, words),
        "upgrade" => crashes::upgrade(alloc, words, bytes),
        "checkpoint" => checkpoints::checkpoint(alloc, words, bytes),
        "large" => crashes::large(alloc, words),
        "entries" => crashes::entries(alloc, words),
        _ => return None,
    })
}

/// The bytes of lines, if there are any.
fn bytes_of(
    alloc: Global,
    lines: Option<Result<String, AllocError>>,
) -> Result<Option<Vec<u8>>, AllocError> {
    match lines {
        Some(lines) => Ok(Some(lines?.as_bytes().to_vec(alloc)?)),
        None => Ok(None),
    }
}

/// What the call of this keyword gives; `None` where there is no such call.
pub(crate) fn answer(alloc: Global, step: &Step) -> Result<Option<Vec<u8>>, AllocError> {
    let bytes = bytes_in(alloc, step.text.as_slice())?;
    let lines = match entry_lines(alloc, step, bytes.as_slice()) {
        Some(lines) => Some(lines),
        None => file_lines(alloc, step, bytes.as_slice()),
    };
    drop(bytes);
    bytes_of(alloc, lines)
}
