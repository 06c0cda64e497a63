//! Files that are read whole.
//!
//! A read is `LIMIT NAME over BYTES`: of the file of this name, of at most so many bytes, into a list that holds these before.
//! It gives the bytes that came, and how the read ended: `whole`, `too long` or `missing`.

use crate::lines::{add_bytes, add_line};
use crate::outside::word_and_rest;
use cp_cases::number_of;
use cp_outside::{FileEnd, Files, MemFile, MemFiles};
use std::alloc::{AllocError, Global};

fn end_words(end: FileEnd) -> &'static str {
    match end {
        FileEnd::Whole => ", whole",
        FileEnd::TooLong => ", too long",
        FileEnd::Missing => ", missing",
    }
}

/// Adds what came, and how the read ended.
fn add_given(given: &[u8], end: FileEnd, lines: &mut Vec<u8>) -> Result<(), AllocError> {
    lines.extend_from_slice(given)?;
    add_bytes(end_words(end).as_bytes(), lines)
}

/// Adds what a read of the file of this name gives, of at most so many bytes, into a list that holds `before`.
fn add_named<F: Files>(
    alloc: Global,
    files: &mut F,
    name: &str,
    limit: u64,
    before: &str,
    lines: &mut Vec<u8>,
) -> Result<(), AllocError> {
    let mut into = before.as_bytes().to_vec(alloc)?;
    match files.read_file(name, limit, &mut into) {
        Ok(end) => add_given(into.as_slice(), end, lines),
        Err(fault) => add_line(alloc, &fault, lines),
    }
}

/// Adds what a read gives of the file whose name is that of the folder and then that of the call.
pub(crate) fn add_read<F: Files>(
    alloc: Global,
    files: &mut F,
    folder: &str,
    call: &str,
    lines: &mut Vec<u8>,
) -> Result<(), AllocError> {
    let (call, before) = call.split_once(" over ").unwrap_or((call, ""));
    let (limit, below) = word_and_rest(call);
    let name = format!(in alloc; "{folder}{below}")?;
    add_named(alloc, files, name.as_str(), number_of(limit), before, lines)
}

/// The files of which one alone is there.
fn one_file(alloc: Global, name: &str, bytes: &str) -> Result<MemFiles, AllocError> {
    let file = MemFile {
        name: name.to_string(alloc)?,
        bytes: bytes.as_bytes().to_vec(alloc)?,
    };
    MemFiles::new(alloc, &[file])
}

/// Adds what reads give of files of which one is there, with this name and these bytes.
pub(crate) fn add_files(
    alloc: Global,
    words: &str,
    calls: &str,
    lines: &mut Vec<u8>,
) -> Result<(), AllocError> {
    let (name, bytes) = word_and_rest(words);
    let mut files = one_file(alloc, name, bytes)?;
    for call in calls.split_terminator('\n') {
        add_read(alloc, &mut files, "", call, lines)?;
    }
    Ok(())
}
