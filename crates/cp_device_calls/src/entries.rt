//! Entries, and where bytes stop spelling one.
ghost use Rattle.cp_frame.specs.Sound.{IsSoundEntry};

use crate::ranges::Ranges;
use crate::show::{content_line, entry_lines, op_line, record_line};
use cp_format::{take, take_content};
use cp_frame::{Entry, FormatFault, entry_bytes, entry_of, take_op};
use std::alloc::{AllocError, Global};

/// Whether the entry is written as these bytes.
fn is_written(alloc: Global, entry: &Entry, bytes: &[u8]) -> Result<bool, AllocError>
    requires { IsSoundEntry entry.now }
{
    let again = entry_bytes(alloc, entry)?;
    Ok(again.as_slice() == bytes)
}

/// The entry that the bytes are, or the offset at which they stop.
fn read(alloc: Global, bytes: &[u8]) -> Result<Result<Entry, usize>, AllocError> {
    match entry_of(alloc, bytes) {
        Ok(entry) => match is_written(alloc, &entry, bytes) {
            Ok(true) => Ok(Ok(entry)),
            Ok(false) => {
                drop(entry);
                Ok(Err(usize::MAX))
            }
            Err(error) => {
                drop(entry);
                Err(error)
            }
        },
        Err(FormatFault::BadByte(at)) => Ok(Err(at)),
        Err(FormatFault::Memory) => Err(AllocError),
    }
}

/// The lines of the entry that the bytes are, which is written back as it was read, or where they stop.
pub(crate) fn entry(alloc: Global, bytes: &[u8]) -> Result<String, AllocError> {
    let found = read(alloc, bytes)?;
    let lines = match &found {
        Ok(entry) => entry_lines(alloc, entry),
        Err(at) => format!(in alloc; "stops at {at}\n"),
    };
    drop(found);
    lines
}

/// The offset at which the bytes stop; `None` where they are an entry.
fn stop_of(alloc: Global, bytes: &[u8]) -> Result<Option<usize>, AllocError> {
    let found = read(alloc, bytes)?;
    let stop = match &found {
        Ok(_) => None,
        Err(at) => Some(*at),
    };
    drop(found);
    Ok(stop)
}

/// Whether the bytes are an entry, or where they stop.
fn outcome(alloc: Global, bytes: &[u8]) -> Result<String, AllocError> {
    match stop_of(alloc, bytes)? {
        None => "entry".to_string(alloc),
        Some(at) => format!(in alloc; "{at}"),
    }
}

/// Where each front of the bytes stops that doesn't stop at its own length, and how many do.
pub(crate) fn fronts(alloc: Global, bytes: &[u8]) -> Result<String, AllocError> {
    let mut lines = String::new(alloc);
    let mut stopped = 0usize;
    for count in 0..bytes.len() {
        match stop_of(alloc, &bytes[..count])? {
            Some(at) if at == count => stopped = stopped.saturating_add(1),
            Some(at) => lines.push_str(format!(in alloc; "{count}: {at}\n")?.as_str())?,
            None => lines.push_str(format!(in alloc; "{count}: entry\n")?.as_str())?,
        }
    }
    lines.push_str(format!(in alloc; "{stopped} stop at their end\n")?.as_str())?;
    Ok(lines)
}

/// Where the bytes stop with each value in the place of the byte at this offset.
fn changed(alloc: Global, bytes: &[u8], at: usize) -> Result<String, AllocError> {
    let mut others = bytes.to_vec(alloc)?;
    let mut ranges = Ranges::new(alloc, ", ");
    for value in 0..=255u8 {
        if let Some(byte) = others.get_mut(at) {
            *byte = value;
        }
        ranges.add(alloc, outcome(alloc, others.as_slice())?)?;
    }
    ranges.end(alloc)
}

/// A line for each offset: where the bytes stop with each value there.
pub(crate) fn changes(alloc: Global, bytes: &[u8]) -> Result<String, AllocError> {
    let mut lines = String::new(alloc);
    for at in 0..bytes.len() {
        let line = format!(in alloc; "{}: {}\n", at, changed(alloc, bytes, at)?)?;
        lines.push_str(line.as_str())?;
    }
    Ok(lines)
}

/// How many operations an entry has.
fn op_count(entry: &Entry) -> usize {
    match entry {
        Entry::Commit { ops, .. } | Entry::Stamped { ops, .. } => ops.items.len(),
        _ => 0,
    }
}

/// How many bytes and operations the entry has that the bytes are, or where they stop.
pub(crate) fn again(alloc: Global, bytes: &[u8]) -> Result<String, AllocError> {
    let found = read(alloc, bytes)?;
    let line = match &found {
        Ok(entry) => {
            format!(in alloc; "{} bytes, {} operations\n", bytes.len(), op_count(entry))
        }
        Err(at) => format!(in alloc; "stops at {at}\n"),
    };
    drop(found);
    line
}

/// A line and where it ends, or where the bytes stop.
fn with_end(
    alloc: Global,
    found: Result<(String, usize), FormatFault>,
) -> Result<String, AllocError> {
    match found {
        Ok((line, end)) => format!(in alloc; "{line}ends at {end}\n"),
        Err(FormatFault::BadByte(at)) => format!(in alloc; "stops at {at}\n"),
        Err(FormatFault::Memory) => Err(AllocError),
    }
}

fn record_in(alloc: Global, bytes: &[u8]) -> Result<(String, usize), FormatFault> {
    let (packed, end) = take(bytes, 0)?;
    let record = packed.record(alloc)?;
    let line = record_line(alloc, &record);
    drop(record);
    Ok((line?, end))
}

fn content_in(alloc: Global, bytes: &[u8], room: usize) -> Result<(String, usize), FormatFault> {
    let (content, end) = take_content(alloc, bytes, 0, room)?;
    let line = content_line(alloc, &content);
    drop(content);
    Ok((line?, end))
}

fn operation_in(alloc: Global, bytes: &[u8], trees: bool) -> Result<(String, usize), FormatFault> {
    let (op, end) = take_op(alloc, bytes, 0, trees)?;
    let line = op_line(alloc, &op);
    drop(op);
    Ok((line?, end))
}

/// The record at the front of the bytes.
pub(crate) fn record(alloc: Global, bytes: &[u8]) -> Result<String, AllocError> {
    let found = record_in(alloc, bytes);
    with_end(alloc, found)
}

/// The content at the front of the bytes, whose text has no more bytes than there is room.
pub(crate) fn content(alloc: Global, room: &str, bytes: &[u8]) -> Result<String, AllocError> {
    let found = content_in(alloc, bytes, room.parse::<usize>().unwrap_or(0));
    with_end(alloc, found)
}

/// The operation at the front of the bytes; it may insert a tree where the words say so.
pub(crate) fn operation(alloc: Global, words: &str, bytes: &[u8]) -> Result<String, AllocError> {
    let found = operation_in(alloc, bytes, words == "trees");
    with_end(alloc, found)
}
