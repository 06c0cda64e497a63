//! Files of stores: their headers, and their frames.

use crate::entries::entry;
use crate::ranges::Ranges;
use cp_disk::{DISK_MAX, MemDisk};
use cp_journal::{FrameAt, HEADER_SIZE, Header, Journal, JournalFault, Slot};
use std::alloc::{AllocError, Global};

/// A disk with these bytes.
pub(crate) fn disk_of(alloc: Global, file: &[u8]) -> Result<MemDisk, JournalFault> {
    if file.len() as u64 > DISK_MAX {
        return Err(JournalFault::TooLarge);
    }
    Ok(MemDisk::new(alloc, file)?)
}

/// The words of a fault.
pub(crate) fn fault_text(alloc: Global, fault: JournalFault) -> Result<String, AllocError> {
    match fault {
        JournalFault::Memory => Err(AllocError),
        fault => fault.to_string(alloc),
    }
}

/// A slot's number and the offset that it names, or that it is closed.
fn slot_text(alloc: Global, slot: Option<Slot>) -> Result<String, AllocError> {
    match slot {
        Some(slot) => format!(in alloc; "{} at {}", slot.seq, slot.at),
        None => "closed".to_string(alloc),
    }
}

/// The header of a file; none where it is vacant.
pub(crate) fn header_of(alloc: Global, file: &[u8]) -> Result<Option<Header>, JournalFault> {
    let mut disk = disk_of(alloc, file)?;
    if Journal::vacant(&mut disk)? {
        return Ok(None);
    }
    Ok(Some(Journal::header(&mut disk)?))
}

/// What the header of a file says.
fn header_text(alloc: Global, file: &[u8]) -> Result<String, AllocError> {
    match header_of(alloc, file) {
        Ok(None) => "vacant".to_string(alloc),
        Ok(Some(header)) => {
            let first = slot_text(alloc, header.first)?;
            let second = slot_text(alloc, header.second)?;
            format!(in alloc; "version {}, {}, {}", header.version, first, second)
        }
        Err(fault) => fault_text(alloc, fault),
    }
}

/// The line of what the header of a file says.
pub(crate) fn header(alloc: Global, file: &[u8]) -> Result<String, AllocError> {
    let mut line = header_text(alloc, file)?;
    line.push('\n')?;
    Ok(line)
}

/// What the header of each front of a file says, a line for each range of lengths.
pub(crate) fn headers(alloc: Global, file: &[u8]) -> Result<String, AllocError> {
    let mut ranges = Ranges::new(alloc, "\n");
    for count in 0..=file.len() {
        ranges.add(alloc, header_text(alloc, &file[..count])?)?;
    }
    let mut lines = ranges.end(alloc)?;
    lines.push('\n')?;
    Ok(lines)
}

/// The frames of a file, and the gate that ends them.
#[derive(Drop)]
pub(crate) struct Found {
    pub(crate) frames: usize,
    pub(crate) next: u64,
    pub(crate) broken: Option<u64>,
}

/// Walks the frames of a file.
pub(crate) fn found_in(alloc: Global, file: &[u8]) -> Result<Found, JournalFault> {
    let mut disk = disk_of(alloc, file)?;
    let journal = Journal::open_on(alloc, &mut disk, HEADER_SIZE as u64);
    drop(disk);
    let journal = journal?;
    let found = Found {
        frames: journal.len(),
        next: journal.next(),
        broken: journal.broken(),
    };
    drop(journal);
    Ok(found)
}

/// The gate that ends the frames.
fn end_text(alloc: Global, found: &Found) -> Result<String, AllocError> {
    match found.broken {
        Some(at) => format!(in alloc; "broken at {at}"),
        None => format!(in alloc; "closed at {}", found.next),
    }
}

/// How many frames a file has, and the gate that ends them.
pub(crate) fn frames_text(alloc: Global, file: &[u8]) -> Result<String, AllocError> {
    match found_in(alloc, file) {
        Ok(found) => { format!(in alloc; "{} frames, {}", found.frames, end_text(alloc, &found)?) }
        Err(fault) => fault_text(alloc, fault),
    }
}

/// The same of each front of a file, a line for each range of lengths.
pub(crate) fn walks(alloc: Global, file: &[u8]) -> Result<String, AllocError> {
    let mut ranges = Ranges::new(alloc, "\n");
    for count in 0..=file.len() {
        ranges.add(alloc, frames_text(alloc, &file[..count])?)?;
    }
    let mut lines = ranges.end(alloc)?;
    lines.push('\n')?;
    Ok(lines)
}

/// A frame, and its body where it is an entry.
#[derive(Drop)]
struct Read {
    frame: FrameAt,
    body: Vec<u8>,
}

/// The frame of this number.
fn frame_of(alloc: Global, file: &[u8], number: usize) -> Result<Option<Read>, JournalFault> {
    let mut disk = disk_of(alloc, file)?;
    let journal = Journal::open_on(alloc, &mut disk, HEADER_SIZE as u64)?;
    if number >= journal.len() {
        return Ok(None);
    }
    let mut body = Vec::new(alloc);
    let frame = journal.read(&mut disk, number, &mut body);
    drop(journal);
    drop(disk);
    Ok(Some(Read {
        frame: frame?,
        body,
    }))
}

/// The lines of the frame of this number.
fn frame_lines(alloc: Global, file: &[u8], number: usize) -> Result<String, AllocError> {
    match frame_of(alloc, file, number) {
        Ok(Some(read)) => {
            let entry = entry(alloc, read.body.as_slice())?;
            format!(in alloc; "at {}, {} bytes\n{}", read.frame.at, read.frame.len, entry)
        }
        Ok(None) => "none\n".to_string(alloc),
        Err(fault) => fault_text(alloc, fault),
    }
}

/// The frames of a file with their entries, and the gate that ends them.
pub(crate) fn walk(alloc: Global, file: &[u8]) -> Result<String, AllocError> {
    let found = match found_in(alloc, file) {
        Ok(found) => found,
        Err(fault) => return fault_text(alloc, fault),
    };
    let mut lines = String::new(alloc);
    for number in 0..found.frames {
        lines.push_str(frame_lines(alloc, file, number)?.as_str())?;
    }
    lines.push_str(end_text(alloc, &found)?.as_str())?;
    lines.push('\n')?;
    Ok(lines)
}
