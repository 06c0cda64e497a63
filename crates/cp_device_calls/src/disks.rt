//! Calls of a disk in memory.
//!
//! The first line of the text is what the disk holds at first, and each other line is a call: `size`, `read AT COUNT`,
//! `write AT BYTES`, `cut SIZE`, `sync`, `crash old`, `crash new` or `crash BYTE`, which shows what a crash would leave, and
//! `content`. A call that may not be made is `not asked`.

use crate::ranges::{number_at, two_numbers};
use cp_cases::{bytes_in, hex_of, numbers_of};
use cp_disk::{Crash, DISK_MAX, Disk, DiskFault, MemDisk, READ_MAX};
use std::alloc::{AllocError, Global};

/// How a call ended that gives nothing.
fn ended(alloc: Global, outcome: Result<(), DiskFault>) -> Result<String, AllocError> {
    match outcome {
        Ok(()) => "done".to_string(alloc),
        Err(DiskFault::Failed) => "failed".to_string(alloc),
        Err(DiskFault::Memory) => Err(AllocError),
    }
}

fn size(alloc: Global, disk: &mut MemDisk) -> Result<String, AllocError> {
    match disk.size() {
        Ok(size) => size.to_string(alloc),
        Err(fault) => ended(alloc, Err(fault)),
    }
}

/// The bytes that are read.
fn read(alloc: Global, disk: &mut MemDisk, at: u64, count: u64) -> Result<String, AllocError> {
    let size = disk.bytes().len() as u64;
    if count == 0 || count > READ_MAX as u64 || at > size || count > size - at {
        return "not asked".to_string(alloc);
    }
    let mut into = Vec::new(alloc);
    into.resize(count as usize, 0u8)?;
    match disk.read(at, &mut into) {
        Ok(()) => hex_of(alloc, &into),
        Err(fault) => ended(alloc, Err(fault)),
    }
}

fn write(alloc: Global, disk: &mut MemDisk, at: u64, bytes: &[u8]) -> Result<String, AllocError> {
    let size = disk.bytes().len() as u64;
    let count = bytes.len() as u64;
    if at > size || at > DISK_MAX || count > DISK_MAX - at {
        return "not asked".to_string(alloc);
    }
    let outcome = disk.write_at(at, bytes);
    ended(alloc, outcome)
}

fn cut(alloc: Global, disk: &mut MemDisk, size: u64) -> Result<String, AllocError> {
    if size > disk.bytes().len() as u64 {
        return "not asked".to_string(alloc);
    }
    let outcome = disk.cut(size);
    ended(alloc, outcome)
}

/// What a crash leaves.
fn crash(alloc: Global, disk: &MemDisk, how: &str) -> Result<String, AllocError> {
    let how = match how {
        "old" => Crash::Old,
        "new" => Crash::New,
        byte => Crash::Fill(byte.parse::<u8>().unwrap_or(0)),
    };
    let image = disk.crash(alloc, how)?;
    hex_of(alloc, image.bytes())
}

/// What the call of a line gives.
fn called(alloc: Global, disk: &mut MemDisk, line: &str) -> Result<String, AllocError> {
    let (word, rest) = line.split_once(' ').unwrap_or((line, ""));
    let (first, second) = two_numbers(alloc, rest)?;
    match word {
        "size" => size(alloc, disk),
        "read" => read(alloc, disk, first, second),
        "write" => {
            let (_, bytes) = rest.split_once(' ').unwrap_or((rest, ""));
            let bytes = bytes_in(alloc, bytes.as_bytes())?;
            write(alloc, disk, first, &bytes)
        }
        "cut" => cut(alloc, disk, first),
        "sync" => {
            let outcome = disk.sync();
            ended(alloc, outcome)
        }
        "crash" => crash(alloc, disk, rest),
        "content" => hex_of(alloc, disk.bytes()),
        _ => "unknown call".to_string(alloc),
    }
}

/// Makes the calls of these lines.
fn play(alloc: Global, disk: &mut MemDisk, lines: &str) -> Result<String, AllocError> {
    let mut written = String::new(alloc);
    for line in lines.split('\n') {
        if !line.is_empty() {
            written.push_str(called(alloc, disk, line)?.as_str())?;
            written.push('\n')?;
        }
    }
    Ok(written)
}

/// A line for each call on a disk with the content on the first line. The calls with these numbers fail; where the words
/// begin with `after`, all do after so many.
pub(crate) fn calls(alloc: Global, words: &str, text: &[u8]) -> Result<String, AllocError> {
    let text = std::str::from_utf8(text).unwrap_or("");
    let (content, lines) = text.split_once('\n').unwrap_or((text, ""));
    let content = bytes_in(alloc, content.as_bytes())?;
    if content.len() as u64 > DISK_MAX {
        return "too large\n".to_string(alloc);
    }
    let numbers = numbers_of(alloc, words)?;
    let mut disk = if words.starts_with("after ") {
        MemDisk::with_fuse(alloc, &content, number_at(&numbers, 0))?
    } else {
        MemDisk::with_faults(alloc, &content, &numbers)?
    };
    let written = play(alloc, &mut disk, lines);
    drop(disk);
    written
}
