//! Runs of pages on a disk in memory.
//!
//! The words are three numbers for each run: its order, its offset and the number of its pages. The lines that begin with `+ ` are
//! the pages of the disk, one after another, each by the bytes at its front, after which zeros come; one that begins with `. ` has
//! bytes after them. `digits` says how bytes are written. Of the others each asks:
//!
//! | Question | Answer |
//! |---|---|
//! | `? greatest ORDER KEY` | the row of the runs of this order with the greatest key that isn't above this one, or `none` |
//! | `? between ORDER LOW = HIGH` | the rows of these runs whose keys are from the one to the other |
//! | `? reads` | how often the disk was read so far |
//!
//! Where a page is met that isn't one of rows, the answer is its offset.

use crate::fault::Fault;
use crate::pages::{page_of, parts_of, row_on, row_text};
use crate::read_disk::ReadDisk;
use crate::row::{add_answer, add_line, first_line, question_of};
use crate::series::Series;
use cp_cases::{bytes_in, number_of, numbers_of};
use cp_page::{PAGE_SIZE, PageRow};
use cp_run::{Run, RunFault, RunSet, fit};
use std::alloc::{AllocError, Global};

/// The order of this number; one above a byte is that of the greatest byte.
fn order_of(number: u64) -> u8 {
    u8::try_from(number).unwrap_or(u8::MAX)
}

/// The runs of these numbers, three for each.
fn runs_of(alloc: Global, words: &str) -> Result<Vec<Run>, AllocError> {
    let numbers = numbers_of(alloc, words)?;
    let mut runs = Vec::new(alloc);
    for three in numbers.as_slice().chunks(3) {
        if let [order, at, pages] = three {
            runs.push(Run {
                order: order_of(*order),
                at: *at,
                pages: *pages,
            })?;
        }
    }
    Ok(runs)
}

/// A set of the runs of these numbers.
pub(crate) fn run_set(alloc: Global, words: &str) -> Result<RunSet, Fault> {
    let runs = runs_of(alloc, words)?;
    if !fit(runs.as_slice()) {
        return Err(Fault::Order);
    }
    Ok(RunSet::new(alloc, runs.as_slice())?)
}

/// The bytes of the pages in a text, and those after them.
fn file_of(alloc: Global, text: &str) -> Result<Vec<u8>, AllocError> {
    let mut file = Vec::new(alloc);
    for line in text.split_terminator('\n') {
        if let Some(front) = line.strip_prefix("+ ") {
            let page = page_of(alloc, front)?;
            file.extend_from_slice(&page.bytes)?;
        } else if let Some(rest) = line.strip_prefix(". ") {
            let bytes = bytes_in(alloc, rest.as_bytes())?;
            file.extend_from_slice(bytes.as_slice())?;
        }
    }
    Ok(file)
}

/// A disk with the pages in a text.
pub(crate) fn disk_of(alloc: Global, text: &str) -> Result<ReadDisk, AllocError> {
    let file = file_of(alloc, text)?;
    ReadDisk::new(alloc, file.as_slice())
}

/// What is told where a look-up in runs gave no answer.
fn fault_text(alloc: Global, fault: RunFault) -> Result<String, Fault> {
    match fault {
        RunFault::BadRun(at) => Ok(format!(in alloc; "not a page of rows, at {at}")?),
        RunFault::Disk => Err(Fault::Disk),
        RunFault::Memory => Err(Fault::Memory),
    }
}

/// The row that was found, or `none`.
fn row_found(alloc: Global, found: &Option<PageRow>) -> Result<String, AllocError> {
    match found {
        Some(row) => row_text(alloc, row),
        None => "none".to_string(alloc),
    }
}

/// The greatest row of an order that isn't above a key.
fn greatest_text(
    alloc: Global,
    runs: &mut RunSet,
    disk: &mut ReadDisk,
    order: u8,
    key: &[u8],
) -> Result<String, Fault> {
    match runs.greatest(alloc, disk, order, key) {
        Ok(found) => Ok(row_found(alloc, &found)?),
        Err(fault) => fault_text(alloc, fault),
    }
}

/// The rows of an order from one key to another, by `LOW = HIGH`.
fn between_text(
    alloc: Global,
    runs: &mut RunSet,
    disk: &mut ReadDisk,
    order: u8,
    ends: &str,
) -> Result<String, Fault> {
    let ends = row_on(alloc, ends)?;
    match runs.between(
        alloc,
        disk,
        order,
        ends.key.as_slice(),
        ends.value.as_slice(),
    ) {
        Ok(found) => Ok(parts_of(alloc, found.as_slice())?),
        Err(fault) => fault_text(alloc, fault),
    }
}

/// The answer to a question.
fn answer(
    alloc: Global,
    runs: &mut RunSet,
    disk: &mut ReadDisk,
    question: &str,
) -> Result<String, Fault> {
    let (word, rest) = question.split_once(' ').unwrap_or((question, ""));
    let (order, rest) = rest.split_once(' ').unwrap_or((rest, ""));
    let order = order_of(number_of(order));
    match word {
        "greatest" => {
            let key = bytes_in(alloc, rest.as_bytes())?;
            greatest_text(alloc, runs, disk, order, key.as_slice())
        }
        "between" => between_text(alloc, runs, disk, order, rest),
        _ => Ok(disk.reads.to_string(alloc)?),
    }
}

/// Adds the answers to the questions of a text, of the runs of these words on the disk of its pages.
pub(crate) fn add_runs(
    alloc: Global,
    words: &str,
    text: &str,
    lines: &mut String,
) -> Result<(), Fault> {
    let mut runs = run_set(alloc, words)?;
    let mut disk = disk_of(alloc, text)?;
    for line in text.split_terminator('\n') {
        if let Some(question) = question_of(line) {
            let answer = answer(alloc, &mut runs, &mut disk, question)?;
            add_answer(lines, question, answer.as_str())?;
        }
    }
    Ok(())
}

// ---- A run of one page with other bytes

/// What is found for a key in the run of one page whose bytes are these, and the rows of all keys.
fn told(alloc: Global, page: &[u8], key: &[u8]) -> Result<String, Fault> {
    let mut runs = run_set(alloc, "0 0 1")?;
    let mut disk = ReadDisk::new(alloc, page)?;
    let found = greatest_text(alloc, &mut runs, &mut disk, 0, key)?;
    let rows = between_text(alloc, &mut runs, &mut disk, 0, "= ff*4096")?;
    Ok(format!(in alloc; "{found} | {rows}")?)
}

/// The same with this byte at an offset, or that it is the same as before.
fn told_with(
    alloc: Global,
    page: &[u8; PAGE_SIZE],
    at: usize,
    byte: u8,
    key: &[u8],
    before: &str,
) -> Result<String, Fault> {
    let mut other = *page;
    if let Some(place) = other.get_mut(at) {
        *place = byte;
    }
    let after = told(alloc, &other, key)?;
    if after.as_str() == before {
        return Ok("the same".to_string(alloc)?);
    }
    Ok(after)
}

/// The same with the byte at an offset as its complement, as 0 and as 1.
fn told_at(
    alloc: Global,
    page: &[u8; PAGE_SIZE],
    at: usize,
    key: &[u8],
    before: &str,
) -> Result<String, Fault> {
    let byte = match page.get(at) {
        Some(byte) => *byte,
        None => 0,
    };
    let first = told_with(alloc, page, at, !byte, key, before)?;
    let second = told_with(alloc, page, at, 0, key, before)?;
    let third = told_with(alloc, page, at, 1, key, before)?;
    Ok(format!(in alloc; "{first}, {second}, {third}")?)
}

/// Adds what is found for a key in a run of the page on the first line, and its rows, with each of its bytes altered.
pub(crate) fn add_altered_run(
    alloc: Global,
    key: &str,
    text: &str,
    lines: &mut String,
) -> Result<(), Fault> {
    let key = bytes_in(alloc, key.as_bytes())?;
    let (front, _) = first_line(text);
    let page = page_of(alloc, front)?;
    let before = told(alloc, &page.bytes, key.as_slice())?;
    let mut series = Series::new(alloc, "\n");
    for at in 0..PAGE_SIZE {
        let line = told_at(alloc, &page.bytes, at, key.as_slice(), before.as_str())?;
        series.add(alloc, line)?;
    }
    add_line(lines, series.written.as_str())?;
    Ok(())
}
