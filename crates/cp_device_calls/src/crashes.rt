//! What crashes leave of files where a call of the disk fails.
ghost use Rattle.std.specs.Prelude.{◌≡◌, [], IfOk};
ghost use Rattle.cp_disk.specs.MemoryDisks.{mem_file, mem_view};
ghost use Rattle.cp_disk.specs.Views.{Only};

use crate::files::{fault_text, frames_text, header_of};
use crate::ranges::two_numbers;
use cp_cases::numbers_of;
use cp_disk::{Crash, DISK_MAX, MemDisk};
use cp_journal::{HEADER_SIZE, Journal, JournalFault};
use std::alloc::{AllocError, Global};

/// The images that are looked at.
pub(crate) const IMAGES: [Crash; 5] = [
    Crash::Old,
    Crash::New,
    Crash::Fill(0),
    Crash::Fill(1),
    Crash::Fill(255),
];

/// Which of the disk's calls fail.
#[derive(Clone, Copy)]
pub(crate) enum Plan {
    /// The call of this number alone.
    Fail(u64),
    /// All calls after the first so many.
    Fuse(u64),
}

/// A disk without bytes on which calls fail.
fn empty_disk(alloc: Global, plan: Plan) -> Result<MemDisk, AllocError>
    ensures { IfOk result (λ s. (mem_file s).content ≡ []) }
{
    match plan {
        Plan::Fail(call) => MemDisk::with_faults(alloc, b"", &[call]),
        Plan::Fuse(passes) => MemDisk::with_fuse(alloc, b"", passes),
    }
}

/// Makes a store and adds three entries.
fn fill(alloc: Global, disk: &mut MemDisk) -> Result<(), JournalFault>
    requires { (mem_file disk.old).content ≡ [] }
{
    let mut journal = Journal::create(alloc, disk, b"quay")?;
    journal.append(alloc, disk, b"pier")?;
    journal.append(alloc, disk, b"")?;
    journal.append(alloc, disk, b"dock")?;
    Ok(())
}

/// What is left in a file: that it is vacant, its version and its frames, or that it is no store's.
fn left_in(alloc: Global, file: &[u8]) -> Result<String, AllocError> {
    match header_of(alloc, file) {
        Ok(None) => "vacant".to_string(alloc),
        Ok(Some(header)) => {
            format!(in alloc; "version {}, {}", header.version, frames_text(alloc, file)?)
        }
        Err(fault) => fault_text(alloc, fault),
    }
}

/// Adds what each image of the disk is.
fn add_images(alloc: Global, disk: &MemDisk, lines: &mut String) -> Result<(), AllocError> {
    for how in IMAGES {
        let image = disk.crash(alloc, how)?;
        let left = left_in(alloc, image.bytes());
        drop(image);
        lines.push_str("; ")?;
        lines.push_str(left?.as_str())?;
    }
    lines.push('\n')
}

/// Adds whether a run came to its end, and the images that are left then.
fn add_run(
    alloc: Global,
    disk: &MemDisk,
    outcome: Result<(), JournalFault>,
    lines: &mut String,
) -> Result<(), AllocError> {
    match outcome {
        Ok(()) => lines.push_str("done")?,
        Err(fault) => lines.push_str(fault_text(alloc, fault)?.as_str())?,
    }
    add_images(alloc, disk, lines)
}

/// The line of one run.
fn run_line(alloc: Global, plan: Plan, lines: &mut String) -> Result<(), AllocError> {
    let mut disk = empty_disk(alloc, plan)?;
    let outcome = fill(alloc, &mut disk);
    let added = add_run(alloc, &disk, outcome, lines);
    drop(disk);
    added
}

/// Makes the file of a disk one of version 2.
fn upgrade_on(alloc: Global, disk: &mut MemDisk) -> Result<(), JournalFault>
    requires { Only (mem_view disk.old).content (mem_view disk.old).images }
{
    if disk.bytes().len() < HEADER_SIZE {
        return Err(JournalFault::NoStore(0));
    }
    let mut journal = Journal::open_on(alloc, disk, HEADER_SIZE as u64)?;
    let upgraded = match journal.broken() {
        Some(at) => Err(JournalFault::NoStore(at)),
        None => journal.upgrade(disk),
    };
    drop(journal);
    upgraded
}

/// Begins the line of a run.
fn add_run_name(
    alloc: Global,
    word: &str,
    number: u64,
    lines: &mut String,
) -> Result<(), AllocError> {
    let name = format!(in alloc; "{word} {number}: ")?;
    lines.push_str(name.as_str())
}

/// A line for each call that fails, from 1.
fn add_fails(alloc: Global, count: u64, lines: &mut String) -> Result<(), AllocError> {
    for call in 1..=count.min(1000) {
        add_run_name(alloc, "fail", call, lines)?;
        run_line(alloc, Plan::Fail(call), lines)?;
    }
    Ok(())
}

/// A line for each fuse, from 0.
fn add_fuses(alloc: Global, count: u64, lines: &mut String) -> Result<(), AllocError> {
    for passes in 0..=count.min(1000) {
        add_run_name(alloc, "fuse", passes, lines)?;
        run_line(alloc, Plan::Fuse(passes), lines)?;
    }
    Ok(())
}

/// A line for each call that fails, and for each fuse.
pub(crate) fn sweep(alloc: Global, words: &str) -> Result<String, AllocError> {
    let (fails, fuses) = two_numbers(alloc, words)?;
    let mut lines = String::new(alloc);
    add_fails(alloc, fails, &mut lines)?;
    add_fuses(alloc, fuses, &mut lines)?;
    Ok(lines)
}

/// The line of a file that becomes one of version 2 where this call of the disk fails.
fn upgrade_line(
    alloc: Global,
    file: &[u8],
    call: u64,
    lines: &mut String,
) -> Result<(), AllocError> {
    if file.len() as u64 > DISK_MAX {
        return Ok(());
    }
    let mut disk = MemDisk::with_faults(alloc, file, &[call])?;
    let outcome = upgrade_on(alloc, &mut disk);
    let added = add_run(alloc, &disk, outcome, lines);
    drop(disk);
    added
}

/// A line for each call that fails, from 0, which none has.
pub(crate) fn upgrade(alloc: Global, words: &str, file: &[u8]) -> Result<String, AllocError> {
    let (fails, _) = two_numbers(alloc, words)?;
    let mut lines = String::new(alloc);
    for call in 0..=fails.min(1000) {
        add_run_name(alloc, "fail", call, &mut lines)?;
        upgrade_line(alloc, file, call, &mut lines)?;
    }
    Ok(lines)
}

/// Makes a store and adds an entry of so many zeros.
fn add_zeros(alloc: Global, disk: &mut MemDisk, count: usize) -> Result<(), JournalFault>
    requires { (mem_file disk.old).content ≡ [] }
{
    let body = zeros(alloc, count)?;
    let mut journal = Journal::create(alloc, disk, b"quay")?;
    journal.append(alloc, disk, &body)?;
    Ok(())
}

/// So many zeros.
fn zeros(alloc: Global, count: usize) -> Result<Vec<u8>, AllocError> {
    let mut body = Vec::new(alloc);
    body.resize(count, 0u8)?;
    Ok(body)
}

/// How it ended that an entry was added.
fn outcome_text(alloc: Global, added: Result<(), JournalFault>) -> Result<String, AllocError> {
    match added {
        Ok(()) => "added".to_string(alloc),
        Err(fault) => fault_text(alloc, fault),
    }
}

/// Whether an entry of so many bytes is added, and how many the file has then.
fn large_line(alloc: Global, count: u64) -> Result<String, AllocError> {
    let mut disk = MemDisk::new(alloc, b"")?;
    let added = add_zeros(alloc, &mut disk, count.min(100_000_000) as usize);
    let size = disk.bytes().len();
    drop(disk);
    let outcome = outcome_text(alloc, added)?;
    format!(in alloc; "{count}: {outcome}, {size} bytes\n")
}

/// A line for each of these numbers of bytes.
pub(crate) fn large(alloc: Global, words: &str) -> Result<String, AllocError> {
    let numbers = numbers_of(alloc, words)?;
    let mut lines = String::new(alloc);
    for count in numbers.iter() {
        lines.push_str(large_line(alloc, *count)?.as_str())?;
    }
    Ok(lines)
}

/// Adds so many entries of one body.
fn add_entries(
    alloc: Global,
    disk: &mut MemDisk,
    count: u64,
    body: &[u8],
) -> Result<(), JournalFault>
    requires { (mem_file disk.old).content ≡ [] }
{
    let mut journal = Journal::create(alloc, disk, b"quay")?;
    for _ in 0..count {
        journal.append(alloc, disk, body)?;
    }
    Ok(())
}

/// The frames of a new store with so many entries of one body.
fn frames_with(alloc: Global, count: u64, body: &[u8]) -> Result<String, AllocError> {
    let mut disk = MemDisk::new(alloc, b"")?;
    let text = match add_entries(alloc, &mut disk, count, body) {
        Ok(()) => frames_text(alloc, disk.bytes()),
        Err(fault) => fault_text(alloc, fault),
    };
    drop(disk);
    text
}

/// How many frames a store has once so many entries of so many zeros are added, and the gate that ends them.
pub(crate) fn entries(alloc: Global, words: &str) -> Result<String, AllocError> {
    let (count, size) = two_numbers(alloc, words)?;
    let body = zeros(alloc, size.min(100_000_000) as usize)?;
    let text = frames_with(alloc, count, &body);
    drop(body);
    let mut line = text?;
    line.push('\n')?;
    Ok(line)
}
