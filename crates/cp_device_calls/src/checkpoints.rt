//! What crashes leave of files in which a checkpoint is written and made live, where a call of the disk fails.
ghost use Rattle.std.specs.Prelude.{◌≡◌, ◌≤◌, ◌<◌, ◌+◌, ◌^◌, false, IsTrue, None, length, IfOk};
ghost use Rattle.cp_disk.specs.MemoryDisks.{mem_view};
ghost use Rattle.cp_disk.specs.Views.{Only, IsDurable};
ghost use Rattle.cp_journal.specs.Holding.{IsAtRest};
ghost use Rattle.cp_journal.specs.Slots.{number_after, live_slot as live_of};

use crate::crashes::{IMAGES, Plan};
use crate::files::{fault_text, frames_text, header_of};
use crate::ranges::{Ranges, two_numbers};
use cp_disk::{DISK_MAX, MemDisk};
use cp_journal::{HEADER_SIZE, Header, Journal, JournalFault, live_slot, make_live};
use std::alloc::{AllocError, Global};

/// A disk with these bytes on which calls fail.
fn disk_with(alloc: Global, file: &[u8], plan: Plan) -> Result<MemDisk, AllocError>
    requires { length file.now ≤ DISK_MAX }
    ensures { IfOk result (λ s. IsDurable file.now (mem_view s)) }
{
    match plan {
        Plan::Fail(call) => MemDisk::with_faults(alloc, file, &[call]),
        Plan::Fuse(passes) => MemDisk::with_fuse(alloc, file, passes),
    }
}

/// Writes the frame of a checkpoint in two pieces.
fn write_frame(journal: &mut Journal, disk: &mut MemDisk) -> Result<u64, JournalFault>
    requires whole { journal.old.broken ≡ None }
    requires usable { journal.old.spent ≡ false }
    requires idle { journal.old.begun ≡ None }
    requires rest { IsAtRest journal.old.next (mem_view disk.old) }
{
    journal.begin(disk)?;
    journal.piece(disk, b"quay")?;
    journal.piece(disk, b"pier")?;
    journal.finish(disk)
}

/// Whether a number comes after that of the live slot.
fn has_next_number(header: &Header) -> bool
    ensures { IsTrue result → number_after (live_of header.now) < 2 ^ 64 }
{
    match live_slot(header) {
        Some(slot) => slot.seq < u64::MAX,
        None => true,
    }
}

/// Makes the checkpoint live whose frame stands at this offset.
fn make_live_at(disk: &mut MemDisk, at: u64) -> Result<(), JournalFault> {
    let mut header = Journal::header(disk)?;
    if !has_next_number(&header) {
        return Err(JournalFault::TooLarge);
    }
    make_live(disk, &mut header, at)
}

/// Writes a checkpoint after the frames of a file, and makes it live.
fn checkpoint_on(alloc: Global, disk: &mut MemDisk) -> Result<(), JournalFault>
    requires { Only (mem_view disk.old).content (mem_view disk.old).images }
{
    let mut journal = Journal::open_on(alloc, disk, HEADER_SIZE as u64)?;
    let written = match journal.broken() {
        Some(at) => Err(JournalFault::NoStore(at)),
        None => write_frame(&mut journal, disk),
    };
    drop(journal);
    make_live_at(disk, written?)
}

/// The live slot of a file and its frames.
fn left_in(alloc: Global, file: &[u8]) -> Result<String, AllocError> {
    let header = match header_of(alloc, file) {
        Ok(header) => header,
        Err(fault) => return fault_text(alloc, fault),
    };
    let frames = frames_text(alloc, file)?;
    match header.and_then(|header| live_slot(&header)) {
        Some(slot) => format!(in alloc; "{} at {} live, {}", slot.seq, slot.at, frames),
        None => format!(in alloc; "none live, {frames}"),
    }
}

/// How it ended that a checkpoint was made, and what each image of the disk is then.
fn run_text(
    alloc: Global,
    disk: &MemDisk,
    outcome: Result<(), JournalFault>,
) -> Result<String, AllocError> {
    let mut text = match outcome {
        Ok(()) => "done".to_string(alloc),
        Err(fault) => fault_text(alloc, fault),
    }?;
    for how in IMAGES {
        let image = disk.crash(alloc, how)?;
        let left = left_in(alloc, image.bytes());
        drop(image);
        text.push_str("; ")?;
        text.push_str(left?.as_str())?;
    }
    Ok(text)
}

/// The text of one run.
fn run(alloc: Global, file: &[u8], plan: Plan) -> Result<String, AllocError> {
    if file.len() as u64 > DISK_MAX {
        return "too large".to_string(alloc);
    }
    let mut disk = disk_with(alloc, file, plan)?;
    let outcome = checkpoint_on(alloc, &mut disk);
    let text = run_text(alloc, &disk, outcome);
    drop(disk);
    text
}

/// A line for each range of calls that fail, from 0, which none has.
fn fail_lines(alloc: Global, file: &[u8], count: u64) -> Result<String, AllocError> {
    let mut ranges = Ranges::new(alloc, "\n");
    for call in 0..=count.min(1000) {
        ranges.add(alloc, run(alloc, file, Plan::Fail(call))?)?;
    }
    ranges.end(alloc)
}

/// A line for each range of fuses, from 0.
fn fuse_lines(alloc: Global, file: &[u8], count: u64) -> Result<String, AllocError> {
    let mut ranges = Ranges::new(alloc, "\n");
    for passes in 0..=count.min(1000) {
        ranges.add(alloc, run(alloc, file, Plan::Fuse(passes))?)?;
    }
    ranges.end(alloc)
}

/// Those of the calls that fail, and those of the fuses.
pub(crate) fn checkpoint(alloc: Global, words: &str, file: &[u8]) -> Result<String, AllocError> {
    let (fails, fuses) = two_numbers(alloc, words)?;
    let fails = fail_lines(alloc, file, fails)?;
    format!(in alloc; "{}\n{}\n", fails, fuse_lines(alloc, file, fuses)?)
}
