//! A call made over and over, each time with another call of the outside failing.

use crate::call::{Call, Device, Outcome};
use crate::files::CaseFiles;
use crate::program::Program;
use cp_cases::line_of;
use cp_disk::{Crash, MemDisk};
use cp_outside::MemFiles;
use cp_tree_arena::ArenaTree;
use cp_tree_share::ShareTree;
use std::alloc::{AllocError, Global};
use std::rt;

/// What a crash may leave that is looked at: the content of the last sync, the content now, and that with other bytes in
/// place of those that are pending.
const CRASHES: [Crash; 5] = [
    Crash::Old,
    Crash::New,
    Crash::Fill(0),
    Crash::Fill(1),
    Crash::Fill(255),
];

/// The last line of a call that ends since this device failed.
pub(crate) fn last_line(device: Device) -> &'static [u8] {
    match device {
        Device::Disk => b"error: disk\n",
        Device::File => b"error: file\n",
        Device::Clock => b"error: clock\n",
        Device::Input => b"error: input\n",
        Device::Output => b"",
    }
}

/// The status of a call that ends since this device failed.
pub(crate) fn status(device: Device) -> u8 {
    match device {
        Device::Disk => 5,
        Device::File | Device::Input => 3,
        Device::Clock => 9,
        Device::Output => 4,
    }
}

/// Says whether the output is a front part of the whole one, and then the device's last line.
pub(crate) fn is_cut_short(device: Device, output: &[u8], whole: &[u8]) -> bool {
    match output.strip_suffix(last_line(device)) {
        Some(front) => whole.starts_with(front),
        None => false,
    }
}

/// Which stores a call may leave, by the number of entries after the start; `None` is no store.
#[derive(Clone, Copy, Drop)]
pub(crate) struct Bounds {
    low: Option<u64>,
    high: Option<u64>,
}

/// How many entries the lines say that the call has added; `None` where none of them tells of a store.
fn entries_told(output: &[u8]) -> Option<u64> {
    let text = std::str::from_utf8(output).unwrap_or("");
    let mut told = None;
    for line in text.split('\n').map(line_of) {
        if line.starts_with("created ") {
            told = Some(0);
        } else if line.starts_with("committed ") || line.starts_with("loaded ") {
            told = Some(told.unwrap_or(0u64).saturating_add(1));
        }
    }
    told
}

/// So many entries more.
fn with_entries(before: Option<u64>, told: Option<u64>) -> Option<u64> {
    match (before, told) {
        (Some(old), Some(more)) => Some(old.saturating_add(more)),
        (old, more) => old.or(more),
    }
}

impl Bounds {
    /// Those of a call that wrote this much of its whole output on a store with so many entries: each entry whose line was
    /// written, and of the others at most the first.
    pub(crate) fn of(before: Option<u64>, output: &[u8], whole: &[u8]) -> Bounds {
        let low = with_entries(before, entries_told(output));
        let all = with_entries(before, entries_told(whole));
        let next = low.map_or(0, |entries| entries.saturating_add(1));
        Bounds {
            low,
            high: all.min(Some(next)),
        }
    }

    /// Whether a store with so many entries is one of them.
    fn have(self, left: Option<u64>) -> bool {
        self.low <= left && left <= self.high
    }
}

/// The number after this word and a space, up to the next comma or the line's end.
fn number_after(line: &str, word: &str) -> Option<u64> {
    let (_, rest) = line.split_once(word)?;
    let text = rest.trim_start();
    let (number, _) = text.split_once([',', '\n']).unwrap_or((text, ""));
    number.parse::<u64>().ok()
}

/// How many entries the line of `stats` tells; `None` where the call wrote no such line.
fn entries_in(output: &[u8]) -> Option<u64> {
    let text = std::str::from_utf8(output).unwrap_or("");
    let commits = number_after(text, "transactions")?;
    let loads = number_after(text, "sources")?;
    Some(commits.saturating_add(loads))
}

/// What a session on this disk gives that asks for the numbers.
fn asked<R: rt::Files + Drop, P: Program>(
    alloc: Global,
    program: &P,
    disk: &mut MemDisk,
    files: &mut CaseFiles<R>,
) -> Result<Outcome, AllocError> {
    let asking = Call::asking(alloc)?;
    asking.make::<P, ShareTree, ArenaTree, _, _>(alloc, program, disk, files)
}

/// How many entries the store on this disk has; `None` where it is no store, and a number that no store has where it can't
/// be told. The files of the call are those of a runtime `R`, of which it reads none.
pub(crate) fn entries_on<R: rt::Files + Drop, P: Program>(
    alloc: Global,
    program: &P,
    disk: &mut MemDisk,
) -> Result<Option<u64>, AllocError> {
    let mut files: CaseFiles<R> = CaseFiles::Named(MemFiles::new(alloc, &[])?);
    let told = asked::<R, P>(alloc, program, disk, &mut files);
    drop(files);
    let outcome = told?;
    if outcome.status == 6 {
        return Ok(None);
    }
    Ok(Some(entries_in(&outcome.output).unwrap_or(u64::MAX)))
}

/// Says what a crash leaves other than one of these stores. `None` where it always leaves one of them.
pub(crate) fn fault_left<R: rt::Files + Drop, P: Program>(
    alloc: Global,
    program: &P,
    disk: &MemDisk,
    bounds: Bounds,
) -> Result<Option<String>, AllocError> {
    for how in CRASHES {
        let mut image = disk.crash(alloc, how)?;
        let left = entries_on::<R, P>(alloc, program, &mut image);
        drop(image);
        if !bounds.have(left?) {
            return Ok(Some(format!(in alloc; "a crash {how:?} leaves another store")?));
        }
    }
    Ok(None)
}

/// Says whether the call ended as one does that the device ends.
pub(crate) fn is_ended_by(device: Device, outcome: &Outcome, whole: &Outcome) -> bool {
    outcome.status == status(device) && is_cut_short(device, &outcome.output, &whole.output)
}
