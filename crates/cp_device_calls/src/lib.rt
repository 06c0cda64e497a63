//! Calls of stored bytes and of what is outside the program: entries, files of stores, disks and what crashes leave of them;
//! sources, sinks, files and clocks, the real ones and those in memory.
//!
//! These are made on the bytes in the text below their part, as `bytes_in` of cp_cases reads them:
//!
//! | Part | What it gives |
//! |---|---|
//! | `entry` | the entry that the bytes are, as `show` writes it, or the offset at which they stop |
//! | `fronts` | the fronts of the bytes that don't stop at their own length, and how many do |
//! | `changes` | for each byte and each value in its place, where the bytes stop |
//! | `header` | what the header of the file says |
//! | `headers` | the same of each front of the file |
//! | `walk` | the frames of the file, and the gate that ends them |
//! | `walks` | of each front of the file the number of its frames, and the gate that ends them |
//! | `sweep FAILS FUSES` | what is left of a new store with three more entries where each of its disk's calls fails |
//! | `upgrade FAILS` | the same of a file of version 1 that becomes one of version 2 |
//! | `checkpoint FAILS FUSES` | the same of a file in which a checkpoint is written and made live, with its live slot, for each range of calls that fail and of fuses |
//! | `large SIZES` | whether entries of these sizes are added to a new store, and the size of its file then |
//! | `entries COUNT SIZE` | how many frames a new store has after so many entries of this size |
//! | `record`, `content ROOM`, `operation`, `operation trees` | what stands at the front of the bytes, and where it ends |
//! | `calls FAILS`, `calls after PASSES` | what calls of a disk give, as `disks` says |
//! | `again` | how many bytes and operations the entry has that is read and written back |
//!
//! Of these, each line of the text is a call, unless the part says otherwise, and has a line of what it gives, or of what its
//! fault prints:
//!
//! | Part | What it gives |
//! |---|---|
//! | `source KIND` and rooms | how many bytes a read into each room gives, and what the room holds then |
//! | `sink KIND` and calls | what `once BYTES`, a write, and `all BYTES`, writes until all are taken, give, and then what was written, as far as the sink keeps it |
//! | `files NAME BYTES` and reads | what reads give, as `source_files` says, of files in memory, of which one is there |
//! | `clock CALLS FAILS` and moments | what so many calls of a clock in memory give that has these moments, where those with these numbers fail |
//! | `time AFTER BEFORE` | whether the time of the real clock lies between these moments, and whether it doesn't go back |
//! | `faults` | what each fault of a device prints |
//! | `grown` | how a list grows by one where running out of memory would be a fault of a sink, and of files |
//! | `folder NAME` and calls | what calls of real files, and of a disk over one, give in an empty folder, as `folder` says |
//!
//! A source is `memory BYTES` or `real BYTES`, over these bytes, or `broken`, a real one over a reader that fails. A sink is
//! `memory`, or `real`, over a list; `broken` and `full` are real ones over a writer that fails, and over one that takes nothing.
#![tactic(auto)]

mod checkpoints;
mod clocks;
mod crashes;
mod disks;
mod entries;
mod faults;
mod files;
mod folder;
mod lines;
mod outside;
mod ranges;
mod real_disks;
mod show;
mod source_files;
mod stored;
mod streams;

use cp_cases::Step;
use std::alloc::AllocError;

/// What the call of this keyword gives; `None` where there is no such call. The error is that memory ran out.
pub fn answer(rt: &HostRuntime, step: &Step) -> Result<Option<Vec<u8>>, AllocError> {
    match stored::answer(rt.alloc(), step)? {
        Some(lines) => Ok(Some(lines)),
        None => outside::answer(rt, step),
    }
}
