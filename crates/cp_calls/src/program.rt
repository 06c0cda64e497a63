//! The program whose calls are played.

use cp_disk::Disk;
use cp_outside::{Clock, Files, Sink, Source};
use cp_tree::TreeRep;
use std::alloc::Global;

/// A program that does what its words say over a disk, files, a clock, an input and an output.
pub trait Program {
    /// Makes a call with these forms of the committed tree and of the sources' trees, and gives its exit status.
    fn call<R: TreeRep, S: TreeRep, D: Disk, F: Files, C: Clock, I: Source, O: Sink>(
        &self,
        alloc: Global,
        words: &[String],
        disk: &mut D,
        files: &mut F,
        clock: &mut C,
        input: &mut I,
        output: &mut O,
    ) -> u8;
}
