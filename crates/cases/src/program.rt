//! The program as one whose whole calls are played.

use cp_calls::Program;
use cp_disk::Disk;
use cp_outside::{Clock, Files, Sink, Source};
use cp_program::run_cpdb;
use cp_tree::TreeRep;
use std::alloc::Global;

/// `cpdb`, of which nothing is kept from one call to the next.
pub struct Cpdb;

impl Program for Cpdb {
    fn call<R: TreeRep, S: TreeRep, D: Disk, F: Files, C: Clock, I: Source, O: Sink>(
        &self,
        alloc: Global,
        words: &[String],
        disk: &mut D,
        files: &mut F,
        clock: &mut C,
        input: &mut I,
        output: &mut O,
    ) -> u8 {
        run_cpdb::<R, S, D, F, C, I, O>(alloc, words, disk, files, clock, input, output).code
    }
}
