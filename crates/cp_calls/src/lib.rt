//! Plays whole calls of a program over files, inputs and outputs in memory, or over the real files.
//!
//! A program that plays them makes a `Stage` for the `Program` that is called, and hands it to `play_files` of cp_cases.
//! `play` says what the parts of a case mean.
#![tactic(auto)]

mod call;
mod failures;
mod file;
mod files;
mod pieces;
mod play;
mod program;
mod screen;
mod setting;
mod triple;

pub use play::Stage;
pub use program::Program;
