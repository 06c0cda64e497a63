//! Checkpoints: what a directory names, and what a file with checkpoints stands for.
//!
//! A file stands for the history that its frames tell. One of its frames may hold a checkpoint, which a slot of the header names:
//! the state after the frames before it. What it is to be right stands in `specs/Stands.antt`, the directory in
//! `specs/Directories.antt`.
#![tactic(auto)]

mod directory;
mod limits;
mod stated;
mod writing;

pub use directory::{Head, TreeAt};
pub use limits::RUNS_MAX;
pub use stated::laws;
pub use writing::write_body;
