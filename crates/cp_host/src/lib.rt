//! The real outside: standard input and output, the files of the operating system, one of them as a
//! disk, and the clock.
//!
//! Each adapter keeps a count of its failures, and tells of the bytes what the reader or the writer
//! inside it tells; of files and of moments nothing is told. What the operating system does is
//! trusted.
#![tactic(auto)]

mod access;
mod clock;
mod disk;
mod files;
mod input;
mod named_file;
mod opening;
mod output;

pub use access::Access;
pub use clock::HostClock;
pub use disk::FileDisk;
pub use files::HostFiles;
pub use input::StdinSource;
pub use output::StdoutSink;
