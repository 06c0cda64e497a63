//! One file on a disk, and what a crash may leave of it.
//!
//! `Disk` says what each call gives and what it leaves to a crash, where the content is known, and counts failures, reads and
//! wants of memory. `SureDisk` and `MemDisk` are in memory: the first never fails, and the second fails at the calls that a
//! list names, or from some call on, and shows what a crash leaves.
#![tactic(auto)]

mod disk;
mod edit;
mod limits;
mod memory_disk;
mod plan;
mod replay;
mod sure_disk;

pub use disk::{Disk, DiskFault};
pub use limits::{DISK_MAX, READ_MAX};
pub use memory_disk::MemDisk;
pub use replay::Crash;
pub use sure_disk::SureDisk;
