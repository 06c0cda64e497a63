//! A curated database in a file: its committed tree, its sources and the rows of its steps in memory, and its history as
//! entries on a disk.
//!
//! What a file stands for is defined in `specs/` of cp_frame. A crash at any moment of a call that writes leaves the history
//! before it, or that with its one entry more.
#![tactic(auto)]

mod archive;
mod committed;
mod database;
mod fault;
mod limits;
mod log;
mod opening;
mod parts;
mod rows;
mod start;
mod walk;
mod work;
mod writing;

pub use archive::{Kept, archive_of};
pub use committed::tids_lie_between;
pub use database::{Db, Tids};
pub use fault::{CommitFault, InitFault, LoadFault, OpenFault, WriteFault};
pub use limits::TIDS_MAX;
pub use log::log_of;
pub use parts::Parts;
pub use walk::work_over;
pub use work::{CommitAt, Passed, Work};
