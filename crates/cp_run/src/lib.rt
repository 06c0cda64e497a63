//! Runs of pages of rows on a disk, and look-ups in them through a cache of the pages looked at last.
//!
//! A run is made of pages that lie one right after the other, whose keys rise from its first row to its last. A set of runs
//! answers over all its runs of one order. Of the pages the last [`PAGES_KEPT`] that it looked at are kept; what they hold is
//! promised only as long as they are those of the disk.
#![tactic(auto)]

mod between;
mod fault;
mod greatest;
mod look;
mod run;
mod search;
mod set;
mod stated;

pub use fault::RunFault;
pub use look::PAGES_KEPT;
pub use run::{Run, fit};
pub use set::RunSet;
pub use stated::laws;
