//! Whether the records of the history in a file are those that its operations make.
//!
//! `verify` replays the entries as an opening does, by the walk of cp_db, and refuses the same files; it keeps no rows.
#![tactic(auto)]

mod verification;

pub use verification::verify;
