//! What a history starts from, and databases in memory: how one is made, and what a generated workload comes to on one.
#![tactic(auto)]

mod database;
mod start;
mod workload;

pub use database::new_db;
pub use start::{no_curator, start_tree};
pub use workload::run_workload;
