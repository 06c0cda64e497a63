//! The generated workload: the statements of a drawn script, the source that it copies from, and what a history has come to.
#![tactic(auto)]

mod choice;
mod drawing;
mod generator;
mod limits;
mod operation;
mod source_tree;
mod summary;

pub use generator::Generator;
pub use limits::{COMMIT_EVERY, FEW_PLACES, INCREMENT, MULTIPLIER, SOURCE_NODES};
pub use source_tree::{source, source_name};
pub use summary::summary_in;
