//! Runs of rows merged into one.
#![tactic(auto)]

mod stated;

pub use stated::laws;
