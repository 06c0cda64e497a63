//! A tree whose nodes own the nodes below them.
#![tactic(auto)]

mod build;
mod count;
mod node;
mod reach;
mod spot;
mod tally;
mod tree;

pub use tree::BoxTree;
