//! A tree as its rows in the order of their places.
#![tactic(auto)]

mod branch;
mod build;
mod change;
mod grow;
mod list;
mod measure;
mod row;
mod search;
mod tree;

pub use tree::RowTree;
