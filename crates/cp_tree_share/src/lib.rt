//! A tree whose nodes are shared: a copy costs nothing, and a change copies its way alone.
#![tactic(auto)]

mod balance;
mod build;
mod forest;
mod node;
mod siblings;
mod tree;

pub use tree::ShareTree;
