//! A tree in numbered slots, which are taken again after they came free.
#![tactic(auto)]

mod balance;
mod build;
mod change;
mod node;
mod pool;
mod siblings;
mod slot;
mod tree;

pub use tree::ArenaTree;
