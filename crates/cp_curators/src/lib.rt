//! Transactions of several curators at once, each on a copy of the tree on which it began. It sees no store: the caller tells
//! the tree, the kind and the last Tid of the moment, and commits what is handed out.
#![tactic(auto)]

mod curators;
mod desk;
mod fault;
mod stated;

pub use curators::Curators;
pub use fault::ShareFault;
pub use stated::laws;
