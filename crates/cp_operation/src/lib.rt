//! One operation on a tree: the loaded sources, the first case that refuses it, the change, and the records that it makes by
//! itself. It knows nothing of transactions; what operations come to one by one is defined here for those that do.
#![tactic(auto)]

mod change;
mod checks;
mod copy;
mod rows;
mod sources;

pub use change::{change_tree, record_op, record_top};
pub use checks::check;
pub use copy::copy_op;
pub use sources::Sources;
