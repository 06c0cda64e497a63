//! Who uses a place: the places whose data came by it, found by following copies forward.
#![tactic(auto)]

mod closing;
mod current;
mod front;
mod index;
mod landing;
mod noting;
mod onward;
mod reached;
mod renewals;
mod source;
mod spreading;
mod stated;
mod stay;
mod users;

pub use index::UseIndex;
pub use reached::Reached;
pub use stated::laws;
pub use users::{users_of, uses};
