//! The net effect of an open step, kept sparsely: only of places that carry other data than the place above them gives.
#![tactic(auto)]

mod effect;
mod lost;
mod marks;
mod net;
mod origins;
mod overlay;

pub use effect::Tag;
pub use overlay::Overlay;
