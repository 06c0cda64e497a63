//! All versions of a tree: the phases of each path that was ever there.
//!
//! A step costs what it touched: it is told the rows of the places that it touched, before and after, and notes each path at
//! which they differ.
#![tactic(auto)]

mod archive;
mod difference;
mod follow;
mod idle;
mod paths;
mod phase;
mod places;
mod same;
mod stated;
mod touched;

pub use archive::Archive;
pub use places::touched_places;
pub use stated::laws;
pub use touched::Touched;
