//! The reduced records of a step from its full ones, and back.
#![tactic(auto)]

mod full;
mod marks;
mod reduced;
mod rows;

pub use full::expand;
pub use reduced::reduce;
