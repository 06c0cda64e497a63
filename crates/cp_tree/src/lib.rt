//! What every representation of a tree answers and does: a finite map from paths to contents.
//!
//! Trees are made of literals, and literals of trees. `SharedLabel` and `SharedContent` are what a representation keeps of a
//! label and of a content: small ones in place, all else shared by its copies.
#![tactic(auto)]

mod build;
mod content;
mod label;
mod listing;
mod literal;
mod of_literal;
mod reach;
mod rep;
mod sums;

pub use build::{graft, insert_tree};
pub use content::{SharedContent, number_range};
pub use label::SharedLabel;
pub use literal::literal_of;
pub use of_literal::tree_of;
pub use reach::Reach;
pub use rep::TreeRep;
pub use sums::Sums;
