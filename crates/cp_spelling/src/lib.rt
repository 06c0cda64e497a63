//! How places, labels and values are written, and what words are read as.
//!
//! What is written is defined beside the types, in `cp_path/specs/Spelling.antt`; what is read, by that.
#![tactic(auto)]

mod label;
mod place;
mod quoting;
mod scan;
mod split;
mod stated;
mod string;
mod value;

pub use label::{label_text, read_label};
pub use place::{place_text, read_place};
pub use quoting::is_trigger;
pub use stated::laws;
pub use string::read_text;
pub use value::{read_value, value_text};
