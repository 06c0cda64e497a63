//! Records, contents and operations as bytes that may be anything, read back exactly.
//!
//! Of the operations those that insert a tree with children are left out; the others are called short. The caller reads
//! the number of an operation's form, because it may know more forms; what follows that number in a short one is read here.
//!
//! A format says which values have a spelling, what it is, and what else is asked of a value as soon as a byte of it is
//! there (`specs/Formats.antt`). The laws of formats one after another and of counted lists hold for any format
//! (`proofs/Formats.antt`, `proofs/Counted.antt`).
#![tactic(auto)]

mod content;
mod fault;
mod name;
mod number;
mod operation;
mod place;
mod reading;
mod stated;
mod text;
mod writing;

pub use content::take_content;
pub use cp_model::{Content, Op};
pub use cp_record::PackedRecord;
pub use fault::FormatFault;
pub use operation::put_short;
pub use reading::take;
pub use stated::laws;

// ---- The parts of which entries are made
pub use content::{put_leaf, put_node};
pub use name::name_at;
pub use number::{bounded_at, count_at, letter_at, number_at};
pub use operation::{short_behind, target_at};
pub use place::{label_at, place_at};
pub use reading::record_at;
pub use writing::{put_counted, put_path, put_place};
