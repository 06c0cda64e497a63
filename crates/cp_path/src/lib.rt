//! Names, labels, paths, places and values: what every other layer speaks of.
#![tactic(auto)]

mod fault;
mod label;
mod limits;
mod loc;
mod name;
mod path;
mod room;
mod stated;
mod text;
mod value;
mod whole;

pub use fault::PathFault;
pub use label::Label;
pub use limits::{LABEL_MAX, LABELS_MAX, LOC_MAX, NAME_MAX, TEXT_MAX};
pub use loc::Loc;
pub use name::{Name, is_letter, is_name_byte};
pub use path::Path;
pub use room::LocRoom;
pub use stated::laws;
pub use text::{Bytes, Text};
pub use value::Value;
pub use whole::Whole;
