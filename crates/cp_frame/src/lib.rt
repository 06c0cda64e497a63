//! The entries of a store's history as bytes that may be anything, read back exactly: trees, operations, records in order,
//! and the start, the loads and the commits that are made of them.
//!
//! What the bytes of a store's file stand for: its frames hold entries, and these are a history. Whatever opens, writes or
//! verifies a file cites `specs/Items.antt` and `specs/Stands.antt`.
//!
//! What a spelling is stands in `specs/Trees.antt`, `specs/Operations.antt` and `specs/Entries.antt`; what a fault names, in
//! `specs/Formats.antt` of cp_format.
#![tactic(auto)]

mod entry;
mod operation;
mod order;
mod record;
mod room;
mod stated;
mod stated_files;
mod tree;

pub use cp_format::FormatFault;
pub use entry::{Entry, entry_bytes, entry_of};
pub use operation::{put_op, take_op};
pub use stated::laws;
pub use stated_files::file_laws;
pub use tree::{put_tree, take_tree};
