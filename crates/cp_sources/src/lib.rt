//! Trees from files: the tree that a CSV or a JSON text stands for, or why it is refused.
//!
//! The records of a CSV text are read by `csv`, a JSON text by `serde_json` (RFC 8259). An object is a node whose labels are
//! the names of its members, an array is a node with the labels `0`, `1` and so on, and `null`, truth values, texts and whole
//! numbers are leaves. Of CSV texts are `columns`, `csv_fault`, `load`, `place`, `records` and `row`, of JSON texts the others.
#![tactic(auto)]

mod build;
mod columns;
mod csv_fault;
mod examples;
mod fraction;
mod json_fault;
mod load;
mod place;
mod read;
mod records;
mod row;
mod survey;
mod value;

pub use csv_fault::CsvFault;
pub use examples::worked_examples;
pub use json_fault::JsonFault;
pub use load::tree_of_csv;
pub use read::tree_of_json;
