//! Records, kept as bytes, and the length of a commit's entry.
#![tactic(auto)]

mod length;
mod order;
mod pack;
mod packed;
mod packed_iter;
mod packed_record;
mod unpack;

pub use cp_model::{RecOp, Record, RecordList};
pub use length::op_length;
pub use packed::PackedRecords;
pub use packed_iter::PackedIter;
pub use packed_record::PackedRecord;
