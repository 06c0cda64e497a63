use cp_model::Kind;
use cp_path::Name;

/// The numbers of a checkpoint: how its store records, its last Tid, and how many transactions and records it has.
#[derive(Clone, Copy, Drop)]
pub struct Head {
    pub kind: Kind,
    pub tid: u64,
    pub transactions: u64,
    pub records: u64,
}

/// Where the bytes of a tree stand in a file: its name, the offset of the first byte, and how many there are.
#[derive(Drop)]
pub struct TreeAt {
    pub name: Name,
    pub at: u64,
    pub len: u64,
}
