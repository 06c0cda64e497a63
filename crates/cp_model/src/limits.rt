/// The most places of a tree, its root counted.
pub const NODES_MAX: u32 = 1_048_576;

/// The most weight of a tree: of each place the bytes of its last label and of its text, and `PLACE_WEIGHT`.
pub const WEIGHT_MAX: u64 = 33_554_432;

/// What a place weighs beside the bytes of its label and of its text.
pub const PLACE_WEIGHT: u64 = 16;

/// The most sources of a history.
pub const SOURCES_MAX: usize = 32;

/// The most operations of a commit.
pub const OPS_MAX: usize = 65_535;

/// The most bytes of one of a history's entries in stored data.
pub const ENTRY_MAX: u64 = 67_108_864;
