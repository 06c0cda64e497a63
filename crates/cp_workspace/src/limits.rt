/// The most bytes of a file that is loaded.
pub const FILE_MAX: u64 = 67_108_864;
