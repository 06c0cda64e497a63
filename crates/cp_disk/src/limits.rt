/// The most bytes of a file on a disk.
pub const DISK_MAX: u64 = 4_611_686_018_427_387_904;

/// The most bytes of one read.
pub const READ_MAX: usize = 4_096;
