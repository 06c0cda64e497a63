/// The greatest Tid. No file has as many: a commit has a byte at least for each of its Tids.
pub const TIDS_MAX: u64 = 4_611_686_018_427_387_904;
