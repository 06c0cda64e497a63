/// The most bytes of input.
pub const INPUT_MAX: u64 = 68_719_476_736;

/// The most bytes that one read asks for.
pub const PIECE_MAX: usize = 65_536;
