/// The most statements of a generated script.
pub const COUNT_MAX: u32 = 100_000;
