/// By what a draw multiplies.
pub const MULTIPLIER: u64 = 6_364_136_223_846_793_005;

/// What a draw adds.
pub const INCREMENT: u64 = 1_442_695_040_888_963_407;

/// With fewer places than these each operation inserts one.
pub const FEW_PLACES: usize = 4;

/// After so many operations a script commits.
pub const COMMIT_EVERY: u32 = 10;

/// The nodes of the source below its root.
pub const SOURCE_NODES: u64 = 10;
