/// The most bytes of a statement.
pub const STATEMENT_MAX: usize = 1_048_576;
