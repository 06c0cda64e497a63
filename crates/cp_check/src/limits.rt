/// The most runs of an order.
pub const RUNS_MAX: usize = 8;
