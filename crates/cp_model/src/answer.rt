use crate::kind::Kind;
use crate::record::RecordList;
use cp_path::{Label, Loc};
use std::marker::Model;

/// A place at which data stood, and the versions in which it did.
#[derive(Drop)]
pub struct Segment {
    pub loc: Loc,
    pub low: u64,
    pub high: u64,
}

/// How a trace ends: where the data was inserted, in the start tree, or at a place of a source.
#[derive(Drop)]
pub enum TraceEnd {
    New,
    Start,
    Source(Loc),
}

/// The places at which data stood, newest first.
#[derive(Drop)]
pub struct Trace {
    pub segments: SegmentList,
    pub end: TraceEnd,
}

/// Where data came from at last: inserted in a step, copied from a place in a step, or there from the start.
#[derive(Drop)]
pub enum FromAnswer {
    New(u64),
    At(Loc, u64),
    Start,
}

/// The numbers of a committed state.
#[derive(Clone, Copy)]
pub struct Stats {
    pub kind: Kind,
    pub tid: u64,
    pub transactions: u64,
    pub records: u64,
    pub nodes: u32,
    pub sources: u32,
}

/// The answer to a query.
#[derive(Drop)]
pub enum Answer {
    Src(Option<u64>),
    Tids(TidList),
    Trace(Trace),
    From(FromAnswer),
    Records(RecordList),
    Stats(Stats),
}

/// A commit: its Tids, who made it and when, and the number of its operations.
#[derive(Drop)]
pub struct LogLine {
    pub low: u64,
    pub high: u64,
    pub curator: Label,
    pub moment: u64,
    pub operations: u32,
}

/// Tids, rising.
#[derive(Drop)]
pub struct TidList {
    pub items: Vec<u64>,
}

impl Model for TidList {
    ghost use Rattle.std.specs.Prelude.{ℕ, List};

    ghost Value = { List ℕ };

    ghost view = { λ a. a.items.items };
}

/// The segments of a trace, newest first.
#[derive(Drop)]
pub struct SegmentList {
    pub items: Vec<Segment>,
}

impl Model for SegmentList {
    ghost use Rattle.std.specs.Prelude.{List};
    ghost use Rattle.cp_model.specs.declared.answer.Segment.{Segment};

    ghost Value = { List Segment };

    ghost view = { λ a. a.items.items };
}

/// Commits in their order.
#[derive(Drop)]
pub struct LogList {
    pub items: Vec<LogLine>,
}

impl Model for LogList {
    ghost use Rattle.std.specs.Prelude.{List};
    ghost use Rattle.cp_model.specs.declared.answer.LogLine.{LogLine};

    ghost Value = { List LogLine };

    ghost view = { λ a. a.items.items };
}
