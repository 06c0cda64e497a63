use cp_path::Loc;
use std::marker::Model;

/// What a row of a step says of its place.
#[derive(Drop)]
pub enum RowMark {
    Made,
    Copied(Loc),
    Gone,
    Kept,
}

/// The letter of a record: inserted, copied, deleted, kept.
#[derive(Clone, Copy, PartialEq, Eq)]
pub enum RecOp {
    I,
    C,
    D,
    K,
}

/// What a store keeps of one place and one step. `src` is there exactly for a copy.
#[derive(Clone, Drop)]
pub struct Record {
    pub tid: u64,
    pub op: RecOp,
    pub loc: Loc,
    pub src: Option<Loc>,
}

/// Records, in the order of their Tids and then of their places.
#[derive(Drop)]
pub struct RecordList {
    pub items: Vec<Record>,
}

impl Model for RecordList {
    ghost use Rattle.std.specs.Prelude.{List};
    ghost use Rattle.cp_model.specs.declared.record.Record.{Record};

    ghost Value = { List Record };

    ghost view = { λ a. a.items.items };
}

/// What comes of comparing stored records, trees and numbers with those of a replay. `at` is an offset in the file.
#[derive(Drop)]
pub enum Verdict {
    /// All agree; the number of records.
    Agrees(u64),
    Differs {
        at: u64,
        stored: Option<Record>,
        expected: Option<Record>,
    },
    TreeDiffers {
        at: u64,
        place: Loc,
    },
    NumberDiffers {
        at: u64,
        stored: u64,
        expected: u64,
    },
}
