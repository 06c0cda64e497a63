use cp_model::{Answer, Kind, LogList, Query, RowList, Stats, Verdict};
use cp_path::{Label, Loc, Name, PathFault};
use std::marker::Model;

/// What is refused: it names the front of the line.
#[derive(Clone, Copy)]
pub enum Of {
    Statement,
    Commit,
    Load,
    Init,
    Scratch,
    Checkpoint,
}

/// Why something is refused.
#[derive(Drop)]
pub enum Why {
    NoPlace(Loc),
    LabelThere(Label, Loc),
    NoLabel(Label, Loc),
    NotANode(Loc),
    ReadOnly(Loc),
    NoSource(Name),
    NoOrigin(Loc),
    TooDeep,
    TooMany,
    TooBig,
    TooManyOps,
    /// The number of the operation that failed the transaction.
    FailedAt(u32),
    StatementTooLong,
    /// The offset of the first token that can't stand.
    Syntax(usize),
    /// The offset of a token, and why it reads as no place, label or value.
    Place(usize, PathFault),
    NoOperation,
    TransactionTooLarge,
    NoFile,
    FileTooLong,
    TransactionOpen,
    SourceThere(Name),
    TooManySources,
    NotJson,
    LabelTooLong,
    PlaceTooDeep,
    PlaceTooLong,
    TextTooLong,
    NotWhole(Loc),
    NoHeader,
    NotUtf8(u64),
    RepeatedHeader(u64),
    NoColumn,
    Ragged(u64),
    RepeatedKey(u64),
    StoreTooLarge,
    StoreExists,
    /// The store has no version of this number.
    NoVersion(u64),
    /// Another curator has committed since the transaction was opened; the last Tid.
    Stale(u64),
}

/// Places, in order and each once.
#[derive(Drop)]
pub struct PlaceList {
    pub items: Vec<Loc>,
}

impl Model for PlaceList {
    ghost use Rattle.std.specs.Prelude.{List};
    ghost use Rattle.cp_path.specs.declared.loc.Loc.{Loc};

    ghost Value = { List Loc };

    ghost view = { λ a. a.items.items };
}

/// A reply, which is a line or several.
#[derive(Drop)]
pub enum Reply {
    Created {
        kind: Kind,
        nodes: u32,
    },
    Loaded {
        name: Name,
        nodes: u32,
    },
    /// `low` is at most `high`.
    Committed {
        low: u64,
        high: u64,
    },
    Aborted {
        count: u32,
    },
    /// The answer is of the query's form.
    Answered {
        query: Query,
        answer: Answer,
    },
    /// The rows are those of a tree, taken from its root.
    Show {
        place: Loc,
        rows: RowList,
    },
    Checkpoint {
        tid: u64,
    },
    Verified {
        verdict: Verdict,
    },
    Logged {
        commits: LogList,
    },
    Gen {
        stats: Stats,
        places: u32,
        born: u32,
        copies: u64,
    },
    /// The places that use this one.
    Uses {
        place: Loc,
        places: PlaceList,
    },
    /// How many versions a store has, and how many ranges of versions in which a path is there with one content.
    Archive {
        versions: u64,
        ranges: u64,
    },
    Refused {
        of: Of,
        why: Why,
    },
}

impl Reply {
    /// Lets the reply go.
    pub fn discard(self) {
        drop(self);
    }
}
