use cp_path::{Label, Loc};

/// What is asked of the committed state.
#[derive(Drop)]
pub enum Query {
    /// In which step was the data at the place inserted?
    Src(Loc),
    /// Which steps have copied it?
    Hist(Loc),
    /// Which steps have touched the place or what is below it?
    Mod(Loc),
    /// Where did it stand, and when?
    Trace(Loc),
    /// Where did it come from at last?
    From(Loc),
    /// The records of a step, or all.
    Records(Option<u64>),
    Stats,
}

/// How a source file is read; a CSV file may have a key column.
#[derive(Drop)]
pub enum Form {
    Json,
    Csv(Option<Label>),
}
