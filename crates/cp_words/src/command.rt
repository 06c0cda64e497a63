use cp_lang::Load;
use cp_model::{Kind, Query};
use cp_path::{Label, Loc, Text};

/// What a history starts from.
#[derive(Drop)]
pub enum Start {
    /// A root alone.
    Alone,
    /// The tree of the JSON file with this name.
    TreeIn(Text),
}

/// What is asked of a version of a store, about a place of T.
#[derive(Drop)]
pub enum Asked {
    /// A query of a place.
    Ask(Query),
    /// What stands at and below a place.
    Show(Loc),
}

/// What the words ask for. The store, where there is one, is the word after the command.
#[derive(Drop)]
pub enum Command {
    /// A session in memory, from this start.
    Scratch { kind: Kind, start: Start },
    /// A new store, with this start.
    Init { kind: Kind, start: Start },
    /// A session on the store.
    Run { curator: Label },
    /// The statements of a file, and a `commit`, on the store.
    Commit { file: Text, curator: Label },
    /// The loading of a source into the store.
    Load(Load),
    /// A query of the store's committed state.
    Ask(Query),
    /// What stands at and below a place of the store.
    Show(Loc),
    /// The run of a generated script in memory.
    Generate { seed: u64, count: u32, kind: Kind },
    /// The commits of the store.
    Log,
    /// Whether the records of the store are those that its operations make.
    Verify,
    /// What is asked of the version of the store after the step `tid`.
    At { tid: u64, asked: Asked },
    /// How many versions the store has, and how many ranges of them in which a path is there with one content.
    Archive,
    /// A session of several curators on the store.
    Share,
    /// The places of the store that use this one.
    Uses(Loc),
}
