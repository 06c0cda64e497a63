use cp_path::Loc;

/// What a step has done to a place: its data is new, comes from another place, or is gone.
#[derive(Clone, Drop)]
pub enum What {
    New,
    From(Loc),
    Gone,
}

/// A step that changed a place, and what it did to it.
#[derive(Clone, Drop)]
pub struct Change {
    pub tid: u64,
    pub what: What,
}
