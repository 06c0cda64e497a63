use cp_path::Loc;

/// What a step has done to a place that is there after it: its data is the same, new, or from another place.
#[derive(Drop)]
pub enum Effect {
    Same,
    New,
    From(Loc),
}
