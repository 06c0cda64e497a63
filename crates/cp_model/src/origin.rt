use cp_path::Loc;

/// What a place of a working tree carries: that it is new, or the place at which it stood when the step began.
#[derive(Clone, Drop)]
pub enum Origin {
    New,
    Was(Loc),
}
