/// Why an operation is refused.
#[derive(Clone, Copy, Debug, PartialEq, Eq)]
pub enum Refusal {
    NoPlace,
    LabelThere,
    NoLabel,
    NotANode,
    ReadOnly,
    NoSource,
    TooDeep,
    TooMany,
    TooBig,
    TooManyOps,
    NoOrigin,
}

/// Why a transaction has failed: an operation was refused, or a text could not be read.
#[derive(Clone, Copy, Debug)]
pub enum Cause {
    Refused(Refusal),
    Unread,
}
