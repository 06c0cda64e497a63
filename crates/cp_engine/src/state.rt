use cp_model::Cause;

/// How far a transaction has come: the number of accepted operations, or that of the operation at which it failed, from
/// 1, and why.
#[derive(Clone, Copy)]
pub enum TxnState {
    Going(u32),
    Failed(u32, Cause),
}

/// The operation at which a transaction failed, from 1, and why.
#[derive(Clone, Copy)]
pub(crate) struct Failure {
    pub(crate) number: u32,
    pub(crate) cause: Cause,
}
