use cp_model::Cause;
use thiserror::Error;

/// Why no transaction is handed out. Where there was one, it is given up.
#[derive(Clone, Copy, Debug, Drop, Error)]
pub enum ShareFault {
    /// None is open.
    #[error("no operation")]
    Empty,
    /// It had failed at the operation of this number.
    #[error("the transaction has failed")]
    Failed(u32, Cause),
    /// There was a commit after it began; the last Tid is this.
    #[error("the transaction is stale")]
    Stale(u64),
}
