//! Transactions: operations that are checked and applied one by one, all of them or none.
#![tactic(auto)]

mod fault;
mod follow;
mod held;
mod kept;
mod recording;
mod replaying;
mod state;
mod txn;

pub use fault::{ApplyFault, FinishFault};
pub use recording::replay_recording;
pub use replaying::replay;
pub use state::TxnState;
pub use txn::{Step, Txn, steps_of};
