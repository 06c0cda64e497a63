ghost use Rattle.std.specs.Prelude.{◌≡◌, List};
ghost use Rattle.std.specs.Option.{option_map};
ghost use Rattle.cp_model.specs.Tree.{Source};
ghost use Rattle.cp_curators.specs.Curators.{IsDeskOf, TakesFrom};
ghost use Rattle.cp_curators.specs.Desks.{Desk, tree_after_progress};
ghost use Rattle.cp_engine.specs.Transactions.{held_count};

use crate::fault::ShareFault;
use cp_engine::{Txn, TxnState};
use cp_tree::TreeRep;

/// A transaction that is open, with the last Tid of the time at which it began.
#[derive(Drop)]
pub(crate) struct OpenDesk<R: TreeRep> {
    pub(crate) transaction: Txn<R>,
    pub(crate) since: u64,
}

impl<R: TreeRep> OpenDesk<R> {
    /// The working tree, unless the transaction has failed.
    pub(crate) fn working(&self) -> Option<&R>
        ensures { (ss : List Source) (d : Desk) → IsDeskOf R.contents ss self.now d
            → option_map (λ t. R.contents t.now) result ≡ tree_after_progress ss d d.progress }
    {
        match self.transaction.state() {
            TxnState::Going(_) => Some(self.transaction.tree()),
            TxnState::Failed(..) => None,
        }
    }

    /// Hands out the transaction, unless it has failed, or the last Tid is greater now than when it began.
    pub(crate) fn take(self, now: u64) -> Result<Txn<R>, ShareFault>
        ensures { (ss : List Source) (d : Desk) → IsDeskOf R.contents ss self d
            → TakesFrom R.contents ss d now d.progress result }
    {
        match self.transaction.state() {
            TxnState::Failed(number, cause) => Err(ShareFault::Failed(number, cause)),
            TxnState::Going(_) if self.since < now => Err(ShareFault::Stale(now)),
            TxnState::Going(_) => Ok(self.transaction),
        }
    }

    /// Gives the transaction up, and says how many accepted operations it held.
    pub(crate) fn abort(self) -> u32
        ensures { (ss : List Source) (d : Desk) → IsDeskOf R.contents ss self d → result ≡ held_count d.progress }
    {
        self.transaction.abort()
    }
}
