ghost use Rattle.std.specs.Prelude.{◌≡◌, List, OnOk, IsErrOf};
ghost use Rattle.cp_disk.specs.Counts.{UsesDisk};
ghost use Rattle.std.specs.declared.option.Option.TheVariants.{None};
ghost use Rattle.cp_outside.specs.Causes.{Accounts};
ghost use Rattle.cp_engine.specs.Transactions.{going};
ghost use Rattle.cp_model.specs.declared.op.Op.{Op as OpValue};
ghost use Rattle.cp_model.specs.History.{State};
ghost use Rattle.cp_db.specs.Databases.{HasCome, HoldsState, version_in};
ghost use Rattle.cp_db.specs.FileVersions.{KeepsVersion};
ghost use Rattle.cp_reply.specs.Session.{Session, says, turn_of, for_curator};
ghost use Rattle.cp_workspace.specs.Texts.{Terms, setting};
ghost use Rattle.cp_workspace.specs.Clocks.{known_clock};
ghost use Rattle.cp_workspace.specs.Commits.{commit_asks};
ghost use Rattle.cp_workspace.specs.Files.{KnownFiles};
ghost use Rattle.cp_workspace.specs.Spending.{Spends};
ghost use Rattle.cp_workspace.specs.Workspaces.{Stands, IsOfOne, IsWorkspace, IsUsable, HasStamps, HasTurned, IsLater, Turned, db_in, holding, of_nobody, workspace_at};
ghost use Rattle.cp_workspace.specs.Supplies.{IsSupplied};

use crate::fault::WorkspaceFault;
use crate::workspace::Workspace;
use crate::workspace::refusal::refused_commit;
use cp_db::CommitFault;
use cp_disk::Disk;
use cp_engine::{Txn, TxnState};
use cp_lang::Stmt;
use cp_model::Stamp;
use cp_outside::Clock;
use cp_path::Label;
use cp_reply::{Reply, Why};
use cp_tree::TreeRep;
use std::alloc::Global;

impl<R: TreeRep, S: TreeRep> Workspace<R, S> {
    /// Commits the operations of a transaction that is going, for this curator, with the next moment of the clock.
    pub(super) fn commit_going<D: Disk, K: Clock>(
        &mut self,
        alloc: Global,
        curator: Label,
        transaction: Txn<R>,
        disk: &mut D,
        clock: &mut K,
    ) -> Result<Reply, WorkspaceFault>
        requires usable { IsUsable R.contents S.contents (D.known disk.old) self.old }
        requires stamps { HasStamps self.old }
        requires alone { IsOfOne self.old }
        requires taken { self.old.transaction ≡ None }
        requires going { (ops : List OpValue)
            × HasCome R.contents S.contents self.old.db transaction (going ops) }
        ensures turned { (f : KnownFiles) → HasTurned R.contents S.contents of_nobody
            (λ terms s. turn_of (for_curator curator (setting terms)) s (says Stmt.Commit))
            (IsSupplied f (known_clock K.Clock clock.old) (known_clock K.Clock clock.new))
            (workspace_at (holding self.old transaction) (D.known disk.old))
            (workspace_at self.new (D.known disk.new)) result }
        ensures stays { OnOk result (IsUsable R.contents S.contents (D.known disk.new) self.new) }
        ensures alone { IsOfOne self.new }
        ensures closed { self.new.transaction ≡ None }
        ensures later { OnOk result ((s z : State) → HoldsState R.contents S.contents self.old.db s
            → HoldsState R.contents S.contents self.new.db z → IsLater s z) }
        ensures version { version_in (db_in self.new) ≡ version_in (db_in self.old) }
        ensures file { KeepsVersion (D.known disk.old) (D.known disk.new) }
        ensures disk { UsesDisk (λ e. e ≡ WorkspaceFault.Disk) (D.known disk.old)
            (D.known disk.new) result }
        ensures clock { Accounts (λ e. e ≡ WorkspaceFault.Clock) (K.faults clock.old)
            (K.faults clock.new) result }
        ensures spent { (f : KnownFiles)
            → Spends 0 1 f f (known_clock K.Clock clock.old)
            (known_clock K.Clock clock.new) result }
        ensures kinds { IsErrOf result WorkspaceFault.File → ⊥ }
        ensures untouched { IsErrOf result WorkspaceFault.Clock → disk.new ≡ disk.old }
    {
        let moment = clock.now()?;
        let stamp = Stamp { curator, moment };
        match self.db.commit(alloc, disk, transaction, stamp) {
            Ok(tids) => Ok(Reply::Committed {
                low: tids.low,
                high: tids.high,
            }),
            Err(CommitFault::TooLarge) => Ok(refused_commit(Why::TransactionTooLarge)),
            Err(CommitFault::Empty) => Ok(refused_commit(Why::NoOperation)),
            Err(CommitFault::Failed(..)) => unreachable!(),
            Err(CommitFault::Disk) => Err(WorkspaceFault::Disk),
            Err(CommitFault::Memory) => Err(WorkspaceFault::Memory),
        }
    }

    /// Commits the open transaction, which is closed also where it is refused. Costs its entry and its records, two writes
    /// and two syncs.
    ///
    /// A crash at any moment leaves the history before or after it. After an error what stands isn't said; where the clock
    /// failed, the disk is as it was.
    pub fn commit<D: Disk, K: Clock>(
        &mut self,
        alloc: Global,
        disk: &mut D,
        clock: &mut K,
    ) -> Result<Reply, WorkspaceFault>
        requires usable { IsUsable R.contents S.contents (D.known disk.old) self.old }
        requires stamps { HasStamps self.old }
        requires alone { IsOfOne self.old }
        ensures turned { (f : KnownFiles) → HasTurned R.contents S.contents of_nobody
            (λ terms s. turn_of (setting terms) s (says Stmt.Commit))
            (IsSupplied f (known_clock K.Clock clock.old) (known_clock K.Clock clock.new))
            (workspace_at self.old (D.known disk.old))
            (workspace_at self.new (D.known disk.new)) result }
        ensures stays { OnOk result (IsUsable R.contents S.contents (D.known disk.new) self.new) }
        ensures alone { IsOfOne self.new }
        ensures version { version_in (db_in self.new) ≡ version_in (db_in self.old) }
        ensures file { KeepsVersion (D.known disk.old) (D.known disk.new) }
        ensures disk { UsesDisk (λ e. e ≡ WorkspaceFault.Disk) (D.known disk.old)
            (D.known disk.new) result }
        ensures clock { Accounts (λ e. e ≡ WorkspaceFault.Clock) (K.faults clock.old)
            (K.faults clock.new) result }
        ensures spent { (terms : Terms) (s : Session)
            → Stands R.contents S.contents terms self.old s → (f : KnownFiles)
            → Spends 0 (commit_asks s.opened) f f (known_clock K.Clock clock.old)
            (known_clock K.Clock clock.new) result }
        ensures kinds { IsErrOf result WorkspaceFault.File → ⊥ }
        ensures untouched { IsErrOf result WorkspaceFault.Clock → disk.new ≡ disk.old }
    {
        let Some(transaction) = self.transaction.take() else {
            return Ok(refused_commit(Why::NoOperation));
        };
        match transaction.state() {
            TxnState::Going(_) => {
                let curator = self.curator.clone()?;
                self.commit_going(alloc, curator, transaction, disk, clock)
            }
            TxnState::Failed(number, _) => Ok(refused_commit(Why::FailedAt(number))),
        }
    }

    /// Gives the open transaction up.
    pub(super) fn abort(&mut self) -> Reply
        requires workspace { IsWorkspace R.contents S.contents self.old }
        requires alone { IsOfOne self.old }
        ensures turned { (terms : Terms) (s : Session)
            → Stands R.contents S.contents terms self.old s
            → Turned R.contents S.contents terms (turn_of (setting terms) s (says Stmt.Abort))
            self.new (of_nobody result) }
        ensures stays { IsWorkspace R.contents S.contents self.new }
        ensures same { self.new.db ≡ self.old.db }
    {
        let count = match self.transaction.take() {
            Some(transaction) => transaction.abort(),
            None => 0,
        };
        Reply::Aborted { count }
    }
}
