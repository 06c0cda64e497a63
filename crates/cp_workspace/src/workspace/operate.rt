ghost use Rattle.std.specs.Prelude.{◌≡◌, IfOk, OnOk};
ghost use Rattle.std.specs.declared.option.Option.TheVariants.{None};
ghost use Rattle.cp_model.specs.History.{IsWritten};
ghost use Rattle.cp_engine.specs.Transactions.{Progress};
ghost use Rattle.cp_reply.specs.declared.reply.Why.{Why as WhyValue};
ghost use Rattle.cp_db.specs.Databases.{HasCome};
ghost use Rattle.cp_reply.specs.Session.{Session, says, turn_of, not_read};
ghost use Rattle.cp_workspace.specs.Texts.{Terms, setting};
ghost use Rattle.cp_workspace.specs.Workspaces.{Stands, IsOfOne, IsWorkspace, IsOpened, IsReplyTo, Turned, any_of_nobody};

use crate::workspace::Workspace;
use crate::workspace::refusal::{refused, why_of};
use cp_engine::{ApplyFault, Txn};
use cp_lang::Stmt;
use cp_model::Op;
use cp_reply::{Reply, Why};
use cp_tree::TreeRep;
use std::alloc::{AllocError, Global};

/// What is replied to an operation, by what became of it.
pub(super) fn outcome(op: Op, applied: Result<(), ApplyFault>) -> Result<Option<Reply>, AllocError>
    ensures { IfOk result (λ r. IsReplyTo op applied r) }
{
    match applied {
        Ok(()) => {
            drop(op);
            Ok(None)
        }
        Err(ApplyFault::Failed(number)) => {
            drop(op);
            Ok(Some(refused(Why::FailedAt(number))))
        }
        Err(ApplyFault::Refused(refusal)) => Ok(Some(refused(why_of(op, refusal)))),
        Err(ApplyFault::Memory) => {
            drop(op);
            Err(AllocError)
        }
    }
}

impl<R: TreeRep, S: TreeRep> Workspace<R, S> {
    /// Takes the open transaction out, or begins one.
    fn take_opened(&mut self, alloc: Global) -> Result<Txn<R>, AllocError>
        requires workspace { IsWorkspace R.contents S.contents self.old }
        ensures opened { IfOk result (λ x. IsOpened R.contents S.contents self.old x) }
        ensures begun { IfOk result (λ x. (p : Progress)
            × HasCome R.contents S.contents self.old.db x p) }
        ensures taken { self.new ≡ record self.old { transaction = None } }
    {
        match self.transaction.take() {
            Some(transaction) => Ok(transaction),
            None => self.db.begin(alloc),
        }
    }

    /// Runs an operation in the open transaction, or in one that it begins. Replies only where it is refused. Costs as the
    /// operation. After an error what stands isn't said.
    pub fn operate(&mut self, alloc: Global, op: Op) -> Result<Option<Reply>, AllocError>
        requires workspace { IsWorkspace R.contents S.contents self.old }
        requires alone { IsOfOne self.old }
        requires written { IsWritten op }
        ensures turned { IfOk result (λ r. (terms : Terms) (s : Session)
            → Stands R.contents S.contents terms self.old s
            → Turned R.contents S.contents terms
            (turn_of (setting terms) s (says (Stmt.Op op))) self.new (any_of_nobody r)) }
        ensures stays { OnOk result (IsWorkspace R.contents S.contents self.new) }
        ensures alone { IsOfOne self.new }
        ensures same { self.new.db ≡ self.old.db }
    {
        let Ok(mut transaction) = self.take_opened(alloc) else {
            drop(op);
            return Err(AllocError);
        };
        let applied = transaction.apply(alloc, &op, self.db.sources());
        self.transaction = Some(transaction);
        outcome(op, applied)
    }

    /// A text that can't be read counts as an operation that is refused.
    pub(super) fn spoil(&mut self, alloc: Global) -> Result<(), AllocError>
        requires workspace { IsWorkspace R.contents S.contents self.old }
        requires alone { IsOfOne self.old }
        ensures stands { OnOk result ((terms : Terms) (s : Session) (w : WhyValue)
            → Stands R.contents S.contents terms self.old s
            → Stands R.contents S.contents terms self.new (not_read s w).next) }
        ensures stays { OnOk result (IsWorkspace R.contents S.contents self.new) }
        ensures same { self.new.db ≡ self.old.db }
    {
        let mut transaction = self.take_opened(alloc)?;
        transaction.spoil();
        self.transaction = Some(transaction);
        Ok(())
    }
}
