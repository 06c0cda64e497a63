ghost use Rattle.std.specs.Prelude.{◌≡◌, IfOk};
ghost use Rattle.cp_model.specs.History.{State};
ghost use Rattle.cp_reply.specs.Session.{Session, says, turn_of, current_tree};
ghost use Rattle.cp_db.specs.Databases.{HoldsState};
ghost use Rattle.cp_workspace.specs.Texts.{Terms, setting};
ghost use Rattle.cp_workspace.specs.Workspaces.{Stands, Turned, of_nobody, shown_reply, shown_tree, shown_or_refused};

use crate::workspace::Workspace;
use crate::workspace::refusal::refused;
use cp_engine::TxnState;
use cp_lang::Stmt;
use cp_path::Loc;
use cp_reply::{Reply, Why};
use cp_tree::TreeRep;
use std::alloc::{AllocError, Global};

/// What stands at and below a place of a tree. Costs the rows' bytes.
pub fn shown<T: TreeRep>(alloc: Global, tree: &T, place: Loc) -> Result<Reply, AllocError>
    ensures { IfOk result (λ r. r ≡ shown_reply place (T.contents tree.now)) }
{
    if !tree.is_there(&place.path) {
        return Ok(refused(Why::NoPlace(place)));
    }
    let rows = tree.rows(alloc, &place.path)?;
    Ok(Reply::Show { place, rows })
}

impl<R: TreeRep, S: TreeRep> Workspace<R, S> {
    /// The working tree of a transaction that hasn't failed, else the committed tree.
    fn current_tree(&self) -> &R
        ensures { (terms : Terms) (s : Session) (z : Stands R.contents S.contents terms self.now s)
            → R.contents result.now ≡ current_tree z.db.state s.opened }
    {
        if let Some(transaction) = &self.transaction {
            if let TxnState::Going(_) = transaction.state() {
                return transaction.tree();
            }
        }
        self.db.tree()
    }

    /// What stands at and below a place of T, while that has this tree, or of a source. Costs the rows' bytes.
    pub(super) fn show_of(&self, alloc: Global, tree: &R, place: Loc) -> Result<Reply, AllocError>
        ensures { IfOk result (λ r. (t : State) → HoldsState R.contents S.contents self.now.db t
            → r ≡ shown_or_refused place (shown_tree t (R.contents tree.now) place)) }
    {
        if place.db.is_target() {
            return shown(alloc, tree, place);
        }
        match self.db.sources().get(&place.db) {
            Some(tree) => shown(alloc, tree, place),
            None => Ok(refused(Why::NoSource(place.db))),
        }
    }

    /// What stands at and below a place of T or of a source. Costs the rows' bytes.
    pub fn show(&self, alloc: Global, place: Loc) -> Result<Reply, AllocError>
        ensures { IfOk result (λ r. (terms : Terms) (s : Session)
            → Stands R.contents S.contents terms self.now s
            → Turned R.contents S.contents terms
            (turn_of (setting terms) s (says (Stmt.Show place))) self.now (of_nobody r)) }
    {
        self.show_of(alloc, self.current_tree(), place)
    }
}
