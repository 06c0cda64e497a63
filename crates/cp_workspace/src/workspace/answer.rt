ghost use Rattle.std.specs.Prelude.{◌≡◌, IfOk, OnOk};
ghost use Rattle.cp_db.specs.Databases.{HoldsSame};
ghost use Rattle.cp_reply.specs.Session.{Session, says, turn_of, no_place_of};
ghost use Rattle.cp_workspace.specs.Texts.{Terms, setting};
ghost use Rattle.cp_workspace.specs.Workspaces.{Stands, IsWorkspace, KeepsFile, Turned, db_in, of_nobody};

use crate::workspace::Workspace;
use crate::workspace::refusal::refused;
use cp_lang::Stmt;
use cp_model::Query;
use cp_query::QueryFault;
use cp_reply::{Of, Reply, Why};
use cp_tree::TreeRep;
use std::alloc::{AllocError, Global};

/// Why a query has no answer: the place that it names isn't there.
fn no_place_of(query: Query) -> Why
    ensures { result ≡ no_place_of query }
{
    match query {
        Query::Src(place)
        | Query::Hist(place)
        | Query::Mod(place)
        | Query::Trace(place)
        | Query::From(place) => Why::NoPlace(place),
        Query::Records(_) | Query::Stats => Why::NoOperation,
    }
}

/// What is replied where a query got no answer: that its place isn't there, unless memory ran out.
pub fn unanswered(fault: QueryFault, query: Query) -> Result<Reply, AllocError>
    requires disk { ¬ (fault ≡ QueryFault.Disk) }
    ensures place { IfOk result (λ r. (fault ≡ QueryFault.NoPlace)
        × (r ≡ Reply.Refused Of.Statement (no_place_of query))) }
{
    match fault {
        QueryFault::NoPlace => Ok(refused(no_place_of(query))),
        QueryFault::Disk => unreachable!(),
        QueryFault::Memory => Err(AllocError),
    }
}

impl<R: TreeRep, S: TreeRep> Workspace<R, S> {
    /// Answers a query on the committed state. Reads no disk, and costs as the query. An error changes nothing.
    pub fn ask(&mut self, alloc: Global, query: Query) -> Result<Reply, AllocError>
        requires workspace { IsWorkspace R.contents S.contents self.old }
        ensures turned { IfOk result (λ r. (terms : Terms) (s : Session)
            → Stands R.contents S.contents terms self.old s
            → Turned R.contents S.contents terms (turn_of (setting terms) s (says (Stmt.Ask query)))
            self.new (of_nobody r)) }
        ensures stays { OnOk result (IsWorkspace R.contents S.contents self.new) }
        ensures kept { self.new.transaction ≡ self.old.transaction }
        ensures same { HoldsSame R.contents S.contents (db_in self.old) (db_in self.new) }
        ensures file { KeepsFile self.old self.new }
    {
        match self.db.query(alloc, &query) {
            Ok(answer) => Ok(Reply::Answered { query, answer }),
            Err(fault) => unanswered(fault, query),
        }
    }
}
