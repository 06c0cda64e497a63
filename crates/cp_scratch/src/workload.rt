//! The run of a generated workload.
ghost use Rattle.std.specs.Prelude.{◌≡◌, [], Bool, false, IfOk, OnOk};
ghost use Rattle.cp_disk.specs.MemoryDisks.{sure_view};
ghost use Rattle.cp_journal.specs.NewStores.{IsVacant};
ghost use Rattle.cp_model.specs.History.{IsWritten};
ghost use Rattle.cp_reply.specs.Session.{Session, says, turn_of, session_after_statements};
ghost use Rattle.cp_db.specs.Databases as database;
ghost use Rattle.cp_db.specs.Databases.{IsReady, end_in, is_spent, version_in};
ghost use Rattle.cp_gen.specs.Script.{IsOpOrCommit};
ghost use Rattle.cp_workspace.specs.Texts.{Terms, setting};
ghost use Rattle.cp_workspace.specs.Workspaces.{Stands, EndsAt, HasStamps, IsOfOne, IsUsable, IsWorkspace, IsWrittenStmt, db_in};
ghost use Rattle.cp_scratch.specs.Sessions.{sure_disk};
ghost use Rattle.cp_scratch.specs.Workloads.{ComesTo, workload_session, workload_start, workload_terms};

use crate::database::new_db;
use crate::start::no_curator;
use cp_db::Db;
use cp_disk::SureDisk;
use cp_gen::{Generator, source, source_name, summary_in};
use cp_lang::Stmt;
use cp_model::{Content, Kind, Op};
use cp_outside::MemClock;
use cp_reply::Reply;
use cp_tree::TreeRep;
use cp_workspace::Workspace;
use std::alloc::{AllocError, Global};

/// A database of a kind in memory, with nothing below the root of its tree, and with the source that scripts copy from.
fn db_with_source<R: TreeRep, S: TreeRep>(
    alloc: Global,
    kind: Kind,
    disk: &mut SureDisk,
) -> Result<Db<R, S>, AllocError>
    requires vacant { IsVacant (sure_view disk.old).content }
    ensures stands { IfOk result (λ d. (right : Bool)
        → database.Stands R.contents S.contents right d (workload_start kind)) }
    ensures ends { IfOk result
        (λ d. EndsAt (workload_terms kind).ends (workload_start kind) (end_in d)) }
    ensures made { IfOk result (λ d. (version_in d ≡ 2) × (is_spent d ≡ false)) }
    ensures ready { IfOk result (λ d. IsReady d (sure_view disk.new)) }
{
    let name = source_name(alloc)?;
    let tree = source(alloc)?;
    let root = R::single(alloc, &Content::Node)?;
    let mut db = new_db::<R, S>(alloc, kind, root, disk)?;
    match db.load(alloc, disk, name, tree) {
        Ok(()) => Ok(db),
        // A new file has room for the source, and this disk doesn't fail.
        Err(_) => {
            db.discard();
            Err(AllocError)
        }
    }
}

/// A workspace on such a database.
fn begin<R: TreeRep, S: TreeRep>(
    alloc: Global,
    kind: Kind,
    disk: &mut SureDisk,
) -> Result<Workspace<R, S>, AllocError>
    requires vacant { IsVacant (sure_view disk.old).content }
    ensures stands { IfOk result
        (λ x. Stands R.contents S.contents (workload_terms kind) x (workload_session kind)) }
    ensures usable { IfOk result (λ x. IsUsable R.contents S.contents (sure_disk disk.new) x) }
    ensures stamps { IfOk result (λ x. HasStamps x) }
    ensures alone { IfOk result (λ x. IsOfOne x) }
{
    let curator = no_curator(alloc)?;
    let db = db_with_source(alloc, kind, disk)?;
    Ok(Workspace::new(db, curator))
}

/// Runs an operation of a script. What it replies isn't kept.
fn run_operation<R: TreeRep, S: TreeRep>(
    alloc: Global,
    workspace: &mut Workspace<R, S>,
    op: Op,
) -> Result<(), AllocError>
    requires workspace { IsWorkspace R.contents S.contents workspace.old }
    requires alone { IsOfOne workspace.old }
    requires written { IsWritten op }
    ensures turned { OnOk result ((terms : Terms) (s : Session)
        → Stands R.contents S.contents terms workspace.old s
        → Stands R.contents S.contents terms workspace.new
        (turn_of (setting terms) s (says (Stmt.Op op))).next) }
    ensures stays { OnOk result (IsWorkspace R.contents S.contents workspace.new) }
    ensures alone { IsOfOne workspace.new }
    ensures same { db_in workspace.new ≡ db_in workspace.old }
{
    drop(workspace.operate(alloc, op)?);
    Ok(())
}

/// Commits the operations of a script that are held, with a clock that has no moment left to tell. What it replies isn't kept.
fn run_commit<R: TreeRep, S: TreeRep>(
    alloc: Global,
    workspace: &mut Workspace<R, S>,
    disk: &mut SureDisk,
    clock: &mut MemClock,
) -> Result<(), AllocError>
    requires usable { IsUsable R.contents S.contents (sure_disk disk.old) workspace.old }
    requires stamps { HasStamps workspace.old }
    requires alone { IsOfOne workspace.old }
    requires silent { clock.old.left ≡ [] }
    ensures turned { OnOk result ((terms : Terms) (s : Session)
        → Stands R.contents S.contents terms workspace.old s → s.supply.moments ≡ []
        → Stands R.contents S.contents terms workspace.new
        (turn_of (setting terms) s (says Stmt.Commit)).next) }
    ensures stays { OnOk result
        (IsUsable R.contents S.contents (sure_disk disk.new) workspace.new) }
    ensures stamps { OnOk result (HasStamps workspace.new) }
    ensures alone { IsOfOne workspace.new }
    ensures silent { OnOk result (clock.new.left ≡ []) }
{
    match workspace.commit(alloc, disk, clock) {
        Ok(reply) => {
            drop(reply);
            Ok(())
        }
        // Neither this disk nor this clock fails.
        Err(_) => Err(AllocError),
    }
}

/// Runs a statement of a script, with a clock that has no moment left to tell.
fn run_statement<R: TreeRep, S: TreeRep>(
    alloc: Global,
    workspace: &mut Workspace<R, S>,
    statement: Stmt,
    disk: &mut SureDisk,
    clock: &mut MemClock,
) -> Result<(), AllocError>
    requires usable { IsUsable R.contents S.contents (sure_disk disk.old) workspace.old }
    requires stamps { HasStamps workspace.old }
    requires alone { IsOfOne workspace.old }
    requires written { IsWrittenStmt statement }
    requires only { IsOpOrCommit statement }
    requires silent { clock.old.left ≡ [] }
    ensures turned { OnOk result ((terms : Terms) (s : Session)
        → Stands R.contents S.contents terms workspace.old s → s.supply.moments ≡ []
        → Stands R.contents S.contents terms workspace.new
        (turn_of (setting terms) s (says statement)).next) }
    ensures stays { OnOk result
        (IsUsable R.contents S.contents (sure_disk disk.new) workspace.new) }
    ensures stamps { OnOk result (HasStamps workspace.new) }
    ensures alone { IsOfOne workspace.new }
    ensures silent { OnOk result (clock.new.left ≡ []) }
{
    match statement {
        Stmt::Op(op) => run_operation(alloc, workspace, op),
        Stmt::Commit => run_commit(alloc, workspace, disk, clock),
        Stmt::Abort | Stmt::Load(_) | Stmt::Ask(_) | Stmt::Show(_) => unreachable!(),
    }
}

/// Runs all statements of a script.
fn run_script<R: TreeRep, S: TreeRep>(
    alloc: Global,
    workspace: &mut Workspace<R, S>,
    mut script: Generator,
    disk: &mut SureDisk,
    clock: &mut MemClock,
) -> Result<(), AllocError>
    requires usable { IsUsable R.contents S.contents (sure_disk disk.old) workspace.old }
    requires stamps { HasStamps workspace.old }
    requires alone { IsOfOne workspace.old }
    requires silent { clock.old.left ≡ [] }
    ensures ran { OnOk result ((terms : Terms) (s : Session)
        → Stands R.contents S.contents terms workspace.old s → s.supply.moments ≡ []
        → Stands R.contents S.contents terms workspace.new
        (session_after_statements (setting terms) s script)) }
    ensures stays { OnOk result (IsWorkspace R.contents S.contents workspace.new) }
{
    while let Some(statement) = script.next()? {
        run_statement(alloc, workspace, statement, disk, clock)?;
    }
    Ok(())
}

/// What the script of so many operations that the seed gives comes to in a database of a kind, which is made in memory and
/// has the source of the scripts: its numbers. Each commit has the moment 0 and no curator. Costs the operations, and at
/// the end a `src` and a `hist` of each place.
pub fn run_workload<R: TreeRep, S: TreeRep>(
    alloc: Global,
    kind: Kind,
    seed: u64,
    count: u32,
) -> Result<Reply, AllocError>
    ensures { IfOk result (λ r. ComesTo kind seed count r) }
{
    let mut disk = SureDisk::new(alloc, &[])?;
    let mut clock = MemClock::new(alloc, &[])?;
    let mut workspace: Workspace<R, S> = begin(alloc, kind, &mut disk)?;
    let script = Generator::new(alloc, seed, count);
    match run_script(alloc, &mut workspace, script, &mut disk, &mut clock) {
        Ok(()) => {
            let mut db = workspace.into_db();
            let reply = summary_in(alloc, &mut db);
            db.discard();
            reply
        }
        Err(fault) => {
            workspace.discard();
            Err(fault)
        }
    }
}
