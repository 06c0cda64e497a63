ghost use Rattle.std.specs.Prelude.{◌≡◌, true, false, List, IsErrOf, OnOk};
ghost use Rattle.cp_disk.specs.Counts.{UsesDisk};
ghost use Rattle.cp_outside.specs.Causes.{Accounts};
ghost use Rattle.cp_model.specs.History.{Entry};
ghost use Rattle.cp_reply.specs.Session.{Supply, Session, says, turn_of};
ghost use Rattle.cp_db.specs.Databases as database;
ghost use Rattle.cp_db.specs.Databases.{IsDatabase, is_spent, version_in};
ghost use Rattle.cp_db.specs.FileVersions.{KeepsVersion};
ghost use Rattle.cp_workspace.specs.Texts.{Terms, setting};
ghost use Rattle.cp_workspace.specs.Loads.{statement_reads};
ghost use Rattle.cp_workspace.specs.Clocks.{known_clock};
ghost use Rattle.cp_workspace.specs.Commits.{statement_asks};
ghost use Rattle.cp_workspace.specs.Files.{known_files, UsesFiles};
ghost use Rattle.cp_workspace.specs.Spending.{Spends};
ghost use Rattle.cp_workspace.specs.Workspaces.{Stands, IsOfOne, IsWorkspace, IsUsable, HasStamps, HasTurned, IsWrittenStmt, any_of_nobody, db_in, end_now, opened_session, workspace_at};
ghost use Rattle.cp_workspace.specs.Supplies.{IsSupplied};

mod answer;
mod commit;
mod load;
mod operate;
mod refusal;
mod reply;
mod shared;
mod show;

use crate::fault::WorkspaceFault;
pub use answer::unanswered;
use cp_curators::Curators;
use cp_db::Db;
use cp_disk::Disk;
use cp_engine::Txn;
use cp_lang::Stmt;
use cp_outside::{Clock, Files};
use cp_path::Label;
use cp_reply::Reply;
use cp_tree::TreeRep;
pub use show::shown;
use std::alloc::Global;

/// A database in a file, the open transaction, and the curator of its commits; or the transactions that several curators
/// have open, each of whom makes his own commits. A tree of a source may have another form than those that are changed.
///
/// Each call takes the disk on which the database was opened or made. After an error the file is opened again.
#[derive(Drop)]
pub struct Workspace<R: TreeRep, S: TreeRep> {
    db: Db<R, S>,
    transaction: Option<Txn<R>>,
    curator: Label,
    curators: Option<Curators<R>>,
}

impl<R: TreeRep, S: TreeRep> Workspace<R, S> {
    /// A workspace on this database for the statements of one curator, without a transaction.
    pub fn new(db: Db<R, S>, curator: Label) -> Workspace<R, S>
        requires stands { IsDatabase R.contents S.contents db }
        requires usable { is_spent db ≡ false }
        ensures workspace { IsWorkspace R.contents S.contents result }
        ensures alone { IsOfOne result }
        ensures same { db_in result ≡ db }
        ensures stands { (h : List Entry) (supply : Supply)
            → database.Stands R.contents S.contents true db h
            → Stands R.contents S.contents
            (record { ends = end_now h db; curator = curator; shared = false })
            result (opened_session h supply) }
    {
        Workspace {
            db,
            transaction: None,
            curator,
            curators: None,
        }
    }

    /// A workspace on this database for the statements of several curators, of whom none has a transaction. Each makes his
    /// own commits, so that this one makes none.
    pub fn shared(alloc: Global, db: Db<R, S>, curator: Label) -> Workspace<R, S>
        requires stands { IsDatabase R.contents S.contents db }
        requires usable { is_spent db ≡ false }
        ensures workspace { IsWorkspace R.contents S.contents result }
        ensures same { db_in result ≡ db }
        ensures stands { (h : List Entry) (supply : Supply)
            → database.Stands R.contents S.contents true db h
            → Stands R.contents S.contents
            (record { ends = end_now h db; curator = curator; shared = true })
            result (opened_session h supply) }
    {
        Workspace {
            db,
            transaction: None,
            curator,
            curators: Some(Curators::new(alloc)),
        }
    }

    /// Gives out the database. Each open transaction is dropped.
    pub fn into_db(self) -> Db<R, S>
        ensures { result ≡ db_in self }
    {
        let Workspace {
            db,
            transaction,
            curator,
            curators,
        } = self;
        drop(transaction);
        drop(curator);
        drop(curators);
        db
    }

    /// Lets the workspace go, with its database and each open transaction. The file stays as it is.
    pub fn discard(self) {
        self.into_db().discard();
    }

    /// Runs a statement, and gives its reply, which is none for an operation that is accepted. Costs what the statement
    /// does: an operation its change of the working tree, a query its look-ups, `show` the rows that it shows, a load its
    /// file; a commit and a load also two writes and two syncs.
    ///
    /// A commit wants a file of version 2, and alone asks the clock. A crash at any moment leaves the history before the
    /// statement or after it, and once the reply is given, that after it. What stands after an error isn't said: the file
    /// is opened again. Where a source file or the clock failed, the disk is as it was.
    fn run<D: Disk, F: Files, K: Clock>(
        &mut self,
        alloc: Global,
        statement: Stmt,
        disk: &mut D,
        files: &mut F,
        clock: &mut K,
    ) -> Result<Option<Reply>, WorkspaceFault>
        requires usable { IsUsable R.contents S.contents (D.known disk.old) self.old }
        requires alone { IsOfOne self.old }
        requires written { IsWrittenStmt statement }
        requires stamps { statement ≡ Stmt.Commit → HasStamps self.old }
        ensures turned { HasTurned R.contents S.contents any_of_nobody
            (λ terms s. turn_of (setting terms) s (says statement))
            (IsSupplied (known_files F.Files files.old) (known_clock K.Clock clock.old)
            (known_clock K.Clock clock.new))
            (workspace_at self.old (D.known disk.old))
            (workspace_at self.new (D.known disk.new)) result }
        ensures stays { OnOk result (IsUsable R.contents S.contents (D.known disk.new) self.new) }
        ensures version { OnOk result (version_in (db_in self.new) ≡ version_in (db_in self.old)) }
        ensures file { KeepsVersion (D.known disk.old) (D.known disk.new) }
        ensures spent { (terms : Terms) (s : Session)
            → Stands R.contents S.contents terms self.old s
            → Spends (statement_reads s statement) (statement_asks s statement)
            (known_files F.Files files.old) (known_files F.Files files.new)
            (known_clock K.Clock clock.old) (known_clock K.Clock clock.new) result }
        ensures used { UsesFiles (λ e. e ≡ WorkspaceFault.File) (known_files F.Files files.old)
            (known_files F.Files files.new) result }
        ensures disk { UsesDisk (λ e. e ≡ WorkspaceFault.Disk) (D.known disk.old)
            (D.known disk.new) result }
        ensures clock { Accounts (λ e. e ≡ WorkspaceFault.Clock) (K.faults clock.old)
            (K.faults clock.new) result }
        ensures same { IsErrOf result WorkspaceFault.File → disk.new ≡ disk.old }
        ensures untouched { IsErrOf result WorkspaceFault.Clock → disk.new ≡ disk.old }
    {
        match statement {
            Stmt::Op(op) => Ok(self.operate(alloc, op)?),
            Stmt::Commit => Ok(Some(self.commit(alloc, disk, clock)?)),
            Stmt::Abort => Ok(Some(self.abort())),
            Stmt::Load(load) => Ok(Some(self.load(alloc, load, disk, files)?)),
            Stmt::Ask(query) => Ok(Some(self.ask(alloc, query)?)),
            Stmt::Show(place) => Ok(Some(self.show(alloc, place)?)),
        }
    }
}
