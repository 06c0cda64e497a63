//! The turns of several curators, each of whom has a transaction of his own, or none.
ghost use Rattle.std.specs.Prelude.{◌≡◌, false, IfOk, OnOk, IsErrOf, length};
ghost use Rattle.std.specs.declared.option.Option.TheVariants.{None, Some};
ghost use Rattle.cp_outside.specs.Causes.{Accounts};
ghost use Rattle.cp_disk.specs.Counts.{UsesDisk};
ghost use Rattle.cp_model.specs.History.{IsWritten};
ghost use Rattle.cp_model.specs.Place.{label_eq, target};
ghost use Rattle.cp_db.specs.Databases.{version_in};
ghost use Rattle.cp_db.specs.FileVersions.{KeepsVersion};
ghost use Rattle.cp_lang.specs.Lexer.{spaces};
ghost use Rattle.cp_reply.specs.Sharing.{bad_byte_or, owner, statement_in};
ghost use Rattle.cp_reply.specs.Session.{Session, says, said_to, unread, desk_in, shared_turn, turn_at_of, turn_by_owner};
ghost use Rattle.cp_workspace.specs.Texts.{Terms, setting, reading};
ghost use Rattle.cp_workspace.specs.Loads.{owned_reads, shared_reads, statement_reads_at, text_reads_at};
ghost use Rattle.cp_workspace.specs.Clocks.{KnownClock, known_clock};
ghost use Rattle.cp_workspace.specs.Commits.{owned_asks, shared_asks, statement_asks_at, text_asks_at};
ghost use Rattle.cp_workspace.specs.Files.{KnownFiles, known_files, UsesFiles};
ghost use Rattle.cp_workspace.specs.Spending.{Spends};
ghost use Rattle.cp_workspace.specs.Workspaces.{Stands, IsOfOne, IsWorkspace, IsUsable, HasStamps, HasTurned, IsWrittenStmt, KeepsFile, Turned, any_to_name, db_in, shared_by, to_name, workspace_at};
ghost use Rattle.cp_workspace.specs.Supplies.{IsSupplied};

use crate::fault::WorkspaceFault;
use crate::owner::{bad_byte_or, blank, front_end, owner, spaces};
use crate::text::read;
use crate::workspace::Workspace;
use crate::workspace::operate::outcome;
use crate::workspace::refusal::{refused, refused_commit, refused_load};
use crate::workspace::reply::said_to;
use cp_curators::{Curators, ShareFault};
use cp_disk::Disk;
use cp_lang::{Cut, Load, Stmt};
use cp_model::{Op, Query};
use cp_outside::{Clock, Files};
use cp_path::{Label, Loc, Name};
use cp_reply::{Of, Reply, Said, Why};
use cp_tree::TreeRep;
use std::alloc::{AllocError, Global};

/// The refusal of a text that is nobody's.
fn to_nobody(why: Why) -> Said
    ensures { result ≡ said_to None (Reply.Refused Of.Statement why) }
{
    Said {
        whose: None,
        reply: refused(why),
    }
}

impl<R: TreeRep, S: TreeRep> Workspace<R, S> {
    /// Runs an operation in the curator's transaction, or in one that begins on the committed tree. Replies only where it is
    /// refused. Costs as the operation, and what beginning costs. After an error what stands isn't said.
    fn operate_for(
        &self,
        alloc: Global,
        curators: &mut Curators<R>,
        name: &Name,
        op: Op,
    ) -> Result<Option<Reply>, AllocError>
        requires workspace { IsWorkspace R.contents S.contents (shared_by self.now curators.old) }
        requires written { IsWritten op }
        ensures turned { IfOk result (λ r. (terms : Terms) (s : Session)
            → Stands R.contents S.contents terms (shared_by self.now curators.old) s
            → Turned R.contents S.contents terms
            (turn_at_of (setting terms) s (desk_in s name.now) (says (Stmt.Op op)))
            (shared_by self.now curators.new) (any_to_name name.now r)) }
        ensures stays { IsWorkspace R.contents S.contents (shared_by self.now curators.new) }
    {
        let db = &self.db;
        let applied = curators.apply(
            alloc,
            name,
            &op,
            db.tree(),
            db.sources(),
            db.kind(),
            db.now(),
        );
        outcome(op, applied)
    }

    /// Refuses a text of the curator that can't be read, which counts as an operation that is refused.
    fn refuse_for(
        &self,
        alloc: Global,
        curators: &mut Curators<R>,
        name: &Name,
        why: Why,
    ) -> Result<Reply, AllocError>
        requires workspace { IsWorkspace R.contents S.contents (shared_by self.now curators.old) }
        ensures turned { IfOk result (λ r. (terms : Terms) (s : Session)
            → Stands R.contents S.contents terms (shared_by self.now curators.old) s
            → Turned R.contents S.contents terms
            (turn_at_of (setting terms) s (desk_in s name.now) (unread why))
            (shared_by self.now curators.new) (to_name name.now r)) }
        ensures stays { IsWorkspace R.contents S.contents (shared_by self.now curators.new) }
    {
        let db = &self.db;
        match curators.spoil(alloc, name, db.tree(), db.kind(), db.now()) {
            Ok(()) => Ok(refused(why)),
            Err(fault) => {
                drop(why);
                Err(fault)
            }
        }
    }

    /// Commits the curator's transaction, which is closed also where it is refused: where another commit was made after it
    /// began it is stale, and the clock isn't asked. Costs as a commit.
    ///
    /// A crash at any moment leaves the history before or after it. After an error what stands isn't said; where the clock
    /// failed, the disk is as it was.
    fn commit_for<D: Disk, K: Clock>(
        &mut self,
        alloc: Global,
        curators: &mut Curators<R>,
        name: &Name,
        disk: &mut D,
        clock: &mut K,
    ) -> Result<Reply, WorkspaceFault>
        requires usable { IsUsable R.contents S.contents (D.known disk.old)
            (shared_by self.old curators.old) }
        requires alone { IsOfOne self.old }
        requires stamps { HasStamps self.old }
        ensures turned { (f : KnownFiles) → HasTurned R.contents S.contents (to_name name.now)
            (λ terms s. turn_at_of (setting terms) s (desk_in s name.now) (says Stmt.Commit))
            (IsSupplied f (known_clock K.Clock clock.old) (known_clock K.Clock clock.new))
            (workspace_at (shared_by self.old curators.old) (D.known disk.old))
            (workspace_at (shared_by self.new curators.new) (D.known disk.new)) result }
        ensures stays { OnOk result (IsUsable R.contents S.contents (D.known disk.new)
            (shared_by self.new curators.new)) }
        ensures version { version_in (db_in self.new) ≡ version_in (db_in self.old) }
        ensures file { KeepsVersion (D.known disk.old) (D.known disk.new) }
        ensures disk { UsesDisk (λ e. e ≡ WorkspaceFault.Disk) (D.known disk.old)
            (D.known disk.new) result }
        ensures clock { Accounts (λ e. e ≡ WorkspaceFault.Clock) (K.faults clock.old)
            (K.faults clock.new) result }
        ensures spent { (terms : Terms) (s : Session)
            → Stands R.contents S.contents terms (shared_by self.old curators.old) s
            → (f : KnownFiles)
            → Spends 0 (statement_asks_at s (desk_in s name.now) Stmt.Commit) f f
            (known_clock K.Clock clock.old) (known_clock K.Clock clock.new) result }
        ensures kinds { IsErrOf result WorkspaceFault.File → ⊥ }
        ensures untouched { IsErrOf result WorkspaceFault.Clock → disk.new ≡ disk.old }
    {
        match curators.take(name, self.db.now()) {
            Ok(transaction) => {
                let curator = Label::copy_of(alloc, name.as_str())?;
                self.commit_going(alloc, curator, transaction, disk, clock)
            }
            Err(ShareFault::Empty) => Ok(refused_commit(Why::NoOperation)),
            Err(ShareFault::Failed(number, _)) => Ok(refused_commit(Why::FailedAt(number))),
            Err(ShareFault::Stale(last)) => Ok(refused_commit(Why::Stale(last))),
        }
    }

    /// Gives the curator's transaction up.
    fn abort_for(&self, curators: &mut Curators<R>, name: &Name) -> Reply
        requires workspace { IsWorkspace R.contents S.contents (shared_by self.now curators.old) }
        ensures turned { (terms : Terms) (s : Session)
            → Stands R.contents S.contents terms (shared_by self.now curators.old) s
            → Turned R.contents S.contents terms
            (turn_at_of (setting terms) s (desk_in s name.now) (says Stmt.Abort))
            (shared_by self.now curators.new) (to_name name.now result) }
        ensures stays { IsWorkspace R.contents S.contents (shared_by self.now curators.new) }
    {
        Reply::Aborted {
            count: curators.abort(name),
        }
    }

    /// Loads the tree of a file as a source, while nobody has a transaction open. Costs as a load.
    ///
    /// A crash at any moment leaves the history before or after it. After an error what stands isn't said; where the file
    /// failed, the disk is as it was.
    fn load_for<D: Disk, F: Files>(
        &mut self,
        alloc: Global,
        curators: &Curators<R>,
        name: &Name,
        load: Load,
        disk: &mut D,
        files: &mut F,
    ) -> Result<Reply, WorkspaceFault>
        requires usable { IsUsable R.contents S.contents (D.known disk.old)
            (shared_by self.old curators.now) }
        requires alone { IsOfOne self.old }
        requires other { label_eq load.name target ≡ false }
        ensures turned { (k : KnownClock) → HasTurned R.contents S.contents (to_name name.now)
            (λ terms s. turn_at_of (setting terms) s (desk_in s name.now) (says (Stmt.Load load)))
            (IsSupplied (known_files F.Files files.old) k k)
            (workspace_at (shared_by self.old curators.now) (D.known disk.old))
            (workspace_at (shared_by self.new curators.now) (D.known disk.new)) result }
        ensures stays { OnOk result (IsUsable R.contents S.contents (D.known disk.new)
            (shared_by self.new curators.now)) }
        ensures version { version_in (db_in self.new) ≡ version_in (db_in self.old) }
        ensures file { KeepsVersion (D.known disk.old) (D.known disk.new) }
        ensures spent { (terms : Terms) (s : Session)
            → Stands R.contents S.contents terms (shared_by self.old curators.now) s
            → (k : KnownClock)
            → Spends (statement_reads_at s (desk_in s name.now) (Stmt.Load load)) 0
            (known_files F.Files files.old) (known_files F.Files files.new) k k result }
        ensures used { UsesFiles (λ e. e ≡ WorkspaceFault.File) (known_files F.Files files.old)
            (known_files F.Files files.new) result }
        ensures disk { UsesDisk (λ e. e ≡ WorkspaceFault.Disk) (D.known disk.old)
            (D.known disk.new) result }
        ensures kinds { IsErrOf result WorkspaceFault.Clock → ⊥ }
        ensures untouched { IsErrOf result WorkspaceFault.File → disk.new ≡ disk.old }
    {
        if curators.any_open() {
            drop(load);
            return Ok(refused_load(Why::TransactionOpen));
        }
        self.load(alloc, load, disk, files)
    }

    /// Answers a query on the committed state. Costs as the query. An error changes nothing.
    fn ask_for(
        &mut self,
        alloc: Global,
        curators: &Curators<R>,
        name: &Name,
        query: Query,
    ) -> Result<Reply, AllocError>
        requires workspace { IsWorkspace R.contents S.contents (shared_by self.old curators.now) }
        requires alone { IsOfOne self.old }
        ensures turned { IfOk result (λ r. (terms : Terms) (s : Session)
            → Stands R.contents S.contents terms (shared_by self.old curators.now) s
            → Turned R.contents S.contents terms
            (turn_at_of (setting terms) s (desk_in s name.now) (says (Stmt.Ask query)))
            (shared_by self.new curators.now) (to_name name.now r)) }
        ensures stays { OnOk result
            (IsWorkspace R.contents S.contents (shared_by self.new curators.now)) }
        ensures file { KeepsFile self.old self.new }
    {
        self.ask(alloc, query)
    }

    /// What stands at and below a place of T or of a source; of T the curator's working tree, unless his transaction has
    /// failed or he has none. Costs the rows' bytes.
    fn show_for(
        &self,
        alloc: Global,
        curators: &Curators<R>,
        name: &Name,
        place: Loc,
    ) -> Result<Reply, AllocError>
        requires workspace { IsWorkspace R.contents S.contents (shared_by self.now curators.now) }
        ensures { IfOk result (λ r. (terms : Terms) (s : Session)
            → Stands R.contents S.contents terms (shared_by self.now curators.now) s
            → Turned R.contents S.contents terms
            (turn_at_of (setting terms) s (desk_in s name.now) (says (Stmt.Show place)))
            (shared_by self.now curators.now) (to_name name.now r)) }
    {
        match curators.working(name) {
            Some(tree) => self.show_of(alloc, tree, place),
            None => self.show_of(alloc, self.db.tree(), place),
        }
    }

    /// Runs a statement of the curator, and gives its reply, which is none for an operation that is accepted. Costs what the
    /// statement does.
    fn run_for<D: Disk, F: Files, K: Clock>(
        &mut self,
        alloc: Global,
        curators: &mut Curators<R>,
        name: &Name,
        statement: Stmt,
        disk: &mut D,
        files: &mut F,
        clock: &mut K,
    ) -> Result<Option<Reply>, WorkspaceFault>
        requires usable { IsUsable R.contents S.contents (D.known disk.old)
            (shared_by self.old curators.old) }
        requires alone { IsOfOne self.old }
        requires written { IsWrittenStmt statement }
        requires stamps { HasStamps self.old }
        ensures turned { HasTurned R.contents S.contents (any_to_name name.now)
            (λ terms s. turn_at_of (setting terms) s (desk_in s name.now) (says statement))
            (IsSupplied (known_files F.Files files.old) (known_clock K.Clock clock.old)
            (known_clock K.Clock clock.new))
            (workspace_at (shared_by self.old curators.old) (D.known disk.old))
            (workspace_at (shared_by self.new curators.new) (D.known disk.new)) result }
        ensures stays { OnOk result (IsUsable R.contents S.contents (D.known disk.new)
            (shared_by self.new curators.new)) }
        ensures version { OnOk result (version_in (db_in self.new) ≡ version_in (db_in self.old)) }
        ensures file { KeepsVersion (D.known disk.old) (D.known disk.new) }
        ensures spent { (terms : Terms) (s : Session)
            → Stands R.contents S.contents terms (shared_by self.old curators.old) s
            → Spends (statement_reads_at s (desk_in s name.now) statement)
            (statement_asks_at s (desk_in s name.now) statement)
            (known_files F.Files files.old) (known_files F.Files files.new)
            (known_clock K.Clock clock.old) (known_clock K.Clock clock.new) result }
        ensures used { UsesFiles (λ e. e ≡ WorkspaceFault.File) (known_files F.Files files.old)
            (known_files F.Files files.new) result }
        ensures disk { UsesDisk (λ e. e ≡ WorkspaceFault.Disk) (D.known disk.old)
            (D.known disk.new) result }
        ensures clock { Accounts (λ e. e ≡ WorkspaceFault.Clock) (K.faults clock.old)
            (K.faults clock.new) result }
        ensures same { IsErrOf result WorkspaceFault.File → disk.new ≡ disk.old }
        ensures untouched { IsErrOf result WorkspaceFault.Clock → disk.new ≡ disk.old }
    {
        match statement {
            Stmt::Op(op) => Ok(self.operate_for(alloc, curators, name, op)?),
            Stmt::Commit => Ok(Some(self.commit_for(alloc, curators, name, disk, clock)?)),
            Stmt::Abort => Ok(Some(self.abort_for(curators, name))),
            Stmt::Load(load) => Ok(Some(self.load_for(alloc, curators, name, load, disk, files)?)),
            Stmt::Ask(query) => Ok(Some(self.ask_for(alloc, curators, name, query)?)),
            Stmt::Show(place) => Ok(Some(self.show_for(alloc, curators, name, place)?)),
        }
    }

    /// Runs what a text of the curator says. Costs the text's bytes, and what its statement costs.
    fn run_text_for<D: Disk, F: Files, K: Clock>(
        &mut self,
        alloc: Global,
        curators: &mut Curators<R>,
        name: &Name,
        text: &[u8],
        disk: &mut D,
        files: &mut F,
        clock: &mut K,
    ) -> Result<Option<Reply>, WorkspaceFault>
        requires usable { IsUsable R.contents S.contents (D.known disk.old)
            (shared_by self.old curators.old) }
        requires alone { IsOfOne self.old }
        requires stamps { HasStamps self.old }
        ensures turned { HasTurned R.contents S.contents (any_to_name name.now)
            (λ terms s. turn_at_of (setting terms) s (desk_in s name.now) (reading text.now))
            (IsSupplied (known_files F.Files files.old) (known_clock K.Clock clock.old)
            (known_clock K.Clock clock.new))
            (workspace_at (shared_by self.old curators.old) (D.known disk.old))
            (workspace_at (shared_by self.new curators.new) (D.known disk.new)) result }
        ensures stays { OnOk result (IsUsable R.contents S.contents (D.known disk.new)
            (shared_by self.new curators.new)) }
        ensures stamps { OnOk result (HasStamps self.new) }
        ensures file { KeepsVersion (D.known disk.old) (D.known disk.new) }
        ensures spent { (terms : Terms) (s : Session)
            → Stands R.contents S.contents terms (shared_by self.old curators.old) s
            → Spends (text_reads_at s (desk_in s name.now) (reading text.now))
            (text_asks_at s (desk_in s name.now) (reading text.now))
            (known_files F.Files files.old) (known_files F.Files files.new)
            (known_clock K.Clock clock.old) (known_clock K.Clock clock.new) result }
        ensures used { UsesFiles (λ e. e ≡ WorkspaceFault.File) (known_files F.Files files.old)
            (known_files F.Files files.new) result }
        ensures disk { UsesDisk (λ e. e ≡ WorkspaceFault.Disk) (D.known disk.old)
            (D.known disk.new) result }
        ensures clock { Accounts (λ e. e ≡ WorkspaceFault.Clock) (K.faults clock.old)
            (K.faults clock.new) result }
        ensures same { IsErrOf result WorkspaceFault.File → disk.new ≡ disk.old }
        ensures untouched { IsErrOf result WorkspaceFault.Clock → disk.new ≡ disk.old }
    {
        match read(alloc, text)? {
            Ok(statement) => self.run_for(alloc, curators, name, statement, disk, files, clock),
            Err(why) => Ok(Some(self.refuse_for(alloc, curators, name, why)?)),
        }
    }

    /// Runs a text for its curator, whose name in it becomes blanks; one that is nobody's is refused, and touches no
    /// transaction. Costs the text's bytes, and what its statement costs.
    fn run_owned<D: Disk, F: Files, K: Clock>(
        &mut self,
        alloc: Global,
        curators: &mut Curators<R>,
        text: &mut [u8],
        disk: &mut D,
        files: &mut F,
        clock: &mut K,
    ) -> Result<Option<Said>, WorkspaceFault>
        requires usable { IsUsable R.contents S.contents (D.known disk.old)
            (shared_by self.old curators.old) }
        requires alone { IsOfOne self.old }
        requires stamps { HasStamps self.old }
        ensures turned { HasTurned R.contents S.contents (λ r. r)
            (λ terms s. turn_by_owner (setting terms) s (bad_byte_or (spaces text.old) text.old)
            (owner text.old) (reading (statement_in text.old)))
            (IsSupplied (known_files F.Files files.old) (known_clock K.Clock clock.old)
            (known_clock K.Clock clock.new))
            (workspace_at (shared_by self.old curators.old) (D.known disk.old))
            (workspace_at (shared_by self.new curators.new) (D.known disk.new)) result }
        ensures stays { OnOk result (IsUsable R.contents S.contents (D.known disk.new)
            (shared_by self.new curators.new)) }
        ensures stamps { OnOk result (HasStamps self.new) }
        ensures file { KeepsVersion (D.known disk.old) (D.known disk.new) }
        ensures spent { (terms : Terms) (s : Session)
            → Stands R.contents S.contents terms (shared_by self.old curators.old) s
            → Spends (owned_reads s (owner text.old) (reading (statement_in text.old)))
            (owned_asks s (owner text.old) (reading (statement_in text.old)))
            (known_files F.Files files.old) (known_files F.Files files.new)
            (known_clock K.Clock clock.old) (known_clock K.Clock clock.new) result }
        ensures used { UsesFiles (λ e. e ≡ WorkspaceFault.File) (known_files F.Files files.old)
            (known_files F.Files files.new) result }
        ensures disk { UsesDisk (λ e. e ≡ WorkspaceFault.Disk) (D.known disk.old)
            (D.known disk.new) result }
        ensures clock { Accounts (λ e. e ≡ WorkspaceFault.Clock) (K.faults clock.old)
            (K.faults clock.new) result }
        ensures same { IsErrOf result WorkspaceFault.File → disk.new ≡ disk.old }
        ensures untouched { IsErrOf result WorkspaceFault.Clock → disk.new ≡ disk.old }
    {
        let Some(name) = owner(alloc, text)? else {
            let at = bad_byte_or(spaces(text), text);
            return Ok(Some(to_nobody(Why::Syntax(at))));
        };
        let end = front_end(text);
        blank(text, end);
        let reply = self.run_text_for(alloc, curators, &name, text, disk, files, clock)?;
        Ok(said_to(Some(name), reply))
    }

    /// Refuses a text that the input's end cut off. Where it is nobody's it touches no transaction.
    fn refuse_unfinished(
        &self,
        alloc: Global,
        curators: &mut Curators<R>,
        text: &[u8],
    ) -> Result<Said, AllocError>
        requires workspace { IsWorkspace R.contents S.contents (shared_by self.now curators.old) }
        ensures turned { IfOk result (λ r. (terms : Terms) (s : Session)
            → Stands R.contents S.contents terms (shared_by self.now curators.old) s
            → Turned R.contents S.contents terms
            (turn_by_owner (setting terms) s (bad_byte_or (length text.now) text.now)
            (owner text.now) (unread (Why.Syntax (length text.now))))
            (shared_by self.now curators.new) (Some r)) }
        ensures stays { IsWorkspace R.contents S.contents (shared_by self.now curators.new) }
    {
        let end = text.len();
        match owner(alloc, text)? {
            Some(name) => {
                let reply = self.refuse_for(alloc, curators, &name, Why::Syntax(end))?;
                Ok(Said {
                    whose: Some(name),
                    reply,
                })
            }
            None => Ok(to_nobody(Why::Syntax(bad_byte_or(end, text)))),
        }
    }

    /// What a cut of several curators' input replies, and to whom. Costs the cut's bytes, and what its statement costs.
    pub(super) fn reply_shared<D: Disk, F: Files, K: Clock>(
        &mut self,
        alloc: Global,
        curators: &mut Curators<R>,
        cut: Cut,
        disk: &mut D,
        files: &mut F,
        clock: &mut K,
    ) -> Result<Option<Said>, WorkspaceFault>
        requires usable { IsUsable R.contents S.contents (D.known disk.old)
            (shared_by self.old curators.old) }
        requires alone { IsOfOne self.old }
        requires stamps { HasStamps self.old }
        ensures turned { HasTurned R.contents S.contents (λ r. r)
            (λ terms s. shared_turn (setting terms) s cut)
            (IsSupplied (known_files F.Files files.old) (known_clock K.Clock clock.old)
            (known_clock K.Clock clock.new))
            (workspace_at (shared_by self.old curators.old) (D.known disk.old))
            (workspace_at (shared_by self.new curators.new) (D.known disk.new)) result }
        ensures stays { OnOk result (IsUsable R.contents S.contents (D.known disk.new)
            (shared_by self.new curators.new)) }
        ensures stamps { OnOk result (HasStamps self.new) }
        ensures file { KeepsVersion (D.known disk.old) (D.known disk.new) }
        ensures spent { (terms : Terms) (s : Session)
            → Stands R.contents S.contents terms (shared_by self.old curators.old) s
            → Spends (shared_reads s cut) (shared_asks s cut)
            (known_files F.Files files.old) (known_files F.Files files.new)
            (known_clock K.Clock clock.old) (known_clock K.Clock clock.new) result }
        ensures used { UsesFiles (λ e. e ≡ WorkspaceFault.File) (known_files F.Files files.old)
            (known_files F.Files files.new) result }
        ensures disk { UsesDisk (λ e. e ≡ WorkspaceFault.Disk) (D.known disk.old)
            (D.known disk.new) result }
        ensures clock { Accounts (λ e. e ≡ WorkspaceFault.Clock) (K.faults clock.old)
            (K.faults clock.new) result }
        ensures same { IsErrOf result WorkspaceFault.File → disk.new ≡ disk.old }
        ensures untouched { IsErrOf result WorkspaceFault.Clock → disk.new ≡ disk.old }
    {
        match cut {
            Cut::Text(mut text) => {
                let bytes = text.items.as_mut_slice();
                self.run_owned(alloc, curators, bytes, disk, files, clock)
            }
            Cut::TooLong => Ok(Some(to_nobody(Why::StatementTooLong))),
            Cut::Unfinished(text) => Ok(Some(self.refuse_unfinished(
                alloc,
                curators,
                text.as_slice(),
            )?)),
        }
    }
}
