ghost use Rattle.std.specs.Prelude.{◌≡◌, ◌<◌, false, IfOk, OnOk, IsErrOf};
ghost use Rattle.cp_disk.specs.Views.{Keeps};
ghost use Rattle.cp_disk.specs.Counts.{UsesDisk};
ghost use Rattle.std.specs.declared.option.Option.TheVariants.{None};
ghost use Rattle.cp_model.specs.Place.{label_eq, target};
ghost use Rattle.cp_db.specs.Databases.{version_in};
ghost use Rattle.cp_db.specs.FileVersions.{KeepsVersion};
ghost use Rattle.cp_reply.specs.Session.{Session, gives, load_fetched, says, turn_of};
ghost use Rattle.cp_workspace.specs.Fetched.{FitsUnder};
ghost use Rattle.cp_workspace.specs.Texts.{Terms, setting};
ghost use Rattle.cp_workspace.specs.Loads.{why_not_loaded, statement_reads};
ghost use Rattle.cp_workspace.specs.Clocks.{KnownClock};
ghost use Rattle.cp_workspace.specs.Files.{known_files, UsesFiles};
ghost use Rattle.cp_workspace.specs.Spending.{Spends};
ghost use Rattle.cp_workspace.specs.Workspaces.{Stands, IsOfOne, IsWorkspace, IsUsable, MayLoad, HasTurned, TurnsAs, db_in, of_nobody, workspace_at, expected};
ghost use Rattle.cp_workspace.specs.Supplies.{IsSupplied};

use crate::fault::WorkspaceFault;
use crate::source_file::fetch;
use crate::workspace::Workspace;
use crate::workspace::refusal::refused_load;
use cp_db::LoadFault;
use cp_disk::Disk;
use cp_lang::{Load, Stmt};
use cp_model::SOURCES_MAX;
use cp_outside::Files;
use cp_path::Name;
use cp_reply::{Reply, Why};
use cp_tree::TreeRep;
use std::alloc::{AllocError, Global};

impl<R: TreeRep, S: TreeRep> Workspace<R, S> {
    /// Keeps a tree as a source under a new name, unless there is no room for it.
    fn keep_source<D: Disk>(
        &mut self,
        alloc: Global,
        name: Name,
        tree: S,
        disk: &mut D,
    ) -> Result<Reply, WorkspaceFault>
        requires usable { IsUsable R.contents S.contents (D.known disk.old) self.old }
        requires alone { IsOfOne self.old }
        requires may { MayLoad R.contents S.contents self.old name }
        requires other { label_eq name target ≡ false }
        requires fits { FitsUnder name (S.contents tree) }
        ensures turned { (terms : Terms) (s : Session)
            → Stands R.contents S.contents terms self.old s
            → TurnsAs R.contents S.contents of_nobody
            (expected terms
            (load_fetched (setting terms) s name (gives (S.contents tree))) s s.supply)
            (workspace_at self.old (D.known disk.old))
            (workspace_at self.new (D.known disk.new)) result }
        ensures stays { OnOk result (IsUsable R.contents S.contents (D.known disk.new) self.new) }
        ensures kept { self.new.transaction ≡ self.old.transaction }
        ensures version { version_in (db_in self.new) ≡ version_in (db_in self.old) }
        ensures file { KeepsVersion (D.known disk.old) (D.known disk.new) }
        ensures disk { UsesDisk (λ e. e ≡ WorkspaceFault.Disk) (D.known disk.old)
            (D.known disk.new) result }
        ensures kinds { (IsErrOf result WorkspaceFault.File → ⊥)
            × (IsErrOf result WorkspaceFault.Clock → ⊥) }
    {
        // Its text says that the name is one.
        let _text = name.as_str();
        let nodes = tree.count();
        let loaded = name.clone()?;
        match self.db.load(alloc, disk, name, tree) {
            Ok(()) => Ok(Reply::Loaded {
                name: loaded,
                nodes,
            }),
            Err(LoadFault::SourceThere) => unreachable!(),
            Err(LoadFault::TooManySources) => unreachable!(),
            Err(LoadFault::TooLarge) => Ok(refused_load(Why::StoreTooLarge)),
            Err(LoadFault::Disk) => Err(WorkspaceFault::Disk),
            Err(LoadFault::Memory) => Err(WorkspaceFault::Memory),
        }
    }

    /// Why nothing is loaded under the name, whatever its file gives.
    fn why_not_loaded(&self, name: &Name) -> Result<Option<Why>, AllocError>
        requires workspace { IsWorkspace R.contents S.contents self.now }
        ensures why { IfOk result
            (λ w. (terms : Terms) (s : Session) (z : Stands R.contents S.contents terms self.now s)
            → w ≡ why_not_loaded z.db.state s.opened name.now) }
        ensures open { IfOk result (λ w. w ≡ None
            → MayLoad R.contents S.contents self.now name.now) }
    {
        if self.transaction.is_some() {
            return Ok(Some(Why::TransactionOpen));
        }
        let sources = self.db.sources();
        if sources.get(name).is_some() {
            return Ok(Some(Why::SourceThere(name.clone()?)));
        }
        if sources.len() == SOURCES_MAX {
            return Ok(Some(Why::TooManySources));
        }
        Ok(None)
    }

    /// Loads the tree of a file as a source. A load that is refused changes nothing. Costs the file, and what it gives.
    ///
    /// A crash at any moment leaves the history before or after it. After an error what stands isn't said; where the file
    /// failed, the disk is as it was.
    pub fn load<D: Disk, F: Files>(
        &mut self,
        alloc: Global,
        load: Load,
        disk: &mut D,
        files: &mut F,
    ) -> Result<Reply, WorkspaceFault>
        requires usable { IsUsable R.contents S.contents (D.known disk.old) self.old }
        requires alone { IsOfOne self.old }
        requires other { label_eq load.name target ≡ false }
        ensures turned { (k : KnownClock) → HasTurned R.contents S.contents of_nobody
            (λ terms s. turn_of (setting terms) s (says (Stmt.Load load)))
            (IsSupplied (known_files F.Files files.old) k k)
            (workspace_at self.old (D.known disk.old))
            (workspace_at self.new (D.known disk.new)) result }
        ensures stays { OnOk result (IsUsable R.contents S.contents (D.known disk.new) self.new) }
        ensures kept { self.new.transaction ≡ self.old.transaction }
        ensures version { version_in (db_in self.new) ≡ version_in (db_in self.old) }
        ensures file { KeepsVersion (D.known disk.old) (D.known disk.new) }
        ensures spent { (terms : Terms) (s : Session)
            → Stands R.contents S.contents terms self.old s → (k : KnownClock)
            → Spends (statement_reads s (Stmt.Load load)) 0 (known_files F.Files files.old)
            (known_files F.Files files.new) k k result }
        ensures used { UsesFiles (λ e. e ≡ WorkspaceFault.File) (known_files F.Files files.old)
            (known_files F.Files files.new) result }
        ensures disk { UsesDisk (λ e. e ≡ WorkspaceFault.Disk) (D.known disk.old)
            (D.known disk.new) result }
        ensures kinds { IsErrOf result WorkspaceFault.Clock → ⊥ }
        ensures untouched { IsErrOf result WorkspaceFault.File → disk.new ≡ disk.old }
    {
        if let Some(why) = self.why_not_loaded(&load.name)? {
            drop(load);
            return Ok(refused_load(why));
        }
        match fetch::<S, F>(
            alloc,
            files,
            &load.name,
            &load.form,
            load.file.items.as_str(),
        )? {
            Ok(tree) => self.keep_source(alloc, load.name, tree, disk),
            Err(why) => {
                drop(load);
                Ok(refused_load(why))
            }
        }
    }
}
