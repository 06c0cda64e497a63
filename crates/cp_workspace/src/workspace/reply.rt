//! The turn that a cut of an input brings.
ghost use Rattle.std.specs.Prelude.{◌≡◌, IfOk, OnOk, IsErrOf};
ghost use Rattle.std.specs.Option.{option_map};
ghost use Rattle.cp_disk.specs.Counts.{UsesDisk};
ghost use Rattle.cp_outside.specs.Causes.{Accounts};
ghost use Rattle.cp_db.specs.FileVersions.{KeepsVersion};
ghost use Rattle.cp_reply.specs.Session.{Session, said_to, turn, turn_alone, turn_of, not_read};
ghost use Rattle.cp_workspace.specs.Texts.{Terms, setting, reading};
ghost use Rattle.cp_workspace.specs.Loads.{text_reads, cut_reads_alone, cut_reads};
ghost use Rattle.cp_workspace.specs.Clocks.{known_clock};
ghost use Rattle.cp_workspace.specs.Commits.{text_asks, cut_asks_alone, cut_asks};
ghost use Rattle.cp_workspace.specs.Files.{known_files, UsesFiles};
ghost use Rattle.cp_workspace.specs.Spending.{Spends};
ghost use Rattle.cp_workspace.specs.Workspaces.{Stands, IsOfOne, IsWorkspace, IsUsable, HasStamps, HasTurned, Turned, any_of_nobody, of_nobody, workspace_at};
ghost use Rattle.cp_workspace.specs.Supplies.{IsSupplied};

use crate::fault::WorkspaceFault;
use crate::text::read;
use crate::workspace::Workspace;
use crate::workspace::refusal::refused;
use cp_disk::Disk;
use cp_lang::Cut;
use cp_outside::{Clock, Files};
use cp_path::Name;
use cp_reply::{Reply, Said, Why};
use cp_tree::TreeRep;
use std::alloc::{AllocError, Global};

/// A reply, if there is one, and to whom it goes.
pub(super) fn said_to(whose: Option<Name>, reply: Option<Reply>) -> Option<Said>
    ensures { result ≡ option_map (said_to whose) reply }
{
    match reply {
        Some(reply) => Some(Said { whose, reply }),
        None => None,
    }
}

impl<R: TreeRep, S: TreeRep> Workspace<R, S> {
    /// Refuses a text that can't be read.
    fn refuse(&mut self, alloc: Global, why: Why) -> Result<Reply, AllocError>
        requires workspace { IsWorkspace R.contents S.contents self.old }
        requires alone { IsOfOne self.old }
        ensures turned { IfOk result (λ r. (terms : Terms) (s : Session)
            → Stands R.contents S.contents terms self.old s
            → Turned R.contents S.contents terms (not_read s why) self.new (of_nobody r)) }
        ensures stays { OnOk result (IsWorkspace R.contents S.contents self.new) }
        ensures same { self.new.db ≡ self.old.db }
    {
        match self.spoil(alloc) {
            Ok(()) => Ok(refused(why)),
            Err(fault) => {
                drop(why);
                Err(fault)
            }
        }
    }

    /// Runs what a text says. Costs the text's bytes, and what its statement costs.
    fn run_text<D: Disk, F: Files, K: Clock>(
        &mut self,
        alloc: Global,
        text: &[u8],
        disk: &mut D,
        files: &mut F,
        clock: &mut K,
    ) -> Result<Option<Reply>, WorkspaceFault>
        requires usable { IsUsable R.contents S.contents (D.known disk.old) self.old }
        requires alone { IsOfOne self.old }
        requires stamps { HasStamps self.old }
        ensures turned { HasTurned R.contents S.contents any_of_nobody
            (λ terms s. turn_of (setting terms) s (reading text.now))
            (IsSupplied (known_files F.Files files.old) (known_clock K.Clock clock.old)
            (known_clock K.Clock clock.new))
            (workspace_at self.old (D.known disk.old))
            (workspace_at self.new (D.known disk.new)) result }
        ensures stays { OnOk result (IsUsable R.contents S.contents (D.known disk.new) self.new) }
        ensures stamps { OnOk result (HasStamps self.new) }
        ensures file { KeepsVersion (D.known disk.old) (D.known disk.new) }
        ensures spent { (terms : Terms) (s : Session)
            → Stands R.contents S.contents terms self.old s
            → Spends (text_reads s (reading text.now)) (text_asks s (reading text.now))
            (known_files F.Files files.old) (known_files F.Files files.new)
            (known_clock K.Clock clock.old) (known_clock K.Clock clock.new) result }
        ensures used { UsesFiles (λ e. e ≡ WorkspaceFault.File) (known_files F.Files files.old)
            (known_files F.Files files.new) result }
        ensures disk { UsesDisk (λ e. e ≡ WorkspaceFault.Disk) (D.known disk.old)
            (D.known disk.new) result }
        ensures clock { Accounts (λ e. e ≡ WorkspaceFault.Clock) (K.faults clock.old)
            (K.faults clock.new) result }
        ensures same { IsErrOf result WorkspaceFault.File → disk.new ≡ disk.old }
        ensures untouched { IsErrOf result WorkspaceFault.Clock → disk.new ≡ disk.old }
    {
        match read(alloc, text)? {
            Ok(statement) => self.run(alloc, statement, disk, files, clock),
            Err(why) => Ok(Some(self.refuse(alloc, why)?)),
        }
    }

    /// What a cut of one curator's input replies. Costs the cut's bytes, and what its statement costs.
    fn reply_alone<D: Disk, F: Files, K: Clock>(
        &mut self,
        alloc: Global,
        cut: Cut,
        disk: &mut D,
        files: &mut F,
        clock: &mut K,
    ) -> Result<Option<Reply>, WorkspaceFault>
        requires usable { IsUsable R.contents S.contents (D.known disk.old) self.old }
        requires alone { IsOfOne self.old }
        requires stamps { HasStamps self.old }
        ensures turned { HasTurned R.contents S.contents any_of_nobody
            (λ terms s. turn_alone (setting terms) s cut)
            (IsSupplied (known_files F.Files files.old) (known_clock K.Clock clock.old)
            (known_clock K.Clock clock.new))
            (workspace_at self.old (D.known disk.old))
            (workspace_at self.new (D.known disk.new)) result }
        ensures stays { OnOk result (IsUsable R.contents S.contents (D.known disk.new) self.new) }
        ensures stamps { OnOk result (HasStamps self.new) }
        ensures file { KeepsVersion (D.known disk.old) (D.known disk.new) }
        ensures spent { (terms : Terms) (s : Session)
            → Stands R.contents S.contents terms self.old s
            → Spends (cut_reads_alone s cut) (cut_asks_alone s cut) (known_files F.Files files.old)
            (known_files F.Files files.new)
            (known_clock K.Clock clock.old) (known_clock K.Clock clock.new) result }
        ensures used { UsesFiles (λ e. e ≡ WorkspaceFault.File) (known_files F.Files files.old)
            (known_files F.Files files.new) result }
        ensures disk { UsesDisk (λ e. e ≡ WorkspaceFault.Disk) (D.known disk.old)
            (D.known disk.new) result }
        ensures clock { Accounts (λ e. e ≡ WorkspaceFault.Clock) (K.faults clock.old)
            (K.faults clock.new) result }
        ensures same { IsErrOf result WorkspaceFault.File → disk.new ≡ disk.old }
        ensures untouched { IsErrOf result WorkspaceFault.Clock → disk.new ≡ disk.old }
    {
        match cut {
            Cut::Text(text) => self.run_text(alloc, text.as_slice(), disk, files, clock),
            Cut::TooLong => Ok(Some(self.refuse(alloc, Why::StatementTooLong)?)),
            Cut::Unfinished(text) => {
                let why = Why::Syntax(text.as_slice().len());
                Ok(Some(self.refuse(alloc, why)?))
            }
        }
    }

    /// What a cut of the input replies, and to whom, which is nothing for an operation that is accepted. Costs the cut's
    /// bytes, and what its statement costs.
    ///
    /// A crash at any moment leaves the history before the turn or after it, and once the reply is given, that after it.
    /// What stands after an error isn't said; where a file or the clock failed, the disk is as it was.
    pub fn reply_to<D: Disk, F: Files, K: Clock>(
        &mut self,
        alloc: Global,
        cut: Cut,
        disk: &mut D,
        files: &mut F,
        clock: &mut K,
    ) -> Result<Option<Said>, WorkspaceFault>
        requires usable { IsUsable R.contents S.contents (D.known disk.old) self.old }
        requires stamps { HasStamps self.old }
        ensures turned { HasTurned R.contents S.contents (λ r. r)
            (λ terms s. turn (setting terms) s cut)
            (IsSupplied (known_files F.Files files.old) (known_clock K.Clock clock.old)
            (known_clock K.Clock clock.new))
            (workspace_at self.old (D.known disk.old))
            (workspace_at self.new (D.known disk.new)) result }
        ensures stays { OnOk result (IsUsable R.contents S.contents (D.known disk.new) self.new) }
        ensures stamps { OnOk result (HasStamps self.new) }
        ensures file { KeepsVersion (D.known disk.old) (D.known disk.new) }
        ensures spent { (terms : Terms) (s : Session)
            → Stands R.contents S.contents terms self.old s
            → Spends (cut_reads (setting terms) s cut) (cut_asks (setting terms) s cut)
            (known_files F.Files files.old) (known_files F.Files files.new)
            (known_clock K.Clock clock.old) (known_clock K.Clock clock.new) result }
        ensures used { UsesFiles (λ e. e ≡ WorkspaceFault.File) (known_files F.Files files.old)
            (known_files F.Files files.new) result }
        ensures disk { UsesDisk (λ e. e ≡ WorkspaceFault.Disk) (D.known disk.old)
            (D.known disk.new) result }
        ensures clock { Accounts (λ e. e ≡ WorkspaceFault.Clock) (K.faults clock.old)
            (K.faults clock.new) result }
        ensures same { IsErrOf result WorkspaceFault.File → disk.new ≡ disk.old }
        ensures untouched { IsErrOf result WorkspaceFault.Clock → disk.new ≡ disk.old }
    {
        let Some(mut curators) = self.curators.take() else {
            let reply = self.reply_alone(alloc, cut, disk, files, clock)?;
            return Ok(said_to(None, reply));
        };
        let said = self.reply_shared(alloc, &mut curators, cut, disk, files, clock);
        self.curators = Some(curators);
        said
    }
}
