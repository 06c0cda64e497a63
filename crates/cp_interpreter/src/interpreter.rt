//! A session: the cuts of its input, run one after another in its workspace.
ghost use Rattle.std.specs.Prelude.{◌≡◌, ◌||◌, false, OnOk, IfErr, [], ◌∷◌};
ghost use Rattle.cp_disk.specs.Views.{Keeps};
ghost use Rattle.std.specs.Option.{option_to_list};
ghost use Rattle.cp_reply.specs.Lines.{said_lines};
ghost use Rattle.cp_interpreter.specs.Job.{says_refusal};
ghost use Rattle.cp_lang.specs.Cuts.{scan_start};
ghost use Rattle.cp_lang.specs.CutterState.{held_of};
ghost use Rattle.cp_interpreter.specs.Outside.{known_output, known_world};
ghost use Rattle.cp_interpreter.specs.Play.{bytes_played};
ghost use Rattle.cp_db.specs.FileVersions.{KeepsVersion};
ghost use Rattle.cp_interpreter.specs.Replied.{SendsReplies};
ghost use Rattle.cp_interpreter.specs.Turns.{MayGoOn, SendsOut, Went, WasFed, RanLast, Uses, UsesOutput, IsOpenedStop, cuts_played, session_at, cutter_in, workspace_in, has_refused};

use crate::stop::Stop;
use crate::tell::{says_refusal, tell};
use cp_disk::Disk;
use cp_lang::{Cut, Cutter};
use cp_outside::{Clock, Files, Sink};
use cp_reply::Said;
use cp_tree::TreeRep;
use cp_workspace::Workspace;
use std::alloc::Global;
use std::mem;

/// A session between two bytes of its input, as the program keeps it. Each call takes the disk of its workspace, and after an
/// error the session isn't gone on with.
#[derive(Drop)]
pub struct Interpreter<R: TreeRep, S: TreeRep> {
    alloc: Global,
    cutter: Cutter,
    workspace: Workspace<R, S>,
    /// Room for the lines of a reply.
    text: Vec<u8>,
    /// Whether a refusal was written.
    refused: bool,
}

impl<R: TreeRep, S: TreeRep> Interpreter<R, S> {
    /// A session in this workspace, before the first byte. Takes no memory yet.
    pub fn new(alloc: Global, workspace: Workspace<R, S>) -> Interpreter<R, S>
        ensures cutter { cutter_in result ≡ held_of scan_start }
        ensures workspace { workspace_in result ≡ workspace }
        ensures refused { has_refused result ≡ false }
    {
        Interpreter {
            alloc,
            cutter: Cutter::new(alloc),
            workspace,
            text: Vec::new(alloc),
            refused: false,
        }
    }

    /// Lets the session go, with its workspace. The file stays as it is.
    pub fn discard(self) {
        let Interpreter {
            alloc: _,
            cutter,
            workspace,
            text,
            refused: _,
        } = self;
        drop(cutter);
        drop(text);
        workspace.discard();
    }

    /// Whether a refusal was written.
    pub(crate) fn refused(&self) -> bool
        ensures { result ≡ self.now.refused }
    {
        self.refused
    }

    /// Writes the lines of a reply, and notes whether it is a refusal.
    fn say<O: Sink>(&mut self, said: Said, output: &mut O) -> Result<(), Stop>
        ensures went { SendsOut (said_lines said) (O.contents output.old)
            (O.contents output.new) result }
        ensures held { OnOk result (self.new.cutter ≡ self.old.cutter) }
        ensures workspace { OnOk result (self.new.workspace ≡ self.old.workspace) }
        ensures refused { OnOk result (self.new.refused ≡ (self.old.refused || says_refusal said)) }
        ensures replied { SendsReplies (has_refused self.old) (has_refused self.new)
            (known_output O.Sink output.old) (known_output O.Sink output.new) result }
        ensures used { UsesOutput (known_output O.Sink output.old)
            (known_output O.Sink output.new) result }
    {
        let told = tell(self.alloc, &said, &mut self.text, output);
        let refused = says_refusal(&said);
        said.discard();
        told?;
        self.refused = self.refused || refused;
        Ok(())
    }

    /// Runs a cut, if there is one, and writes what it replies.
    fn run<D: Disk, F: Files, K: Clock, O: Sink>(
        &mut self,
        cut: Option<Cut>,
        disk: &mut D,
        files: &mut F,
        clock: &mut K,
        output: &mut O,
    ) -> Result<(), Stop>
        requires goes_on { MayGoOn R.contents S.contents (D.known disk.old) self.old }
        ensures went { Went R.contents S.contents (λ s. cuts_played s (option_to_list cut))
            (session_at self.old (D.known disk.old)
            (known_world F.Files K.Clock O.Sink files.old clock.old output.old))
            (session_at self.new (D.known disk.new)
            (known_world F.Files K.Clock O.Sink files.new clock.new output.new)) result }
        ensures stays { OnOk result (MayGoOn R.contents S.contents (D.known disk.new) self.new) }
        ensures uses { Uses
            (known_world F.Files K.Clock O.Sink files.old clock.old output.old)
            (known_world F.Files K.Clock O.Sink files.new clock.new output.new)
            (D.known disk.old) (D.known disk.new) result }
        ensures opened { IfErr result IsOpenedStop }
        ensures replied { SendsReplies (has_refused self.old) (has_refused self.new)
            (known_output O.Sink output.old) (known_output O.Sink output.new) result }
        ensures file { KeepsVersion (D.known disk.old) (D.known disk.new) }
    {
        let Some(cut) = cut else {
            return Ok(());
        };
        match self
            .workspace
            .reply_to(self.alloc, cut, disk, files, clock)?
        {
            Some(said) => self.say(said, output),
            None => Ok(()),
        }
    }

    fn push<D: Disk, F: Files, K: Clock, O: Sink>(
        &mut self,
        byte: u8,
        disk: &mut D,
        files: &mut F,
        clock: &mut K,
        output: &mut O,
    ) -> Result<(), Stop>
        requires goes_on { MayGoOn R.contents S.contents (D.known disk.old) self.old }
        ensures went { Went R.contents S.contents (λ s. bytes_played s (byte ∷ []))
            (session_at self.old (D.known disk.old)
            (known_world F.Files K.Clock O.Sink files.old clock.old output.old))
            (session_at self.new (D.known disk.new)
            (known_world F.Files K.Clock O.Sink files.new clock.new output.new)) result }
        ensures stays { OnOk result (MayGoOn R.contents S.contents (D.known disk.new) self.new) }
        ensures uses { Uses
            (known_world F.Files K.Clock O.Sink files.old clock.old output.old)
            (known_world F.Files K.Clock O.Sink files.new clock.new output.new)
            (D.known disk.old) (D.known disk.new) result }
        ensures opened { IfErr result IsOpenedStop }
        ensures replied { SendsReplies (has_refused self.old) (has_refused self.new)
            (known_output O.Sink output.old) (known_output O.Sink output.new) result }
        ensures file { KeepsVersion (D.known disk.old) (D.known disk.new) }
    {
        let cut = self.cutter.push(byte)?;
        self.run(cut, disk, files, clock, output)
    }

    /// Runs the statements that end in the next piece of the input, each reply written before the next byte is taken.
    /// Keeps the bytes since the last statement's end, up to the longest that a statement may have.
    pub(crate) fn feed<D: Disk, F: Files, K: Clock, O: Sink>(
        &mut self,
        piece: &[u8],
        disk: &mut D,
        files: &mut F,
        clock: &mut K,
        output: &mut O,
    ) -> Result<(), Stop>
        requires goes_on { MayGoOn R.contents S.contents (D.known disk.old) self.old }
        ensures went { WasFed R.contents S.contents piece.now
            (session_at self.old (D.known disk.old)
            (known_world F.Files K.Clock O.Sink files.old clock.old output.old))
            (session_at self.new (D.known disk.new)
            (known_world F.Files K.Clock O.Sink files.new clock.new output.new)) result }
        ensures stays { OnOk result (MayGoOn R.contents S.contents (D.known disk.new) self.new) }
        ensures uses { Uses
            (known_world F.Files K.Clock O.Sink files.old clock.old output.old)
            (known_world F.Files K.Clock O.Sink files.new clock.new output.new)
            (D.known disk.old) (D.known disk.new) result }
        ensures opened { IfErr result IsOpenedStop }
        ensures replied { SendsReplies (has_refused self.old) (has_refused self.new)
            (known_output O.Sink output.old) (known_output O.Sink output.new) result }
        ensures file { KeepsVersion (D.known disk.old) (D.known disk.new) }
    {
        for byte in piece {
            self.push(*byte, disk, files, clock, output)?;
        }
        Ok(())
    }

    /// The input has ended: a text that is left is refused.
    pub(crate) fn close<D: Disk, F: Files, K: Clock, O: Sink>(
        &mut self,
        disk: &mut D,
        files: &mut F,
        clock: &mut K,
        output: &mut O,
    ) -> Result<(), Stop>
        requires goes_on { MayGoOn R.contents S.contents (D.known disk.old) self.old }
        ensures went { RanLast R.contents S.contents
            (session_at self.old (D.known disk.old)
            (known_world F.Files K.Clock O.Sink files.old clock.old output.old))
            (session_at self.new (D.known disk.new)
            (known_world F.Files K.Clock O.Sink files.new clock.new output.new)) result }
        ensures uses { Uses
            (known_world F.Files K.Clock O.Sink files.old clock.old output.old)
            (known_world F.Files K.Clock O.Sink files.new clock.new output.new)
            (D.known disk.old) (D.known disk.new) result }
        ensures opened { IfErr result IsOpenedStop }
        ensures replied { SendsReplies (has_refused self.old) (has_refused self.new)
            (known_output O.Sink output.old) (known_output O.Sink output.new) result }
        ensures file { KeepsVersion (D.known disk.old) (D.known disk.new) }
    {
        let cutter = mem::replace(&mut self.cutter, Cutter::new(self.alloc));
        self.run(cutter.rest(), disk, files, clock, output)
    }
}
