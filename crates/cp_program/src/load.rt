//! A source that is loaded into a store.
ghost use Rattle.std.specs.Prelude.{◌≡◌, false, IsTrue, IfOk, IfErr};
ghost use Rattle.cp_disk.specs.Counts.{UsesDisk};
ghost use Rattle.cp_disk.specs.Views.{Rests};
ghost use Rattle.cp_model.specs.Place.{label_eq, target};
ghost use Rattle.cp_workspace.specs.Files.{known_files, UsesFiles};
ghost use Rattle.cp_workspace.specs.Workspaces.{IsOfOne, IsUsable};
ghost use Rattle.cp_db.specs.FileVersions.{KeepsVersion};
ghost use Rattle.cp_interpreter.specs.Alone.{Loaded};
ghost use Rattle.cp_interpreter.specs.Replied.{WroteReplies};
ghost use Rattle.cp_interpreter.specs.Begins.{OpenedAlone, IsOpeningStop, LoadedAs};
ghost use Rattle.cp_interpreter.specs.Outside.{KnownInput, KnownClock, known_output};
ghost use Rattle.cp_interpreter.specs.Story.{HasCauses, DiskCauses};

use cp_db::Db;
use cp_disk::Disk;
use cp_interpreter::{End, Stop, end_with, stopped};
use cp_lang::Load;
use cp_outside::{Files, Sink};
use cp_reply::Reply;
use cp_scratch::no_curator;
use cp_tree::TreeRep;
use cp_workspace::Workspace;
use std::alloc::Global;

/// Opens a store for calls that commit nothing: a file of version 1 stays one.
pub(crate) fn open_workspace<R: TreeRep, S: TreeRep, D: Disk>(
    alloc: Global,
    disk: &mut D,
) -> Result<Workspace<R, S>, Stop>
    ensures opened { IsTrue (D.known disk.old).known →
        OpenedAlone R.contents S.contents (D.known disk.old) (D.known disk.new) result }
    ensures rests { Rests (D.known disk.old) (D.known disk.new) }
    ensures usable { IfOk result (λ d. IsUsable R.contents S.contents (D.known disk.new) d) }
    ensures alone { IfOk result (λ d. IsOfOne d) }
    ensures cause { UsesDisk (λ e. e ≡ Stop.Disk) (D.known disk.old) (D.known disk.new) result }
    ensures kinds { IfErr result IsOpeningStop }
{
    let curator = no_curator(alloc)?;
    let db = Db::open_on(alloc, disk)?;
    Ok(Workspace::new(db, curator))
}

/// Loads a source into a store, and replies that it did, or why not.
fn reply_to_load<R: TreeRep, S: TreeRep, D: Disk, F: Files>(
    alloc: Global,
    source: Load,
    disk: &mut D,
    files: &mut F,
) -> Result<Reply, Stop>
    requires other { label_eq source.name target ≡ false }
    ensures loaded { (k : KnownClock)
        → LoadedAs source k (known_files F.Files files.old) (known_files F.Files files.new)
        (D.known disk.old) (D.known disk.new) result }
    ensures used { UsesFiles (λ e. e ≡ Stop.File) (known_files F.Files files.old)
        (known_files F.Files files.new) result }
    ensures file { KeepsVersion (D.known disk.old) (D.known disk.new) }
    ensures cause { UsesDisk (λ e. e ≡ Stop.Disk) (D.known disk.old) (D.known disk.new) result }
{
    match open_workspace::<R, S, D>(alloc, disk) {
        Ok(mut workspace) => {
            let reply = workspace.load(alloc, source, disk, files);
            workspace.discard();
            Ok(reply?)
        }
        Err(stop) => {
            drop(source);
            Err(stop)
        }
    }
}

/// Loads a source into a store, and says so, or why not.
pub(crate) fn load<R: TreeRep, S: TreeRep, D: Disk, F: Files, O: Sink>(
    alloc: Global,
    source: Load,
    disk: &mut D,
    files: &mut F,
    output: &mut O,
) -> End
    requires other { label_eq source.name target ≡ false }
    ensures ran { (i : KnownInput) (k : KnownClock) → Loaded source
        (record {
          input = i;
          files = known_files F.Files files.old;
          clock = k;
          output = known_output O.Sink output.old;
        })
        (record {
          input = i;
          files = known_files F.Files files.new;
          clock = k;
          output = known_output O.Sink output.new;
        })
        (D.known disk.old) (D.known disk.new) result }
    ensures causes { (i : KnownInput) (k : KnownClock) → HasCauses
        (record {
          input = i;
          files = known_files F.Files files.old;
          clock = k;
          output = known_output O.Sink output.old;
        })
        (record {
          input = i;
          files = known_files F.Files files.new;
          clock = k;
          output = known_output O.Sink output.new;
        }) result }
    ensures disk { DiskCauses (D.known disk.old) (D.known disk.new) result }
    ensures replied { WroteReplies false
        (known_output O.Sink output.old) (known_output O.Sink output.new) result }
    ensures file { KeepsVersion (D.known disk.old) (D.known disk.new) }
{
    match reply_to_load::<R, S, D, F>(alloc, source, disk, files) {
        Ok(reply) => end_with(alloc, reply, output),
        Err(stop) => stopped(output, stop),
    }
}
