//! A new store.
ghost use Rattle.std.specs.Prelude.{◌≡◌, ◌⊎◌, false, true, IsTrue, IfOk, OnOk, IfErr};
ghost use Rattle.cp_disk.specs.Counts.{UsesDisk};
ghost use Rattle.cp_disk.specs.Views.{IfKnown, Keeps, Rests};
ghost use Rattle.cp_journal.specs.NewStores.{IsVacant, SettlesInto};
ghost use Rattle.cp_db.specs.FileVersions.{newest_version, IsAtVersion, IsVacantOrNewest, LeavesFiles};
ghost use Rattle.cp_db.specs.Writing.{IsOldOrVacantOrStart, IsVacantOrStart};
ghost use Rattle.cp_workspace.specs.Files.{known_files, UsesFiles};
ghost use Rattle.cp_interpreter.specs.Begins.{CreatedAs, StoreMade};
ghost use Rattle.cp_scratch.specs.Starts.{start_given, start_reads};
ghost use Rattle.cp_interpreter.specs.Outside.{KnownInput, KnownClock, known_output};
ghost use Rattle.cp_interpreter.specs.Job.{is_refusal};
ghost use Rattle.cp_interpreter.specs.Replied.{WroteReplies};
ghost use Rattle.cp_interpreter.specs.Story.{Made, HasCauses, DiskCauses};
ghost use Rattle.cp_program.specs.FileVersions.{MakesNewest};

use cp_db::{Db, InitFault};
use cp_disk::Disk;
use cp_interpreter::{End, Stop, end_with, stopped};
use cp_journal::Journal;
use cp_model::Kind;
use cp_outside::{Files, Sink};
use cp_reply::{Of, Reply, Why};
use cp_scratch::start_tree;
use cp_tree::TreeRep;
use cp_words::Start;
use std::alloc::Global;

/// The refusal of a new store.
fn refused(why: Why) -> Reply
    ensures { result ≡ Reply.Refused Of.Init why }
{
    Reply::Refused { of: Of::Init, why }
}

/// Makes a store from this tree, in a file that was vacant. That there is a store by now is read as want of memory.
fn create<R: TreeRep, D: Disk>(
    alloc: Global,
    kind: Kind,
    tree: R,
    disk: &mut D,
) -> Result<Reply, Stop>
    ensures created { IfKnown (D.known disk.old) (λ v. IsVacant v.content
        → CreatedAs kind (R.contents tree) (D.known disk.new) result) }
    ensures crash { Keeps (IsOldOrVacantOrStart (D.known disk.old).view kind (R.contents tree))
        (D.known disk.old) (D.known disk.new) }
    ensures settles { IfKnown (D.known disk.old) (λ v.
        SettlesInto (IsVacantOrStart kind (R.contents tree)) v (D.known disk.new).view) }
    ensures cause { UsesDisk (λ e. e ≡ Stop.Disk) (D.known disk.old) (D.known disk.new) result }
    ensures kinds { IfErr result (λ e. (e ≡ Stop.Disk) ⊎ (e ≡ Stop.Memory)) }
    ensures file { IfKnown (D.known disk.old) (λ v. IsVacant v.content
        → LeavesFiles IsVacantOrNewest v (D.known disk.new).view) }
    ensures newest { OnOk result (IsAtVersion newest_version (D.known disk.new)) }
    ensures accepted { IfOk result (λ r. is_refusal r ≡ false) }
{
    let nodes = tree.count();
    match Db::<R, R>::init(alloc, disk, kind, tree) {
        Ok(db) => {
            db.discard();
            Ok(Reply::Created { kind, nodes })
        }
        Err(InitFault::Disk) => Err(Stop::Disk),
        Err(InitFault::Exists | InitFault::Memory) => Err(Stop::Memory),
    }
}

/// Makes a store, unless there is one, or says why there is no start tree.
fn make<R: TreeRep, D: Disk, F: Files>(
    alloc: Global,
    kind: Kind,
    start: Start,
    disk: &mut D,
    files: &mut F,
) -> Result<Reply, Stop>
    ensures made { StoreMade kind (λ t. start_given t start) (start_reads start)
        (known_files F.Files files.old) (known_files F.Files files.new) (D.known disk.old)
        (D.known disk.new) result }
    ensures used { UsesFiles (λ e. e ≡ Stop.File) (known_files F.Files files.old)
        (known_files F.Files files.new) result }
    ensures cause { UsesDisk (λ e. e ≡ Stop.Disk) (D.known disk.old) (D.known disk.new) result }
    ensures file { IfKnown (D.known disk.old) (λ v. IsVacant v.content
        → LeavesFiles IsVacantOrNewest v (D.known disk.new).view) }
    ensures newest { IfOk result (λ r. is_refusal r ≡ false
        → IsAtVersion newest_version (D.known disk.new)) }
    ensures refused { IfOk result (λ r. is_refusal r ≡ true
        → Rests (D.known disk.old) (D.known disk.new)) }
{
    if !Journal::vacant(disk)? {
        return Ok(refused(Why::StoreExists));
    }
    match start_tree::<R, F>(alloc, start, files)? {
        Ok(tree) => create(alloc, kind, tree, disk),
        Err(why) => Ok(refused(why)),
    }
}

/// Makes a store, and says so, or why it wasn't made. The file is looked at before the start tree is read.
pub(crate) fn init<R: TreeRep, D: Disk, F: Files, O: Sink>(
    alloc: Global,
    kind: Kind,
    start: Start,
    disk: &mut D,
    files: &mut F,
    output: &mut O,
) -> End
    ensures made { (i : KnownInput) (c : KnownClock)
        → Made kind (λ t. start_given t start) (start_reads start)
        (record {
          input = i;
          files = known_files F.Files files.old;
          clock = c;
          output = known_output O.Sink output.old;
        })
        (record {
          input = i;
          files = known_files F.Files files.new;
          clock = c;
          output = known_output O.Sink output.new;
        })
        (D.known disk.old) (D.known disk.new) result }
    ensures causes { (i : KnownInput) (c : KnownClock) → HasCauses
        (record {
          input = i;
          files = known_files F.Files files.old;
          clock = c;
          output = known_output O.Sink output.old;
        })
        (record {
          input = i;
          files = known_files F.Files files.new;
          clock = c;
          output = known_output O.Sink output.new;
        }) result }
    ensures disk { DiskCauses (D.known disk.old) (D.known disk.new) result }
    ensures replied { WroteReplies false
        (known_output O.Sink output.old) (known_output O.Sink output.new) result }
    ensures file { IsTrue (D.known disk.old).known
        → MakesNewest (D.known disk.old) (D.known disk.new) result }
    ensures short { result ≡ End.TooLong → ⊥ }
{
    match make::<R, D, F>(alloc, kind, start, disk, files) {
        Ok(reply) => end_with(alloc, reply, output),
        Err(stop) => stopped(output, stop),
    }
}
