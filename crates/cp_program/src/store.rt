//! A session on a store.
ghost use Rattle.std.specs.Prelude.{◌≡◌, ◌⊎◌, true, false, IsTrue, IfOk, OnOk, IfErr, OnErr, List};
ghost use Rattle.cp_disk.specs.Counts.{UsesDisk};
ghost use Rattle.cp_disk.specs.Views.{ViewRests, IfKnown};
ghost use Rattle.cp_model.specs.History.{Entry};
ghost use Rattle.cp_db.specs.Databases as database;
ghost use Rattle.cp_db.specs.Databases.{IsDatabase, IsReady, is_spent, version_in};
ghost use Rattle.cp_db.specs.FileVersions.{file_version, newest_version, HasVersion, HasVersionOrNewest, IsAtVersion, LeavesFiles};
ghost use Rattle.cp_reply.specs.Session.{Supply};
ghost use Rattle.cp_workspace.specs.Workspaces.{Stands, IsWorkspace, db_in, end_now, opened_session};
ghost use Rattle.cp_interpreter.specs.Begins.{Migrated, OpenedAs, BegunOn, IsOpeningStop, LeavesStore};
ghost use Rattle.cp_interpreter.specs.Outside.{known_output, known_outside};
ghost use Rattle.cp_interpreter.specs.Replied.{WroteReplies};
ghost use Rattle.cp_program.specs.FileVersions.{RunsOnNewest};
ghost use Rattle.cp_interpreter.specs.Story.{RanOn, HasCauses, DiskCauses, several_curators, terms_from};
ghost use Rattle.cp_interpreter.specs.Turns.{MayGoOn, has_refused};

use cp_db::{Db, WriteFault};
use cp_disk::Disk;
use cp_interpreter::{End, Interpreter, PIECE_MAX, Stop, out_of_memory, stopped, turns};
use cp_outside::{Clock, Files, Sink, Source};
use cp_path::Label;
use cp_scratch::no_curator;
use cp_tree::TreeRep;
use cp_workspace::Workspace;
use std::alloc::Global;

/// Makes the file of version 2, if it is of version 1.
fn migrate<R: TreeRep, S: TreeRep, D: Disk>(
    mut db: Db<R, S>,
    disk: &mut D,
) -> Result<Db<R, S>, Stop>
    requires usable { is_spent db ≡ false }
    requires version { (version_in db ≡ 1) ⊎ (version_in db ≡ 2) }
    requires stands { IsDatabase R.contents S.contents db }
    requires ready { IfKnown (D.known disk.old) (λ v. IsReady db v) }
    requires gate { IsAtVersion (version_in db) (D.known disk.old) }
    ensures migrated { Migrated R.contents S.contents db (D.known disk.old)
        (D.known disk.new) result }
    ensures newest { OnOk result (IsAtVersion newest_version (D.known disk.new)) }
    ensures file { IfKnown (D.known disk.old) (λ v.
        LeavesFiles (HasVersionOrNewest (file_version v.content)) v (D.known disk.new).view) }
    ensures older { IfKnown (D.known disk.old)
        (λ v. OnErr result (HasVersion newest_version v.content → ⊥)) }
    ensures usable { IfOk result (λ d. IsDatabase R.contents S.contents d × (is_spent d ≡ false)
        × (version_in d ≡ 2)) }
    ensures ready { IfKnown (D.known disk.new) (λ v. IfOk result (λ d. IsReady d v)) }
    ensures cause { UsesDisk (λ e. e ≡ Stop.Disk) (D.known disk.old) (D.known disk.new) result }
    ensures kinds { IfErr result (λ e. (e ≡ Stop.Disk) ⊎ (e ≡ Stop.Memory)) }
{
    if db.version() == 2 {
        return Ok(db);
    }
    match db.migrate(disk) {
        Ok(()) => Ok(db),
        Err(WriteFault::TooLarge) => unreachable!(),
        Err(WriteFault::Disk) => {
            db.discard();
            Err(Stop::Disk)
        }
        Err(WriteFault::Memory) => {
            db.discard();
            Err(Stop::Memory)
        }
    }
}

/// Opens a store, whose file then is of version 2.
fn open_db<R: TreeRep, S: TreeRep, D: Disk>(alloc: Global, disk: &mut D) -> Result<Db<R, S>, Stop>
    ensures opened { IsTrue (D.known disk.old).known →
        OpenedAs R.contents S.contents (D.known disk.old) (D.known disk.new) result }
    ensures leaves { LeavesStore (D.known disk.old) (D.known disk.new) }
    ensures newest { OnOk result (IsAtVersion newest_version (D.known disk.new)) }
    ensures file { IfKnown (D.known disk.old) (λ v.
        LeavesFiles (HasVersionOrNewest (file_version v.content)) v (D.known disk.new).view) }
    ensures kept { IfKnown (D.known disk.old) (λ v.
        OnErr result (HasVersion newest_version v.content → ViewRests v (D.known disk.new).view)) }
    ensures usable { IfOk result (λ d. IsDatabase R.contents S.contents d × (is_spent d ≡ false)
        × (version_in d ≡ 2)) }
    ensures ready { IfKnown (D.known disk.new) (λ v. IfOk result (λ d. IsReady d v)) }
    ensures cause { UsesDisk (λ e. e ≡ Stop.Disk) (D.known disk.old) (D.known disk.new) result }
    ensures kinds { IfErr result IsOpeningStop }
{
    let db = Db::open_on(alloc, disk)?;
    migrate(db, disk)
}

/// A workspace on the database, for the commits of this curator, or of several.
fn workspace_on<R: TreeRep, S: TreeRep>(
    alloc: Global,
    db: Db<R, S>,
    curator: Label,
    shared: bool,
) -> Workspace<R, S>
    requires stands { IsDatabase R.contents S.contents db }
    requires usable { is_spent db ≡ false }
    ensures workspace { IsWorkspace R.contents S.contents result }
    ensures same { db_in result ≡ db }
    ensures stands { (h : List Entry) (supply : Supply)
        → database.Stands R.contents S.contents true db h
        → Stands R.contents S.contents
        (terms_from (end_now h db) (record { curator = curator; shared = shared }))
        result (opened_session h supply) }
{
    if shared {
        Workspace::shared(alloc, db, curator)
    } else {
        Workspace::new(db, curator)
    }
}

/// A session on a store, of this curator, or of several.
pub(crate) fn begin<R: TreeRep, S: TreeRep, D: Disk>(
    alloc: Global,
    curator: Label,
    shared: bool,
    disk: &mut D,
) -> Result<Interpreter<R, S>, Stop>
    ensures begun { IsTrue (D.known disk.old).known →
        BegunOn R.contents S.contents (record { curator = curator; shared = shared })
        (D.known disk.old) (D.known disk.new) result }
    ensures leaves { LeavesStore (D.known disk.old) (D.known disk.new) }
    ensures newest { OnOk result (IsAtVersion newest_version (D.known disk.new)) }
    ensures file { IfKnown (D.known disk.old) (λ v.
        LeavesFiles (HasVersionOrNewest (file_version v.content)) v (D.known disk.new).view) }
    ensures kept { IfKnown (D.known disk.old) (λ v.
        OnErr result (HasVersion newest_version v.content → ViewRests v (D.known disk.new).view)) }
    ensures goes_on { IfOk result (λ x. MayGoOn R.contents S.contents (D.known disk.new) x
        × (has_refused x ≡ false)) }
    ensures cause { UsesDisk (λ e. e ≡ Stop.Disk) (D.known disk.old) (D.known disk.new) result }
    ensures kinds { IfErr result IsOpeningStop }
{
    let db = open_db(alloc, disk)?;
    let workspace = workspace_on(alloc, db, curator, shared);
    Ok(Interpreter::new(alloc, workspace))
}

/// The session over the input, on a store that is opened before the first byte is read: of this curator, or of several.
pub(crate) fn run<R: TreeRep, S: TreeRep, D: Disk, F: Files, K: Clock, I: Source, O: Sink>(
    alloc: Global,
    curator: Label,
    shared: bool,
    disk: &mut D,
    files: &mut F,
    clock: &mut K,
    input: &mut I,
    output: &mut O,
) -> End
    ensures ran { RanOn (record { curator = curator; shared = shared })
        (known_outside F.Files K.Clock I.Source O.Sink files.old clock.old input.old output.old)
        (known_outside F.Files K.Clock I.Source O.Sink files.new clock.new input.new output.new)
        (D.known disk.old) (D.known disk.new) result }
    ensures causes { HasCauses
        (known_outside F.Files K.Clock I.Source O.Sink files.old clock.old input.old output.old)
        (known_outside F.Files K.Clock I.Source O.Sink files.new clock.new input.new output.new)
        result }
    ensures disk { DiskCauses (D.known disk.old) (D.known disk.new) result }
    ensures replied { WroteReplies false
        (known_output O.Sink output.old) (known_output O.Sink output.new) result }
    ensures file { IsTrue (D.known disk.old).known → RunsOnNewest
        (known_outside F.Files K.Clock I.Source O.Sink files.old clock.old input.old output.old)
        (known_outside F.Files K.Clock I.Source O.Sink files.new clock.new input.new output.new)
        (D.known disk.old) (D.known disk.new) result }
{
    let Ok(mut piece) = vec![in alloc; 0u8; PIECE_MAX] else {
        return out_of_memory(output);
    };
    match begin::<R, S, D>(alloc, curator, shared, disk) {
        Ok(mut session) => {
            let end = turns(&mut session, &mut piece, disk, files, clock, input, output);
            session.discard();
            end
        }
        Err(stop) => stopped(output, stop),
    }
}

/// The session of several curators over the input, each of whom commits under his own name.
pub(crate) fn share<R: TreeRep, S: TreeRep, D: Disk, F: Files, K: Clock, I: Source, O: Sink>(
    alloc: Global,
    disk: &mut D,
    files: &mut F,
    clock: &mut K,
    input: &mut I,
    output: &mut O,
) -> End
    ensures ran { RanOn several_curators
        (known_outside F.Files K.Clock I.Source O.Sink files.old clock.old input.old output.old)
        (known_outside F.Files K.Clock I.Source O.Sink files.new clock.new input.new output.new)
        (D.known disk.old) (D.known disk.new) result }
    ensures causes { HasCauses
        (known_outside F.Files K.Clock I.Source O.Sink files.old clock.old input.old output.old)
        (known_outside F.Files K.Clock I.Source O.Sink files.new clock.new input.new output.new)
        result }
    ensures disk { DiskCauses (D.known disk.old) (D.known disk.new) result }
    ensures replied { WroteReplies false
        (known_output O.Sink output.old) (known_output O.Sink output.new) result }
    ensures file { IsTrue (D.known disk.old).known → RunsOnNewest
        (known_outside F.Files K.Clock I.Source O.Sink files.old clock.old input.old output.old)
        (known_outside F.Files K.Clock I.Source O.Sink files.new clock.new input.new output.new)
        (D.known disk.old) (D.known disk.new) result }
{
    let Ok(nobody) = no_curator(alloc) else {
        return out_of_memory(output);
    };
    run::<R, S, D, F, K, I, O>(alloc, nobody, true, disk, files, clock, input, output)
}
