//! The places of a store that use one.
ghost use Rattle.std.specs.Prelude.{◌≡◌, true, IsTrue, List, IfOk, IfErr};
ghost use Rattle.cp_disk.specs.Counts.{UsesDisk};
ghost use Rattle.cp_disk.specs.Views.{Rests};
ghost use Rattle.cp_model.specs.History.{Entry};
ghost use Rattle.cp_frame.specs.Stands.{Opens};
ghost use Rattle.cp_db.specs.Databases.{Stands};
ghost use Rattle.cp_uses.specs.Users.{AreUsers};
ghost use Rattle.cp_workspace.specs.Files.{KnownFiles};
ghost use Rattle.cp_program.specs.Answering.{Answered};
ghost use Rattle.cp_program.specs.Using.{IsUsesOf, OpenedToRead, TellsUsers, has_database};
ghost use Rattle.cp_interpreter.specs.Begins.{AnsweredAs, IsOpeningStop};
ghost use Rattle.cp_interpreter.specs.Outside.{KnownInput, KnownClock, known_output};
ghost use Rattle.cp_interpreter.specs.Story.{HasCauses, DiskCauses};

use crate::answer::give_answer;
use cp_db::Db;
use cp_disk::Disk;
use cp_interpreter::{End, Stop};
use cp_outside::Sink;
use cp_path::{Loc, Name};
use cp_reply::{Of, PlaceList, Reply, Why};
use cp_tree::TreeRep;
use cp_uses::users_of;
use std::alloc::{AllocError, Global};

/// Whether the name is that of T, or of a source that is loaded.
fn has_database<R: TreeRep, S: TreeRep>(db: &Db<R, S>, name: &Name) -> bool
    ensures { (h : List Entry) (z : Stands R.contents S.contents true db.now h)
        → result ≡ has_database z.state name.now }
{
    name.is_target() || db.sources().get(name).is_some()
}

/// The places that use this one. The rows are in memory, so that no error but want of memory comes.
fn list_users<R: TreeRep, S: TreeRep>(
    alloc: Global,
    db: Db<R, S>,
    place: &Loc,
) -> Result<PlaceList, AllocError>
    ensures { (h : List Entry) (z : Stands R.contents S.contents true db h)
        → IfOk result (λ places. AreUsers z.state place.now places) }
{
    let parts = db.into_parts();
    match users_of(alloc, parts.store, &parts.tree, place) {
        Ok(items) => Ok(PlaceList { items }),
        Err(_) => Err(AllocError),
    }
}

/// What a database replies.
fn reply_on<R: TreeRep, S: TreeRep>(
    alloc: Global,
    db: Db<R, S>,
    place: Loc,
) -> Result<Reply, AllocError>
    ensures { (h : List Entry) (z : Stands R.contents S.contents true db h)
        → IfOk result (TellsUsers (has_database z.state place.db) z.state place) }
{
    if !has_database(&db, &place.db) {
        db.discard();
        let why = Why::NoSource(place.db);
        return Ok(Reply::Refused {
            of: Of::Statement,
            why,
        });
    }
    let places = list_users(alloc, db, &place)?;
    Ok(Reply::Uses { place, places })
}

/// Opens a store to ask it: its file stays as it is.
fn open_to_read<R: TreeRep, S: TreeRep, D: Disk>(
    alloc: Global,
    disk: &mut D,
) -> Result<Db<R, S>, Stop>
    ensures opened { IsTrue (D.known disk.old).known →
        OpenedToRead R.contents S.contents (D.known disk.old) result }
    ensures rests { Rests (D.known disk.old) (D.known disk.new) }
    ensures cause { UsesDisk (λ e. e ≡ Stop.Disk) (D.known disk.old) (D.known disk.new) result }
    ensures kinds { IfErr result IsOpeningStop }
{
    Ok(Db::open_on(alloc, disk)?)
}

/// What a store replies.
fn reply_to_uses<R: TreeRep, S: TreeRep, D: Disk>(
    alloc: Global,
    place: Loc,
    disk: &mut D,
) -> Result<Reply, Stop>
    ensures answered { IsTrue (D.known disk.old).known →
        AnsweredAs Opens (IsUsesOf place) (D.known disk.old) result }
    ensures rests { Rests (D.known disk.old) (D.known disk.new) }
    ensures cause { UsesDisk (λ e. e ≡ Stop.Disk) (D.known disk.old) (D.known disk.new) result }
    ensures kinds { IfErr result IsOpeningStop }
{
    match open_to_read::<R, S, D>(alloc, disk) {
        Ok(db) => Ok(reply_on(alloc, db, place)?),
        Err(stop) => {
            drop(place);
            Err(stop)
        }
    }
}

/// Writes which places of a store use this one, or that there is no such source. Costs the opening, the listing of all records,
/// and what following the copies costs.
pub(crate) fn uses<R: TreeRep, S: TreeRep, D: Disk, O: Sink>(
    alloc: Global,
    place: Loc,
    disk: &mut D,
    output: &mut O,
) -> End
    ensures ran { (i : KnownInput) (f : KnownFiles) (k : KnownClock)
        → Answered Opens (IsUsesOf place)
        (record { input = i; files = f; clock = k; output = known_output O.Sink output.old })
        (record { input = i; files = f; clock = k; output = known_output O.Sink output.new })
        (D.known disk.old) (D.known disk.new) result }
    ensures causes { (i : KnownInput) (f : KnownFiles) (k : KnownClock) → HasCauses
        (record { input = i; files = f; clock = k; output = known_output O.Sink output.old })
        (record { input = i; files = f; clock = k; output = known_output O.Sink output.new })
        result }
    ensures disk { DiskCauses (D.known disk.old) (D.known disk.new) result }
    ensures short { result ≡ End.TooLong → ⊥ }
{
    let answer = reply_to_uses::<R, S, D>(alloc, place, disk);
    give_answer(alloc, answer, output)
}
