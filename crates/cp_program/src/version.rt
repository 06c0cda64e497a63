//! The versions of the history in a store: what is asked of one, and how many there are.
ghost use Rattle.std.specs.Prelude.{◌≡◌, ◌<◌, Bool, IsTrue, List, length, nat_lt, true, IfOk, IfErr};
ghost use Rattle.std.specs.declared.option.Option.TheVariants.{Some};
ghost use Rattle.cp_disk.specs.Counts.{UsesDisk};
ghost use Rattle.cp_disk.specs.Views.{Rests};
ghost use Rattle.cp_model.specs.History.{Entry, State};
ghost use Rattle.cp_model.specs.Versions.{version};
ghost use Rattle.cp_frame.specs.Items.{Item};
ghost use Rattle.cp_frame.specs.Stands.{OpensAndReplays};
ghost use Rattle.cp_db.specs.Archives.{HasVersions, IsWithinTids};
ghost use Rattle.cp_words.specs.Commands.{asks_of_target, is_of_target};
ghost use Rattle.cp_words.specs.declared.command.Asked.TheVariants as of_version;
ghost use Rattle.cp_workspace.specs.Files.{KnownFiles};
ghost use Rattle.cp_program.specs.Answering.{Answered};
ghost use Rattle.cp_program.specs.Versions.{IsAnswerAt, IsArchiveOf, RepliesOn, TellsVersion};
ghost use Rattle.cp_interpreter.specs.Begins.{AnsweredAs, IsOpeningStop};
ghost use Rattle.cp_interpreter.specs.Outside.{KnownInput, KnownClock, known_output};
ghost use Rattle.cp_interpreter.specs.Story.{HasCauses, DiskCauses};

use crate::answer::give_answer;
use cp_db::{Kept, archive_of};
use cp_disk::Disk;
use cp_interpreter::{End, Stop};
use cp_model::Query;
use cp_outside::Sink;
use cp_path::Loc;
use cp_query::answer_of_place;
use cp_reply::{Of, Reply, Why};
use cp_tree::TreeRep;
use cp_words::Asked;
use cp_workspace::{shown, unanswered};
use std::alloc::{AllocError, Global};

/// What stands at and below a place in a version.
fn show_at<R: TreeRep>(alloc: Global, kept: Kept, tid: u64, place: Loc) -> Result<Reply, AllocError>
    requires there { tid < length kept.archive }
    ensures { (right : Bool) (h : List Entry) (items : List Item) (z : State) → HasVersions right h items kept
        → version h tid ≡ Some z → IfOk result (RepliesOn (of_version.Show place) right z) }
{
    let tree = kept.archive.tree_at::<R>(alloc, tid)?;
    shown(alloc, &tree, place)
}

/// The answer to a query of a place in a version. The rows are in memory, so that no error but want of memory comes.
fn answer_at<R: TreeRep>(
    alloc: Global,
    kept: Kept,
    tid: u64,
    query: Query,
) -> Result<Reply, AllocError>
    requires place { asks_of_target query ≡ true }
    requires there { tid < length kept.archive }
    requires tids { IsWithinTids kept }
    ensures { (right : Bool) (h : List Entry) (items : List Item) (z : State) → HasVersions right h items kept
        → version h tid ≡ Some z → IfOk result (RepliesOn (of_version.Ask query) right z) }
{
    let mut parts = kept.at_version::<R>(alloc, tid)?;
    match answer_of_place(alloc, &mut parts.store, &parts.tree, &query) {
        Ok(answer) => Ok(Reply::Answered { query, answer }),
        Err(fault) => unanswered(fault, query),
    }
}

/// What all versions reply.
fn reply_of_version<R: TreeRep>(
    alloc: Global,
    kept: Kept,
    tid: u64,
    asked: Asked,
) -> Result<Reply, AllocError>
    requires target { is_of_target asked ≡ true }
    requires tids { IsWithinTids kept }
    ensures { (right : Bool) (h : List Entry) (items : List Item) (k : HasVersions right h items kept)
        → IfOk result (TellsVersion (nat_lt k.state.now tid) right tid asked h) }
{
    if tid > kept.archive.last() {
        return Ok(Reply::Refused {
            of: Of::Statement,
            why: Why::NoVersion(tid),
        });
    }
    match asked {
        Asked::Ask(query) => answer_at::<R>(alloc, kept, tid, query),
        Asked::Show(place) => show_at::<R>(alloc, kept, tid, place),
    }
}

/// What a store replies of a version.
fn reply_to_version<R: TreeRep, S: TreeRep, D: Disk>(
    alloc: Global,
    tid: u64,
    asked: Asked,
    disk: &mut D,
) -> Result<Reply, Stop>
    requires target { is_of_target asked ≡ true }
    ensures answered { IsTrue (D.known disk.old).known →
        AnsweredAs OpensAndReplays (IsAnswerAt tid asked) (D.known disk.old) result }
    ensures rests { Rests (D.known disk.old) (D.known disk.new) }
    ensures cause { UsesDisk (λ e. e ≡ Stop.Disk) (D.known disk.old) (D.known disk.new) result }
    ensures kinds { IfErr result IsOpeningStop }
{
    let kept = archive_of::<R, S, D>(alloc, disk)?;
    Ok(reply_of_version::<R>(alloc, kept, tid, asked)?)
}

/// Writes what is asked of the version after this step, or that the store has none. Costs all versions of the store, the tree of
/// this one, and the query; `show` the rows that it shows.
pub(crate) fn ask_version<R: TreeRep, S: TreeRep, D: Disk, O: Sink>(
    alloc: Global,
    tid: u64,
    asked: Asked,
    disk: &mut D,
    output: &mut O,
) -> End
    requires target { is_of_target asked ≡ true }
    ensures ran { (i : KnownInput) (f : KnownFiles) (k : KnownClock) → Answered OpensAndReplays (IsAnswerAt tid asked)
        (record { input = i; files = f; clock = k; output = known_output O.Sink output.old })
        (record { input = i; files = f; clock = k; output = known_output O.Sink output.new })
        (D.known disk.old) (D.known disk.new) result }
    ensures causes { (i : KnownInput) (f : KnownFiles) (k : KnownClock) → HasCauses
        (record { input = i; files = f; clock = k; output = known_output O.Sink output.old })
        (record { input = i; files = f; clock = k; output = known_output O.Sink output.new }) result }
    ensures disk { DiskCauses (D.known disk.old) (D.known disk.new) result }
    ensures short { result ≡ End.TooLong → ⊥ }
{
    let answer = reply_to_version::<R, S, D>(alloc, tid, asked, disk);
    give_answer(alloc, answer, output)
}

/// How many versions a store has, and how many ranges.
fn versions_in<R: TreeRep, S: TreeRep, D: Disk>(alloc: Global, disk: &mut D) -> Result<Reply, Stop>
    ensures answered { IsTrue (D.known disk.old).known →
        AnsweredAs OpensAndReplays IsArchiveOf (D.known disk.old) result }
    ensures rests { Rests (D.known disk.old) (D.known disk.new) }
    ensures cause { UsesDisk (λ e. e ≡ Stop.Disk) (D.known disk.old) (D.known disk.new) result }
    ensures kinds { IfErr result IsOpeningStop }
{
    let kept = archive_of::<R, S, D>(alloc, disk)?;
    let versions = kept.archive.last() + 1;
    let ranges = kept.archive.ranges();
    Ok(Reply::Archive { versions, ranges })
}

/// Writes how many versions a store has, and how many ranges of them in which a path is there with one content. Costs the bytes
/// of the store and the operations, and for each step the rows at and below the places that it touches, before and after.
pub(crate) fn count_versions<R: TreeRep, S: TreeRep, D: Disk, O: Sink>(
    alloc: Global,
    disk: &mut D,
    output: &mut O,
) -> End
    ensures ran { (i : KnownInput) (f : KnownFiles) (k : KnownClock) → Answered OpensAndReplays IsArchiveOf
        (record { input = i; files = f; clock = k; output = known_output O.Sink output.old })
        (record { input = i; files = f; clock = k; output = known_output O.Sink output.new })
        (D.known disk.old) (D.known disk.new) result }
    ensures causes { (i : KnownInput) (f : KnownFiles) (k : KnownClock) → HasCauses
        (record { input = i; files = f; clock = k; output = known_output O.Sink output.old })
        (record { input = i; files = f; clock = k; output = known_output O.Sink output.new }) result }
    ensures disk { DiskCauses (D.known disk.old) (D.known disk.new) result }
    ensures short { result ≡ End.TooLong → ⊥ }
{
    let answer = versions_in::<R, S, D>(alloc, disk);
    give_answer(alloc, answer, output)
}
