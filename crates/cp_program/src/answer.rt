//! Answers from a store that is left as it is: queries, what stands at a place, its commits, and whether its records are right.
ghost use Rattle.std.specs.Prelude.{◌≡◌, IsTrue, IfErr};
ghost use Rattle.cp_outside.specs.Causes.{Accounts};
ghost use Rattle.cp_disk.specs.Counts.{UsesDisk};
ghost use Rattle.cp_disk.specs.Views.{Rests};
ghost use Rattle.cp_frame.specs.Stands.{Opens, OpensAndReplays};
ghost use Rattle.cp_lang.specs.declared.syntax_tree.Stmt.TheVariants as stmt;
ghost use Rattle.cp_workspace.specs.Files.{KnownFiles};
ghost use Rattle.cp_program.specs.Answering.{Answered, IsAnswerTo, IsLogOf, IsVerdictOn};
ghost use Rattle.cp_interpreter.specs.Begins.{AnsweredAs, GaveAnswer, IsOpeningStop};
ghost use Rattle.cp_interpreter.specs.Outside.{KnownInput, KnownClock, known_output};
ghost use Rattle.cp_interpreter.specs.Story.{HasCauses, DiskCauses, result_of};

use crate::load::open_workspace;
use cp_db::log_of;
use cp_disk::Disk;
use cp_interpreter::{End, Stop, end_with, stopped};
use cp_model::Query;
use cp_outside::Sink;
use cp_path::Loc;
use cp_reply::Reply;
use cp_tree::TreeRep;
use cp_verify::verify;
use std::alloc::Global;

/// What a store replies to a query.
fn reply_to_query<R: TreeRep, S: TreeRep, D: Disk>(
    alloc: Global,
    query: Query,
    disk: &mut D,
) -> Result<Reply, Stop>
    ensures answered { IsTrue (D.known disk.old).known →
        AnsweredAs Opens (IsAnswerTo (stmt.Ask query)) (D.known disk.old) result }
    ensures rests { Rests (D.known disk.old) (D.known disk.new) }
    ensures cause { UsesDisk (λ e. e ≡ Stop.Disk) (D.known disk.old) (D.known disk.new) result }
    ensures kinds { IfErr result IsOpeningStop }
{
    match open_workspace::<R, S, D>(alloc, disk) {
        Ok(mut workspace) => {
            let reply = workspace.ask(alloc, query);
            workspace.discard();
            Ok(reply?)
        }
        Err(stop) => {
            drop(query);
            Err(stop)
        }
    }
}

/// What stands at and below a place of a store.
fn reply_to_show<R: TreeRep, S: TreeRep, D: Disk>(
    alloc: Global,
    place: Loc,
    disk: &mut D,
) -> Result<Reply, Stop>
    ensures answered { IsTrue (D.known disk.old).known →
        AnsweredAs Opens (IsAnswerTo (stmt.Show place)) (D.known disk.old) result }
    ensures rests { Rests (D.known disk.old) (D.known disk.new) }
    ensures cause { UsesDisk (λ e. e ≡ Stop.Disk) (D.known disk.old) (D.known disk.new) result }
    ensures kinds { IfErr result IsOpeningStop }
{
    match open_workspace::<R, S, D>(alloc, disk) {
        Ok(workspace) => {
            let reply = workspace.show(alloc, place);
            workspace.discard();
            Ok(reply?)
        }
        Err(stop) => {
            drop(place);
            Err(stop)
        }
    }
}

/// The commits of a store.
fn commits_in<R: TreeRep, S: TreeRep, D: Disk>(alloc: Global, disk: &mut D) -> Result<Reply, Stop>
    ensures answered { IsTrue (D.known disk.old).known →
        AnsweredAs OpensAndReplays IsLogOf (D.known disk.old) result }
    ensures rests { Rests (D.known disk.old) (D.known disk.new) }
    ensures cause { UsesDisk (λ e. e ≡ Stop.Disk) (D.known disk.old) (D.known disk.new) result }
    ensures kinds { IfErr result IsOpeningStop }
{
    let commits = log_of::<R, S, D>(alloc, disk)?;
    Ok(Reply::Logged { commits })
}

/// The verdict on the records of a store.
fn verdict_on<R: TreeRep, S: TreeRep, D: Disk>(alloc: Global, disk: &mut D) -> Result<Reply, Stop>
    ensures answered { IsTrue (D.known disk.old).known →
        AnsweredAs OpensAndReplays IsVerdictOn (D.known disk.old) result }
    ensures rests { Rests (D.known disk.old) (D.known disk.new) }
    ensures cause { UsesDisk (λ e. e ≡ Stop.Disk) (D.known disk.old) (D.known disk.new) result }
    ensures kinds { IfErr result IsOpeningStop }
{
    let verdict = verify::<R, S, D>(alloc, disk)?;
    Ok(Reply::Verified { verdict })
}

/// Writes an answer, or the last line of what stopped the call.
pub(crate) fn give_answer<O: Sink>(
    alloc: Global,
    answer: Result<Reply, Stop>,
    output: &mut O,
) -> End
    ensures gave { GaveAnswer answer (known_output O.Sink output.old)
        (known_output O.Sink output.new) result }
    ensures cause { IfErr answer IsOpeningStop
        → Accounts (λ e. e ≡ End.Output) (O.faults output.old) (O.faults output.new)
        (result_of result) }
{
    match answer {
        Ok(reply) => end_with(alloc, reply, output),
        Err(stop) => stopped(output, stop),
    }
}

/// Answers a query from a store. Costs the opening, and the query.
pub(crate) fn ask<R: TreeRep, S: TreeRep, D: Disk, O: Sink>(
    alloc: Global,
    query: Query,
    disk: &mut D,
    output: &mut O,
) -> End
    ensures ran { (i : KnownInput) (f : KnownFiles) (k : KnownClock)
        → Answered Opens (IsAnswerTo (stmt.Ask query))
        (record { input = i; files = f; clock = k; output = known_output O.Sink output.old })
        (record { input = i; files = f; clock = k; output = known_output O.Sink output.new })
        (D.known disk.old) (D.known disk.new) result }
    ensures causes { (i : KnownInput) (f : KnownFiles) (k : KnownClock) → HasCauses
        (record { input = i; files = f; clock = k; output = known_output O.Sink output.old })
        (record { input = i; files = f; clock = k; output = known_output O.Sink output.new })
        result }
    ensures disk { DiskCauses (D.known disk.old) (D.known disk.new) result }
    ensures short { result ≡ End.TooLong → ⊥ }
{
    let answer = reply_to_query::<R, S, D>(alloc, query, disk);
    give_answer(alloc, answer, output)
}

/// Writes what stands at and below a place of a store. Costs the opening, and the rows' bytes.
pub(crate) fn show<R: TreeRep, S: TreeRep, D: Disk, O: Sink>(
    alloc: Global,
    place: Loc,
    disk: &mut D,
    output: &mut O,
) -> End
    ensures ran { (i : KnownInput) (f : KnownFiles) (k : KnownClock)
        → Answered Opens (IsAnswerTo (stmt.Show place))
        (record { input = i; files = f; clock = k; output = known_output O.Sink output.old })
        (record { input = i; files = f; clock = k; output = known_output O.Sink output.new })
        (D.known disk.old) (D.known disk.new) result }
    ensures causes { (i : KnownInput) (f : KnownFiles) (k : KnownClock) → HasCauses
        (record { input = i; files = f; clock = k; output = known_output O.Sink output.old })
        (record { input = i; files = f; clock = k; output = known_output O.Sink output.new })
        result }
    ensures disk { DiskCauses (D.known disk.old) (D.known disk.new) result }
    ensures short { result ≡ End.TooLong → ⊥ }
{
    let answer = reply_to_show::<R, S, D>(alloc, place, disk);
    give_answer(alloc, answer, output)
}

/// Lists the commits of a store. Costs each entry once, and keeps no operation.
pub(crate) fn list_commits<R: TreeRep, S: TreeRep, D: Disk, O: Sink>(
    alloc: Global,
    disk: &mut D,
    output: &mut O,
) -> End
    ensures ran { (i : KnownInput) (f : KnownFiles) (k : KnownClock)
        → Answered OpensAndReplays IsLogOf
        (record { input = i; files = f; clock = k; output = known_output O.Sink output.old })
        (record { input = i; files = f; clock = k; output = known_output O.Sink output.new })
        (D.known disk.old) (D.known disk.new) result }
    ensures causes { (i : KnownInput) (f : KnownFiles) (k : KnownClock) → HasCauses
        (record { input = i; files = f; clock = k; output = known_output O.Sink output.old })
        (record { input = i; files = f; clock = k; output = known_output O.Sink output.new })
        result }
    ensures disk { DiskCauses (D.known disk.old) (D.known disk.new) result }
    ensures short { result ≡ End.TooLong → ⊥ }
{
    let answer = commits_in::<R, S, D>(alloc, disk);
    give_answer(alloc, answer, output)
}

/// Tells whether the records of a store are those that its operations make, and where they first aren't. Costs the bytes of
/// the store, the operations and their records, and keeps those of one entry at a time.
pub(crate) fn verify_records<R: TreeRep, S: TreeRep, D: Disk, O: Sink>(
    alloc: Global,
    disk: &mut D,
    output: &mut O,
) -> End
    ensures ran { (i : KnownInput) (f : KnownFiles) (k : KnownClock)
        → Answered OpensAndReplays IsVerdictOn
        (record { input = i; files = f; clock = k; output = known_output O.Sink output.old })
        (record { input = i; files = f; clock = k; output = known_output O.Sink output.new })
        (D.known disk.old) (D.known disk.new) result }
    ensures causes { (i : KnownInput) (f : KnownFiles) (k : KnownClock) → HasCauses
        (record { input = i; files = f; clock = k; output = known_output O.Sink output.old })
        (record { input = i; files = f; clock = k; output = known_output O.Sink output.new })
        result }
    ensures disk { DiskCauses (D.known disk.old) (D.known disk.new) result }
    ensures short { result ≡ End.TooLong → ⊥ }
{
    let answer = verdict_on::<R, S, D>(alloc, disk);
    give_answer(alloc, answer, output)
}
