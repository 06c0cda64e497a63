//! The statements of a file, run on a store and committed.
ghost use Rattle.std.specs.Prelude.{◌≡◌, ◌<◌, ◌≤◌, false, IsTrue, length};
ghost use Rattle.cp_workspace.specs.Files.{known_files};
ghost use Rattle.cp_interpreter.specs.Outside.{KnownInput, known_clock, known_output, known_world};
ghost use Rattle.cp_db.specs.FileVersions.{KeepsVersion};
ghost use Rattle.cp_interpreter.specs.Replied.{WroteReplies};
ghost use Rattle.cp_interpreter.specs.Scripts.{Committed};
ghost use Rattle.cp_program.specs.FileVersions.{RunsOnNewest};
ghost use Rattle.cp_interpreter.specs.Story.{HasCauses, WorldCauses, DiskCauses};
ghost use Rattle.cp_interpreter.specs.Turns.{MayGoOn, RanScript, has_refused, session_at};

use crate::store::begin;
use cp_disk::Disk;
use cp_interpreter::{
    End, Interpreter, PIECE_MAX, Stop, end_with, out_of_memory, read_script, stopped, turns,
};
use cp_outside::{Clock, Files, Sink};
use cp_path::{Label, Text};
use cp_reply::{Of, Reply, Why};
use cp_tree::TreeRep;
use std::alloc::Global;

/// The refusal of a commit file.
fn refused(why: Why) -> Reply
    ensures { result ≡ Reply.Refused Of.Commit why }
{
    Reply::Refused {
        of: Of::Commit,
        why,
    }
}

/// Runs the script of a commit file in a session, or says why there is none.
fn play_file<R: TreeRep, S: TreeRep, D: Disk, F: Files, K: Clock, O: Sink>(
    alloc: Global,
    session: &mut Interpreter<R, S>,
    piece: &mut [u8],
    file: &str,
    disk: &mut D,
    files: &mut F,
    clock: &mut K,
    output: &mut O,
) -> End
    requires goes_on { MayGoOn R.contents S.contents (D.known disk.old) session.old }
    requires room { 0 < length piece.old }
    requires bounded { length piece.old ≤ PIECE_MAX }
    requires fresh { has_refused session.old ≡ false }
    ensures ran { RanScript R.contents S.contents file.now
        (session_at session.old (D.known disk.old)
        (known_world F.Files K.Clock O.Sink files.old clock.old output.old))
        (session_at session.new (D.known disk.new)
        (known_world F.Files K.Clock O.Sink files.new clock.new output.new)) result }
    ensures causes { WorldCauses
        (known_world F.Files K.Clock O.Sink files.old clock.old output.old)
        (known_world F.Files K.Clock O.Sink files.new clock.new output.new) result }
    ensures disk { DiskCauses (D.known disk.old) (D.known disk.new) result }
    ensures replied { WroteReplies false
        (known_output O.Sink output.old) (known_output O.Sink output.new) result }
    ensures file { KeepsVersion (D.known disk.old) (D.known disk.new) }
{
    match read_script(alloc, file, files) {
        Ok(Ok(mut script)) => turns(session, piece, disk, files, clock, &mut script, output),
        Ok(Err(why)) => end_with(alloc, refused(why), output),
        Err(fault) => stopped(output, Stop::from(fault)),
    }
}

/// Runs the statements of a file on a store, which is opened before the file is read, and then a `commit`.
pub(crate) fn commit<R: TreeRep, S: TreeRep, D: Disk, F: Files, K: Clock, O: Sink>(
    alloc: Global,
    file: Text,
    curator: Label,
    disk: &mut D,
    files: &mut F,
    clock: &mut K,
    output: &mut O,
) -> End
    ensures ran { (i : KnownInput) → Committed file curator
        (record {
          input = i;
          files = known_files F.Files files.old;
          clock = known_clock K.Clock clock.old;
          output = known_output O.Sink output.old;
        })
        (record {
          input = i;
          files = known_files F.Files files.new;
          clock = known_clock K.Clock clock.new;
          output = known_output O.Sink output.new;
        })
        (D.known disk.old) (D.known disk.new) result }
    ensures causes { (i : KnownInput) → HasCauses
        (record {
          input = i;
          files = known_files F.Files files.old;
          clock = known_clock K.Clock clock.old;
          output = known_output O.Sink output.old;
        })
        (record {
          input = i;
          files = known_files F.Files files.new;
          clock = known_clock K.Clock clock.new;
          output = known_output O.Sink output.new;
        }) result }
    ensures disk { DiskCauses (D.known disk.old) (D.known disk.new) result }
    ensures replied { WroteReplies false
        (known_output O.Sink output.old) (known_output O.Sink output.new) result }
    ensures file { IsTrue (D.known disk.old).known → (i : KnownInput) → RunsOnNewest
        (record {
          input = i;
          files = known_files F.Files files.old;
          clock = known_clock K.Clock clock.old;
          output = known_output O.Sink output.old;
        })
        (record {
          input = i;
          files = known_files F.Files files.new;
          clock = known_clock K.Clock clock.new;
          output = known_output O.Sink output.new;
        })
        (D.known disk.old) (D.known disk.new) result }
{
    let Ok(mut piece) = vec![in alloc; 0u8; PIECE_MAX] else {
        drop(file);
        drop(curator);
        return out_of_memory(output);
    };
    match begin::<R, S, D>(alloc, curator, false, disk) {
        Ok(mut session) => {
            let end = play_file(
                alloc,
                &mut session,
                &mut piece,
                file.as_str(),
                disk,
                files,
                clock,
                output,
            );
            session.discard();
            drop(file);
            end
        }
        Err(stop) => {
            drop(file);
            stopped(output, stop)
        }
    }
}
