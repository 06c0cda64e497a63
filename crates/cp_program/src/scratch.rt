//! A session in memory.
ghost use Rattle.std.specs.Prelude.{◌≡◌, ◌≤◌, ◌<◌, [], false, length, IfOk};
ghost use Rattle.cp_reply.specs.Session.{Supply};
ghost use Rattle.cp_disk.specs.MemoryDisks.{sure_view};
ghost use Rattle.cp_journal.specs.NewStores.{IsVacant};
ghost use Rattle.cp_model.specs.History.{start};
ghost use Rattle.cp_workspace.specs.Files.{known_files, Reads, UsesFiles};
ghost use Rattle.cp_scratch.specs.Sessions.{scratch_session, scratch_terms, sure_disk};
ghost use Rattle.cp_program.specs.Begun.{BegunFrom};
ghost use Rattle.cp_scratch.specs.Starts.{start_given, start_reads};
ghost use Rattle.cp_interpreter.specs.Outside.{known_output, known_outside};
ghost use Rattle.cp_interpreter.specs.Replied.{WroteReplies};
ghost use Rattle.cp_program.specs.InMemory.{Ran};
ghost use Rattle.cp_interpreter.specs.Story.{HasCauses};
ghost use Rattle.cp_interpreter.specs.Play.{begun};
ghost use Rattle.cp_interpreter.specs.Turns.{Follows, MayGoOn, has_refused};

use cp_disk::SureDisk;
use cp_interpreter::{End, Interpreter, PIECE_MAX, Stop, end_with, out_of_memory, stopped, turns};
use cp_model::Kind;
use cp_outside::{Clock, Files, FilesFault, Sink, Source};
use cp_reply::{Of, Reply, Why};
use cp_scratch::{new_db, no_curator, start_tree};
use cp_tree::TreeRep;
use cp_words::Start;
use cp_workspace::Workspace;
use std::alloc::{AllocError, Global};

/// A session of a kind on this tree.
fn session_on<R: TreeRep, S: TreeRep>(
    alloc: Global,
    kind: Kind,
    tree: R,
    disk: &mut SureDisk,
) -> Result<Interpreter<R, S>, AllocError>
    requires vacant { IsVacant (sure_view disk.old).content }
    ensures follows { IfOk result (λ x. (supply : Supply)
        → Follows R.contents S.contents (sure_disk disk.new) x
        (begun (scratch_terms kind (R.contents tree))
        (scratch_session kind (R.contents tree) supply))) }
    ensures goes_on { IfOk result (λ x. MayGoOn R.contents S.contents (sure_disk disk.new) x
        × (has_refused x ≡ false)) }
{
    let curator = no_curator(alloc)?;
    let db = new_db(alloc, kind, tree, disk)?;
    Ok(Interpreter::new(alloc, Workspace::new(db, curator)))
}

/// A session on its start tree, or why there is no such tree.
fn begin<R: TreeRep, S: TreeRep, F: Files>(
    alloc: Global,
    kind: Kind,
    start: Start,
    disk: &mut SureDisk,
    files: &mut F,
) -> Result<Result<Interpreter<R, S>, Why>, FilesFault>
    requires vacant { IsVacant (sure_view disk.old).content }
    ensures begun { IfOk result (λ r. BegunFrom R.contents S.contents (sure_disk disk.new) kind
        (known_files F.Files files.old) (λ t. start_given t start) r) }
    ensures goes_on { IfOk result
        (λ r. IfOk r (λ x. MayGoOn R.contents S.contents (sure_disk disk.new) x
        × (has_refused x ≡ false))) }
    ensures used { UsesFiles (λ e. e ≡ FilesFault.Failed) (known_files F.Files files.old)
        (known_files F.Files files.new) result }
    ensures reads { Reads (λ e. e ≡ FilesFault.Failed) (start_reads start)
        (known_files F.Files files.old) (known_files F.Files files.new) result }
{
    match start_tree::<R, F>(alloc, start, files)? {
        Ok(tree) => Ok(Ok(session_on(alloc, kind, tree, disk)?)),
        Err(why) => Ok(Err(why)),
    }
}

/// The refusal of a start tree.
fn refused_start(why: Why) -> Reply
    ensures { result ≡ Reply.Refused Of.Scratch why }
{
    Reply::Refused {
        of: Of::Scratch,
        why,
    }
}

/// The session over the input, from its start, on a vacant disk, with this room for a piece of the input.
fn play<R: TreeRep, S: TreeRep, F: Files, K: Clock, I: Source, O: Sink>(
    alloc: Global,
    kind: Kind,
    start: Start,
    piece: &mut [u8],
    disk: &mut SureDisk,
    files: &mut F,
    clock: &mut K,
    input: &mut I,
    output: &mut O,
) -> End
    requires vacant { IsVacant (sure_view disk.old).content }
    requires room { 0 < length piece.old }
    requires bounded { length piece.old ≤ PIECE_MAX }
    ensures ran { Ran kind (λ t. start_given t start) (start_reads start)
        (known_outside F.Files K.Clock I.Source O.Sink files.old clock.old input.old output.old)
        (known_outside F.Files K.Clock I.Source O.Sink files.new clock.new input.new output.new)
        result }
    ensures causes { HasCauses
        (known_outside F.Files K.Clock I.Source O.Sink files.old clock.old input.old output.old)
        (known_outside F.Files K.Clock I.Source O.Sink files.new clock.new input.new output.new)
        result }
    ensures disk { result ≡ End.Disk → ⊥ }
    ensures replied { WroteReplies false
        (known_output O.Sink output.old) (known_output O.Sink output.new) result }
{
    match begin::<R, S, F>(alloc, kind, start, disk, files) {
        Ok(Ok(mut session)) => {
            let end = turns(&mut session, piece, disk, files, clock, input, output);
            session.discard();
            end
        }
        Ok(Err(why)) => end_with(alloc, refused_start(why), output),
        Err(fault) => stopped(output, Stop::from(fault)),
    }
}

/// The session over the input, from its start, with room for a piece of the input.
pub(crate) fn scratch<R: TreeRep, S: TreeRep, F: Files, K: Clock, I: Source, O: Sink>(
    alloc: Global,
    kind: Kind,
    start: Start,
    files: &mut F,
    clock: &mut K,
    input: &mut I,
    output: &mut O,
) -> End
    ensures ran { Ran kind (λ t. start_given t start) (start_reads start)
        (known_outside F.Files K.Clock I.Source O.Sink files.old clock.old input.old output.old)
        (known_outside F.Files K.Clock I.Source O.Sink files.new clock.new input.new output.new)
        result }
    ensures causes { HasCauses
        (known_outside F.Files K.Clock I.Source O.Sink files.old clock.old input.old output.old)
        (known_outside F.Files K.Clock I.Source O.Sink files.new clock.new input.new output.new)
        result }
    ensures disk { result ≡ End.Disk → ⊥ }
    ensures replied { WroteReplies false
        (known_output O.Sink output.old) (known_output O.Sink output.new) result }
{
    let Ok(mut piece) = vec![in alloc; 0u8; PIECE_MAX] else {
        drop(start);
        return out_of_memory(output);
    };
    let Ok(mut disk) = SureDisk::new(alloc, &[]) else {
        drop(start);
        drop(piece);
        return out_of_memory(output);
    };
    play::<R, S, F, K, I, O>(
        alloc, kind, start, &mut piece, &mut disk, files, clock, input, output,
    )
}
