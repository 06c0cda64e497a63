//! A session over an input, from its first byte to its end.
ghost use Rattle.std.specs.Prelude.{◌≤◌, ◌<◌, length, IfOk, IfErr, Ok};
ghost use Rattle.cp_db.specs.FileVersions.{KeepsVersion};
ghost use Rattle.cp_interpreter.specs.Outside.{call_at, known_output, known_world, known_outside};
ghost use Rattle.cp_interpreter.specs.Replied.{SendsReplies, WroteReplies};
ghost use Rattle.cp_interpreter.specs.Story.{WorldCauses, HasCauses, DiskCauses};
ghost use Rattle.cp_interpreter.specs.Turns.{MayGoOn, HasClosed, RanFrom, TookPiece, IsSteady, has_refused, session_at};

use crate::end::End;
use crate::interpreter::Interpreter;
use crate::limits::{INPUT_MAX, PIECE_MAX};
use crate::tell::{last_line, stopped};
use cp_disk::Disk;
use cp_outside::{Clock, Files, Sink, Source};
use cp_tree::TreeRep;

/// The input has ended.
fn closing<R: TreeRep, S: TreeRep, D: Disk, F: Files, K: Clock, O: Sink>(
    session: &mut Interpreter<R, S>,
    disk: &mut D,
    files: &mut F,
    clock: &mut K,
    output: &mut O,
) -> End
    requires goes_on { MayGoOn R.contents S.contents (D.known disk.old) session.old }
    ensures closed { HasClosed R.contents S.contents
        (session_at session.old (D.known disk.old)
        (known_world F.Files K.Clock O.Sink files.old clock.old output.old))
        (session_at session.new (D.known disk.new)
        (known_world F.Files K.Clock O.Sink files.new clock.new output.new)) result }
    ensures causes { WorldCauses
        (known_world F.Files K.Clock O.Sink files.old clock.old output.old)
        (known_world F.Files K.Clock O.Sink files.new clock.new output.new) result }
    ensures disk { DiskCauses (D.known disk.old) (D.known disk.new) result }
    ensures replied { WroteReplies (has_refused session.old)
        (known_output O.Sink output.old) (known_output O.Sink output.new) result }
    ensures file { KeepsVersion (D.known disk.old) (D.known disk.new) }
{
    match session.close(disk, files, clock, output) {
        Ok(()) if session.refused() => End::Refused,
        Ok(()) => End::Done,
        Err(stop) => stopped(output, stop),
    }
}

/// Takes the next piece of the input, and runs the statements that end in it. The number is that of the bytes so far.
fn turn<R: TreeRep, S: TreeRep, D: Disk, F: Files, K: Clock, I: Source, O: Sink>(
    session: &mut Interpreter<R, S>,
    piece: &mut [u8],
    disk: &mut D,
    files: &mut F,
    clock: &mut K,
    input: &mut I,
    output: &mut O,
    before: u64,
) -> Result<u64, End>
    requires goes_on { MayGoOn R.contents S.contents (D.known disk.old) session.old }
    requires taken { before ≤ INPUT_MAX }
    requires room { 0 < length piece.old }
    requires bounded { length piece.old ≤ PIECE_MAX }
    ensures goes_on { IfOk result (λ n. (before < n) × (n ≤ INPUT_MAX)
        × MayGoOn R.contents S.contents (D.known disk.new) session.new) }
    ensures took { IfOk result
        (λ n. TookPiece R.contents S.contents session.old session.new before n
        (call_at (D.known disk.old)
        (known_outside F.Files K.Clock I.Source O.Sink files.old clock.old input.old output.old))
        (call_at (D.known disk.new)
        (known_outside F.Files K.Clock I.Source O.Sink files.new clock.new input.new output.new))) }
    ensures steady { IfOk result (λ n. IsSteady
        (known_outside F.Files K.Clock I.Source O.Sink files.old clock.old input.old output.old)
        (known_outside F.Files K.Clock I.Source O.Sink files.new clock.new input.new output.new)
        (D.known disk.old) (D.known disk.new)) }
    ensures ends { IfErr result (λ end. RanFrom R.contents S.contents session.old before
        (call_at (D.known disk.old)
        (known_outside F.Files K.Clock I.Source O.Sink files.old clock.old input.old output.old))
        (call_at (D.known disk.new)
        (known_outside F.Files K.Clock I.Source O.Sink files.new clock.new input.new output.new))
        end) }
    ensures causes { IfErr result (λ end. HasCauses
        (known_outside F.Files K.Clock I.Source O.Sink files.old clock.old input.old output.old)
        (known_outside F.Files K.Clock I.Source O.Sink files.new clock.new input.new output.new)
        end) }
    ensures disk { IfErr result (λ end. DiskCauses (D.known disk.old) (D.known disk.new) end) }
    ensures sent { IfOk result
        (λ n. SendsReplies (has_refused session.old) (has_refused session.new)
        (known_output O.Sink output.old) (known_output O.Sink output.new) (Ok tt)) }
    ensures replied { IfErr result (λ end. WroteReplies (has_refused session.old)
        (known_output O.Sink output.old) (known_output O.Sink output.new) end) }
    ensures file { KeepsVersion (D.known disk.old) (D.known disk.new) }
{
    let Ok(count) = input.read(piece) else {
        last_line(output, b"error: input\n");
        return Err(End::Input);
    };
    if count == 0 {
        return Err(closing(session, disk, files, clock, output));
    }
    let now = before + count as u64;
    if now > INPUT_MAX {
        last_line(output, b"error: input too long\n");
        return Err(End::TooLong);
    }
    match session.feed(&piece[..count], disk, files, clock, output) {
        Ok(()) => Ok(now),
        Err(stop) => Err(stopped(output, stop)),
    }
}

/// Runs a session over an input until it ends, and says how it ended. A read asks for at most as many bytes as `piece` has.
/// Each statement is run where its end comes, and its lines are written before the next is run.
///
/// The input is taken to its end, unless something fails or it has more than `INPUT_MAX` bytes. Then what was written and run
/// before stays, and the last line says what it was, if the output still takes one.
pub fn turns<R: TreeRep, S: TreeRep, D: Disk, F: Files, K: Clock, I: Source, O: Sink>(
    session: &mut Interpreter<R, S>,
    piece: &mut [u8],
    disk: &mut D,
    files: &mut F,
    clock: &mut K,
    input: &mut I,
    output: &mut O,
) -> End
    requires goes_on { MayGoOn R.contents S.contents (D.known disk.old) session.old }
    requires room { 0 < length piece.old }
    requires bounded { length piece.old ≤ PIECE_MAX }
    ensures ran { RanFrom R.contents S.contents session.old 0
        (call_at (D.known disk.old)
        (known_outside F.Files K.Clock I.Source O.Sink files.old clock.old input.old output.old))
        (call_at (D.known disk.new)
        (known_outside F.Files K.Clock I.Source O.Sink files.new clock.new input.new output.new))
        result }
    ensures causes { HasCauses
        (known_outside F.Files K.Clock I.Source O.Sink files.old clock.old input.old output.old)
        (known_outside F.Files K.Clock I.Source O.Sink files.new clock.new input.new output.new)
        result }
    ensures disk { DiskCauses (D.known disk.old) (D.known disk.new) result }
    ensures replied { WroteReplies (has_refused session.old)
        (known_output O.Sink output.old) (known_output O.Sink output.new) result }
    ensures file { KeepsVersion (D.known disk.old) (D.known disk.new) }
{
    let mut taken = 0;
    loop {
        match turn(session, piece, disk, files, clock, input, output, taken) {
            Ok(now) => taken = now,
            Err(end) => return end,
        }
    }
}
