//! A call: its words, what they ask for, and its end.
ghost use Rattle.std.specs.Prelude.{◌≡◌, ◌+◌, ◌<◌, ◌⊎◌, ◌≤◌, [], false, IsTrue, map, string_bytes};
ghost use Rattle.std.specs.declared.option.Option.TheVariants.{None, Some};
ghost use Rattle.cp_words.specs.Commands.{command_of, IsWrittenCommand};
ghost use Rattle.cp_program.specs.Texts.{usage_text};
ghost use Rattle.cp_interpreter.specs.declared.limits.TheConstants.{INPUT_MAX};
ghost use Rattle.cp_interpreter.specs.Ends.{code_of};
ghost use Rattle.cp_interpreter.specs.Outside.{known_output, known_outside};
ghost use Rattle.cp_interpreter.specs.Replied.{TookRefusal, WroteReplies};
ghost use Rattle.cp_interpreter.specs.Story.{WritesLast, HasCauses, DiskCauses};
ghost use Rattle.cp_program.specs.FileVersions.{LeavesVersion};
ghost use Rattle.cp_program.specs.Calls.{DidCommand, LeavesDisk, NeedsNoDisk, Called};

use crate::answer::{ask, list_commits, show, verify_records};
use crate::commit::commit;
use crate::generate::generate;
use crate::init::init;
use crate::load::load;
use crate::scratch::scratch;
use crate::store::{run, share};
use crate::uses::uses;
use crate::version::{ask_version, count_versions};
use cp_disk::Disk;
use cp_interpreter::{End, Status, last_line, out_of_memory};
use cp_outside::{Clock, Files, Sink, Source};
use cp_tree::TreeRep;
use cp_words::{Command, command_of};
use std::alloc::Global;

const USAGE: &[u8] =
    b"usage: cpdb scratch KIND [JSON]\nusage: cpdb init STORE KIND [JSON]\nusage: cpdb run STORE [CURATOR]\nusage: cpdb commit STORE FILE [CURATOR]\nusage: cpdb load STORE NAME json FILE\nusage: cpdb load STORE NAME csv FILE [COLUMN]\nusage: cpdb query STORE STATEMENT\nusage: cpdb verify STORE\nusage: cpdb checkpoint STORE\nusage: cpdb gen SEED COUNT KIND\nusage: cpdb log STORE\nusage: cpdb at STORE TID STATEMENT\nusage: cpdb archive STORE\nusage: cpdb share STORE\nusage: cpdb uses STORE PLACE\n";

/// Does what the command asks for.
fn run_command<R: TreeRep, S: TreeRep, D: Disk, F: Files, K: Clock, I: Source, O: Sink>(
    alloc: Global,
    command: Command,
    disk: &mut D,
    files: &mut F,
    clock: &mut K,
    input: &mut I,
    output: &mut O,
) -> End
    requires written { IsWrittenCommand command }
    ensures ran { DidCommand command
        (known_outside F.Files K.Clock I.Source O.Sink files.old clock.old input.old output.old)
        (known_outside F.Files K.Clock I.Source O.Sink files.new clock.new input.new output.new)
        (D.known disk.old) (D.known disk.new) result }
    ensures causes { HasCauses
        (known_outside F.Files K.Clock I.Source O.Sink files.old clock.old input.old output.old)
        (known_outside F.Files K.Clock I.Source O.Sink files.new clock.new input.new output.new)
        result }
    ensures disk { DiskCauses (D.known disk.old) (D.known disk.new) result }
    ensures untouched { LeavesDisk command → disk.new ≡ disk.old }
    ensures short { result ≡ End.TooLong → I.given input.old + INPUT_MAX < I.given input.new }
    ensures replied { WroteReplies false
        (known_output O.Sink output.old) (known_output O.Sink output.new) result }
    ensures file { IsTrue (D.known disk.old).known → LeavesVersion command
        (known_outside F.Files K.Clock I.Source O.Sink files.old clock.old input.old output.old)
        (known_outside F.Files K.Clock I.Source O.Sink files.new clock.new input.new output.new)
        (D.known disk.old) (D.known disk.new) result }
{
    match command {
        Command::Scratch { kind, start } => {
            scratch::<R, S, F, K, I, O>(alloc, kind, start, files, clock, input, output)
        }
        Command::Init { kind, start } => {
            init::<R, D, F, O>(alloc, kind, start, disk, files, output)
        }
        Command::Run { curator } => {
            run::<R, S, D, F, K, I, O>(alloc, curator, false, disk, files, clock, input, output)
        }
        Command::Commit { file, curator } => {
            commit::<R, S, D, F, K, O>(alloc, file, curator, disk, files, clock, output)
        }
        Command::Load(source) => load::<R, S, D, F, O>(alloc, source, disk, files, output),
        Command::Ask(query) => ask::<R, S, D, O>(alloc, query, disk, output),
        Command::Show(place) => show::<R, S, D, O>(alloc, place, disk, output),
        Command::Generate { seed, count, kind } => {
            generate::<R, S, O>(alloc, seed, count, kind, output)
        }
        Command::Log => list_commits::<R, S, D, O>(alloc, disk, output),
        Command::Verify => verify_records::<R, S, D, O>(alloc, disk, output),
        Command::At { tid, asked } => ask_version::<R, S, D, O>(alloc, tid, asked, disk, output),
        Command::Archive => count_versions::<R, S, D, O>(alloc, disk, output),
        Command::Share => { share::<R, S, D, F, K, I, O>(alloc, disk, files, clock, input, output) }
        Command::Uses(place) => uses::<R, S, D, O>(alloc, place, disk, output),
    }
}

/// Writes the usage.
fn give_usage<O: Sink>(output: &mut O) -> End
    ensures end { result ≡ End.Usage }
    ensures wrote { WritesLast (known_output O.Sink output.old)
        (known_output O.Sink output.new) [] usage_text }
    ensures later { O.faults output.old ≤ O.faults output.new }
{
    last_line(output, USAGE);
    End::Usage
}

/// The status of an end.
fn status_of(end: End) -> Status
    ensures { result.code ≡ code_of end }
{
    Status { code: end.code() }
}

/// Everything that the program does: words, a disk, files, a clock, input and output to an exit status.
///
/// The words are those of the program's call, its name first; the disk is the file that the third word names. All lines go
/// to the output, the usage text and errors included. A read asks for at most 65,536 bytes. Each statement is run where its
/// end comes, and its lines are written before the next is run; one that is refused doesn't end the session. Of the input's
/// bytes no more are kept than a piece and the text of one statement, which has at most 1,048,576 bytes; of a source file no
/// more than 67,108,864 are read, and none are kept once it is loaded. A start tree that is refused has one line, and then
/// no input is read. A session or a workload in memory and words that fit no row make no call on the disk.
///
/// Status 0 says that all was done, 1 that all was done and some line is a refusal or tells of a difference, 2 that the
/// words fit no row, 3 that the input or a file failed, 4 that the output failed, 5 that the disk failed, 6 that the file
/// is no store, 7 that memory ran out, 8 that more than 68,719,476,736 bytes of input came, 9 that the clock failed. With 3
/// to 9 the call ended there, and what was written before stays. A crash at any moment leaves the history before the call
/// with the first of its entries, and of these each whose line the output took. The committed tree has the form `R`, and the
/// trees of sources have the form `S`; what the call does is the same in all.
pub fn run_cpdb<R: TreeRep, S: TreeRep, D: Disk, F: Files, K: Clock, I: Source, O: Sink>(
    alloc: Global,
    words: &[String],
    disk: &mut D,
    files: &mut F,
    clock: &mut K,
    input: &mut I,
    output: &mut O,
) -> Status
    ensures call { Called (command_of (map string_bytes words.now))
        (known_outside F.Files K.Clock I.Source O.Sink files.old clock.old input.old output.old)
        (known_outside F.Files K.Clock I.Source O.Sink files.new clock.new input.new output.new)
        (D.known disk.old) (D.known disk.new) result.code }
    ensures usage { result.code ≡ 2 → command_of (map string_bytes words.now) ≡ None }
    ensures unfitting { command_of (map string_bytes words.now) ≡ None → (result.code ≡ 2)
        ⊎ (result.code ≡ 7) }
    ensures untouched { NeedsNoDisk (command_of (map string_bytes words.now))
        → disk.new ≡ disk.old }
    ensures refused { result.code ≡ 1
        → TookRefusal (O.contents output.old) (O.contents output.new) }
{
    let Ok(asked) = command_of(alloc, words) else {
        return status_of(out_of_memory(output));
    };
    let Some(command) = asked else {
        return status_of(give_usage(output));
    };
    let end = run_command::<R, S, D, F, K, I, O>(alloc, command, disk, files, clock, input, output);
    status_of(end)
}
