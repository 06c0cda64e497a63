//! The script of a commit file, as an input.
ghost use Rattle.std.specs.Prelude.{◌≡◌, ◌≤◌, ◌<◌, ◌+◌, length, drop, IfOk};
ghost use Rattle.std.specs.declared.option.Option.TheVariants.{Some};
ghost use Rattle.std.specs.Io.{ReadsAtMost};
ghost use Rattle.std.specs.Io.KnownBytes.{ReadConsumes};
ghost use Rattle.cp_outside.specs.Causes.{Accounts, AnyError, CountsBytes};
ghost use Rattle.cp_workspace.specs.Files.{known_files, HasRead, UsesFiles};
ghost use Rattle.cp_interpreter.specs.Scripts.{commit_text};
ghost use Rattle.cp_interpreter.specs.Begins.{GivesScriptOf};

use cp_outside::{Failed, FileEnd, Files, FilesFault, Source};
use cp_reply::Why;
use cp_workspace::FILE_MAX;
use std::alloc::Global;
use std::marker::Model;

/// What a session runs after the statements of a commit file.
const COMMIT: &[u8] = b"\ncommit;";

/// A text in memory that is read as an input, and never fails.
#[derive(Drop)]
pub struct Script {
    bytes: Vec<u8>,
    at: usize,
}

impl Model for Script {
    ghost use Rattle.std.specs.Prelude.{◌≤◌, length, drop};
    ghost use Rattle.cp_interpreter.specs.Scripts.{ScriptState};

    ghost Value = { ScriptState };

    ghost view = { λ s. record { left = drop s.at s.bytes.items; given = s.at } };

    ghost invariant = { λ s. s.at ≤ length s.bytes.items };
}

impl Source for Script {
    ghost left = { λ s. Some s.left };

    ghost given = { λ s. s.given };

    ghost faults = { λ s. 0 };

    fn read(&mut self, into: &mut [u8]) -> Result<usize, Failed>
        requires { 0 < length into.old }
        ensures bound { ReadsAtMost result into.new }
        ensures bytes { ReadConsumes (Some self.old.left) (Some self.new.left) result into.new }
        ensures counted { CountsBytes self.old.given self.new.given result }
        ensures cause { Accounts AnyError 0 0 result }
    {
        let count = into.len().min(self.bytes.len() - self.at);
        into[..count].copy_from_slice(&self.bytes[self.at..self.at + count]);
        self.at += count;
        Ok(count)
    }
}

/// The script of the commit file with this name, before its first byte, or why there is none. Holds at most 67,108,864
/// bytes of the file. Where the file fails or memory runs out, nothing is kept.
pub fn read_script<F: Files>(
    alloc: Global,
    file: &str,
    files: &mut F,
) -> Result<Result<Script, Why>, FilesFault>
    ensures gives { IfOk result (λ r. GivesScriptOf (known_files F.Files files.old) file.now r) }
    ensures short { IfOk result (λ r. IfOk r (λ s. length s.left ≤ FILE_MAX + length commit_text)) }
    ensures used { UsesFiles (λ e. e ≡ FilesFault.Failed) (known_files F.Files files.old)
        (known_files F.Files files.new) result }
    ensures read { HasRead (known_files F.Files files.old) (known_files F.Files files.new) 1 }
{
    let mut bytes = Vec::new(alloc);
    match files.read_file(file, FILE_MAX, &mut bytes)? {
        FileEnd::Whole => {
            bytes.extend_from_slice(COMMIT)?;
            Ok(Ok(Script { bytes, at: 0 }))
        }
        FileEnd::TooLong => Ok(Err(Why::FileTooLong)),
        FileEnd::Missing => Ok(Err(Why::NoFile)),
    }
}
