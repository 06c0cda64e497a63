//! The program: the real disk, files, clock, input and output, and the one call that does everything.
#![tactic(auto)]

ghost use Rattle.std.specs.Prelude.{◌≡◌, map, string_bytes, IfOk};
ghost use Rattle.std.specs.Process.{exit_status};
ghost use Rattle.cp_words.specs.Commands.{command_of as command_in};
ghost use Rattle.cpdb.specs.Accesses as by_command;

use cp_host::{Access, FileDisk, HostClock, HostFiles, StdinSource, StdoutSink};
use cp_program::{Status, run_cpdb};
use cp_tree_arena::ArenaTree;
use cp_tree_share::ShareTree;
use cp_words::{Command, command_of};
use std::alloc::{AllocError, Global};
use std::io::ErrorKind;
use std::process::ExitCode;

/// The exit status with which the process ends: that of the call.
fn exit_of(status: Status) -> ExitCode
    ensures { exit_status result ≡ status.code }
{
    ExitCode::from(status.code)
}

/// The name of the file that is the disk: the third word, and none where there are fewer.
fn store_in(alloc: Global, words: &[String]) -> Result<String, AllocError> {
    match words {
        [_, _, store, ..] => store.clone(),
        _ => Ok(String::new(alloc)),
    }
}

/// What the command may do with its store.
fn access_of(command: &Command) -> Access
    ensures { result ≡ by_command.access_of command.now }
{
    match command {
        Command::Init { .. }
        | Command::Run { .. }
        | Command::Commit { .. }
        | Command::Load(_)
        | Command::Share => Access::Writes,
        Command::Ask(_)
        | Command::Show(_)
        | Command::Log
        | Command::Verify
        | Command::At { .. }
        | Command::Archive
        | Command::Uses(_) => Access::Reads,
        Command::Scratch { .. } | Command::Generate { .. } => Access::Reads,
    }
}

/// What the words may do with a store.
fn access_for(alloc: Global, words: &[String]) -> Result<Access, AllocError>
    ensures { IfOk result (λ a. a ≡ by_command.access_for (command_in (map string_bytes words.now))) }
{
    match command_of(alloc, words)? {
        Some(command) => {
            let access = access_of(&command);
            drop(command);
            Ok(access)
        }
        None => Ok(Access::Reads),
    }
}

fn main(rt: HostRuntime) -> ExitCode {
    let alloc = rt.alloc();
    let args = match std::env::args(&rt) {
        Ok(args) => args,
        Err(fault) if fault.kind() == ErrorKind::OutOfMemory => return ExitCode::from(7),
        Err(_) => return ExitCode::from(2),
    };
    let Ok(words) = args.collect::<Vec<String>>(alloc) else {
        return ExitCode::from(7);
    };
    let Ok(store) = store_in(alloc, words.as_slice()) else {
        return ExitCode::from(7);
    };
    let Ok(access) = access_for(alloc, words.as_slice()) else {
        return ExitCode::from(7);
    };
    let mut disk = FileDisk::new(&rt, store, access);
    let mut files = HostFiles::new(&rt);
    let mut clock = HostClock::new(&rt);
    let mut input = StdinSource::new(rt.stdin());
    let mut output = StdoutSink::new(rt.stdout());
    let status = run_cpdb::<ShareTree, ArenaTree, _, _, _, _, _>(
        alloc,
        words.as_slice(),
        &mut disk,
        &mut files,
        &mut clock,
        &mut input,
        &mut output,
    );
    exit_of(status)
}
