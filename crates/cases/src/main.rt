//! Plays whole calls of the program, and tables of calls of the layers below it.
//!
//! The words are those of every program that plays cases: the stage of the program up to which they
//! hold, and files. Those in the folder `tables` are tables of calls, and `caller` says what makes
//! these. Of all others `Stage` of cp_calls says what the parts of a case mean. The README of the
//! folder `data` says what each file is for, and how a case is added.
//!
//! Each case that differs gets a line of standard error, with its file, its line and what differs.
//! Then the counts go to the output, in one line, and the status is 1: the cases of the two files
//! `wrong.txt` have to fail, which shows that differences are found. After `rt run -- 0` in this
//! folder, which builds the program,
//!
//!     cd data && ../out/cases 10 mod.txt
//!
//! plays the cases of one file.
//!
//! With the words `csv`, a form's name, a CSV file and its key column, it makes the file's tree
//! alone, so that its time and memory can be measured.
#![tactic(auto)]

mod caller;
mod program;

use caller::Caller;
use cp_calls::Stage;
use cp_cases::play_files;
use program::Cpdb;
use std::process::ExitCode;
use std::{env, io};

/// Makes the tree of a CSV file in a form, and writes how many places it has.
fn make_tree(rt: &HostRuntime, form: &str, file: &str, key: &str) -> io::Result<ExitCode> {
    match cp_memory_calls::count_in_file(rt, form, file, key)? {
        Some(count) => println!(rt; "{count} places")?,
        None => return Ok(ExitCode::FAILURE),
    }
    Ok(ExitCode::SUCCESS)
}

/// Plays the cases that the words name.
fn play(rt: &HostRuntime) -> io::Result<ExitCode> {
    let mut stage = Stage::new(rt.alloc(), rt, &Cpdb);
    let mut caller = Caller::new(rt);
    play_files(rt, &mut stage, &mut caller)
}

fn main(rt: HostRuntime) -> io::Result<ExitCode> {
    let words = env::args(&rt)?.collect::<Vec<String>>(rt.alloc())?;
    if let [_, command, form, file, key] = words.as_slice() {
        if command.as_str() == "csv" {
            return make_tree(&rt, form.as_str(), file.as_str(), key.as_str());
        }
    }
    drop(words);
    play(&rt)
}
