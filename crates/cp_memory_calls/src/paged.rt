//! A store whose rows lie on the pages of runs, and after them in memory.
//!
//! The words are `KIND UPTO TIDS` and the three numbers of each run: the rows up to the step `UPTO` lie in the runs. The pages stand
//! as `runs` says, and the rows of the `TIDS` steps after `UPTO` below them; each other line is a question, as `question` says.

use crate::fault::Fault;
use crate::row::{add_line, question_of};
use crate::runs::{disk_of, run_set};
use crate::store::{add_all_told, keep, kind_called};
use cp_cases::numbers_of;
use cp_model::Kind;
use cp_paged::{Paged, PagedStore};
use cp_run::RunSet;
use std::alloc::{AllocError, Global};

/// Where the numbers of the runs begin in the words: after the kind and two numbers.
fn after_numbers(words: &str) -> &str {
    let mut rest = words;
    for _ in 0..3 {
        let (_, more) = rest.split_once(' ').unwrap_or((rest, ""));
        rest = more;
    }
    rest
}

/// The lines of a text that aren't pages.
fn rows_in(alloc: Global, text: &str) -> Result<String, AllocError> {
    let mut rows = String::new(alloc);
    for line in text.split_terminator('\n') {
        if !line.starts_with("+ ") && !line.starts_with(". ") {
            add_line(&mut rows, line)?;
        }
    }
    Ok(rows)
}

/// Adds what the store of these runs tells, whose later rows are those of a text.
fn add_store(
    alloc: Global,
    kind: Kind,
    runs: RunSet,
    numbers: (u64, u64),
    text: &str,
    lines: &mut String,
) -> Result<(), Fault> {
    let (upto, tids) = numbers;
    let mut disk = disk_of(alloc, text)?;
    let mut store = PagedStore::new(alloc, kind, upto, runs)?;
    let mut paged = Paged {
        store: &mut store,
        disk: &mut disk,
    };
    let rows = rows_in(alloc, text)?;
    keep(alloc, &mut paged, tids, rows.as_str())?;
    add_all_told(alloc, &mut paged, rows.as_str(), lines)
}

/// Adds what a store of these words tells.
pub(crate) fn add_paged(
    alloc: Global,
    words: &str,
    text: &str,
    lines: &mut String,
) -> Result<(), Fault> {
    let (name, rest) = words.split_once(' ').unwrap_or((words, ""));
    let numbers = numbers_of(alloc, rest)?;
    let (Some(kind), [upto, tids, ..]) = (kind_called(name), numbers.as_slice()) else {
        return Err(Fault::Name);
    };
    let runs = run_set(alloc, after_numbers(words))?;
    add_store(alloc, kind, runs, (*upto, *tids), text, lines)
}
