//! Reads the examples of a document, and scripts with what they write.
//!
//! Examples stand in blocks that are indented by four spaces. After `< ` comes the whole input of a call of `scratch n`, and
//! the lines below it are its output. After `$ bin/cpdb ` come the words of a session: of the lines of this block and of all
//! later ones, those that end in a semicolon go in, and all others come out. The status is 1 where a line refuses something.
//! A session whose first word is `run`, `commit`, `load`, `query`, `log`, `verify`, `at`, `archive`, `share` or `uses` goes on in
//! the case of the call before it, whose store it opens. The clock tells `FIRST_MOMENT` in the first call of a case and a
//! minute more in each later one, and a second more at each further commit of a call, of which it tells three.

use crate::sheet::{Case, Sheet};
use crate::words::line_of;
use std::alloc::{AllocError, Global};

/// When the clock begins, in seconds since 1970-01-01 00:00 UTC: 2026-11-29 00:00 UTC.
const FIRST_MOMENT: u64 = 1_795_910_400;

/// The parts of a whole call: its words, the clock, the input, the output, and how it ends.
const PARTS_OF_CALL: usize = 5;

/// What the lines of a block belong to.
#[derive(Clone, Copy, PartialEq, Eq)]
enum Block {
    Prose,
    Example,
    Session,
}

/// A line of a document and its number.
#[derive(Clone, Copy)]
struct Line<'a> {
    number: u64,
    text: &'a str,
}

/// The moments that the clock tells in the call of a case with this number, from 0.
fn moments_of(alloc: Global, number: usize) -> Result<String, AllocError> {
    let minutes = (number as u64).saturating_mul(60);
    let first = FIRST_MOMENT.saturating_add(minutes);
    let second = first.saturating_add(1);
    let third = second.saturating_add(1);
    format!(in alloc; "{first} {second} {third}")
}

/// Adds the clock of the call of a case with this number, from 0.
fn add_clock(
    alloc: Global,
    case: &mut Case,
    line: Line<'_>,
    number: usize,
) -> Result<(), AllocError> {
    let moments = moments_of(alloc, number)?;
    case.begin_part(alloc, line.number, "clock", moments.as_str())
}

/// Adds a call with these words to a case whose calls before it are whole, with no input and no output yet.
fn add_call(alloc: Global, case: &mut Case, line: Line<'_>, words: &str) -> Result<(), AllocError> {
    let number = case.parts.len() / PARTS_OF_CALL;
    case.begin_part(alloc, line.number, "words", words)?;
    add_clock(alloc, case, line, number)?;
    case.begin_part(alloc, line.number, "in", "-")?;
    case.begin_part(alloc, line.number, "out", "")
}

/// Whether a session with these words opens the store of the call before it.
fn opens_store(words: &str) -> bool {
    let (command, _) = words.split_once(' ').unwrap_or((words, ""));
    match command {
        "run"
        | "commit"
        | "load"
        | "query"
        | "log"
        | "verify"
        | "at"
        | "archive"
        | "share"
        | "uses" => true,
        _ => false,
    }
}

/// A case of one call with these words, over the real files, with no input and no output yet.
fn call_of(alloc: Global, line: Line<'_>, words: &str) -> Result<Case, AllocError> {
    let mut case = Case::new(alloc, line.text)?;
    case.real = true;
    add_call(alloc, &mut case, line, words)?;
    Ok(case)
}

/// Begins a case of one call with these words.
fn begin_case(
    alloc: Global,
    cases: &mut Vec<Case>,
    line: Line<'_>,
    words: &str,
) -> Result<(), AllocError> {
    cases.push(call_of(alloc, line, words)?)?;
    Ok(())
}

/// Begins a session with these words, in a case of its own or in that of the call before it.
fn begin_session(
    alloc: Global,
    cases: &mut Vec<Case>,
    line: Line<'_>,
    words: &str,
) -> Result<(), AllocError> {
    if let (true, Some(case)) = (opens_store(words), cases.last_mut()) {
        add_status(alloc, case)?;
        return add_call(alloc, case, line, words);
    }
    begin_case(alloc, cases, line, words)
}

/// Adds a line to the input or the output of the last call.
fn add_to_last(
    alloc: Global,
    cases: &mut Vec<Case>,
    goes_in: bool,
    line: &str,
) -> Result<(), AllocError> {
    let Some(case) = cases.last_mut() else {
        return Ok(());
    };
    match case.parts.as_mut_slice() {
        [.., input, _] if goes_in => input.add(alloc, line),
        [.., output] => output.add(alloc, line),
        _ => Ok(()),
    }
}

/// Adds the lines of a text to the input or the output of the last call.
fn add_all_to_last(
    alloc: Global,
    cases: &mut Vec<Case>,
    goes_in: bool,
    text: &str,
) -> Result<(), AllocError> {
    for line in text.split_terminator('\n') {
        add_to_last(alloc, cases, goes_in, line)?;
    }
    Ok(())
}

/// Begins an example with this first line of its input.
fn begin_example(
    alloc: Global,
    cases: &mut Vec<Case>,
    line: Line<'_>,
    input: &str,
) -> Result<(), AllocError> {
    begin_case(alloc, cases, line, "scratch n")?;
    add_to_last(alloc, cases, true, input)
}

/// Takes the next line of a block.
fn add_line(
    alloc: Global,
    cases: &mut Vec<Case>,
    block: Block,
    line: Line<'_>,
) -> Result<Block, AllocError> {
    if let Some(input) = line.text.strip_prefix("< ") {
        begin_example(alloc, cases, line, input)?;
        return Ok(Block::Example);
    }
    if let Some(words) = line.text.strip_prefix("$ bin/cpdb ") {
        begin_session(alloc, cases, line, words)?;
        return Ok(Block::Session);
    }
    if block != Block::Prose {
        let goes_in = block == Block::Session && line.text.ends_with(';');
        add_to_last(alloc, cases, goes_in, line.text)?;
    }
    Ok(block)
}

/// Whether the output of the case's last call refuses something.
fn refuses(case: &Case) -> bool {
    let [.., output] = case.parts.as_slice() else {
        return false;
    };
    for line in output.lines.iter() {
        if line_of(line.as_str()).starts_with("refused") {
            return true;
        }
    }
    false
}

/// Adds the status that goes with the output of the case's last call.
fn add_status(alloc: Global, case: &mut Case) -> Result<(), AllocError> {
    let status = if refuses(case) { "1" } else { "0" };
    case.begin_part(alloc, 0, "ends", status)
}

/// Adds the status that goes with the output of each case's last call.
fn add_statuses(alloc: Global, cases: &mut [Case]) -> Result<(), AllocError> {
    for case in cases.iter_mut() {
        add_status(alloc, case)?;
    }
    Ok(())
}

/// Adds the examples of a document.
pub(crate) fn add_examples(alloc: Global, sheet: &mut Sheet, text: &str) -> Result<(), AllocError> {
    let mut block = Block::Prose;
    let mut number = 0u64;
    for line in text.split('\n') {
        number = number.saturating_add(1);
        if let Some(text) = line.strip_prefix("    ") {
            block = add_line(alloc, &mut sheet.cases, block, Line { number, text })?;
        } else if block == Block::Example {
            block = Block::Prose;
        }
    }
    add_statuses(alloc, &mut sheet.cases)
}

/// Adds the call of `scratch n` whose input is a script, and which writes this output.
pub(crate) fn add_script(
    alloc: Global,
    sheet: &mut Sheet,
    script: &str,
    output: &str,
) -> Result<(), AllocError> {
    let line = Line {
        number: 1,
        text: "the whole script",
    };
    begin_case(alloc, &mut sheet.cases, line, "scratch n")?;
    add_all_to_last(alloc, &mut sheet.cases, true, script)?;
    add_all_to_last(alloc, &mut sheet.cases, false, output)?;
    add_statuses(alloc, &mut sheet.cases)
}
