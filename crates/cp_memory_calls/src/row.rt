//! Rows as they are written and listed.
//!
//! A row is `TID OP PLACE`, or `TID OP PLACE < PLACE` where it has a source. Its letter is `I`, `C`, `D` or `K`. A line that
//! begins with `? ` is no row but a question.

use crate::fault::Fault;
use cp_model::{RecOp, Record};
use cp_path::{Loc, PathFault};
use cp_reply::record_text;
use cp_spelling::read_place;
use std::alloc::{AllocError, Global};

/// Adds a line and a line feed.
pub(crate) fn add_line(lines: &mut String, line: &str) -> Result<(), AllocError> {
    lines.push_str(line)?;
    lines.push('\n')?;
    Ok(())
}

/// Adds a line of what is asked and, after a colon, the answer. After an error the line may be there in part.
pub(crate) fn add_answer(lines: &mut String, asked: &str, answer: &str) -> Result<(), AllocError> {
    lines.push_str(asked)?;
    lines.push_str(": ")?;
    add_line(lines, answer)
}

/// Adds the rows as replies list them, each on a line.
pub(crate) fn add_rows(
    alloc: Global,
    lines: &mut String,
    rows: &[Record],
) -> Result<(), AllocError> {
    for row in rows {
        let line = record_text(alloc, row)?;
        add_line(lines, line.as_str())?;
    }
    Ok(())
}

/// The first line, and those below it.
pub(crate) fn first_line(text: &str) -> (&str, &str) {
    text.split_once('\n').unwrap_or((text, ""))
}

/// What a line asks, if it is a question.
pub(crate) fn question_of(line: &str) -> Option<&str> {
    line.strip_prefix("? ")
}

fn letter_of(word: &str) -> Option<RecOp> {
    match word {
        "I" => Some(RecOp::I),
        "C" => Some(RecOp::C),
        "D" => Some(RecOp::D),
        "K" => Some(RecOp::K),
        _ => None,
    }
}

/// The source in a row's places, `PLACE` or `PLACE < PLACE`.
fn source_of(alloc: Global, places: &str) -> Result<Option<Loc>, PathFault> {
    match places.split_once(" < ") {
        Some((_, source)) => Ok(Some(read_place(alloc, source)?)),
        None => Ok(None),
    }
}

/// The row of these places.
fn row_with(alloc: Global, tid: u64, op: RecOp, places: &str) -> Result<Record, PathFault> {
    let (place, _) = places.split_once(" < ").unwrap_or((places, ""));
    let src = source_of(alloc, places)?;
    match read_place(alloc, place) {
        Ok(loc) => Ok(Record { tid, op, loc, src }),
        Err(fault) => {
            drop(src);
            Err(fault)
        }
    }
}

/// The row on a line.
pub(crate) fn row_of(alloc: Global, line: &str) -> Result<Record, Fault> {
    let (tid, rest) = line.split_once(' ').unwrap_or((line, ""));
    let (letter, places) = rest.split_once(' ').unwrap_or((rest, ""));
    let (Ok(tid), Some(op)) = (tid.parse::<u64>(), letter_of(letter)) else {
        return Err(Fault::Row(line.to_string(alloc)?));
    };
    Ok(row_with(alloc, tid, op, places)?)
}

/// The rows of a text. Its questions are passed over.
pub(crate) fn rows_of(alloc: Global, text: &str) -> Result<Vec<Record>, Fault> {
    let mut rows = Vec::new(alloc);
    for line in text.split_terminator('\n') {
        if question_of(line).is_none() {
            let row = row_of(alloc, line)?;
            rows.push(row)?;
        }
    }
    Ok(rows)
}
