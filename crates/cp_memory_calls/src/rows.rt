//! Calls of rows: what the stores tell of them, and what is made of the rows of a step.

use crate::fault::Fault;
use crate::{
    counted, length, modified, packed, paged, pages, row, runs, step as steps, store, uses,
};
use cp_cases::{Step, number_of};
use std::alloc::{AllocError, Global};

/// Adds what the call of this keyword gives, and says whether there is such a call. After an error the lines before it are
/// there.
fn add_answer(alloc: Global, step: &Step, lines: &mut String) -> Result<bool, Fault> {
    let text = std::str::from_utf8(&step.text).unwrap_or("");
    let words = step.rest.as_str();
    let added = match step.key.as_str() {
        "store" => store::add_answers(alloc, words, text, lines),
        "counted" => counted::add_counted(alloc, words, text, lines),
        "modified" => modified::add_modified(alloc, words, text, lines),
        "uses" => uses::add_uses(alloc, words, text, lines),
        "turns" => uses::add_turns(alloc, words, text, lines),
        "reduce" => steps::add_reduced(alloc, words, text, lines),
        "expand" => steps::add_expanded(alloc, text, lines),
        "effects" => steps::add_effects(alloc, text, lines),
        "packed" => packed::add_packed(alloc, number_of(words) as usize, text, lines),
        "runs" => runs::add_runs(alloc, words, text, lines),
        "altered_run" => runs::add_altered_run(alloc, words, text, lines),
        "paged" => paged::add_paged(alloc, words, text, lines),
        "length" => length::add_length(alloc, text, lines),
        _ => return pages::add_told(alloc, step, text, lines),
    };
    added?;
    Ok(true)
}

/// Adds what is wrong with a part. Where memory ran out, that is the error.
fn add_fault(alloc: Global, fault: &Fault, lines: &mut String) -> Result<(), AllocError> {
    if let Fault::Memory = fault {
        return Err(AllocError);
    }
    let line = fault.to_string(alloc)?;
    row::add_line(lines, line.as_str())
}

/// The lines that the call of this keyword gives, at the end of which stands what is wrong with the part, if anything is;
/// `None` where there is no such call.
pub(crate) fn answer(alloc: Global, step: &Step) -> Result<Option<Vec<u8>>, AllocError> {
    let mut lines = String::new(alloc);
    match add_answer(alloc, step, &mut lines) {
        Ok(true) => Ok(Some(lines.as_bytes().to_vec(alloc)?)),
        Ok(false) => Ok(None),
        Err(fault) => {
            let added = add_fault(alloc, &fault, &mut lines);
            drop(fault);
            added?;
            Ok(Some(lines.as_bytes().to_vec(alloc)?))
        }
    }
}
