//! What is asked of a store, and the lines of its answers.
//!
//! | Question | Answer |
//! |---|---|
//! | `? PLACE TID` | the last change of the place up to that step: its Tid, and `new`, `from PLACE` or `gone`; or `none` |
//! | `? step TID` | the step's rows |
//! | `? losses PLACE LOW HIGH` | the steps after the first up to the second that took a child of the place away |
//! | `? below PLACE` | whether a row is of a place below this one |
//! | `? below PLACE LABEL` | the same of the place at this label below it, and of those below that |
//!
//! The answer stands after the question and a colon. Its parts have semicolons between them.

use crate::fault::Fault;
use crate::row::add_answer;
use cp_cases::{number_of, numbers_of};
use cp_model::{Change, Record, What};
use cp_path::{Label, Loc};
use cp_reply::record_text;
use cp_spelling::{place_text, read_label, read_place};
use cp_store::ProvStore;
use std::alloc::{AllocError, Global};

/// The Tid of a change and what it did.
fn change_text(alloc: Global, change: &Change) -> Result<String, AllocError> {
    let tid = change.tid;
    match &change.what {
        What::New => format!(in alloc; "{tid} new"),
        What::Gone => format!(in alloc; "{tid} gone"),
        What::From(source) => {
            let source = place_text(alloc, source)?;
            format!(in alloc; "{tid} from {source}")
        }
    }
}

/// The last change of a place, by `PLACE TID`.
fn change<P: ProvStore>(alloc: Global, store: &mut P, words: &str) -> Result<String, Fault> {
    let (place, tid) = words.rsplit_once(' ').unwrap_or((words, ""));
    let place = read_place(alloc, place)?;
    let change = store.last_change(alloc, &place, number_of(tid));
    drop(place);
    let change = change?;
    let text = match &change {
        None => "none".to_string(alloc),
        Some(change) => change_text(alloc, change),
    };
    drop(change);
    Ok(text?)
}

/// Adds a part of an answer, after a semicolon where it isn't the first.
pub(crate) fn add_part(text: &mut String, part: &str) -> Result<(), AllocError> {
    if !text.as_str().is_empty() {
        text.push_str("; ")?;
    }
    text.push_str(part)
}

/// The answer, or `none` where it is empty.
pub(crate) fn or_none(alloc: Global, text: String) -> Result<String, AllocError> {
    if text.as_str().is_empty() {
        return "none".to_string(alloc);
    }
    Ok(text)
}

/// The rows as parts of an answer.
pub(crate) fn rows_text(alloc: Global, rows: &[Record]) -> Result<String, AllocError> {
    let mut text = String::new(alloc);
    for row in rows {
        let row = record_text(alloc, row)?;
        add_part(&mut text, row.as_str())?;
    }
    or_none(alloc, text)
}

/// The rows of a step.
fn step<P: ProvStore>(alloc: Global, store: &mut P, tid: u64) -> Result<String, Fault> {
    let rows = store.rows_of(alloc, tid)?;
    let text = rows_text(alloc, rows.items.as_slice());
    drop(rows);
    Ok(text?)
}

/// The Tids as parts of an answer.
pub(crate) fn tids_text(alloc: Global, tids: &[u64]) -> Result<String, AllocError> {
    let mut text = String::new(alloc);
    for tid in tids {
        let tid = tid.to_string(alloc)?;
        add_part(&mut text, tid.as_str())?;
    }
    or_none(alloc, text)
}

/// The numbers of `PLACE LOW HIGH`.
fn bounds_of(alloc: Global, words: &str) -> Result<(u64, u64), Fault> {
    let (_, rest) = words.split_once(' ').unwrap_or((words, ""));
    let numbers = numbers_of(alloc, rest)?;
    let [low, high] = numbers.as_slice() else {
        return Err(Fault::Row(words.to_string(alloc)?));
    };
    Ok((*low, *high))
}

/// The steps that took a child of this place away, by the numbers of `PLACE LOW HIGH`.
fn losses_at<P: ProvStore>(
    alloc: Global,
    store: &mut P,
    place: &Loc,
    words: &str,
) -> Result<String, Fault> {
    let (low, high) = bounds_of(alloc, words)?;
    let tids = store.losses(alloc, place, low, high)?;
    let text = tids_text(alloc, tids.items.as_slice());
    drop(tids);
    Ok(text?)
}

/// The steps that took a child of a place away, by `PLACE LOW HIGH`.
fn losses<P: ProvStore>(alloc: Global, store: &mut P, words: &str) -> Result<String, Fault> {
    let (place, _) = words.split_once(' ').unwrap_or((words, ""));
    let place = read_place(alloc, place)?;
    let text = losses_at(alloc, store, &place, words);
    drop(place);
    text
}

/// Whether a row is of the place at a label below this one, or of one below that.
fn below_label<P: ProvStore>(
    alloc: Global,
    store: &mut P,
    place: &Loc,
    label: &str,
) -> Result<bool, Fault> {
    let label = read_label(alloc, label)?;
    let told = store.tells_below(alloc, place, Some(&label));
    drop(label);
    Ok(told?)
}

/// Whether a row is of a place below one, by `PLACE`, or by `PLACE LABEL`.
fn below<P: ProvStore>(alloc: Global, store: &mut P, words: &str) -> Result<bool, Fault> {
    match words.split_once(' ') {
        None => {
            let place = read_place(alloc, words)?;
            let told = store.tells_below(alloc, &place, None);
            drop(place);
            Ok(told?)
        }
        Some((place, label)) => {
            let place = read_place(alloc, place)?;
            let told = below_label(alloc, store, &place, label);
            drop(place);
            told
        }
    }
}

/// `yes` or `no`.
fn word_of(alloc: Global, answer: bool) -> Result<String, AllocError> {
    let word = if answer { "yes" } else { "no" };
    word.to_string(alloc)
}

/// The answer to a question.
fn answer<P: ProvStore>(alloc: Global, store: &mut P, question: &str) -> Result<String, Fault> {
    let (word, rest) = question.split_once(' ').unwrap_or((question, ""));
    match word {
        "step" => step(alloc, store, number_of(rest)),
        "losses" => losses(alloc, store, rest),
        "below" => Ok(word_of(alloc, below(alloc, store, rest)?)?),
        _ => change(alloc, store, question),
    }
}

/// Adds a question and what the store tells.
pub(crate) fn add_told<P: ProvStore>(
    alloc: Global,
    store: &mut P,
    question: &str,
    lines: &mut String,
) -> Result<(), Fault> {
    let answer = answer(alloc, store, question)?;
    add_answer(lines, question, answer.as_str())?;
    Ok(())
}
