//! What a store tells that keeps the rows of a part.
//!
//! `KIND` is `n` or `naive`, `t` or `transactional`, `h` or `hierarchical`, `ht` or `hierarchical-transactional`. `UPTO` is the
//! store's last Tid before it gets the rows, which are those of the next `TIDS` steps. The first line says its kind, its last Tid
//! and how many rows it has before, the second the same after; then comes a line for each question, as `question` says.

use crate::fault::Fault;
use crate::next::are_next;
use crate::question::add_told;
use crate::row::{add_line, question_of, rows_of};
use cp_cases::numbers_of;
use cp_model::Kind;
use cp_store::{MemoryStore, ProvStore};
use std::alloc::{AllocError, Global};

/// The numbers of the part, and its text.
#[derive(Clone, Copy)]
struct Part<'a> {
    upto: u64,
    tids: u64,
    text: &'a str,
}

fn letters_of(kind: Kind) -> &'static str {
    match kind {
        Kind::N => "n",
        Kind::T => "t",
        Kind::H => "h",
        Kind::HT => "ht",
    }
}

/// The kind of this name, or of these letters.
pub(crate) fn kind_called(name: &str) -> Option<Kind> {
    match name {
        "n" | "naive" => Some(Kind::N),
        "t" | "transactional" => Some(Kind::T),
        "h" | "hierarchical" => Some(Kind::H),
        "ht" | "hierarchical-transactional" => Some(Kind::HT),
        _ => None,
    }
}

/// Adds the store's kind, its last Tid and how many rows it has.
fn add_state(alloc: Global, store: &MemoryStore, lines: &mut String) -> Result<(), AllocError> {
    let kind = letters_of(store.kind());
    let upto = store.upto();
    let count = store.len();
    let line = format!(in alloc; "{kind} up to {upto}, {count} rows")?;
    add_line(lines, line.as_str())
}

/// Keeps the rows of a text in the store, where they are those of the next `tids` steps.
pub(crate) fn keep<P: ProvStore>(
    alloc: Global,
    store: &mut P,
    tids: u64,
    text: &str,
) -> Result<(), Fault> {
    let rows = rows_of(alloc, text)?;
    let upto = store.upto();
    let Some(high) = upto.checked_add(tids) else {
        return Err(Fault::Order);
    };
    if !are_next(rows.as_slice(), upto, high) {
        return Err(Fault::Order);
    }
    store.absorb(alloc, tids, rows.as_slice())?;
    Ok(())
}

/// Adds the answers to the questions of a text.
pub(crate) fn add_all_told<P: ProvStore>(
    alloc: Global,
    store: &mut P,
    text: &str,
    lines: &mut String,
) -> Result<(), Fault> {
    for line in text.split_terminator('\n') {
        if let Some(question) = question_of(line) {
            add_told(alloc, store, question, lines)?;
        }
    }
    Ok(())
}

/// Adds what the store tells before and after it gets the rows.
fn add_to(
    alloc: Global,
    store: &mut MemoryStore,
    part: Part<'_>,
    lines: &mut String,
) -> Result<(), Fault> {
    add_state(alloc, store, lines)?;
    keep(alloc, store, part.tids, part.text)?;
    add_state(alloc, store, lines)?;
    add_all_told(alloc, store, part.text, lines)
}

/// Adds what a new store of this kind tells before and after it gets the rows.
fn add_all(alloc: Global, kind: Kind, part: Part<'_>, lines: &mut String) -> Result<(), Fault> {
    let mut store = MemoryStore::new(alloc, kind, part.upto);
    let added = add_to(alloc, &mut store, part, lines);
    drop(store);
    added
}

/// Adds what a store of these words tells, `KIND UPTO TIDS`.
pub(crate) fn add_answers(
    alloc: Global,
    words: &str,
    text: &str,
    lines: &mut String,
) -> Result<(), Fault> {
    let (name, rest) = words.split_once(' ').unwrap_or((words, ""));
    let numbers = numbers_of(alloc, rest)?;
    let (Some(kind), [upto, tids]) = (kind_called(name), numbers.as_slice()) else {
        return Err(Fault::Name);
    };
    let part = Part {
        upto: *upto,
        tids: *tids,
        text,
    };
    add_all(alloc, kind, part, lines)
}
