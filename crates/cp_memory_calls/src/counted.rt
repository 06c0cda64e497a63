//! Rows that a counted store keeps, as they are or packed, and gives back.
//!
//! The text has the rows of all steps, of which there are so many, and a line `? TID` for each step whose rows are asked for.

use crate::fault::Fault;
use crate::next::are_next;
use crate::packed::pack;
use crate::question::rows_text;
use crate::row::{add_answer, question_of, rows_of};
use crate::store::{keep, kind_called};
use cp_cases::number_of;
use cp_model::Kind;
use cp_store::{Counted, MemoryStore, ProvStore};
use std::alloc::Global;

/// A counted store without rows.
fn store_of(alloc: Global, kind: Kind) -> Counted<MemoryStore> {
    Counted::new(MemoryStore::new(alloc, kind, 0))
}

/// Keeps the rows of a text in the store, packed, where they are those of the next `tids` steps.
fn keep_packed<P: ProvStore>(
    alloc: Global,
    store: &mut P,
    tids: u64,
    text: &str,
) -> Result<(), Fault> {
    let rows = rows_of(alloc, text)?;
    let packed = pack(alloc, 0, rows.as_slice())?;
    let again = packed.records(alloc)?;
    let upto = store.upto();
    let Some(high) = upto.checked_add(tids) else {
        return Err(Fault::Order);
    };
    if !are_next(again.items.as_slice(), upto, high) {
        return Err(Fault::Order);
    }
    store.absorb_packed(alloc, tids, &packed)?;
    Ok(())
}

/// Adds a line with the last Tid and how many calls were counted.
fn add_state(
    alloc: Global,
    store: &Counted<MemoryStore>,
    word: &str,
    lines: &mut String,
) -> Result<(), Fault> {
    let line = format!(in alloc; "up to {}, by {} calls", store.upto(), store.calls())?;
    add_answer(lines, word, line.as_str())?;
    Ok(())
}

/// Adds the rows of each step that is asked for, and how many calls there were by then.
fn add_steps(
    alloc: Global,
    store: &mut Counted<MemoryStore>,
    text: &str,
    lines: &mut String,
) -> Result<(), Fault> {
    for line in text.split_terminator('\n') {
        if let Some(tid) = question_of(line) {
            let rows = store.rows_of(alloc, number_of(tid))?;
            let answer = rows_text(alloc, rows.items.as_slice())?;
            add_answer(lines, tid, answer.as_str())?;
        }
    }
    Ok(())
}

/// Adds what a store tells that was given the rows of a text.
fn add_told(
    alloc: Global,
    store: &mut Counted<MemoryStore>,
    word: &str,
    text: &str,
    lines: &mut String,
) -> Result<(), Fault> {
    add_state(alloc, store, word, lines)?;
    add_steps(alloc, store, text, lines)?;
    add_state(alloc, store, "asked", lines)
}

/// Adds what a store tells that keeps the rows as they are, and one that keeps them packed, by the words `KIND TIDS`.
pub(crate) fn add_counted(
    alloc: Global,
    words: &str,
    text: &str,
    lines: &mut String,
) -> Result<(), Fault> {
    let (name, tids) = words.split_once(' ').unwrap_or((words, ""));
    let Some(kind) = kind_called(name) else {
        return Err(Fault::Name);
    };
    let tids = number_of(tids);
    let mut store = store_of(alloc, kind);
    keep(alloc, &mut store, tids, text)?;
    add_told(alloc, &mut store, "rows", text, lines)?;
    drop(store);
    let mut packed = store_of(alloc, kind);
    keep_packed(alloc, &mut packed, tids, text)?;
    add_told(alloc, &mut packed, "packed", text, lines)
}
