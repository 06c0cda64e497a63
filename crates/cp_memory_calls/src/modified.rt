//! The steps that changed a place or one below it, and how many calls of a store it takes to find them.
//!
//! The text's first line is the tree after the last step. Then come the rows of all steps, of which there are so many, and a
//! line `? PLACE` for each place that is asked. The calls are those that look rows up.

use crate::fault::Fault;
use crate::question::tids_text;
use crate::row::{add_answer, first_line, question_of};
use crate::step::tree_of;
use crate::store::{keep, kind_called};
use cp_cases::number_of;
use cp_query::modified;
use cp_spelling::read_place;
use cp_store::{Counted, MemoryStore};
use cp_tree_box::BoxTree;
use std::alloc::Global;

/// A store of the kind of this name that keeps the rows of a text, those of so many steps.
fn store_of(alloc: Global, name: &str, tids: u64, text: &str) -> Result<MemoryStore, Fault> {
    let Some(kind) = kind_called(name) else {
        return Err(Fault::Name);
    };
    let mut store = MemoryStore::new(alloc, kind, 0);
    keep(alloc, &mut store, tids, text)?;
    Ok(store)
}

/// Adds a place, the steps that changed it or a place below it, and how many calls it took to find them.
fn add_steps(
    alloc: Global,
    store: &mut Counted<MemoryStore>,
    tree: &BoxTree,
    place: &str,
    lines: &mut String,
) -> Result<(), Fault> {
    let loc = read_place(alloc, place)?;
    let before = store.calls();
    let tids = modified(alloc, store, tree, &loc);
    drop(loc);
    let tids = tids?;
    let calls = store.calls().saturating_sub(before);
    let steps = tids_text(alloc, tids.items.as_slice());
    drop(tids);
    let steps = steps?;
    let answer = format!(in alloc; "{steps}, by {calls} calls")?;
    add_answer(lines, place, answer.as_str())?;
    Ok(())
}

/// Adds what is found for each place that is asked.
fn add_each(
    alloc: Global,
    store: &mut Counted<MemoryStore>,
    tree: &BoxTree,
    text: &str,
    lines: &mut String,
) -> Result<(), Fault> {
    for line in text.split_terminator('\n') {
        if let Some(place) = question_of(line) {
            add_steps(alloc, store, tree, place, lines)?;
        }
    }
    Ok(())
}

/// Adds what is found for each place that is asked, by the words `KIND TIDS`.
pub(crate) fn add_modified(
    alloc: Global,
    words: &str,
    text: &str,
    lines: &mut String,
) -> Result<(), Fault> {
    let (name, tids) = words.split_once(' ').unwrap_or((words, ""));
    let (tree, rest) = first_line(text);
    let tree = tree_of(alloc, tree)?;
    let mut store = Counted::new(store_of(alloc, name, number_of(tids), rest)?);
    let added = add_each(alloc, &mut store, &tree, rest, lines);
    drop(store);
    drop(tree);
    added
}
