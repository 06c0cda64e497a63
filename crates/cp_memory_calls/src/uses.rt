//! Which places use a place, and by how many calls of a store they are found.
//!
//! The text of `uses` has the tree after the last step in its first line, then the rows of all steps, of which there are so many,
//! and then lines that ask: `? PLACE` for the places of the tree whose trace passes through this one, and `? calls PLACE` for how
//! many calls of the store it takes to find them. The text of `turns` has questions alone, to a store that copied T/c to T/a in
//! its first step, and what it had copied on to the other one of T/a and T/b in each later step, of which there are so many in all.
ghost use Rattle.cp_model.specs.Changes.{AreNext};

use crate::fault::Fault;
use crate::next::are_next;
use crate::row::{add_answer, first_line, question_of, rows_of};
use crate::step::tree_of;
use crate::store::kind_called;
use cp_cases::number_of;
use cp_model::{Kind, RecOp, Record};
use cp_path::{Loc, PathFault};
use cp_spelling::{place_text, read_place};
use cp_store::{Counted, MemoryStore, ProvStore};
use cp_tree_box::BoxTree;
use cp_uses::{UseIndex, uses};
use std::alloc::{AllocError, Global};

/// Places with a space between, or `none`.
fn places_text(alloc: Global, places: &[Loc]) -> Result<String, AllocError> {
    let mut text = String::new(alloc);
    for place in places {
        if !text.as_str().is_empty() {
            text.push(' ')?;
        }
        let place = place_text(alloc, place)?;
        text.push_str(place.as_str())?;
    }
    if text.as_str().is_empty() {
        text.push_str("none")?;
    }
    Ok(text)
}

/// Adds the answer to a question.
fn add_answer_to(
    alloc: Global,
    index: &UseIndex<'_>,
    store: &mut Counted<MemoryStore>,
    tree: &BoxTree,
    question: &str,
    lines: &mut String,
) -> Result<(), Fault> {
    let counts = question.strip_prefix("calls ");
    let place = read_place(alloc, counts.unwrap_or(question))?;
    let before = store.calls();
    let users = uses(alloc, index, store, tree, &place);
    drop(place);
    let users = users?;
    let calls = store.calls().saturating_sub(before);
    let answer = match counts {
        Some(_) => calls.to_string(alloc),
        None => places_text(alloc, users.as_slice()),
    };
    drop(users);
    let answer = answer?;
    add_answer(lines, question, answer.as_str())?;
    Ok(())
}

/// Adds the answers to the questions of a text.
fn add_each(
    alloc: Global,
    index: &UseIndex<'_>,
    store: &mut Counted<MemoryStore>,
    tree: &BoxTree,
    text: &str,
    lines: &mut String,
) -> Result<(), Fault> {
    for line in text.split_terminator('\n') {
        if let Some(question) = question_of(line) {
            add_answer_to(alloc, index, store, tree, question, lines)?;
        }
    }
    Ok(())
}

/// A counted store of a kind that keeps these rows, those of so many steps.
fn store_of(
    alloc: Global,
    kind: Kind,
    tids: u64,
    rows: &[Record],
) -> Result<Counted<MemoryStore>, Fault>
    requires { AreNext 0 tids rows.now }
{
    let mut store = MemoryStore::new(alloc, kind, 0);
    store.absorb(alloc, tids, rows)?;
    Ok(Counted::new(store))
}

/// Adds the answers to the questions of a text, of a store of the kind of this name that keeps these rows, those of so many steps.
fn add_asked(
    alloc: Global,
    name: &str,
    tids: u64,
    rows: &[Record],
    tree: &BoxTree,
    text: &str,
    lines: &mut String,
) -> Result<(), Fault> {
    let Some(kind) = kind_called(name) else {
        return Err(Fault::Name);
    };
    if !are_next(rows, 0, tids) {
        return Err(Fault::Order);
    }
    let index = UseIndex::new(alloc, rows)?;
    let mut store = store_of(alloc, kind, tids, rows)?;
    let added = add_each(alloc, &index, &mut store, tree, text, lines);
    drop(store);
    drop(index);
    added
}

/// Adds the answers to the questions of a text with a tree and rows, by the words `KIND TIDS`.
pub(crate) fn add_uses(
    alloc: Global,
    words: &str,
    text: &str,
    lines: &mut String,
) -> Result<(), Fault> {
    let (name, tids) = words.split_once(' ').unwrap_or((words, ""));
    let (tree, rest) = first_line(text);
    let rows = rows_of(alloc, rest)?;
    let tree = tree_of(alloc, tree)?;
    add_asked(
        alloc,
        name,
        number_of(tids),
        rows.as_slice(),
        &tree,
        rest,
        lines,
    )
}

/// The row of a step that copied one place to another.
fn copy_of(alloc: Global, tid: u64, from: &str, to: &str) -> Result<Record, PathFault> {
    let src = read_place(alloc, from)?;
    match read_place(alloc, to) {
        Ok(loc) => Ok(Record {
            tid,
            op: RecOp::C,
            loc,
            src: Some(src),
        }),
        Err(fault) => {
            drop(src);
            Err(fault)
        }
    }
}

/// The row of a step in which it is the turn of one of the two places.
fn turn(alloc: Global, tid: u64) -> Result<Record, PathFault> {
    if tid == 1 {
        return copy_of(alloc, tid, "T/c", "T/a");
    }
    if tid % 2 == 0 {
        return copy_of(alloc, tid, "T/a", "T/b");
    }
    copy_of(alloc, tid, "T/b", "T/a")
}

/// The rows of so many steps.
fn turns(alloc: Global, count: u64) -> Result<Vec<Record>, Fault> {
    let mut rows = Vec::new(alloc);
    for before in 0..count {
        let row = turn(alloc, before + 1)?;
        rows.push(row)?;
    }
    Ok(rows)
}

/// Adds the answers to the questions of a text, of a store of two places that were copied on in turn, by the words `KIND COUNT`.
pub(crate) fn add_turns(
    alloc: Global,
    words: &str,
    text: &str,
    lines: &mut String,
) -> Result<(), Fault> {
    let (name, count) = words.split_once(' ').unwrap_or((words, ""));
    let count = number_of(count);
    let rows = turns(alloc, count)?;
    let tree = tree_of(alloc, "{\"a\":1,\"b\":1,\"c\":1}")?;
    add_asked(alloc, name, count, rows.as_slice(), &tree, text, lines)
}
