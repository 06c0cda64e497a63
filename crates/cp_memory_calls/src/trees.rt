//! Calls of trees in every form: as a `BoxTree`, a `ShareTree`, an `ArenaTree` and a `RowTree`.

use crate::copies::{Tally, are_same, copy_often, count_in, from_text, moved};
use crate::text;
use cp_cases::{Step, number_of};
use cp_path::Label;
use cp_tree::TreeRep;
use cp_tree_arena::ArenaTree;
use cp_tree_box::BoxTree;
use cp_tree_rows::RowTree;
use cp_tree_share::ShareTree;
use std::alloc::{AllocError, Global};
use std::{fs, io};

/// Copies a tree into the form `R`, and compares the copy with it.
fn note_copy<R: TreeRep, O: TreeRep>(
    alloc: Global,
    tree: &O,
    tally: &mut Tally,
) -> Result<(), AllocError> {
    let copy = moved::<R, O>(alloc, tree)?;
    let same = are_same(alloc, &copy, tree);
    drop(copy);
    tally.note(same?);
    Ok(())
}

/// Copies a tree into every form, and compares each copy with it.
fn note_copies<O: TreeRep>(alloc: Global, tree: &O, tally: &mut Tally) -> Result<(), AllocError> {
    note_copy::<BoxTree, O>(alloc, tree, tally)?;
    note_copy::<ShareTree, O>(alloc, tree, tally)?;
    note_copy::<ArenaTree, O>(alloc, tree, tally)?;
    note_copy::<RowTree, O>(alloc, tree, tally)
}

/// Does so with the tree of a text in the form `O`.
fn note_text<O: TreeRep>(alloc: Global, text: &str, tally: &mut Tally) -> Result<(), AllocError> {
    let tree = from_text::<O>(alloc, text)?;
    let noted = note_copies(alloc, &tree, tally);
    drop(tree);
    noted
}

/// Counts the copies of the tree of a text, from every form into every form, and those that are the same.
fn tally_of(alloc: Global, text: &str) -> Result<Tally, AllocError> {
    let mut tally = Tally { same: 0, all: 0 };
    note_text::<BoxTree>(alloc, text, &mut tally)?;
    note_text::<ShareTree>(alloc, text, &mut tally)?;
    note_text::<ArenaTree>(alloc, text, &mut tally)?;
    note_text::<RowTree>(alloc, text, &mut tally)?;
    Ok(tally)
}

/// Says how many of these copies are the same, of a tree with so many levels and so many members of each node.
fn copied(alloc: Global, levels: u64, width: u64) -> Result<String, AllocError> {
    let text = text::nested(alloc, levels, width)?;
    let tally = tally_of(alloc, text.as_str());
    drop(text);
    let tally = tally?;
    format!(in alloc; "{} of {} copies are the same\n", tally.same, tally.all)
}

/// Counts the places of the tree of a text, in a form.
fn count_of<R: TreeRep>(alloc: Global, text: &str) -> Result<u32, AllocError> {
    Ok(from_text::<R>(alloc, text)?.count())
}

/// Says how many places the tree of a text has in each form.
fn counts(alloc: Global, text: &str) -> Result<String, AllocError> {
    let boxes = count_of::<BoxTree>(alloc, text)?;
    let shared = count_of::<ShareTree>(alloc, text)?;
    let arena = count_of::<ArenaTree>(alloc, text)?;
    let rows = count_of::<RowTree>(alloc, text)?;
    format!(in alloc; "{boxes} {shared} {arena} {rows}\n")
}

/// Says it of a tree with so many leaves below its root.
fn wide(alloc: Global, count: u64) -> Result<String, AllocError> {
    let text = text::wide(alloc, count)?;
    let line = counts(alloc, text.as_str());
    drop(text);
    line
}

/// Says it of a tree with so many places, each below the one before.
fn deep(alloc: Global, count: u64) -> Result<String, AllocError> {
    let text = text::deep(alloc, count)?;
    let line = counts(alloc, text.as_str());
    drop(text);
    line
}

/// Says how many places so many copies of a tree with so many leaves have.
fn often(alloc: Global, count: u64, times: u64) -> Result<String, AllocError> {
    let text = text::wide(alloc, count)?;
    let tree = from_text::<ShareTree>(alloc, text.as_str());
    drop(text);
    let tree = tree?;
    let places = copy_often(alloc, &tree, times);
    drop(tree);
    format!(in alloc; "{}\n", places?)
}

/// The two numbers of a line, 0 for one that it doesn't have.
fn two_numbers(words: &str) -> (u64, u64) {
    let (first, rest) = words.split_once(' ').unwrap_or((words, ""));
    (number_of(first), number_of(rest))
}

/// The line that the call of this keyword gives; `None` where there is no such call.
fn line(alloc: Global, step: &Step) -> Result<Option<String>, AllocError> {
    let (first, second) = two_numbers(step.rest.as_str());
    let line = match step.key.as_str() {
        "copied" => copied(alloc, first, second),
        "wide" => wide(alloc, first),
        "deep" => deep(alloc, first),
        "often" => often(alloc, first, second),
        _ => return Ok(None),
    };
    Ok(Some(line?))
}

/// What the call of this keyword gives; `None` where there is no such call.
pub(crate) fn answer(alloc: Global, step: &Step) -> Result<Option<Vec<u8>>, AllocError> {
    match line(alloc, step)? {
        Some(line) => Ok(Some(line.as_bytes().to_vec(alloc)?)),
        None => Ok(None),
    }
}

/// Counts the places of the tree of a CSV file with this key column, in the form of this name; `None` where it is refused.
pub fn count_in_file(
    rt: &HostRuntime,
    form: &str,
    file: &str,
    key: &str,
) -> io::Result<Option<u32>> {
    let Ok(key) = Label::new(rt.alloc(), key) else {
        return Ok(None);
    };
    let bytes = fs::read(rt, file)?;
    let count = match form {
        "box" => count_in::<BoxTree>(rt.alloc(), bytes.as_slice(), &key)?,
        "share" => count_in::<ShareTree>(rt.alloc(), bytes.as_slice(), &key)?,
        "arena" => count_in::<ArenaTree>(rt.alloc(), bytes.as_slice(), &key)?,
        "rows" => count_in::<RowTree>(rt.alloc(), bytes.as_slice(), &key)?,
        _ => None,
    };
    Ok(count)
}
