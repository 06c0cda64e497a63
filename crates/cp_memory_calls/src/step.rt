//! What is made of the rows of a step, or told by them.

use crate::fault::Fault;
use crate::row::{add_answer, add_rows, first_line, question_of, rows_of};
use cp_model::{Effect, Record};
use cp_path::{Loc, Name, Path};
use cp_reduce::{expand, reduce};
use cp_sources::tree_of_json;
use cp_spelling::{place_text, read_place};
use cp_store::inferred;
use cp_tree::TreeRep;
use cp_tree_box::BoxTree;
use std::alloc::{AllocError, Global};

/// The tree of a JSON text.
pub(crate) fn tree_of(alloc: Global, text: &str) -> Result<BoxTree, Fault> {
    let name = Name::target(alloc)?;
    Ok(tree_of_json(alloc, &name, text.as_bytes())?)
}

/// Adds the reduced rows of an operation that wrote this place, from its full ones.
pub(crate) fn add_reduced(
    alloc: Global,
    written: &str,
    text: &str,
    lines: &mut String,
) -> Result<(), Fault> {
    let rows = rows_of(alloc, text)?;
    let written = read_place(alloc, written)?;
    let reduced = reduce(alloc, rows.as_slice(), &written)?;
    add_rows(alloc, lines, reduced.items.as_slice())?;
    Ok(())
}

/// Adds the full rows of a step from its reduced ones in this text, and the trees before and after it.
fn add_full(
    alloc: Global,
    before: &BoxTree,
    after: &BoxTree,
    text: &str,
    lines: &mut String,
) -> Result<(), Fault> {
    let rows = rows_of(alloc, text)?;
    let full = expand(alloc, rows.as_slice(), before, after);
    drop(rows);
    let full = full?;
    let added = add_rows(alloc, lines, full.items.as_slice());
    drop(full);
    Ok(added?)
}

/// Adds the full rows of a step from its reduced ones. The text's first line is the tree before the step, the second the one
/// after it.
pub(crate) fn add_expanded(alloc: Global, text: &str, lines: &mut String) -> Result<(), Fault> {
    let (before, rest) = first_line(text);
    let (after, rest) = first_line(rest);
    let before = tree_of(alloc, before)?;
    let after = tree_of(alloc, after)?;
    let added = add_full(alloc, &before, &after, rest, lines);
    drop(after);
    drop(before);
    added
}

/// The name of an effect: `same`, `new`, or the place that the data comes from.
fn effect_text(alloc: Global, effect: &Effect) -> Result<String, AllocError> {
    match effect {
        Effect::Same => "same".to_string(alloc),
        Effect::New => "new".to_string(alloc),
        Effect::From(source) => place_text(alloc, source),
    }
}

/// What a step with these reduced rows has done to a place, or that it isn't there after it.
fn effect_at(
    alloc: Global,
    rows: &[Record],
    after: &BoxTree,
    place: &Path,
) -> Result<String, AllocError> {
    if !after.is_there(place) {
        return "not there".to_string(alloc);
    }
    let effect = inferred(rows, after, place)?;
    let text = effect_text(alloc, &effect);
    drop(effect);
    text
}

/// Adds a place and what the step has done to it.
fn add_effect(
    alloc: Global,
    rows: &[Record],
    after: &BoxTree,
    place: &str,
    lines: &mut String,
) -> Result<(), Fault> {
    let loc = read_place(alloc, place)?;
    let effect = effect_at(alloc, rows, after, &loc.path);
    drop(loc);
    let effect = effect?;
    add_answer(lines, place, effect.as_str())?;
    Ok(())
}

/// Adds what a step has done to each place that a line `? PLACE` names, by its reduced rows in this text, and the tree after
/// it.
fn add_each(alloc: Global, after: &BoxTree, text: &str, lines: &mut String) -> Result<(), Fault> {
    let rows = rows_of(alloc, text)?;
    for line in text.split_terminator('\n') {
        if let Some(place) = question_of(line) {
            add_effect(alloc, rows.as_slice(), after, place, lines)?;
        }
    }
    Ok(())
}

/// Adds what a step has done to each place that a line `? PLACE` names, by the step's reduced rows. The text's first line is
/// the tree after the step.
pub(crate) fn add_effects(alloc: Global, text: &str, lines: &mut String) -> Result<(), Fault> {
    let (after, rest) = first_line(text);
    let after = tree_of(alloc, after)?;
    let added = add_each(alloc, &after, rest, lines);
    drop(after);
    added
}
