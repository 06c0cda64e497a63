//! Entries as lines of text.
//!
//! `start KIND TREE` and `load NAME TREE` are a line each; `commit`, or `stamped CURATOR MOMENT`, has a line for each
//! operation and each record below it: `ins LABEL TREE into PLACE`, `del LABEL from PLACE`, `copy PLACE into PLACE`,
//! `record TID OP PLACE` and of a copy the source after that.

use cp_frame::Entry;
use cp_model::{Content, Kind, LitList, Literal, Op, OpList, RecOp, Record, Stamp};
use cp_path::{Label, Loc};
use cp_record::PackedRecords;
use cp_spelling::{label_text, place_text, value_text};
use std::alloc::{AllocError, Global};

/// Adds a tree: a value, or the labels and the trees of the children in braces.
#[cycle(tree)]
fn add_tree(alloc: Global, tree: &Literal, line: &mut String) -> Result<(), AllocError> {
    match tree {
        Literal::Leaf(value) => line.push_str(value_text(alloc, value)?.as_str()),
        Literal::Node(list) => {
            line.push('{')?;
            add_children(alloc, list, line)?;
            line.push('}')
        }
    }
}

/// Adds the labels and the trees of children.
#[cycle(tree)]
fn add_children(alloc: Global, list: &LitList, line: &mut String) -> Result<(), AllocError> {
    let mut between = "";
    for edge in &list.items {
        line.push_str(between)?;
        line.push_str(label_text(alloc, &edge.label)?.as_str())?;
        line.push_str(" : ")?;
        add_tree(alloc, &edge.tree, line)?;
        between = ", ";
    }
    Ok(())
}

/// The tree as a text.
fn tree_text(alloc: Global, tree: &Literal) -> Result<String, AllocError> {
    let mut line = String::new(alloc);
    add_tree(alloc, tree, &mut line)?;
    Ok(line)
}

fn kind_word(kind: Kind) -> &'static str {
    match kind {
        Kind::N => "n",
        Kind::T => "t",
        Kind::H => "h",
        Kind::HT => "ht",
    }
}

fn letter(op: RecOp) -> &'static str {
    match op {
        RecOp::I => "I",
        RecOp::C => "C",
        RecOp::D => "D",
        RecOp::K => "K",
    }
}

/// The line of an operation that inserts.
fn ins_line(
    alloc: Global,
    into: &Loc,
    label: &Label,
    tree: &Literal,
) -> Result<String, AllocError> {
    let label = label_text(alloc, label)?;
    let tree = tree_text(alloc, tree)?;
    let into = place_text(alloc, into)?;
    format!(in alloc; "ins {label} {tree} into {into}\n")
}

/// The line of an operation that deletes.
fn del_line(alloc: Global, label: &Label, from: &Loc) -> Result<String, AllocError> {
    let label = label_text(alloc, label)?;
    let from = place_text(alloc, from)?;
    format!(in alloc; "del {label} from {from}\n")
}

/// The line of an operation that copies.
fn copy_line(alloc: Global, from: &Loc, into: &Loc) -> Result<String, AllocError> {
    let from = place_text(alloc, from)?;
    let into = place_text(alloc, into)?;
    format!(in alloc; "copy {from} into {into}\n")
}

/// The line of an operation.
pub(crate) fn op_line(alloc: Global, op: &Op) -> Result<String, AllocError> {
    match op {
        Op::Ins { into, label, tree } => ins_line(alloc, into, label, tree),
        Op::Del { label, from } => del_line(alloc, label, from),
        Op::Copy { from, into } => copy_line(alloc, from, into),
    }
}

/// The line of a record.
pub(crate) fn record_line(alloc: Global, record: &Record) -> Result<String, AllocError> {
    let word = letter(record.op);
    let place = place_text(alloc, &record.loc)?;
    match &record.src {
        Some(source) => {
            format!(in alloc;
                "record {} {} {} {}\n",
                record.tid,
                word,
                place,
                place_text(alloc, source)?
            )
        }
        None => format!(in alloc; "record {} {} {}\n", record.tid, word, place),
    }
}

/// Adds the lines of operations.
fn add_ops(alloc: Global, ops: &[Op], lines: &mut String) -> Result<(), AllocError> {
    for op in ops {
        lines.push_str(op_line(alloc, op)?.as_str())?;
    }
    Ok(())
}

/// Adds the lines of records.
fn add_records(
    alloc: Global,
    records: &PackedRecords,
    lines: &mut String,
) -> Result<(), AllocError> {
    let records = records.records(alloc)?;
    for record in &records.items {
        lines.push_str(record_line(alloc, record)?.as_str())?;
    }
    Ok(())
}

/// Adds the lines of operations and of records.
fn add_changes(
    alloc: Global,
    ops: &OpList,
    records: &PackedRecords,
    lines: &mut String,
) -> Result<(), AllocError> {
    add_ops(alloc, ops.items.as_slice(), lines)?;
    add_records(alloc, records, lines)
}

/// The line of a content.
pub(crate) fn content_line(alloc: Global, content: &Content) -> Result<String, AllocError> {
    match content {
        Content::Node => "node\n".to_string(alloc),
        Content::Leaf(value) => format!(in alloc; "{}\n", value_text(alloc, value)?),
    }
}

/// A line that begins with two words and ends with a tree.
fn tree_line(alloc: Global, word: &str, name: &str, tree: &Literal) -> Result<String, AllocError> {
    let tree = tree_text(alloc, tree)?;
    format!(in alloc; "{word} {name} {tree}\n")
}

/// The first line of a commit with a stamp.
fn stamp_line(alloc: Global, stamp: &Stamp) -> Result<String, AllocError> {
    let curator = label_text(alloc, &stamp.curator)?;
    format!(in alloc; "stamped {} {}\n", curator, stamp.moment)
}

/// The lines of a commit, by the first of them.
fn commit_lines(
    alloc: Global,
    first: Result<String, AllocError>,
    ops: &OpList,
    records: &PackedRecords,
) -> Result<String, AllocError> {
    let mut lines = first?;
    add_changes(alloc, ops, records, &mut lines)?;
    Ok(lines)
}

/// The lines of an entry.
pub(crate) fn entry_lines(alloc: Global, entry: &Entry) -> Result<String, AllocError> {
    match entry {
        Entry::Start { kind, tree } => tree_line(alloc, "start", kind_word(*kind), tree),
        Entry::Load { name, tree } => tree_line(alloc, "load", name.as_str(), tree),
        Entry::Commit { ops, records } => {
            commit_lines(alloc, "commit\n".to_string(alloc), ops, records)
        }
        Entry::Stamped {
            stamp,
            ops,
            records,
        } => commit_lines(alloc, stamp_line(alloc, stamp), ops, records),
    }
}
