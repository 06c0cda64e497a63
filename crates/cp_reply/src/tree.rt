ghost use Rattle.std.specs.Prelude.{◌≡◌, ◌≤◌, ◌<◌, ◌+◌, ◌-◌, ◌++◌, ℕ, List, [], ◌∷◌, IfOk, IfSome, IfNone, OnOk, MatchOption, length, take, drop, codes, string_bytes, option_copied};
ghost use Rattle.std.specs.List.{slice_get};
ghost use Rattle.cp_path.specs.Place.{label_eq};
ghost use Rattle.cp_path.specs.Spelling.{value_text, label_text};
ghost use Rattle.cp_model.specs.Trees.{between, groups, tree_at, tree_text};
ghost use Rattle.cp_reply.specs.Runs.{rows_seen, all_seen, leaves, run_length, edge_text, edge_texts, IsNextRun};

use cp_model::{Content, Row};
use cp_path::{LABELS_MAX, Label, Value};
use cp_spelling::{label_text, value_text};
use std::alloc::{AllocError, Global};

/// The first rows below a node, which share their label there, and the rows after them.
#[derive(Clone, Copy)]
struct Run<'a> {
    label: &'a Label,
    rows: &'a [Row],
    after: &'a [Row],
}

/// The row's label below the node that is this many labels down.
fn label_at(row: &Row, depth: usize) -> Option<&Label>
    ensures value { option_copied result ≡ slice_get row.now.path depth }
    ensures deep { IfSome result (λ _. depth < LABELS_MAX) }
{
    row.path.labels().get(depth)
}

/// Whether the row lies below another label of the node.
fn leaves(row: &Row, depth: usize, label: &Label) -> bool
    ensures { result ≡ leaves label.now (rows_seen depth row.now) }
{
    match label_at(row, depth) {
        Some(other) => other != label,
        None => false,
    }
}

/// How many rows stand before the first below another label. Costs these rows.
fn run_length(rows: &[Row], depth: usize, label: &Label) -> usize
    ensures length { result ≡ run_length label.now (all_seen depth rows.now) }
    ensures within { result ≤ length rows.now }
{
    for (index, row) in rows.iter().enumerate() {
        if leaves(row, depth, label) {
            return index;
        }
    }
    rows.len()
}

/// The first run below the node whose rows these are, but for its own. A row that ends above is passed over.
/// Costs the rows up to the run's end.
fn next_run<'a>(rows: &'a [Row], depth: usize) -> Option<Run<'a>>
    ensures none { IfNone result (groups (all_seen depth rows.now) ≡ []) }
    ensures some { IfSome result (λ r. IsNextRun depth rows.now r.label.now r.rows.now r.after.now) }
{
    for (index, row) in rows.iter().enumerate() {
        if let Some(label) = label_at(row, depth) {
            let (_, below) = rows.split_at(index);
            let (run, after) = below.split_at(run_length(below, depth, label));
            return Some(Run {
                label,
                rows: run,
                after,
            });
        }
    }
    None
}

/// Puts what stands before the tree of an edge.
fn push_label(
    alloc: Global,
    text: &mut String,
    separator: &str,
    label: &Label,
) -> Result<(), AllocError>
    ensures { OnOk result (string_bytes text.new ≡ string_bytes text.old ++ (separator.now ++ (label_text label.now ++ codes " : "))) }
{
    let label = label_text(alloc, label)?;
    write!(text, "{separator}{label} : ")
}

fn push_value(alloc: Global, text: &mut String, value: &Value) -> Result<(), AllocError>
    ensures { OnOk result (string_bytes text.new ≡ string_bytes text.old ++ value_text value.now) }
{
    let value = value_text(alloc, value)?;
    text.push_str(value.as_str())
}

/// Puts the edges of a node that is this many labels down. The rows are all of the node's but its own.
#[cycle(level)]
fn push_edges(
    alloc: Global,
    text: &mut String,
    rows: &[Row],
    depth: usize,
) -> Result<(), AllocError>
    requires { depth ≤ LABELS_MAX }
    ensures { OnOk result (string_bytes text.new ≡ string_bytes text.old ++ between (codes ", ") (edge_texts (LABELS_MAX - depth) (all_seen depth rows.now))) }
{
    let mut rest = rows;
    let mut separator = "";
    while let Some(run) = next_run(rest, depth) {
        push_label(alloc, text, separator, run.label)?;
        push_tree(alloc, text, run.rows, depth + 1)?;
        separator = ", ";
        rest = run.after;
    }
    Ok(())
}

/// Puts the tree of these rows, of which the first is that of its root, this many labels down.
/// Costs each row once for each level below the root.
#[cycle(level)]
fn push_tree(alloc: Global, text: &mut String, rows: &[Row], depth: usize) -> Result<(), AllocError>
    requires { depth ≤ LABELS_MAX }
    ensures { OnOk result (string_bytes text.new ≡ string_bytes text.old ++ tree_at (LABELS_MAX + 1 - depth) (all_seen depth rows.now)) }
{
    let Some((root, below)) = rows.split_first() else {
        return Ok(());
    };
    match &root.content {
        Content::Leaf(value) => push_value(alloc, text, value),
        Content::Node => {
            text.push_str("{")?;
            push_edges(alloc, text, below, depth)?;
            text.push_str("}")
        }
    }
}

/// The tree of these rows, as one line of text. Costs each row once for each level above it, and the text a few times.
pub(crate) fn tree_text(alloc: Global, rows: &[Row]) -> Result<String, AllocError>
    ensures { IfOk result (λ s. string_bytes s ≡ tree_text rows.now) }
{
    let mut text = String::new(alloc);
    push_tree(alloc, &mut text, rows, 0)?;
    Ok(text)
}
