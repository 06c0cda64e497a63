ghost use Rattle.std.specs.Prelude.{◌≡◌, ◌≤◌, ◌++◌, [], ◌∷◌, IfOk, OnOk};
ghost use Rattle.cp_model.specs.History.{IsLiteral};
ghost use Rattle.cp_model.specs.Tree.{text_bytes};
ghost use Rattle.cp_tree.specs.Rows.{entries_in, tree_of_rows};
ghost use Rattle.cp_tree.specs.Sums.{IsSmall};
ghost use Rattle.cp_tree_share.specs.Reading.{AreShort, HaveEdges, HaveTree, HaveEdge, AreRead, IsRead, IsEdgeRead};

use crate::forest::{Entry, Forest, ShareNode};
use cp_model::{Content, Row};
use cp_path::{Label, TEXT_MAX};
use cp_tree::{SharedContent, SharedLabel};
use std::alloc::{AllocError, Global};

/// Reads the edges below a place of this many labels, and puts them behind the entries. Gives the rows after them. Costs
/// the rows that it reads; its calls nest once for each label of a path. After an error the entries are of no use.
#[cycle(reading)]
fn read_edges<'a>(
    alloc: Global,
    depth: usize,
    rows: &'a [Row],
    entries: &mut Vec<Entry>,
) -> Result<&'a [Row], AllocError>
    requires edges { HaveEdges depth rows.now }
    requires texts { AreShort rows.now }
    ensures { IfOk result (λ left. AreRead depth rows.now entries.old.items entries.new.items left.now) }
{
    let mut left = rows;
    while let Some((row, after)) = left.split_first() {
        if row.path.labels().len() <= depth {
            break;
        }
        left = read_edge(alloc, row, after, entries)?;
    }
    Ok(left)
}

/// Reads the edge that leads to this row, and puts it behind the entries. Gives the rows after its tree.
#[cycle(reading)]
fn read_edge<'a>(
    alloc: Global,
    row: &Row,
    rows: &'a [Row],
    entries: &mut Vec<Entry>,
) -> Result<&'a [Row], AllocError>
    requires edge { HaveEdge row.now rows.now }
    requires text { text_bytes row.now.content ≤ TEXT_MAX }
    requires texts { AreShort rows.now }
    ensures { IfOk result (λ left. IsEdgeRead row.now rows.now entries.old.items entries.new.items left.now) }
{
    let labels = row.path.labels();
    let Some((label, _)) = labels.split_last() else {
        unreachable!()
    };
    let (node, left) = read_node(alloc, labels.len(), &row.content, rows, entries)?;
    entries.push(Entry::of(alloc, label, node)?)?;
    Ok(left)
}

/// Reads the tree of this root, at a place of this many labels; the rows are those after the root's. Gives the rows after
/// the tree. The entries are edges that wait for their siblings, and are afterwards what they were.
#[cycle(reading)]
fn read_node<'a>(
    alloc: Global,
    depth: usize,
    root: &Content,
    rows: &'a [Row],
    entries: &mut Vec<Entry>,
) -> Result<(ShareNode, &'a [Row]), AllocError>
    requires tree { HaveTree depth root.now rows.now }
    requires text { text_bytes root.now ≤ TEXT_MAX }
    requires texts { AreShort rows.now }
    ensures tree { IfOk result (λ r. IsRead depth root.now rows.now r.0 r.1.now) }
    ensures same_entries { IfOk result (λ _. entries.new.items ≡ entries.old.items) }
{
    let before = entries.len();
    let left = read_edges(alloc, depth, rows, entries)?;
    let children = Forest::of_last(alloc, entries, entries.len() - before)?;
    let content = SharedContent::of(alloc, root)?;
    Ok((ShareNode { content, children }, left))
}

/// Builds the tree of these rows, which come in order. Costs the rows, each of which is read once.
pub(crate) fn build(alloc: Global, rows: &[Row]) -> Result<ShareNode, AllocError>
    requires rows { IsLiteral (entries_in rows.now) }
    requires small { IsSmall (tree_of_rows rows.now) }
    ensures { IfOk result (λ t. t ≡ tree_of_rows rows.now) }
{
    match rows.split_first() {
        None => unreachable!(),
        Some((first, rest)) => {
            let mut entries = Vec::new(alloc);
            let (root, _) = read_node(alloc, 0, &first.content, rest, &mut entries)?;
            Ok(root)
        }
    }
}
