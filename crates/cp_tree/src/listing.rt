//! The rows of a literal tree.
ghost use Rattle.std.specs.Prelude.{◌≡◌, ◌≤◌, ◌+◌, ◌++◌, length, IfOk, OnOk};
ghost use Rattle.cp_model.specs.Subtrees.{entries_under};
ghost use Rattle.cp_model.specs.Literals.{literal_rows};
ghost use Rattle.cp_model.specs.declared.row.Content.TheVariants.{Leaf};
ghost use Rattle.cp_tree.specs.Rows.{entries_in, deepest};

use cp_model::{Content, LitList, Literal, Row};
use cp_path::{LABELS_MAX, Path, Value};
use std::alloc::{AllocError, Global};

/// Copies the value into a leaf. Costs its bytes.
fn leaf_of(value: &Value) -> Result<Content, AllocError>
    ensures { IfOk result (λ c. c ≡ Leaf value.now) }
{
    Ok(Content::Leaf(value.clone()?))
}

/// Adds the rows of the tree, its root being at `at`. Costs their paths.
#[cycle(listing)]
pub(crate) fn list_tree(at: Path, tree: &Literal, rows: &mut Vec<Row>) -> Result<(), AllocError>
    requires shallow { length at + deepest (literal_rows tree.now) ≤ LABELS_MAX }
    ensures { OnOk result (entries_in rows.new.items ≡ entries_in rows.old.items ++ entries_under at (literal_rows tree.now)) }
{
    match tree {
        Literal::Leaf(value) => {
            let content = leaf_of(value)?;
            rows.push(Row { path: at, content })?;
            Ok(())
        }
        Literal::Node(below) => {
            let content = Content::Node;
            rows.push(Row {
                path: at.clone()?,
                content,
            })?;
            list_edges(&at, below, rows)
        }
    }
}

/// Adds the rows below a node at `at`. Costs their paths.
#[cycle(listing)]
fn list_edges(at: &Path, below: &LitList, rows: &mut Vec<Row>) -> Result<(), AllocError>
    requires shallow { length at.now + deepest below.now ≤ LABELS_MAX }
    ensures { OnOk result (entries_in rows.new.items ≡ entries_in rows.old.items ++ entries_under at.now below.now) }
{
    for edge in &below.items {
        let path = at.child(&edge.label)?;
        list_tree(path, &edge.tree, rows)?;
    }
    Ok(())
}
