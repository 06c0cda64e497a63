ghost use Rattle.std.specs.Prelude.{◌≡◌, ◌<◌, IfOk, OnOk, length};
ghost use Rattle.std.specs.declared.option.Option.TheVariants.{Some};
ghost use Rattle.cp_model.specs.Place.{Label, Path, child};
ghost use Rattle.cp_model.specs.Keyed.{get};
ghost use Rattle.cp_model.specs.Subtrees.{with_subtree};
ghost use Rattle.cp_model.specs.History.{IsLiteral};
ghost use Rattle.cp_model.specs.declared.row.Content.TheVariants.{Node};
ghost use Rattle.cp_tree.specs.Rows.{tree_of_rows};
ghost use Rattle.cp_tree.specs.Rows.{entries_in, root_entries};

use crate::node::{BoxNode, copy_content};
use cp_model::Row;
use std::alloc::{AllocError, Global};

/// Adds a row whose parent is there. Costs a search among siblings for each label of its path.
fn add_row(alloc: Global, root: &mut BoxNode, row: &Row) -> Result<(), AllocError>
    requires deep { 0 < length row.now.path }
    requires parent { (p : Path) (a : Label) → row.now.path ≡ child p a → get root.old p ≡ Some Node }
    ensures { OnOk result (root.new ≡ with_subtree row.now.path (root_entries row.now.content) root.old) }
{
    match row.path.labels().split_last() {
        None => unreachable!(),
        Some((label, parent)) => {
            let leaf = BoxNode::leaf(alloc, copy_content(&row.content)?);
            root.insert(parent, label, leaf)
        }
    }
}

/// Builds the tree of these rows, which come in order. Costs a search among siblings for each of their labels.
pub(crate) fn build(alloc: Global, rows: &[Row]) -> Result<BoxNode, AllocError>
    requires { IsLiteral (entries_in rows.now) }
    ensures { IfOk result (λ t. t ≡ tree_of_rows rows.now) }
{
    match rows.split_first() {
        None => unreachable!(),
        Some((first, rest)) => {
            let mut root = BoxNode::leaf(alloc, copy_content(&first.content)?);
            for row in rest {
                add_row(alloc, &mut root, row)?;
            }
            Ok(root)
        }
    }
}
