ghost use Rattle.std.specs.Prelude.{◌≡◌, ◌≤◌, ◌<◌, ◌+◌, IfOk, OnOk, length};
ghost use Rattle.std.specs.declared.option.Option.TheVariants.{Some};
ghost use Rattle.cp_model.specs.declared.limits.TheConstants.{NODES_MAX};
ghost use Rattle.cp_model.specs.Place.{Label, Path, child};
ghost use Rattle.cp_model.specs.Keyed.{get};
ghost use Rattle.cp_model.specs.Subtrees.{with_subtree};
ghost use Rattle.cp_model.specs.Tree.{text_bytes};
ghost use Rattle.cp_model.specs.History.{IsLiteral};
ghost use Rattle.cp_model.specs.declared.row.Content.TheVariants.{Node};
ghost use Rattle.cp_tree.specs.Rows.{tree_of_rows, entries_in, root_entries};
ghost use Rattle.cp_tree_rows.specs.Branches.{tree_in};

use crate::branch::RowBranch;
use cp_model::Row;
use cp_path::TEXT_MAX;
use cp_tree::SharedContent;
use std::alloc::{AllocError, Global};

/// Adds a row whose parent is there. Costs a search for its place.
fn add_row(alloc: Global, tree: &mut RowBranch, row: &Row) -> Result<(), AllocError>
    requires deep { 0 < length row.now.path }
    requires parent { (p : Path) (a : Label) → row.now.path ≡ child p a → get (tree_in tree.old) p ≡ Some Node }
    requires text { text_bytes row.now.content ≤ TEXT_MAX }
    requires room { length tree.old.rows.items ≤ NODES_MAX }
    ensures added { OnOk result (tree_in tree.new ≡ with_subtree row.now.path (root_entries row.now.content) (tree_in tree.old)) }
    ensures few { length tree.new.rows.items ≤ length tree.old.rows.items + 1 }
{
    let item = SharedContent::of(alloc, &row.content)?;
    match row.path.labels().split_last() {
        None => unreachable!(),
        Some((label, parent)) => tree.put_leaf(alloc, parent, label, item),
    }
}

/// Builds the tree of these rows, which come in order. Costs the labels of their paths.
pub(crate) fn build(alloc: Global, rows: &[Row]) -> Result<RowBranch, AllocError>
    requires literal { IsLiteral (entries_in rows.now) }
    requires few { length rows.now ≤ NODES_MAX }
    ensures { IfOk result (λ t. tree_in t ≡ tree_of_rows rows.now) }
{
    match rows.split_first() {
        None => unreachable!(),
        Some((first, rest)) => {
            let mut tree = RowBranch::leaf(alloc, SharedContent::of(alloc, &first.content)?);
            for row in rest {
                add_row(alloc, &mut tree, row)?;
            }
            Ok(tree)
        }
    }
}
