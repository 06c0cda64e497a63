ghost use Rattle.std.specs.Prelude.{◌^◌, ◌≡◌, ◌≤◌, ◌<◌, T};
ghost use Rattle.cp_path.specs.declared.limits.TheConstants.{LABELS_MAX, LOC_MAX};
ghost use Rattle.cp_model.specs.Keyed.{entries, len};
ghost use Rattle.cp_model.specs.Tree.{weight};
ghost use Rattle.cp_tree.specs.Branch.{child_rows};
ghost use Rattle.cp_tree.specs.Rows.{deepest, reach_of};
ghost use Rattle.cp_tree_rows.specs.Forest.{edges, nests, is_part, tree_of, rows_weight};
ghost use Rattle.cp_tree.specs.Sums.{largest};

use crate::row::TreeRow;
use crate::search::Part;
use cp_model::PLACE_WEIGHT;
use cp_tree::Reach;

/// Sums up what the rows weigh. Costs their number.
pub(crate) fn weigh(rows: &[TreeRow]) -> u64
    requires { rows_weight rows.now < 2 ^ 64 }
    ensures { result ≡ rows_weight rows.now }
{
    let mut weight = 0;
    for row in rows {
        let label = row.label.as_str().len() as u64;
        weight += PLACE_WEIGHT + label + row.item.text_bytes() as u64;
    }
    weight
}

/// How many labels, and how many of their bytes with 1 for each, some rows have below their parent at most.
#[derive(Clone, Copy)]
struct Extent {
    depth: u32,
    size: u32,
}

/// Finds how far the rows lie below their parent. Costs their number.
fn extent_of(rows: &[TreeRow]) -> Extent
    requires nested { T (nests rows.now) }
    requires few { deepest (child_rows (edges rows.now)) ≤ LABELS_MAX }
    requires short { largest (child_rows (edges rows.now)) ≤ LOC_MAX }
    ensures depth { result.depth ≡ deepest (child_rows (edges rows.now)) }
    ensures size { result.size ≡ largest (child_rows (edges rows.now)) }
{
    let mut depth = 0;
    let mut size = 0;
    let mut at = 0;
    while at < rows.len() {
        let row = &rows[at];
        let label = row.label.as_str().len() as u32;
        let end = at + 1 + row.below as usize;
        let inner = extent_of(&rows[at + 1..end]);
        depth = depth.max(1 + inner.depth);
        size = size.max(label + 1 + inner.size);
        at = end;
    }
    Extent { depth, size }
}

impl Part<'_> {
    /// Weighs the subtree, without the label of its root. Costs its rows.
    pub(crate) fn weight(self) -> u64
        requires part { T (is_part self.item.now self.last self.rows.now) }
        requires light { weight (tree_of self.item.now self.rows.now) < 2 ^ 64 }
        ensures { result ≡ weight (tree_of self.entry.item.now self.entry.rows.now) }
    {
        PLACE_WEIGHT + self.item.text_bytes() as u64 + weigh(self.rows)
    }

    /// Measures how far the subtree reaches. Costs its rows.
    pub(crate) fn reach(self) -> Reach
        requires part { T (is_part self.item.now self.last self.rows.now) }
        requires few { deepest (entries (tree_of self.item.now self.rows.now)) ≤ LABELS_MAX }
        requires short { largest (entries (tree_of self.item.now self.rows.now)) ≤ LOC_MAX }
        requires light { weight (tree_of self.item.now self.rows.now) < 2 ^ 64 }
        requires count { len (tree_of self.item.now self.rows.now) < 2 ^ 32 }
        ensures { result ≡ reach_of (entries (tree_of self.entry.item.now self.entry.rows.now)) }
    {
        let extent = extent_of(self.rows);
        Reach {
            nodes: self.rows.len() as u32 + 1,
            inner: self.weight(),
            depth: extent.depth,
            size: extent.size,
        }
    }
}
