ghost use Rattle.std.specs.Prelude.{◌≡◌, T, IfSome, IfNone, MatchResult};
ghost use Rattle.std.specs.declared.option.Option.TheVariants.{None, Some};
ghost use Rattle.std.specs.FinMap.Entries.{find};
ghost use Rattle.cp_path.specs.Text.{text_cmp};
ghost use Rattle.cp_model.specs.Keyed.{get};
ghost use Rattle.cp_tree.specs.Branch.{sub};
ghost use Rattle.cp_tree_rows.specs.Forest.{edges, nests, is_part, points_to_last, tree_of, SortedRows};
ghost use Rattle.cp_tree_rows.specs.Spots.{IsChild, IsGap};

use crate::row::TreeRow;
use cp_path::Label;
use cp_tree::SharedContent;
use std::cmp::Ordering;

/// Finds the row of the child with the label among these siblings and what lies below them, or else where it would
/// stand. Costs the siblings before it.
fn scan(rows: &[TreeRow], label: &Label) -> Result<usize, usize>
    requires nested { T (nests rows.now) }
    requires sorted { SortedRows rows.now }
    ensures { MatchResult result (IsChild rows.now label.now) (IsGap rows.now label.now) }
{
    let mut at = 0;
    while at < rows.len() {
        let row = &rows[at];
        match row.label.order_of(label) {
            Ordering::Less => return Err(at),
            Ordering::Equal => return Ok(at),
            Ordering::Greater => at += 1 + row.below as usize,
        }
    }
    Err(at)
}

/// Finds the row of the child with the label, or else where it would stand. The last child, or a place after it, is
/// found at once where `last` points to it; else it costs the siblings before it.
pub(crate) fn child(rows: &[TreeRow], last: u32, label: &Label) -> Result<usize, usize>
    requires nested { T (nests rows.now) }
    requires sorted { SortedRows rows.now }
    requires points { T (points_to_last nests last rows.now) }
    ensures { MatchResult result (IsChild rows.now label.now) (IsGap rows.now label.now) }
{
    if last > 0 {
        let at = last as usize - 1;
        let row = &rows[at];
        match row.label.order_of(label) {
            Ordering::Less => {}
            Ordering::Equal => return Ok(at),
            Ordering::Greater => return Err(rows.len()),
        }
    }
    scan(rows, label)
}

/// What stands at a place, where its last child is, and the rows below it.
#[derive(Clone, Copy)]
pub(crate) struct Part<'a> {
    pub(crate) item: &'a SharedContent,
    pub(crate) last: u32,
    pub(crate) rows: &'a [TreeRow],
}

/// Finds the child with the label. Costs the siblings before it, or nothing where it is the last that is known.
pub(crate) fn find_child<'a>(part: Part<'a>, label: &Label) -> Option<Part<'a>>
    requires part { T (is_part part.item.now part.last part.rows.now) }
    ensures part { IfSome result (λ n. T (is_part n.item.now n.last n.rows.now)) }
    ensures there { IfSome result (λ n. find text_cmp label.now (edges part.entry.rows.now) ≡ Some (tree_of n.item.now n.rows.now)) }
    ensures gone { IfNone result (find text_cmp label.now (edges part.entry.rows.now) ≡ None) }
{
    match child(part.rows, part.last, label) {
        Ok(at) => {
            let row = &part.rows[at];
            let end = at + 1 + row.below as usize;
            let rows = &part.rows[at + 1..end];
            Some(Part {
                item: &row.item,
                last: row.last,
                rows,
            })
        }
        Err(_) => None,
    }
}

/// Finds the subtree at the place. Costs, for each label, what `find_child` costs.
pub(crate) fn find<'a>(part: Part<'a>, place: &[Label]) -> Option<Part<'a>>
    requires part { T (is_part part.item.now part.last part.rows.now) }
    ensures part { IfSome result (λ n. T (is_part n.item.now n.last n.rows.now)) }
    ensures there { IfSome result (λ n. tree_of n.item.now n.rows.now ≡ sub (tree_of part.entry.item.now part.entry.rows.now) place.now) }
    ensures gone { IfNone result (get (tree_of part.entry.item.now part.entry.rows.now) place.now ≡ None) }
{
    match place.split_first() {
        None => Some(part),
        Some((first, rest)) => match find_child(part, first) {
            Some(child) => find(child, rest),
            None => None,
        },
    }
}
