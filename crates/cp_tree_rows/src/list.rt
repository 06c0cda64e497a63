ghost use Rattle.std.specs.Prelude.{◌≡◌, ◌++◌, [], ◌∷◌, T, map, IfOk, OnOk};
ghost use Rattle.cp_model.specs.Subtrees.{entries_under};
ghost use Rattle.cp_tree.specs.Branch.{child_rows};
ghost use Rattle.cp_tree.specs.Rows.{entry_row};
ghost use Rattle.cp_tree_rows.specs.Forest.{edges, nests};

use crate::row::TreeRow;
use cp_model::Row;
use cp_path::{Label, Path};
use cp_tree::SharedContent;
use std::alloc::{AllocError, Global};

/// Lists the labels of these siblings, in order. Costs their bytes.
pub(crate) fn labels(alloc: Global, rows: &[TreeRow]) -> Result<Vec<Label>, AllocError>
    requires { T (nests rows.now) }
    ensures { IfOk result (λ v. v.items ≡ map (λ e. e.0) (edges rows.now)) }
{
    let mut labels = Vec::new(alloc);
    let mut at = 0;
    while at < rows.len() {
        let row = &rows[at];
        labels.push(Label::copy_of(alloc, row.label.as_str())?)?;
        at = at + 1 + row.below as usize;
    }
    Ok(labels)
}

/// Adds the row of a place. Costs its labels and the bytes of a text.
pub(crate) fn list_place(
    alloc: Global,
    at: &[Label],
    item: &SharedContent,
    out: &mut Vec<Row>,
) -> Result<(), AllocError>
    ensures { OnOk result (out.new.items ≡ out.old.items ++ entry_row (at.now, item.now) ∷ []) }
{
    let content = item.to_content()?;
    let Ok(path) = Path::of(alloc, at) else {
        return Err(AllocError);
    };
    out.push(Row { path, content })?;
    Ok(())
}

/// Adds the rows of these siblings and of all below them, whose parent stands at the place `at`, in order.
pub(crate) fn list_rows(
    alloc: Global,
    rows: &[TreeRow],
    at: &mut Vec<Label>,
    out: &mut Vec<Row>,
) -> Result<(), AllocError>
    requires { T (nests rows.now) }
    ensures rows { OnOk result (out.new.items ≡ out.old.items ++ map entry_row (entries_under at.old.items (child_rows (edges rows.now)))) }
    ensures same_place { OnOk result (at.new.items ≡ at.old.items) }
{
    let mut first = 0;
    while first < rows.len() {
        let row = &rows[first];
        let end = first + 1 + row.below as usize;
        at.push(Label::copy_of(alloc, row.label.as_str())?)?;
        list_place(alloc, at, &row.item, out)?;
        list_rows(alloc, &rows[first + 1..end], at, out)?;
        at.pop();
        first = end;
    }
    Ok(())
}
