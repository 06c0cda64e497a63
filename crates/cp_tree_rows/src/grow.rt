ghost use Rattle.std.specs.Prelude.{◌≡◌, ◌≤◌, ◌<◌, ◌+◌, ◌*◌, [], true, T, length, IfOk, OnOk, OnErr};
ghost use Rattle.std.specs.declared.option.Option.TheVariants.{Some};
ghost use Rattle.cp_model.specs.declared.limits.TheConstants.{NODES_MAX};
ghost use Rattle.cp_model.specs.Place.{child};
ghost use Rattle.cp_model.specs.Keyed.{get, entries};
ghost use Rattle.cp_model.specs.Subtrees.{with_subtree, without};
ghost use Rattle.cp_model.specs.declared.row.Content.TheVariants.{Node};
ghost use Rattle.cp_tree.specs.Rows.{root_entries, single};
ghost use Rattle.cp_tree_rows.specs.Forest.{is_part, tree_of};
ghost use Rattle.cp_tree_rows.specs.Branches.{tree_in};
ghost use Rattle.cp_tree_rows.specs.Spots.{IsPiece, piece_entries};

use crate::branch::RowBranch;
use crate::change::settle;
use crate::row::TreeRow;
use crate::search::Part;
use cp_path::Label;
use cp_tree::{SharedContent, SharedLabel};
use std::alloc::{AllocError, Global};

/// Makes equal rows. Costs their number.
fn copy_rows(alloc: Global, rows: &[TreeRow]) -> Result<Vec<TreeRow>, AllocError>
    ensures { IfOk result (λ v. v.items ≡ rows.now) }
{
    let mut copies = Vec::with_capacity(alloc, rows.len())?;
    for row in rows {
        copies.push(row.share()?)?;
    }
    Ok(copies)
}

/// Makes the rows of a child: its own, and after it those of its tree, which it moves.
fn piece_of(alloc: Global, label: &Label, tree: RowBranch) -> Result<Vec<TreeRow>, AllocError>
    requires { length tree.rows.items ≤ NODES_MAX }
    ensures piece { IfOk result (λ v. IsPiece label.now v.items) }
    ensures entries { IfOk result (λ v. piece_entries v.items ≡ entries (tree_in tree)) }
    ensures count { IfOk result (λ v. length v.items ≡ length tree.rows.items + 1) }
{
    let mut rows = tree.rows;
    let row = TreeRow {
        label: SharedLabel::of(alloc, label)?,
        item: tree.item,
        below: rows.len() as u32,
        last: tree.last,
    };
    rows.insert(0, row)?;
    Ok(rows)
}

impl RowBranch {
    /// Makes a root alone.
    pub(crate) fn leaf(alloc: Global, item: SharedContent) -> RowBranch
        ensures tree { tree_in result ≡ single item }
        ensures none { result.rows.items ≡ [] }
    {
        RowBranch {
            item,
            last: 0,
            rows: Vec::new(alloc),
        }
    }

    /// Copies a subtree. Costs its rows.
    pub(crate) fn copy_of(alloc: Global, part: Part<'_>) -> Result<RowBranch, AllocError>
        requires { T (is_part part.item.now part.last part.rows.now) }
        ensures { IfOk result (λ b. tree_in b ≡ tree_of part.entry.item.now part.entry.rows.now) }
    {
        let rows = copy_rows(alloc, part.rows)?;
        Ok(RowBranch {
            item: part.item.share()?,
            last: part.last,
            rows,
        })
    }

    /// Gives the whole.
    pub(crate) fn whole(&self) -> Part<'_>
        ensures part { T (is_part result.item.now result.last result.rows.now) }
        ensures tree { tree_of result.item.now result.rows.now ≡ tree_in self.now }
    {
        Part {
            item: &self.item,
            last: self.last,
            rows: self.rows.as_slice(),
        }
    }

    /// Puts a place without children at the label below a node, in the place of what stands there. Costs the search,
    /// and moves the rows after that place.
    pub(crate) fn put_leaf(
        &mut self,
        alloc: Global,
        place: &[Label],
        label: &Label,
        item: SharedContent,
    ) -> Result<(), AllocError>
        requires node { get (tree_in self.old) place.now ≡ Some Node }
        requires room { length self.old.rows.items ≤ NODES_MAX }
        ensures ok { OnOk result (tree_in self.new ≡ with_subtree (child place.now label.now) (root_entries item) (tree_in self.old)) }
        ensures err { OnErr result (tree_in self.new ≡ tree_in self.old) }
        ensures few { length self.new.rows.items ≤ length self.old.rows.items + 1 }
    {
        let row = TreeRow {
            label: SharedLabel::of(alloc, label)?,
            item,
            below: 0,
            last: 0,
        };
        let len = self.rows.len();
        self.rows.push(row)?;
        settle(&mut self.rows, &mut self.last, len, place, label);
        Ok(())
    }

    /// Puts a tree at the label below a node, in the place of what stands there. Costs the search and the tree's rows,
    /// and moves the rows after that place.
    pub(crate) fn put(
        &mut self,
        alloc: Global,
        place: &[Label],
        label: &Label,
        new: RowBranch,
    ) -> Result<(), AllocError>
        requires node { get (tree_in self.old) place.now ≡ Some Node }
        requires room { length self.old.rows.items ≤ NODES_MAX }
        requires few { length new.rows.items ≤ NODES_MAX }
        ensures ok { OnOk result (tree_in self.new ≡ with_subtree (child place.now label.now) (entries (tree_in new)) (tree_in self.old)) }
        ensures err { OnErr result (tree_in self.new ≡ tree_in self.old) }
    {
        let mut rows = piece_of(alloc, label, new)?;
        let len = self.rows.len();
        self.rows.append(&mut rows)?;
        settle(&mut self.rows, &mut self.last, len, place, label);
        Ok(())
    }

    /// Takes out what stands at the label below a node. Costs the search, and moves the rows after that place.
    pub(crate) fn cut(&mut self, place: &[Label], label: &Label)
        requires node { get (tree_in self.old) place.now ≡ Some Node }
        requires room { length self.old.rows.items ≤ NODES_MAX }
        ensures { tree_in self.new ≡ without (child place.now label.now) (tree_in self.old) }
    {
        let len = self.rows.len();
        settle(&mut self.rows, &mut self.last, len, place, label);
    }
}
