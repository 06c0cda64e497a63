ghost use Rattle.std.specs.Prelude.{◌≡◌, T, true, false, IfSome, IfNone, OnOk, OnErr};
ghost use Rattle.std.specs.declared.option.Option.TheVariants.{None, Some};
ghost use Rattle.cp_model.specs.Place.{child};
ghost use Rattle.cp_model.specs.Keyed.{get, entries};
ghost use Rattle.cp_model.specs.Subtrees.{is_there, with_subtree};
ghost use Rattle.cp_model.specs.Tree.{IsTree};
ghost use Rattle.cp_model.specs.declared.row.Content.TheVariants.{Node};
ghost use Rattle.cp_tree.proofs.Alike.{IsTree-prop};
ghost use Rattle.cp_tree.specs.Branch.{sub};
ghost use Rattle.cp_tree_rows.specs.Forest.{is_part, tree_of};
ghost use Rattle.cp_tree_rows.specs.Branches.{tree_in, weight_in};

use crate::branch::RowBranch;
use crate::build::build;
use crate::list::{labels, list_place, list_rows};
use crate::search::{Part, find, find_child};
use cp_model::{Content, PLACE_WEIGHT, Row, RowList};
use cp_path::{Label, Path};
use cp_tree::{Reach, SharedContent, TreeRep, number_range};
use std::alloc::{AllocError, Global};

/// A tree as its rows in the order of their places, a subtree being a stretch of them.
///
/// A row has its label, its content and the number of rows below it, in 56 bytes; a label of more than 16 bytes, a text
/// and a number above 2^63-1 take room beside them. A search costs, for each label of its path, the siblings before it,
/// but nothing at the last child or after it where that child is known. It is, where the last change among the siblings
/// or below one of them was at the last of them.
///
/// So rows that are added in order cost their paths, and move no others. Each other change moves the rows after its
/// place, twice at most. The count and the weight of the whole tree are kept.
#[derive(Drop)]
pub struct RowTree {
    branch: RowBranch,
    weight: u64,
    ghost tree: { IsTree (tree_in branch) } by { IsTree-prop (tree_in branch) },
    ghost weighed: { weight ≡ weight_in branch },
}

impl RowTree {
    /// Finds the subtree at a place that is there.
    fn part(&self, place: &[Label]) -> Part<'_>
        requires { is_there (tree_in self.now.branch) place.now ≡ true }
        ensures part { T (is_part result.item.now result.last result.rows.now) }
        ensures at { tree_of result.item.now result.rows.now ≡ sub (tree_in self.now.branch) place.now }
    {
        match find(self.branch.whole(), place) {
            Some(part) => part,
            None => unreachable!(),
        }
    }

    /// Finds the subtree at the label below the place.
    fn find_below(&self, place: &[Label], label: &Label) -> Option<Part<'_>>
        ensures part { IfSome result (λ n. T (is_part n.item.now n.last n.rows.now)) }
        ensures at { IfSome result (λ n. tree_of n.item.now n.rows.now ≡ sub (tree_in self.now.branch) (child place.now label.now)) }
        ensures gone { IfNone result (get (tree_in self.now.branch) (child place.now label.now) ≡ None) }
    {
        match find(self.branch.whole(), place) {
            Some(part) => find_child(part, label),
            None => None,
        }
    }

    /// Adds a subtree at a new label.
    fn insert(
        &mut self,
        alloc: Global,
        place: &[Label],
        label: &Label,
        new: RowBranch,
    ) -> Result<(), AllocError>
        requires node { get (tree_in self.old.branch) place.now ≡ Some Node }
        requires free { is_there (tree_in self.old.branch) (child place.now label.now) ≡ false }
        requires fits { IsTree (with_subtree (child place.now label.now) (entries (tree_in new)) (tree_in self.old.branch)) }
        ensures ok { OnOk result (tree_in self.new.branch ≡ with_subtree (child place.now label.now) (entries (tree_in new)) (tree_in self.old.branch)) }
        ensures err { OnErr result (tree_in self.new.branch ≡ tree_in self.old.branch) }
    {
        let added = new.whole().weight() + label.as_str().len() as u64;
        self.branch.put(alloc, place, label, new)?;
        self.weight += added;
        Ok(())
    }

    /// Replaces the subtree at a place by `new`.
    fn swap(&mut self, alloc: Global, place: &[Label], new: RowBranch) -> Result<(), AllocError>
        requires there { is_there (tree_in self.old.branch) place.now ≡ true }
        requires fits { IsTree (with_subtree place.now (entries (tree_in new)) (tree_in self.old.branch)) }
        ensures ok { OnOk result (tree_in self.new.branch ≡ with_subtree place.now (entries (tree_in new)) (tree_in self.old.branch)) }
        ensures err { OnErr result (tree_in self.new.branch ≡ tree_in self.old.branch) }
    {
        let added = new.whole().weight();
        match place.split_last() {
            None => {
                self.branch = new;
                self.weight = added;
            }
            Some((label, parent)) => {
                let gone = self.part(place).weight();
                self.branch.put(alloc, parent, label, new)?;
                self.weight = self.weight + added - gone;
            }
        }
        Ok(())
    }
}

impl TreeRep for RowTree {
    ghost contents = { λ t. tree_in t.branch };

    fn single(alloc: Global, content: &Content) -> Result<RowTree, AllocError> {
        number_range(content);
        let branch = RowBranch::leaf(alloc, SharedContent::of(alloc, content)?);
        let weight = branch.whole().weight();
        Ok(RowTree { branch, weight })
    }

    fn is_there(&self, place: &Path) -> bool {
        find(self.branch.whole(), place.labels()).is_some()
    }

    fn is_node(&self, place: &Path) -> bool {
        match find(self.branch.whole(), place.labels()) {
            Some(part) => part.item.is_node(),
            None => false,
        }
    }

    fn has_child(&self, place: &Path, label: &Label) -> bool {
        self.find_below(place.labels(), label).is_some()
    }

    fn content_at(&self, _alloc: Global, place: &Path) -> Result<Option<Content>, AllocError> {
        match find(self.branch.whole(), place.labels()) {
            Some(part) => Ok(Some(part.item.to_content()?)),
            None => Ok(None),
        }
    }

    /// Lists the labels below a node. Costs them, and their bytes.
    fn labels_of(&self, alloc: Global, place: &Path) -> Result<Vec<Label>, AllocError> {
        labels(alloc, self.part(place.labels()).rows)
    }

    /// Measures the subtree at the place. Costs its rows.
    fn reach(&self, place: &Path) -> Reach {
        self.part(place.labels()).reach()
    }

    /// Says nothing of any two places, since it keeps no subtree twice.
    fn are_known_equal(&self, _place: &Path, _other: &Path) -> bool {
        false
    }

    /// Adds a place without children below a node. Costs the search, and moves the rows after the place.
    fn insert_leaf(
        &mut self,
        alloc: Global,
        place: &Path,
        label: &Label,
        content: &Content,
    ) -> Result<(), AllocError> {
        let item = SharedContent::of(alloc, content)?;
        let added = PLACE_WEIGHT + label.as_str().len() as u64 + item.text_bytes() as u64;
        self.branch.put_leaf(alloc, place.labels(), label, item)?;
        self.weight += added;
        Ok(())
    }

    fn insert_rows(
        &mut self,
        alloc: Global,
        place: &Path,
        label: &Label,
        rows: &[Row],
    ) -> Result<(), AllocError> {
        let new = build(alloc, rows)?;
        self.insert(alloc, place.labels(), label, new)
    }

    fn remove(&mut self, _alloc: Global, place: &Path, label: &Label) -> Result<(), AllocError> {
        match self.find_below(place.labels(), label) {
            Some(part) => {
                let gone = part.weight() + label.as_str().len() as u64;
                self.branch.cut(place.labels(), label);
                self.weight -= gone;
            }
            None => unreachable!(),
        }
        Ok(())
    }

    fn put_rows(&mut self, alloc: Global, place: &Path, rows: &[Row]) -> Result<(), AllocError> {
        let new = build(alloc, rows)?;
        self.swap(alloc, place.labels(), new)
    }

    /// Replaces a subtree by a copy of another. Costs the copy's rows, and moves the rows after the place.
    fn copy_inside(&mut self, alloc: Global, from: &Path, place: &Path) -> Result<(), AllocError> {
        let new = RowBranch::copy_of(alloc, self.part(from.labels()))?;
        self.swap(alloc, place.labels(), new)
    }

    fn rows(&self, alloc: Global, place: &Path) -> Result<RowList, AllocError> {
        let part = self.part(place.labels());
        let mut items = Vec::new(alloc);
        let mut at = Vec::new(alloc);
        list_place(alloc, &at, part.item, &mut items)?;
        list_rows(alloc, part.rows, &mut at, &mut items)?;
        Ok(RowList { items })
    }

    fn count(&self) -> u32 {
        self.branch.rows.len() as u32 + 1
    }

    fn weight(&self) -> u64 {
        self.weight
    }

    fn copy(&self, alloc: Global) -> Result<RowTree, AllocError> {
        Ok(RowTree {
            branch: RowBranch::copy_of(alloc, self.branch.whole())?,
            weight: self.weight,
        })
    }

    ghost is_tree = { λ t. t.tree };
}
