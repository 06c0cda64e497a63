ghost use Rattle.std.specs.Prelude.{◌≡◌, true, OnOk, OnErr};
ghost use Rattle.std.specs.declared.option.Option.TheVariants.{Some};
ghost use Rattle.cp_model.specs.Place.{child};
ghost use Rattle.cp_model.specs.Keyed.{get, entries};
ghost use Rattle.cp_model.specs.Subtrees.{is_there, with_subtree};
ghost use Rattle.cp_model.specs.Tree.{IsRooted, IsTree};
ghost use Rattle.cp_model.specs.declared.row.Content.TheVariants.{Node};
ghost use Rattle.cp_tree.proofs.Alike.{IsTree-prop};
ghost use Rattle.cp_tree.specs.Branch.{sub};

use crate::build::build;
use crate::forest::{Entry, ShareNode};
use cp_model::{Content, Row, RowList};
use cp_path::{Label, Path};
use cp_tree::{Reach, SharedContent, TreeRep, number_range};
use std::alloc::{AllocError, Global};

/// A tree whose nodes are shared: two copies hold what they have in common once.
///
/// A copy costs the same for a tree of any size. A change makes the nodes on its way anew, and of the siblings of each
/// a logarithm; all else stays shared. What isn't shared of those below the root changes in place. Dropping a copy frees
/// what it alone holds. The number of places, the weight and the reach of each subtree are kept.
#[derive(Drop)]
pub struct ShareTree {
    root: ShareNode,
    ghost tree: { IsTree root } by { IsTree-prop root },
}

impl ShareTree {
    /// Puts a subtree at the label below a node, in the place of one that is there or beside the others.
    fn put_child(
        &mut self,
        alloc: Global,
        place: &[Label],
        label: &Label,
        new: ShareNode,
    ) -> Result<(), AllocError>
        requires node { get self.old.root place.now ≡ Some Node }
        requires rooted { IsRooted new }
        requires fits { IsTree (with_subtree (child place.now label.now) (entries new) self.old.root) }
        ensures ok { OnOk result (self.new.root ≡ with_subtree (child place.now label.now) (entries new) self.old.root) }
        ensures err { OnErr result (self.new.root ≡ self.old.root) }
    {
        let entry = Entry::of(alloc, label, new)?;
        self.root.set(alloc, place, &entry)
    }

    /// Puts a subtree in the place of that at the place.
    fn put_at(&mut self, alloc: Global, place: &[Label], new: ShareNode) -> Result<(), AllocError>
        requires there { is_there self.old.root place.now ≡ true }
        requires rooted { IsRooted new }
        requires fits { IsTree (with_subtree place.now (entries new) self.old.root) }
        ensures ok { OnOk result (self.new.root ≡ with_subtree place.now (entries new) self.old.root) }
        ensures err { OnErr result (self.new.root ≡ self.old.root) }
    {
        match place.split_last() {
            None => {
                self.root = new;
                Ok(())
            }
            Some((label, parent)) => self.put_child(alloc, parent, label, new),
        }
    }

    /// Finds the node at a place that is there.
    fn node(&self, place: &[Label]) -> &ShareNode
        requires { is_there self.now.root place.now ≡ true }
        ensures at { result.now ≡ sub self.now.root place.now }
        ensures rooted { IsRooted result.now }
    {
        match self.root.find(place) {
            Some(node) => node,
            None => unreachable!(),
        }
    }
}

impl TreeRep for ShareTree {
    ghost contents = { λ t. t.root };

    fn single(alloc: Global, content: &Content) -> Result<ShareTree, AllocError> {
        number_range(content);
        let root = ShareNode::leaf(SharedContent::of(alloc, content)?);
        Ok(ShareTree { root })
    }

    fn is_there(&self, place: &Path) -> bool {
        self.root.find(place.labels()).is_some()
    }

    fn is_node(&self, place: &Path) -> bool {
        match self.root.find(place.labels()) {
            Some(node) => node.is_node(),
            None => false,
        }
    }

    fn has_child(&self, place: &Path, label: &Label) -> bool {
        self.root.find_child(place.labels(), label).is_some()
    }

    fn content_at(&self, _alloc: Global, place: &Path) -> Result<Option<Content>, AllocError> {
        match self.root.find(place.labels()) {
            Some(node) => Ok(Some(node.to_content()?)),
            None => Ok(None),
        }
    }

    /// Lists the labels below a node. Costs their bytes.
    fn labels_of(&self, alloc: Global, place: &Path) -> Result<Vec<Label>, AllocError> {
        self.node(place.labels()).labels(alloc)
    }

    /// Measures the subtree at the place. Costs the way to it.
    fn reach(&self, place: &Path) -> Reach {
        self.node(place.labels()).reach()
    }

    /// Compares the two subtrees. Costs the places of one at most, where they are equal or differ late.
    fn are_known_equal(&self, place: &Path, other: &Path) -> bool {
        match (
            self.root.find(place.labels()),
            self.root.find(other.labels()),
        ) {
            (Some(node), Some(other)) => node.is_known_equal(other),
            _ => false,
        }
    }

    fn insert_leaf(
        &mut self,
        alloc: Global,
        place: &Path,
        label: &Label,
        content: &Content,
    ) -> Result<(), AllocError> {
        let leaf = ShareNode::leaf(SharedContent::of(alloc, content)?);
        self.put_child(alloc, place.labels(), label, leaf)
    }

    /// Adds a whole tree below a node. Costs its rows, and then one change.
    fn insert_rows(
        &mut self,
        alloc: Global,
        place: &Path,
        label: &Label,
        rows: &[Row],
    ) -> Result<(), AllocError> {
        let new = build(alloc, rows)?;
        self.put_child(alloc, place.labels(), label, new)
    }

    fn remove(&mut self, alloc: Global, place: &Path, label: &Label) -> Result<(), AllocError> {
        self.root.take_out(alloc, place.labels(), label)?;
        Ok(())
    }

    /// Replaces the subtree at the place. Costs the rows, and then one change.
    fn put_rows(&mut self, alloc: Global, place: &Path, rows: &[Row]) -> Result<(), AllocError> {
        let new = build(alloc, rows)?;
        self.put_at(alloc, place.labels(), new)
    }

    /// Replaces the subtree at `place` by that at `from`, which is shared. Costs the two ways.
    fn copy_inside(&mut self, alloc: Global, from: &Path, place: &Path) -> Result<(), AllocError> {
        let new = self.node(from.labels()).share()?;
        self.put_at(alloc, place.labels(), new)
    }

    fn rows(&self, alloc: Global, place: &Path) -> Result<RowList, AllocError> {
        let mut items = Vec::new(alloc);
        self.node(place.labels())
            .rows_into(alloc, &mut Vec::new(alloc), &mut items)?;
        Ok(RowList { items })
    }

    fn count(&self) -> u32 {
        self.root.reach().nodes
    }

    fn weight(&self) -> u64 {
        self.root.reach().inner
    }

    /// Makes an equal tree, which shares all. Costs the same for a tree of any size.
    fn copy(&self, _alloc: Global) -> Result<ShareTree, AllocError> {
        Ok(ShareTree {
            root: self.root.share()?,
        })
    }

    ghost is_tree = { λ t. t.tree };
}
