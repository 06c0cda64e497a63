ghost use Rattle.std.specs.Prelude.{◌≡◌, true, false, OnOk, OnErr};
ghost use Rattle.std.specs.declared.option.Option.TheVariants.{Some};
ghost use Rattle.cp_model.specs.Place.{child};
ghost use Rattle.cp_model.specs.Keyed.{get, entries};
ghost use Rattle.cp_model.specs.Subtrees.{is_there, with_subtree};
ghost use Rattle.cp_model.specs.Tree.{IsRooted, IsTree};
ghost use Rattle.cp_model.specs.declared.row.Content.TheVariants.{Node};
ghost use Rattle.cp_tree.proofs.Alike.{IsTree-prop};
ghost use Rattle.cp_tree.specs.Branch.{sub};
ghost use Rattle.cp_tree_box.specs.Tallies.{IsTallyOf, IsTallyOf-prop};

use crate::build::build;
use crate::node::{BoxNode, copy_content, number_range};
use crate::reach::reach_of;
use crate::spot::Spot;
use crate::tally::Tally;
use cp_model::{Content, Row, RowList};
use cp_path::{Label, Path};
use cp_tree::{Reach, TreeRep};
use std::alloc::{AllocError, Global};

/// A tree whose nodes own the nodes below them, each with its siblings in order of their labels.
///
/// A change costs its way down, with a search among siblings for each label, and the subtrees that come and go.
/// The count, the weight and the reach of the whole tree are kept.
#[derive(Drop)]
pub struct BoxTree {
    root: BoxNode,
    tally: Tally,
    ghost tree: { IsTree root } by { IsTree-prop root },
    ghost tallied: { IsTallyOf tally root } by { IsTallyOf-prop tally root },
}

impl BoxTree {
    /// Adds a subtree at a new label.
    fn insert(&mut self, place: &[Label], label: &Label, new: BoxNode) -> Result<(), AllocError>
        requires node { get self.old.root place.now ≡ Some Node }
        requires free { is_there self.old.root (child place.now label.now) ≡ false }
        requires rooted { IsRooted new }
        requires fits { IsTree (with_subtree (child place.now label.now) (entries new) self.old.root) }
        ensures ok { OnOk result (self.new.root ≡ with_subtree (child place.now label.now) (entries new) self.old.root) }
        ensures err { OnErr result (self.new.root ≡ self.old.root) }
    {
        let at = Spot::root().below(place).child(label);
        self.root.insert(place, label, new)?;
        match self.root.find_child(place, label) {
            Some(child) => self.tally.add(at, child),
            None => unreachable!(),
        }
        Ok(())
    }

    /// Replaces the subtree at the place by `new`.
    fn swap(&mut self, place: &[Label], new: BoxNode)
        requires there { is_there self.old.root place.now ≡ true }
        requires rooted { IsRooted new }
        requires fits { IsTree (with_subtree place.now (entries new) self.old.root) }
        ensures { self.new.root ≡ with_subtree place.now (entries new) self.old.root }
    {
        let at = Spot::root().below(place);
        self.tally.add(at, &new);
        let old = self.root.swap(place, new);
        self.tally.subtract(at, &old);
    }

    /// Finds the node at a place that is there.
    fn node(&self, place: &[Label]) -> &BoxNode
        requires { is_there self.now.root place.now ≡ true }
        ensures at { result.now ≡ sub self.now.root place.now }
        ensures rooted { IsRooted result.now }
    {
        match self.root.find(place) {
            Some(node) => node,
            None => unreachable!(),
        }
    }
}

impl TreeRep for BoxTree {
    ghost contents = { λ t. t.root };

    fn single(alloc: Global, content: &Content) -> Result<BoxTree, AllocError> {
        number_range(content);
        let root = BoxNode::leaf(alloc, copy_content(content)?);
        let mut tally = Tally::new(alloc)?;
        tally.add(Spot::root(), &root);
        Ok(BoxTree { root, tally })
    }

    fn is_there(&self, place: &Path) -> bool {
        self.root.find(place.labels()).is_some()
    }

    fn is_node(&self, place: &Path) -> bool {
        match self.root.find(place.labels()) {
            Some(node) => node.is_node(),
            None => false,
        }
    }

    fn has_child(&self, place: &Path, label: &Label) -> bool {
        self.root.find_child(place.labels(), label).is_some()
    }

    fn content_at(&self, _alloc: Global, place: &Path) -> Result<Option<Content>, AllocError> {
        match self.root.find(place.labels()) {
            Some(node) => Ok(Some(copy_content(&node.content)?)),
            None => Ok(None),
        }
    }

    /// Lists the labels below a node. Costs their bytes.
    fn labels_of(&self, alloc: Global, place: &Path) -> Result<Vec<Label>, AllocError> {
        self.node(place.labels()).labels(alloc)
    }

    /// Measures the subtree at the place. Costs the subtree, and at the root the numbers that are kept.
    fn reach(&self, place: &Path) -> Reach {
        if place.labels().is_empty() {
            return self.tally.reach();
        }
        reach_of(self.node(place.labels()))
    }

    /// Says nothing of any two places, since it keeps no subtree twice.
    fn are_known_equal(&self, _place: &Path, _other: &Path) -> bool {
        false
    }

    fn insert_leaf(
        &mut self,
        alloc: Global,
        place: &Path,
        label: &Label,
        content: &Content,
    ) -> Result<(), AllocError> {
        let leaf = BoxNode::leaf(alloc, copy_content(content)?);
        self.insert(place.labels(), label, leaf)
    }

    fn insert_rows(
        &mut self,
        alloc: Global,
        place: &Path,
        label: &Label,
        rows: &[Row],
    ) -> Result<(), AllocError> {
        let new = build(alloc, rows)?;
        self.insert(place.labels(), label, new)
    }

    fn remove(&mut self, _alloc: Global, place: &Path, label: &Label) -> Result<(), AllocError> {
        let gone = self.root.remove(place.labels(), label);
        self.tally
            .subtract(Spot::root().below(place.labels()).child(label), &gone);
        Ok(())
    }

    fn put_rows(&mut self, alloc: Global, place: &Path, rows: &[Row]) -> Result<(), AllocError> {
        let new = build(alloc, rows)?;
        self.swap(place.labels(), new);
        Ok(())
    }

    fn copy_inside(&mut self, alloc: Global, from: &Path, place: &Path) -> Result<(), AllocError> {
        let new = self.node(from.labels()).copy(alloc)?;
        self.swap(place.labels(), new);
        Ok(())
    }

    fn rows(&self, alloc: Global, place: &Path) -> Result<RowList, AllocError> {
        let mut items = Vec::new(alloc);
        self.node(place.labels())
            .rows_into(alloc, &mut Vec::new(alloc), &mut items)?;
        Ok(RowList { items })
    }

    fn count(&self) -> u32 {
        self.tally.places
    }

    fn weight(&self) -> u64 {
        self.tally.weight
    }

    fn copy(&self, alloc: Global) -> Result<BoxTree, AllocError> {
        Ok(BoxTree {
            root: self.root.copy(alloc)?,
            tally: self.tally.copy()?,
        })
    }

    ghost is_tree = { λ t. t.tree };
}
