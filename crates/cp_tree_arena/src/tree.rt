ghost use Rattle.std.specs.Prelude.{◌≡◌, true, false, IfOk, OnOk, OnErr};
ghost use Rattle.std.specs.declared.option.Option.TheVariants.{Some};
ghost use Rattle.cp_model.specs.Place.{child};
ghost use Rattle.cp_model.specs.Keyed.{get};
ghost use Rattle.cp_model.specs.Subtrees.{is_there, with_subtree, without};
ghost use Rattle.cp_model.specs.Tree.{IsTree};
ghost use Rattle.cp_model.specs.History.{IsLiteral};
ghost use Rattle.cp_model.specs.declared.row.Content.TheVariants.{Node};
ghost use Rattle.cp_tree.proofs.Alike.{IsTree-prop};
ghost use Rattle.cp_tree.specs.Branch.{sub};
ghost use Rattle.cp_tree.specs.Rows.{single, entries_in, root_entries, tree_of_rows};
ghost use Rattle.cp_tree.specs.Sums.{IsSmall};
ghost use Rattle.cp_tree_arena.specs.Kept.{tree_at, IsNodeAt};

use crate::change::{put, remove};
use crate::node::ArenaNode;
use crate::pool::Pool;
use crate::slot::SlotId;
use cp_model::{Content, Row, RowList};
use cp_path::{Label, Path};
use cp_tree::{Reach, SharedContent, TreeRep, number_range};
use std::alloc::{AllocError, Global};
use std::marker::Model;

/// What stands at the root, the root of its children's tree, and the slots that hold them.
#[derive(Drop)]
pub(crate) struct Arena {
    pub(crate) content: SharedContent,
    pub(crate) children: SlotId,
    pub(crate) pool: Pool,
}

/// A tree in numbered slots of 80 bytes each, which are taken again after they came free.
///
/// The number of places, the weight and the reach of each subtree are kept. A change costs a logarithm among siblings for
/// each label of its way, and moves no node.
#[derive(Drop)]
pub struct ArenaTree {
    arena: Arena,
    ghost tree: { IsTree arena } by { IsTree-prop arena },
}

impl Model for Arena {
    ghost use Rattle.cp_model.specs.Codes.{content_code};
    ghost use Rattle.cp_model.specs.Keyed.{code};
    ghost use Rattle.cp_model.specs.Tree.{Tree};

    ghost Value = { Tree };

    ghost coded = { code content_code };

    ghost use Rattle.cp_tree_arena.specs.Arenas.{tree_inside, IsArena};

    ghost view = { tree_inside };

    ghost invariant = { IsArena };
}

impl Arena {
    /// Makes a root alone.
    pub(crate) fn leaf(alloc: Global, content: SharedContent) -> Arena
        ensures { result ≡ single content }
    {
        Arena {
            content,
            children: SlotId::none(),
            pool: Pool::new(alloc),
        }
    }

    /// Gives the root.
    pub(crate) fn root(&self) -> ArenaNode<'_>
        ensures tree { tree_at result.slots.now result.content.now result.children.number ≡ self.now }
        ensures node { IsNodeAt result.slots.now result.content.now result.children.number }
    {
        ArenaNode {
            slots: self.pool.slots.as_slice(),
            content: &self.content,
            children: self.children,
        }
    }

    /// Adds a place without children below a node. Costs a logarithm among siblings for each label of the place.
    pub(crate) fn put_leaf(
        &mut self,
        alloc: Global,
        place: &[Label],
        label: &Label,
        content: SharedContent,
    ) -> Result<(), AllocError>
        requires node { get self.old place.now ≡ Some Node }
        requires free { is_there self.old (child place.now label.now) ≡ false }
        requires small { IsSmall (with_subtree (child place.now label.now) (root_entries content) self.old) }
        ensures ok { OnOk result (self.new ≡ with_subtree (child place.now label.now) (root_entries content) self.old) }
        ensures err { OnErr result (self.new ≡ self.old) }
    {
        let new = self.pool.add_node(alloc, label, content, SlotId::none())?;
        self.children = put(&mut self.pool.slots, self.children, place, new);
        Ok(())
    }

    /// Adds a tree, given as its rows, at the label below a node.
    pub(crate) fn put_rows(
        &mut self,
        alloc: Global,
        place: &[Label],
        label: &Label,
        rows: &[Row],
    ) -> Result<(), AllocError>
        requires node { get self.old place.now ≡ Some Node }
        requires free { is_there self.old (child place.now label.now) ≡ false }
        requires rows { IsLiteral (entries_in rows.now) }
        requires fits { IsTree (with_subtree (child place.now label.now) (entries_in rows.now) self.old) }
        ensures ok { OnOk result (self.new ≡ with_subtree (child place.now label.now) (entries_in rows.now) self.old) }
        ensures err { OnErr result (self.new ≡ self.old) }
    {
        let new = self.pool.add_rows(alloc, label, rows)?;
        self.children = put(&mut self.pool.slots, self.children, place, new);
        Ok(())
    }

    /// Takes out what stands at the label below the place, and frees it. Costs its places.
    pub(crate) fn remove(&mut self, place: &[Label], label: &Label)
        requires there { is_there self.old (child place.now label.now) ≡ true }
        requires small { IsSmall (without (child place.now label.now) self.old) }
        ensures { self.new ≡ without (child place.now label.now) self.old }
    {
        let removal = remove(&mut self.pool.slots, self.children, place, label);
        self.children = removal.root;
        self.pool.release_node(removal.gone);
    }

    /// Replaces what stands at the label below the place by the tree of these rows. Costs both.
    pub(crate) fn exchange(
        &mut self,
        alloc: Global,
        place: &[Label],
        label: &Label,
        rows: &[Row],
    ) -> Result<(), AllocError>
        requires node { get self.old place.now ≡ Some Node }
        requires there { is_there self.old (child place.now label.now) ≡ true }
        requires rows { IsLiteral (entries_in rows.now) }
        requires fits { IsTree (with_subtree (child place.now label.now) (entries_in rows.now) self.old) }
        ensures ok { OnOk result (self.new ≡ with_subtree (child place.now label.now) (entries_in rows.now) self.old) }
        ensures err { OnErr result (self.new ≡ self.old) }
    {
        let new = self.pool.add_rows(alloc, label, rows)?;
        let removal = remove(&mut self.pool.slots, self.children, place, label);
        self.children = put(&mut self.pool.slots, removal.root, place, new);
        self.pool.release_node(removal.gone);
        Ok(())
    }

    /// Replaces the whole tree by that of these rows. Costs both.
    pub(crate) fn replace(&mut self, alloc: Global, rows: &[Row]) -> Result<(), AllocError>
        requires rows { IsLiteral (entries_in rows.now) }
        requires small { IsSmall (tree_of_rows rows.now) }
        ensures ok { OnOk result (self.new ≡ tree_of_rows rows.now) }
        ensures err { OnErr result (self.new ≡ self.old) }
    {
        match rows.split_first() {
            None => unreachable!(),
            Some((first, rest)) => {
                let content = SharedContent::of(alloc, &first.content)?;
                let children = self.pool.build(alloc, first, rest)?;
                self.pool.release(self.children);
                self.children = children;
                self.content = content;
                Ok(())
            }
        }
    }

    /// Makes an equal tree. Costs its slots.
    pub(crate) fn copy(&self, alloc: Global) -> Result<Arena, AllocError>
        ensures { IfOk result (λ a. a ≡ self.now) }
    {
        Ok(Arena {
            content: self.content.share()?,
            children: self.children,
            pool: self.pool.copy(alloc)?,
        })
    }
}

impl ArenaTree {
    /// Finds the node at a place that is there.
    fn node(&self, place: &[Label]) -> ArenaNode<'_>
        requires { is_there self.now.arena place.now ≡ true }
        ensures at { tree_at result.slots.now result.content.now result.children.number ≡ sub self.now.arena place.now }
        ensures node { IsNodeAt result.slots.now result.content.now result.children.number }
    {
        match self.arena.root().find(place) {
            Some(node) => node,
            None => unreachable!(),
        }
    }
}

impl TreeRep for ArenaTree {
    ghost contents = { λ t. t.arena };

    fn single(alloc: Global, content: &Content) -> Result<ArenaTree, AllocError> {
        number_range(content);
        let content = SharedContent::of(alloc, content)?;
        Ok(ArenaTree {
            arena: Arena::leaf(alloc, content),
        })
    }

    fn is_there(&self, place: &Path) -> bool {
        self.arena.root().find(place.labels()).is_some()
    }

    fn is_node(&self, place: &Path) -> bool {
        match self.arena.root().find(place.labels()) {
            Some(node) => node.content.is_node(),
            None => false,
        }
    }

    fn has_child(&self, place: &Path, label: &Label) -> bool {
        match self.arena.root().find(place.labels()) {
            Some(node) => node.child(label).is_some(),
            None => false,
        }
    }

    fn content_at(&self, _alloc: Global, place: &Path) -> Result<Option<Content>, AllocError> {
        match self.arena.root().find(place.labels()) {
            Some(node) => Ok(Some(node.content.to_content()?)),
            None => Ok(None),
        }
    }

    fn labels_of(&self, alloc: Global, place: &Path) -> Result<Vec<Label>, AllocError> {
        self.node(place.labels()).labels(alloc)
    }

    fn reach(&self, place: &Path) -> Reach {
        self.node(place.labels()).reach()
    }

    /// Says nothing of any two places, since it keeps no subtree twice.
    fn are_known_equal(&self, _place: &Path, _other: &Path) -> bool {
        false
    }

    fn insert_leaf(
        &mut self,
        alloc: Global,
        place: &Path,
        label: &Label,
        content: &Content,
    ) -> Result<(), AllocError> {
        let content = SharedContent::of(alloc, content)?;
        self.arena.put_leaf(alloc, place.labels(), label, content)
    }

    fn insert_rows(
        &mut self,
        alloc: Global,
        place: &Path,
        label: &Label,
        rows: &[Row],
    ) -> Result<(), AllocError> {
        self.arena.put_rows(alloc, place.labels(), label, rows)
    }

    fn remove(&mut self, _alloc: Global, place: &Path, label: &Label) -> Result<(), AllocError> {
        self.arena.remove(place.labels(), label);
        Ok(())
    }

    fn put_rows(&mut self, alloc: Global, place: &Path, rows: &[Row]) -> Result<(), AllocError> {
        match place.labels().split_last() {
            None => self.arena.replace(alloc, rows),
            Some((label, parent)) => self.arena.exchange(alloc, parent, label, rows),
        }
    }

    fn copy_inside(&mut self, alloc: Global, from: &Path, place: &Path) -> Result<(), AllocError> {
        let rows = self.node(from.labels()).rows(alloc)?;
        self.put_rows(alloc, place, rows.as_slice())
    }

    fn rows(&self, alloc: Global, place: &Path) -> Result<RowList, AllocError> {
        Ok(RowList {
            items: self.node(place.labels()).rows(alloc)?,
        })
    }

    fn count(&self) -> u32 {
        self.arena.root().reach().nodes
    }

    fn weight(&self) -> u64 {
        self.arena.root().reach().inner
    }

    fn copy(&self, alloc: Global) -> Result<ArenaTree, AllocError> {
        Ok(ArenaTree {
            arena: self.arena.copy(alloc)?,
        })
    }

    ghost is_tree = { λ t. t.tree };
}
