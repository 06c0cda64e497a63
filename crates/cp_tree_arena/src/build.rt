ghost use Rattle.std.specs.Prelude.{◌≡◌, ◌≤◌, ◌<◌, ◌++◌, [], ◌∷◌, List, length, false, IfOk, OnErr};
ghost use Rattle.std.specs.declared.option.Option.TheVariants.{Some};
ghost use Rattle.cp_model.specs.Place.{Label, Path, child};
ghost use Rattle.cp_model.specs.Keyed.{get};
ghost use Rattle.cp_model.specs.Subtrees.{with_subtree, is_there};
ghost use Rattle.cp_model.specs.Tree.{text_bytes};
ghost use Rattle.cp_model.specs.History.{IsLiteral};
ghost use Rattle.cp_model.specs.declared.row.Content.TheVariants.{Node};
ghost use Rattle.cp_tree.specs.Branch.{branch};
ghost use Rattle.cp_tree.specs.Rows.{entries_in, root_entries, tree_of_rows};
ghost use Rattle.cp_tree.specs.Sums.{AreChildren, IsSmall};
ghost use Rattle.cp_tree_arena.specs.Shapes.{Cell, Shape, number_of, cells, edges_of, IsSound};
ghost use Rattle.cp_tree_arena.specs.Cells.{IsPool};
ghost use Rattle.cp_tree_arena.specs.Kept.{tree_at, IsNodeAt};
ghost use Rattle.cp_tree_arena.specs.Building.{Added, Built, IsHeld};

use crate::change::put;
use crate::pool::Pool;
use crate::slot::{Links, Slot, SlotId, sums_at};
use cp_model::Row;
use cp_path::{Label, TEXT_MAX};
use cp_tree::{SharedContent, SharedLabel};
use std::alloc::{AllocError, Global};

impl Pool {
    /// Adds a node with these children, and no siblings.
    pub(crate) fn add_node(
        &mut self,
        alloc: Global,
        label: &Label,
        content: SharedContent,
        children: SlotId,
    ) -> Result<SlotId, AllocError>
        requires pool { IsPool self.old.slots.items self.old.free.items [] }
        requires node { IsNodeAt self.old.slots.items content children.number }
        requires small { AreChildren ((label.now, tree_at self.old.slots.items content children.number) ∷ []) }
        ensures ok { (u : Shape) (cs : List Cell) → children.number ≡ number_of u → IsSound u → IsPool self.old.slots.items self.old.free.items (cells u ++ cs) → IfOk result (λ at. Added self.new.slots.items self.new.free.items at.number label.now (branch content (edges_of u)) cs) }
        ensures err_slots { OnErr result (self.new.slots.items ≡ self.old.slots.items) }
        ensures err_free { OnErr result (self.new.free.items ≡ self.old.free.items) }
    {
        let text = content.text_bytes();
        let sums = sums_at(&self.slots, children).seen_above(label.as_str().len(), text);
        self.add(Slot {
            label: SharedLabel::of(alloc, label)?,
            content,
            links: Links::only(children),
            height: 1,
            sums,
        })
    }

    /// Adds the row of a place without children to the siblings at `root`, and gives the root of these.
    fn add_row(&mut self, alloc: Global, root: SlotId, row: &Row) -> Result<SlotId, AllocError>
        requires deep { 0 < length row.now.path }
        requires held { IsHeld self.old.slots.items self.old.free.items root.number }
        requires parent { (p : Path) (a : Label) → row.now.path ≡ child p a → get (tree_at self.old.slots.items Node root.number) p ≡ Some Node }
        requires free { is_there (tree_at self.old.slots.items Node root.number) row.now.path ≡ false }
        requires text { text_bytes row.now.content ≤ TEXT_MAX }
        requires small { IsSmall (with_subtree row.now.path (root_entries row.now.content) (tree_at self.old.slots.items Node root.number)) }
        ensures ok { (t : Shape) (cs : List Cell) → root.number ≡ number_of t → IsSound t → IsPool self.old.slots.items self.old.free.items (cells t ++ cs) → IfOk result (λ at. Built self.new.slots.items self.new.free.items at.number Node (with_subtree row.now.path (root_entries row.now.content) (branch Node (edges_of t))) cs) }
        ensures err_slots { OnErr result (self.new.slots.items ≡ self.old.slots.items) }
        ensures err_free { OnErr result (self.new.free.items ≡ self.old.free.items) }
    {
        match row.path.labels().split_last() {
            None => unreachable!(),
            Some((label, parent)) => {
                let content = SharedContent::of(alloc, &row.content)?;
                let new = self.add_node(alloc, label, content, SlotId::none())?;
                Ok(put(&mut self.slots, root, parent, new))
            }
        }
    }

    /// Adds the places of these rows, which come in order, and gives the root of those that have no parent among them.
    /// Costs the way to each.
    pub(crate) fn build(
        &mut self,
        alloc: Global,
        first: &Row,
        rows: &[Row],
    ) -> Result<SlotId, AllocError>
        requires pool { IsPool self.old.slots.items self.old.free.items [] }
        requires literal { IsLiteral (entries_in (first.now ∷ rows.now)) }
        requires small { IsSmall (tree_of_rows (first.now ∷ rows.now)) }
        ensures ok { (cs : List Cell) → IsPool self.old.slots.items self.old.free.items cs → IfOk result (λ at. Built self.new.slots.items self.new.free.items at.number first.now.content (tree_of_rows (first.now ∷ rows.now)) cs) }
        ensures err { (cs : List Cell) → IsPool self.old.slots.items self.old.free.items cs → OnErr result (IsPool self.new.slots.items self.new.free.items cs) }
    {
        let mut root = SlotId::none();
        for row in rows {
            match self.add_row(alloc, root, row) {
                Ok(next) => root = next,
                Err(error) => {
                    self.release(root);
                    return Err(error);
                }
            }
        }
        Ok(root)
    }

    /// Adds the tree of these rows, which come in order from their root, at a label, with no siblings.
    pub(crate) fn add_rows(
        &mut self,
        alloc: Global,
        label: &Label,
        rows: &[Row],
    ) -> Result<SlotId, AllocError>
        requires pool { IsPool self.old.slots.items self.old.free.items [] }
        requires literal { IsLiteral (entries_in rows.now) }
        requires small { AreChildren ((label.now, tree_of_rows rows.now) ∷ []) }
        ensures ok { (cs : List Cell) → IsPool self.old.slots.items self.old.free.items cs → IfOk result (λ at. Added self.new.slots.items self.new.free.items at.number label.now (tree_of_rows rows.now) cs) }
        ensures err { (cs : List Cell) → IsPool self.old.slots.items self.old.free.items cs → OnErr result (IsPool self.new.slots.items self.new.free.items cs) }
    {
        match rows.split_first() {
            None => unreachable!(),
            Some((first, rest)) => {
                let content = SharedContent::of(alloc, &first.content)?;
                let children = self.build(alloc, first, rest)?;
                match self.add_node(alloc, label, content, children) {
                    Ok(new) => Ok(new),
                    Err(error) => {
                        self.release(children);
                        Err(error)
                    }
                }
            }
        }
    }
}
