ghost use Rattle.std.specs.Prelude.{◌≡◌, ◌++◌, [], ◌∷◌, map, IfOk, OnOk, IfSome, IfNone};
ghost use Rattle.std.specs.declared.option.Option.TheVariants.{None};
ghost use Rattle.cp_model.specs.Keyed.{get, entries};
ghost use Rattle.cp_model.specs.Subtrees.{entries_under};
ghost use Rattle.cp_tree.specs.Branch.{sub, child_rows};
ghost use Rattle.cp_tree.specs.Rows.{entry_row, labels_at, reach_of};
ghost use Rattle.cp_tree_arena.specs.Kept.{edges_at, tree_at, IsKept, IsNodeAt};

use crate::siblings::{find, labels_into};
use crate::slot::{Slot, SlotId, slot_at, sums_at};
use cp_model::{Content, Row};
use cp_path::{Label, Path};
use cp_tree::{Reach, SharedContent};
use std::alloc::{AllocError, Global};

/// A node that is read: what stands there, and the slots, with the root of its children among them.
#[derive(Clone, Copy)]
pub(crate) struct ArenaNode<'a> {
    pub(crate) slots: &'a [Slot],
    pub(crate) content: &'a SharedContent,
    pub(crate) children: SlotId,
}

/// Adds the row of a place. Costs its labels and the bytes of a text.
fn place_into(
    alloc: Global,
    content: &SharedContent,
    at: &[Label],
    out: &mut Vec<Row>,
) -> Result<(), AllocError>
    ensures { OnOk result (out.new.items ≡ out.old.items ++ entry_row (at.now, content.now) ∷ []) }
{
    let content = content.to_content()?;
    let Ok(path) = Path::of(alloc, at) else {
        return Err(AllocError);
    };
    out.push(Row { path, content })?;
    Ok(())
}

/// Adds the rows of the siblings, whose parent stands at the place `at`, in order. Costs them and their paths.
fn rows_below(
    alloc: Global,
    slots: &[Slot],
    siblings: SlotId,
    at: &mut Vec<Label>,
    out: &mut Vec<Row>,
) -> Result<(), AllocError>
    requires { IsKept slots.now siblings.number }
    ensures rows { OnOk result (out.new.items ≡ out.old.items ++ map entry_row (entries_under at.old.items (child_rows (edges_at slots.now siblings.number)))) }
    ensures same_place { OnOk result (at.new.items ≡ at.old.items) }
{
    match slot_at(slots, siblings) {
        None => Ok(()),
        Some(slot) => {
            rows_below(alloc, slots, slot.links.left, at, out)?;
            at.push(slot.label.to_label(alloc)?)?;
            place_into(alloc, &slot.content, at.as_slice(), out)?;
            rows_below(alloc, slots, slot.links.children, at, out)?;
            at.pop();
            rows_below(alloc, slots, slot.links.right, at, out)
        }
    }
}

impl<'a> ArenaNode<'a> {
    /// Finds the child with the label. Costs a logarithm.
    pub(crate) fn child(self, label: &Label) -> Option<ArenaNode<'a>>
        requires { IsNodeAt self.slots.now self.content.now self.children.number }
        ensures there { IfSome result (λ n. tree_at n.slots.now n.content.now n.children.number ≡ sub (tree_at self.entry.slots.now self.entry.content.now self.entry.children.number) (label.now ∷ [])) }
        ensures node { IfSome result (λ n. IsNodeAt n.slots.now n.content.now n.children.number) }
        ensures gone { IfNone result (get (tree_at self.entry.slots.now self.entry.content.now self.entry.children.number) (label.now ∷ []) ≡ None) }
    {
        match find(self.slots, self.children, label) {
            Some(slot) => Some(ArenaNode {
                slots: self.slots,
                content: &slot.content,
                children: slot.links.children,
            }),
            None => None,
        }
    }

    /// Finds the node at the place. Costs a search among siblings for each label.
    pub(crate) fn find(self, place: &[Label]) -> Option<ArenaNode<'a>>
        requires { IsNodeAt self.slots.now self.content.now self.children.number }
        ensures there { IfSome result (λ n. tree_at n.slots.now n.content.now n.children.number ≡ sub (tree_at self.entry.slots.now self.entry.content.now self.entry.children.number) place.now) }
        ensures node { IfSome result (λ n. IsNodeAt n.slots.now n.content.now n.children.number) }
        ensures gone { IfNone result (get (tree_at self.entry.slots.now self.entry.content.now self.entry.children.number) place.now ≡ None) }
    {
        match place.split_first() {
            None => Some(self),
            Some((first, rest)) => match self.child(first) {
                Some(node) => node.find(rest),
                None => None,
            },
        }
    }

    /// Measures how far the tree reaches, from what is kept.
    pub(crate) fn reach(self) -> Reach
        requires { IsNodeAt self.slots.now self.content.now self.children.number }
        ensures { result ≡ reach_of (entries (tree_at self.entry.slots.now self.entry.content.now self.entry.children.number)) }
    {
        sums_at(self.slots, self.children).reach(self.content.text_bytes())
    }

    /// Lists the labels below, in order. Costs their bytes.
    pub(crate) fn labels(self, alloc: Global) -> Result<Vec<Label>, AllocError>
        requires { IsNodeAt self.slots.now self.content.now self.children.number }
        ensures { IfOk result (λ v. v.items ≡ labels_at (tree_at self.entry.slots.now self.entry.content.now self.entry.children.number) []) }
    {
        let mut labels = Vec::new(alloc);
        labels_into(alloc, self.slots, self.children, &mut labels)?;
        Ok(labels)
    }

    /// Lists the rows of the node and of all below it, in order. Costs them and their paths.
    pub(crate) fn rows(self, alloc: Global) -> Result<Vec<Row>, AllocError>
        requires { IsNodeAt self.slots.now self.content.now self.children.number }
        ensures { IfOk result (λ v. v.items ≡ map entry_row (entries (tree_at self.entry.slots.now self.entry.content.now self.entry.children.number))) }
    {
        let mut out = Vec::new(alloc);
        place_into(alloc, self.content, &[], &mut out)?;
        rows_below(
            alloc,
            self.slots,
            self.children,
            &mut Vec::new(alloc),
            &mut out,
        )?;
        Ok(out)
    }
}
