ghost use Rattle.std.specs.Prelude.{◌≡◌, ◌++◌, map, OnOk, IfSome, IfNone};
ghost use Rattle.std.specs.declared.option.Option.TheVariants.{Some, None};
ghost use Rattle.std.specs.FinMap.Entries.{find};
ghost use Rattle.cp_path.specs.Text.{text_cmp};
ghost use Rattle.cp_tree_arena.specs.Kept.{edges_at, tree_at, IsKept, IsNodeAt};

use crate::slot::{Slot, SlotId, slot_at};
use cp_path::Label;
use std::alloc::{AllocError, Global};
use std::cmp::Ordering;

/// Finds the sibling with the label. Costs a logarithm.
pub(crate) fn find<'a>(slots: &'a [Slot], at: SlotId, label: &Label) -> Option<&'a Slot>
    requires { IsKept slots.now at.number }
    ensures there { IfSome result (λ s. find text_cmp label.now (edges_at slots.now at.number) ≡ Some (tree_at slots.now s.now.content s.now.links.children.number)) }
    ensures node { IfSome result (λ s. IsNodeAt slots.now s.now.content s.now.links.children.number) }
    ensures gone { IfNone result (find text_cmp label.now (edges_at slots.now at.number) ≡ None) }
{
    match slot_at(slots, at) {
        None => None,
        Some(slot) => match slot.label.order_of(label) {
            Ordering::Less => find(slots, slot.links.left, label),
            Ordering::Equal => Some(slot),
            Ordering::Greater => find(slots, slot.links.right, label),
        },
    }
}

/// Adds the labels of the siblings, in order. Costs their bytes.
pub(crate) fn labels_into(
    alloc: Global,
    slots: &[Slot],
    at: SlotId,
    labels: &mut Vec<Label>,
) -> Result<(), AllocError>
    requires { IsKept slots.now at.number }
    ensures { OnOk result (labels.new.items ≡ labels.old.items ++ map (λ e. e.0) (edges_at slots.now at.number)) }
{
    match slot_at(slots, at) {
        None => Ok(()),
        Some(slot) => {
            labels_into(alloc, slots, slot.links.left, labels)?;
            labels.push(slot.label.to_label(alloc)?)?;
            labels_into(alloc, slots, slot.links.right, labels)
        }
    }
}
