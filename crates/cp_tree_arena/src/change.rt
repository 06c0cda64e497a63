ghost use Rattle.std.specs.Prelude.{◌≡◌, ◌≤◌, ◌<◌, ◌+◌, List, length, slice_get};
ghost use Rattle.std.specs.declared.option.Option.TheVariants.{Some};
ghost use Rattle.cp_path.specs.Text.{text_cmp};
ghost use Rattle.cp_tree.specs.Branch.{branch};
ghost use Rattle.cp_tree_arena.specs.declared.slot.Slot.{Slot};
ghost use Rattle.cp_tree_arena.specs.Shapes.{Cell, Shape, height_of, edges_of};
ghost use Rattle.cp_tree_arena.specs.Cells.{Stand};
ghost use Rattle.cp_tree_arena.specs.Changes.{first_or, put_under, cut_under, CanPut, IsPuttable, CanCut, IsCuttable, Cut};

use crate::balance::{balance, join};
use crate::slot::{Slot, SlotId, links_at};
use cp_path::Label;
use std::cmp::Ordering;

/// Compares with the label of a node the first label of the place, and that of the new node where the place has none.
fn new_side(slots: &[Slot], at: SlotId, place: &[Label], new: SlotId) -> Ordering
    requires at { at.number < length slots.now }
    requires new { new.number < length slots.now }
    ensures { (s n : Slot) → slice_get slots.now at.number ≡ Some s → slice_get slots.now new.number ≡ Some n → result ≡ text_cmp (first_or place.now n.label) s.label }
{
    let label = &slots[at.number as usize].label;
    match place.first() {
        Some(first) => label.order_of(first),
        None => label.order_of_shared(&slots[new.number as usize].label),
    }
}

/// Puts a new node below the node at the place, which is reckoned from the siblings at `at`, and gives the root of these.
/// Costs a logarithm among siblings for each label.
pub(crate) fn put(slots: &mut [Slot], at: SlotId, place: &[Label], new: SlotId) -> SlotId
    requires { IsPuttable slots.old at.number new.number place.now }
    ensures { (s : Slot) (c t : Shape) (xs ys : List Cell) → CanPut slots.old at.number new.number place.now s c t xs ys → Stand slots.new result.number (put_under place.now s.label (branch s.content (edges_of c)) (edges_of t)) (λ h. (height_of t ≤ h) × (h ≤ height_of t + 1)) xs ys }
{
    if at.is_none() {
        return new;
    }
    let mut links = links_at(slots, at);
    match new_side(slots, at, place, new) {
        Ordering::Less => links.left = put(slots, links.left, place, new),
        Ordering::Equal => match place.split_first() {
            Some((_first, rest)) => links.children = put(slots, links.children, rest, new),
            None => unreachable!(),
        },
        Ordering::Greater => links.right = put(slots, links.right, place, new),
    }
    balance(slots, at, links)
}

/// The root of the siblings that are left, and the node that was taken out.
#[derive(Clone, Copy)]
pub(crate) struct Removal {
    pub(crate) root: SlotId,
    pub(crate) gone: SlotId,
}

/// Compares with the label of a node the first label of the place, and the other label where the place has none.
fn old_side(slots: &[Slot], at: SlotId, place: &[Label], label: &Label) -> Ordering
    requires { at.number < length slots.now }
    ensures { (s : Slot) → slice_get slots.now at.number ≡ Some s → result ≡ text_cmp (first_or place.now label.now) s.label }
{
    let kept = &slots[at.number as usize].label;
    match place.first() {
        Some(first) => kept.order_of(first),
        None => kept.order_of(label),
    }
}

/// Takes out the node at the label below the place, which is reckoned from the siblings at `at`. Costs a logarithm among
/// siblings for each label.
pub(crate) fn remove(slots: &mut [Slot], at: SlotId, place: &[Label], label: &Label) -> Removal
    requires { IsCuttable slots.old at.number place.now label.now }
    ensures { (t : Shape) (xs ys : List Cell) → CanCut slots.old at.number place.now label.now t xs ys → Cut slots.new result.root.number result.gone.number (cut_under place.now label.now (edges_of t)) (λ h. (h ≤ height_of t) × (height_of t ≤ h + 1)) xs ys }
{
    let mut links = links_at(slots, at);
    let gone = match old_side(slots, at, place, label) {
        Ordering::Less => {
            let removal = remove(slots, links.left, place, label);
            links.left = removal.root;
            removal.gone
        }
        Ordering::Equal => match place.split_first() {
            Some((_first, rest)) => {
                let removal = remove(slots, links.children, rest, label);
                links.children = removal.root;
                removal.gone
            }
            None => {
                return Removal {
                    root: join(slots, links.left, links.right),
                    gone: at,
                };
            }
        },
        Ordering::Greater => {
            let removal = remove(slots, links.right, place, label);
            links.right = removal.root;
            removal.gone
        }
    };
    Removal {
        root: balance(slots, at, links),
        gone,
    }
}
