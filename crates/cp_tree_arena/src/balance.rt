ghost use Rattle.std.specs.Prelude.{◌≡◌, ◌≤◌, ◌<◌, ◌+◌, ◌++◌, [], ◌∷◌, List, max, slice_get};
ghost use Rattle.cp_tree.specs.Branch.{branch};
ghost use Rattle.cp_tree.specs.Sums.{sums_of};
ghost use Rattle.cp_tree_arena.specs.declared.slot.Slot.{Slot};
ghost use Rattle.cp_tree_arena.specs.Slots.{height_in};
ghost use Rattle.cp_tree_arena.specs.Shapes.{Cell, Shape, height_of, edges_of, Settles};
ghost use Rattle.cp_tree_arena.specs.Cells.{IsAt, Stand};
ghost use Rattle.cp_tree_arena.specs.Linking.{linked_edges, CanLink, IsLinkable, CanJoin, IsJoinable, IsFull, Popped};

use crate::slot::{Links, Slot, SlotId, height_at, links_at, sums_at};
use cp_tree::Sums;

/// Gives what a node adds to its siblings, with these children.
fn node_sums(slots: &[Slot], at: SlotId, links: Links) -> Sums
    requires { IsLinkable 1 slots.now at.number links }
    ensures { (s : Slot) (l c r : Shape) (xs ys : List Cell) → CanLink 1 slots.now at.number links s l c r xs ys → result ≡ sums_of ((s.label, branch s.content (edges_of c)) ∷ []) }
{
    let slot = &slots[at.number as usize];
    let label = slot.label.as_str().len();
    let text = slot.content.text_bytes();
    sums_at(slots, links.children).seen_above(label, text)
}

/// Links a node to its children and to siblings before and after it, and keeps their height and sums.
pub(crate) fn fork(slots: &mut [Slot], at: SlotId, links: Links)
    requires { IsLinkable 1 slots.old at.number links }
    ensures { (s : Slot) (l c r : Shape) (xs ys : List Cell) → CanLink 1 slots.old at.number links s l c r xs ys → Stand slots.new at.number (linked_edges s l c r) (λ h. h ≡ max (height_of l) (height_of r) + 1) xs ys }
{
    let height = height_at(slots, links.left).max(height_at(slots, links.right)) + 1;
    let after = node_sums(slots, at, links).beside(sums_at(slots, links.right));
    let sums = sums_at(slots, links.left).beside(after);
    let slot = &mut slots[at.number as usize];
    slot.links = links;
    slot.height = height;
    slot.sums = sums;
}

/// Rotates where the left side is two levels higher, and gives the root.
fn lean_left(slots: &mut [Slot], at: SlotId, links: Links) -> SlotId
    requires linkable { IsLinkable 2 slots.old at.number links }
    requires two_higher { height_in (slice_get slots.old links.left.number) ≡ height_in (slice_get slots.old links.right.number) + 2 }
    ensures { (s : Slot) (l c r : Shape) (xs ys : List Cell) → CanLink 2 slots.old at.number links s l c r xs ys → Stand slots.new result.number (linked_edges s l c r) (λ h. (height_of l ≤ h) × (h ≤ height_of l + 1)) xs ys }
{
    let top = links.left;
    let outer = links_at(slots, top);
    if height_at(slots, outer.left) >= height_at(slots, outer.right) {
        fork(
            slots,
            at,
            Links {
                left: outer.right,
                ..links
            },
        );
        fork(slots, top, Links { right: at, ..outer });
        return top;
    }
    let middle = outer.right;
    let inner = links_at(slots, middle);
    fork(
        slots,
        top,
        Links {
            right: inner.left,
            ..outer
        },
    );
    fork(
        slots,
        at,
        Links {
            left: inner.right,
            ..links
        },
    );
    fork(
        slots,
        middle,
        Links {
            left: top,
            children: inner.children,
            right: at,
        },
    );
    middle
}

/// Rotates where the right side is two levels higher, and gives the root.
fn lean_right(slots: &mut [Slot], at: SlotId, links: Links) -> SlotId
    requires linkable { IsLinkable 2 slots.old at.number links }
    requires two_higher { height_in (slice_get slots.old links.right.number) ≡ height_in (slice_get slots.old links.left.number) + 2 }
    ensures { (s : Slot) (l c r : Shape) (xs ys : List Cell) → CanLink 2 slots.old at.number links s l c r xs ys → Stand slots.new result.number (linked_edges s l c r) (λ h. (height_of r ≤ h) × (h ≤ height_of r + 1)) xs ys }
{
    let top = links.right;
    let outer = links_at(slots, top);
    if height_at(slots, outer.right) >= height_at(slots, outer.left) {
        fork(
            slots,
            at,
            Links {
                right: outer.left,
                ..links
            },
        );
        fork(slots, top, Links { left: at, ..outer });
        return top;
    }
    let middle = outer.left;
    let inner = links_at(slots, middle);
    fork(
        slots,
        at,
        Links {
            right: inner.left,
            ..links
        },
    );
    fork(
        slots,
        top,
        Links {
            left: inner.right,
            ..outer
        },
    );
    fork(
        slots,
        middle,
        Links {
            left: at,
            children: inner.children,
            right: top,
        },
    );
    middle
}

/// Links a node to its children and to siblings before and after it, of which one side may be two levels higher. Gives
/// the root.
pub(crate) fn balance(slots: &mut [Slot], at: SlotId, links: Links) -> SlotId
    requires { IsLinkable 2 slots.old at.number links }
    ensures { (s : Slot) (l c r : Shape) (xs ys : List Cell) → CanLink 2 slots.old at.number links s l c r xs ys → Stand slots.new result.number (linked_edges s l c r) (Settles (height_of l) (height_of r)) xs ys }
{
    let before = height_at(slots, links.left);
    let after = height_at(slots, links.right);
    if before > after + 1 {
        return lean_left(slots, at, links);
    }
    if after > before + 1 {
        return lean_right(slots, at, links);
    }
    fork(slots, at, links);
    at
}

/// The first of some siblings, and the root of the others.
#[derive(Clone, Copy)]
pub(crate) struct First {
    pub(crate) first: SlotId,
    pub(crate) others: SlotId,
}

/// Takes the first sibling out. Costs a logarithm.
fn pop_first(slots: &mut [Slot], at: SlotId) -> First
    requires { IsFull slots.old at.number }
    ensures { (t : Shape) (xs ys : List Cell) → IsAt slots.old at.number t xs ys → 0 < height_of t → Popped slots.new result.first.number result.others.number (edges_of t) (λ h. (h ≤ height_of t) × (height_of t ≤ h + 1)) xs ys }
{
    let links = links_at(slots, at);
    if links.left.is_none() {
        return First {
            first: at,
            others: links.right,
        };
    }
    let popped = pop_first(slots, links.left);
    let left = popped.others;
    let others = balance(slots, at, Links { left, ..links });
    First {
        first: popped.first,
        others,
    }
}

/// Puts siblings beside others, and gives the root. Costs a logarithm.
pub(crate) fn join(slots: &mut [Slot], left: SlotId, right: SlotId) -> SlotId
    requires { IsJoinable slots.old left.number right.number }
    ensures { (l r : Shape) (xs ys : List Cell) → CanJoin slots.old left.number right.number l r xs ys → Stand slots.new result.number (edges_of l ++ edges_of r) (λ h. (max (height_of l) (height_of r) ≤ h) × (h ≤ max (height_of l) (height_of r) + 1)) xs ys }
{
    if right.is_none() {
        return left;
    }
    let popped = pop_first(slots, right);
    let children = links_at(slots, popped.first).children;
    let links = Links {
        left,
        children,
        right: popped.others,
    };
    balance(slots, popped.first, links)
}
