ghost use Rattle.std.specs.Prelude.{◌≡◌, ◌==◌, IfSome, IfNone, IfOk, slice_get};
ghost use Rattle.std.specs.declared.option.Option.TheVariants.{Some, None};
ghost use Rattle.cp_tree_arena.specs.Slots.{height_in, sums_in, links_in, NO_SLOT};

use cp_tree::{SharedContent, SharedLabel, Sums};
use std::alloc::AllocError;

/// The number of a slot, or of none.
#[derive(Clone, Copy)]
pub(crate) struct SlotId {
    pub(crate) number: u32,
}

/// The roots of the siblings before a node, of its children, and of the siblings after it.
#[derive(Clone, Copy)]
pub(crate) struct Links {
    pub(crate) left: SlotId,
    pub(crate) children: SlotId,
    pub(crate) right: SlotId,
}

/// A node in a slot: its label and what stands there, its neighbours in the balanced tree of its siblings and the root of
/// that of its children, how high the first tree is from here on, and what all places below here add up to.
#[derive(Drop)]
pub(crate) struct Slot {
    pub(crate) label: SharedLabel,
    pub(crate) content: SharedContent,
    pub(crate) links: Links,
    pub(crate) height: u32,
    pub(crate) sums: Sums,
}

impl SlotId {
    /// Gives the number of no slot.
    pub(crate) fn none() -> SlotId
        ensures { result.number ≡ NO_SLOT }
    {
        SlotId { number: u32::MAX }
    }

    /// Says whether it is that of no slot.
    pub(crate) fn is_none(self) -> bool
        ensures { result ≡ (self.number == NO_SLOT) }
    {
        self.number == u32::MAX
    }
}

impl Links {
    /// Gives those of a node alone with these children.
    pub(crate) fn only(children: SlotId) -> Links
        ensures left { result.left.number ≡ NO_SLOT }
        ensures children { result.children ≡ children }
        ensures right { result.right.number ≡ NO_SLOT }
    {
        Links {
            left: SlotId::none(),
            children,
            right: SlotId::none(),
        }
    }
}

impl Slot {
    /// Makes an equal slot.
    pub(crate) fn copy(&self) -> Result<Slot, AllocError>
        ensures { IfOk result (λ s. s ≡ self.now) }
    {
        Ok(Slot {
            label: self.label.share()?,
            content: self.content.share()?,
            links: self.links,
            height: self.height,
            sums: self.sums,
        })
    }
}

/// Reads a slot.
pub(crate) fn slot_at(slots: &[Slot], at: SlotId) -> Option<&Slot>
    ensures there { IfSome result (λ s. slice_get slots.now at.number ≡ Some s.now) }
    ensures gone { IfNone result (slice_get slots.now at.number ≡ None) }
{
    slots.get(at.number as usize)
}

/// Gives the height that is kept at a number, and 0 for that of none.
pub(crate) fn height_at(slots: &[Slot], at: SlotId) -> u32
    ensures { result ≡ height_in (slice_get slots.now at.number) }
{
    match slot_at(slots, at) {
        Some(slot) => slot.height,
        None => 0,
    }
}

/// Gives what is kept at a number of the places there and below, and nothing for that of none.
pub(crate) fn sums_at(slots: &[Slot], at: SlotId) -> Sums
    ensures { result ≡ sums_in (slice_get slots.now at.number) }
{
    match slot_at(slots, at) {
        Some(slot) => slot.sums,
        None => Sums::none(),
    }
}

/// Gives the links of a slot, and those of a node alone for the number of none.
pub(crate) fn links_at(slots: &[Slot], at: SlotId) -> Links
    ensures { result ≡ links_in (slice_get slots.now at.number) }
{
    match slot_at(slots, at) {
        Some(slot) => slot.links,
        None => Links::only(SlotId::none()),
    }
}
