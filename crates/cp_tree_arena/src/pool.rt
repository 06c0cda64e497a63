ghost use Rattle.std.specs.Prelude.{◌≡◌, ◌++◌, [], ◌∷◌, List, IfOk, OnErr, slice_get};
ghost use Rattle.std.specs.declared.option.Option.TheVariants.{Some};
ghost use Rattle.cp_tree_arena.specs.declared.slot.Slot.{Slot};
ghost use Rattle.cp_tree_arena.specs.Shapes.{Cell, Shape, number_of, cells, IsSound};
ghost use Rattle.cp_tree_arena.specs.Cells.{IsPool};
ghost use Rattle.cp_tree_arena.specs.Kept.{IsKept};

use crate::slot::{Slot, SlotId, slot_at};
use std::alloc::{AllocError, Global};

/// The slots of a tree, and the numbers of those that are free.
#[derive(Drop)]
pub(crate) struct Pool {
    pub(crate) slots: Vec<Slot>,
    pub(crate) free: Vec<SlotId>,
}

/// Adds the numbers of a node, of its siblings and of all below them to the free ones. Costs their number. One for which
/// there is no memory stays out of use.
fn free_all(slots: &[Slot], free: &mut Vec<SlotId>, at: SlotId)
    requires { IsKept slots.now at.number }
    ensures { (t : Shape) (cs : List Cell) → at.number ≡ number_of t → IsSound t → IsPool slots.now free.old.items (cells t ++ cs) → IsPool slots.now free.new.items cs }
{
    if let Some(slot) = slot_at(slots, at) {
        free_all(slots, free, slot.links.left);
        free_all(slots, free, slot.links.children);
        free_all(slots, free, slot.links.right);
        let _ = free.push(at);
    }
}

impl Pool {
    /// Makes a pool of no slots. Takes no memory.
    pub(crate) fn new(alloc: Global) -> Pool
        ensures slots { result.slots.items ≡ [] }
        ensures free { result.free.items ≡ [] }
    {
        Pool {
            slots: Vec::new(alloc),
            free: Vec::new(alloc),
        }
    }

    /// Puts a node into a free slot, or into a new one, and gives its number.
    pub(crate) fn add(&mut self, slot: Slot) -> Result<SlotId, AllocError>
        requires { IsPool self.old.slots.items self.old.free.items [] }
        ensures ok { (cs : List Cell) → IsPool self.old.slots.items self.old.free.items cs → IfOk result (λ at. IsPool self.new.slots.items self.new.free.items ((at.number, slot) ∷ cs)) }
        ensures err_slots { OnErr result (self.new.slots.items ≡ self.old.slots.items) }
        ensures err_free { OnErr result (self.new.free.items ≡ self.old.free.items) }
    {
        if let Some(at) = self.free.pop() {
            self.slots[at.number as usize] = slot;
            return Ok(at);
        }
        let number = self.slots.len();
        if number >= u32::MAX as usize {
            return Err(AllocError);
        }
        self.slots.push(slot)?;
        Ok(SlotId {
            number: number as u32,
        })
    }

    /// Frees these siblings and all below them. Costs their number.
    pub(crate) fn release(&mut self, at: SlotId)
        requires { IsKept self.old.slots.items at.number }
        ensures slots { self.new.slots.items ≡ self.old.slots.items }
        ensures pool { (t : Shape) (cs : List Cell) → at.number ≡ number_of t → IsSound t → IsPool self.old.slots.items self.old.free.items (cells t ++ cs) → IsPool self.new.slots.items self.new.free.items cs }
    {
        free_all(&self.slots, &mut self.free, at);
    }

    /// Frees a node and all below it. Costs their number.
    pub(crate) fn release_node(&mut self, at: SlotId)
        requires { (s : Slot) → slice_get self.old.slots.items at.number ≡ Some s → IsKept self.old.slots.items s.links.children.number }
        ensures slots { self.new.slots.items ≡ self.old.slots.items }
        ensures pool { (s : Slot) (c : Shape) (cs : List Cell) → s.links.children.number ≡ number_of c → IsSound c → IsPool self.old.slots.items self.old.free.items ((at.number, s) ∷ (cells c ++ cs)) → IsPool self.new.slots.items self.new.free.items cs }
    {
        if let Some(slot) = slot_at(&self.slots, at) {
            let children = slot.links.children;
            free_all(&self.slots, &mut self.free, children);
            let _ = self.free.push(at);
        }
    }

    /// Makes an equal pool. Costs its slots.
    pub(crate) fn copy(&self, alloc: Global) -> Result<Pool, AllocError>
        ensures slots { IfOk result (λ p. p.slots.items ≡ self.now.slots.items) }
        ensures free { IfOk result (λ p. p.free.items ≡ self.now.free.items) }
    {
        let mut slots = Vec::with_capacity(alloc, self.slots.len())?;
        for slot in &self.slots {
            slots.push(slot.copy()?)?;
        }
        let mut free = Vec::new(alloc);
        free.extend_from_slice(self.free.as_slice())?;
        Ok(Pool { slots, free })
    }
}
