//! The slots of a header, and how a checkpoint is made live.
ghost use Rattle.std.specs.Prelude.{◌≡◌, ◌<◌, ◌⊎◌, ◌+◌, ◌^◌, List, IsErrOf, ℕ, take, drop, None, Some, OnOk, OnErr};
ghost use Rattle.cp_outside.specs.Causes.{Rose};
ghost use Rattle.cp_disk.specs.Counts.{Counted, UsesDisk};
ghost use Rattle.cp_disk.specs.Views.{ViewKeeps, IfKnown, IsSettled, Either};
ghost use Rattle.cp_journal.specs.Headers.{HasOwnNumbers};
ghost use Rattle.cp_journal.specs.Slots.{live_slot as live_of, spare_slot as spare_of, IsSlotPlace, slot_at as slot_of, with_slot, slot_rest, HasOtherSlot, next_slot, number_after, NamesOldOrNew, SaysSlot, SaysEitherSlot};
ghost use Rattle.cp_journal.specs.Upgrading.{SaysHeader};
ghost use Rattle.cp_journal.specs.declared.header.Header.{Header as header_state};

use crate::calls::put;
use crate::fault::JournalFault;
use crate::header::{Header, Slot};
use crate::limits::{FIRST_SLOT, SECOND_SLOT};
use cp_disk::{Disk, DiskFault};

/// The slot that names the newest checkpoint: the open one with the greater number.
pub fn live_slot(header: &Header) -> Option<Slot>
    ensures { result ≡ live_of header.now }
{
    match (header.first, header.second) {
        (None, None) => None,
        (Some(first), None) => Some(first),
        (None, Some(second)) => Some(second),
        (Some(first), Some(second)) => {
            if second.seq < first.seq {
                Some(first)
            } else {
                Some(second)
            }
        }
    }
}

/// The offset of the slot that isn't live; of the first where none is open.
pub fn spare_slot(header: &Header) -> u64
    ensures is { result ≡ spare_of header.now }
    ensures place { IsSlotPlace result }
{
    match (header.first, header.second) {
        (None, _) => FIRST_SLOT as u64,
        (Some(_), None) => SECOND_SLOT as u64,
        (Some(first), Some(second)) => {
            if second.seq < first.seq {
                SECOND_SLOT as u64
            } else {
                FIRST_SLOT as u64
            }
        }
    }
}

// The slot at this offset.
fn slot_at(header: &Header, at: u64) -> Option<Slot>
    ensures { result ≡ slot_of at header.now }
{
    if at == FIRST_SLOT as u64 {
        return header.first;
    }
    header.second
}

// Puts a slot in the place of that at this offset.
fn set_slot(header: &mut Header, at: u64, slot: Slot)
    ensures { header.new ≡ with_slot at (Some slot) header.old }
{
    if at == FIRST_SLOT as u64 {
        header.first = Some(slot);
    } else {
        header.second = Some(slot);
    }
}

// What stands after the gate of a slot.
fn rest_of(slot: &Slot) -> [u8; 63]
    ensures { result ≡ slot_rest slot.now }
{
    let seq = slot.seq.to_be_bytes();
    let at = slot.at.to_be_bytes();
    let mut bytes = [0u8; 63];
    bytes[..8].copy_from_slice(&seq);
    bytes[8..16].copy_from_slice(&at);
    bytes
}

// Closes the slot at this offset, if it is open.
fn close_slot<D: Disk>(disk: &mut D, header: &Header, at: u64) -> Result<(), DiskFault>
    requires place { IsSlotPlace at }
    requires says { IfKnown (D.known disk.old) (λ v. SaysHeader header.now v.content) }
    requires durable { IsSettled (D.known disk.old) }
    ensures says { IfKnown (D.known disk.old) (λ v.
        OnOk result (SaysSlot at header.now None v.content (D.known disk.new).view.content)) }
    ensures durable { OnOk result (IsSettled (D.known disk.new)) }
    ensures crash { IfKnown (D.known disk.old) (λ v.
        ViewKeeps (SaysEitherSlot at header.now (slot_of at header.now) None v.content) v (D.known disk.new).view) }
    ensures cause { Counted (D.known disk.old) (D.known disk.new) result }
    ensures reads { (D.known disk.new).counts.reads ≡ (D.known disk.old).counts.reads }
{
    if slot_at(header, at).is_some() {
        return put(disk, at, &[0]);
    }
    Ok(())
}

// Writes what stands after the gate of the slot at this offset, which is closed.
fn fill_slot<D: Disk>(disk: &mut D, at: u64, slot: &Slot) -> Result<(), DiskFault>
    requires place { IsSlotPlace at }
    requires says { IfKnown (D.known disk.old) (λ v.
        (h : header_state) × SaysSlot at h None v.content v.content) }
    requires durable { IsSettled (D.known disk.old) }
    ensures filled { IfKnown (D.known disk.old) (λ v.
        OnOk result (take 63 (drop (at + 1) (D.known disk.new).view.content) ≡ slot_rest slot.now)) }
    ensures says { IfKnown (D.known disk.old) (λ v. (h : header_state) (c : List ℕ)
        → SaysSlot at h None c v.content
        → OnOk result (SaysSlot at h None c (D.known disk.new).view.content)) }
    ensures durable { OnOk result (IsSettled (D.known disk.new)) }
    ensures crash { IfKnown (D.known disk.old) (λ v. (h : header_state) (c : List ℕ)
        → SaysSlot at h None c v.content
        → ViewKeeps (SaysSlot at h None c) v (D.known disk.new).view) }
    ensures cause { Counted (D.known disk.old) (D.known disk.new) result }
    ensures reads { (D.known disk.new).counts.reads ≡ (D.known disk.old).counts.reads }
{
    put(disk, at + 1, &rest_of(slot))
}

// Opens the slot at this offset, in which these numbers stand.
fn open_slot<D: Disk>(disk: &mut D, at: u64, slot: &Slot) -> Result<(), DiskFault>
    requires place { IsSlotPlace at }
    requires fits { (slot.now.seq < 2 ^ 64) × (slot.now.at < 2 ^ 64) }
    requires says { IfKnown (D.known disk.old) (λ v.
        (h : header_state) × SaysSlot at h None v.content v.content) }
    requires filled { IfKnown (D.known disk.old) (λ v.
        take 63 (drop (at + 1) v.content) ≡ slot_rest slot.now) }
    requires durable { IsSettled (D.known disk.old) }
    ensures says { IfKnown (D.known disk.old) (λ v. (h : header_state) (c : List ℕ)
        → HasOwnNumbers (with_slot at (Some slot.now) h) → SaysSlot at h None c v.content
        → OnOk result (SaysSlot at h (Some slot.now) c (D.known disk.new).view.content)) }
    ensures durable { OnOk result (IsSettled (D.known disk.new)) }
    ensures crash { IfKnown (D.known disk.old) (λ v. (h : header_state) (c : List ℕ)
        → HasOwnNumbers (with_slot at (Some slot.now) h) → SaysSlot at h None c v.content
        → ViewKeeps (SaysEitherSlot at h None (Some slot.now) c) v (D.known disk.new).view) }
    ensures cause { Counted (D.known disk.old) (D.known disk.new) result }
    ensures reads { (D.known disk.new).counts.reads ≡ (D.known disk.old).counts.reads }
{
    put(disk, at, &[1])
}

// The number of the slot that comes after this one.
fn number_of_next(slot: Option<Slot>) -> u64
    requires { number_after slot < 2 ^ 64 }
    ensures { result ≡ number_after slot }
{
    match slot {
        Some(slot) => slot.seq + 1,
        None => 1,
    }
}

// Writes a slot over that at this offset, which isn't live.
fn put_slot<D: Disk>(disk: &mut D, header: &Header, at: u64, slot: &Slot) -> Result<(), DiskFault>
    requires place { IsSlotPlace at }
    requires fits { (slot.now.seq < 2 ^ 64) × (slot.now.at < 2 ^ 64) }
    requires own { IfKnown (D.known disk.old) (λ v.
        HasOwnNumbers (with_slot at (Some slot.now) header.now)) }
    requires says { IfKnown (D.known disk.old) (λ v. SaysHeader header.now v.content) }
    requires durable { IsSettled (D.known disk.old) }
    ensures says { IfKnown (D.known disk.old) (λ v.
        OnOk result (SaysSlot at header.now (Some slot.now) v.content (D.known disk.new).view.content)) }
    ensures durable { OnOk result (IsSettled (D.known disk.new)) }
    ensures crash { IfKnown (D.known disk.old) (λ v. ViewKeeps (Either
        (SaysSlot at header.now (slot_of at header.now) v.content)
        (SaysEitherSlot at header.now None (Some slot.now) v.content)) v (D.known disk.new).view) }
    ensures cause { Counted (D.known disk.old) (D.known disk.new) result }
    ensures reads { (D.known disk.new).counts.reads ≡ (D.known disk.old).counts.reads }
{
    close_slot(disk, header, at)?;
    fill_slot(disk, at, slot)?;
    open_slot(disk, at, slot)
}

/// Makes the checkpoint live whose frame stands at this offset: closes the slot that isn't live, if it is open, writes it, and
/// opens it, each with a sync. `header` is that of the file, and is again; after an error it is as it was. Takes no memory of
/// its own.
///
/// A crash at any moment leaves the file with the live slot that it had, or with the new one, and changes nothing of it but the
/// slot that isn't live.
pub fn make_live<D: Disk>(disk: &mut D, header: &mut Header, at: u64) -> Result<(), JournalFault>
    requires number { number_after (live_of header.old) < 2 ^ 64 }
    requires says { IfKnown (D.known disk.old) (λ v. SaysHeader header.old v.content) }
    requires durable { IsSettled (D.known disk.old) }
    ensures header { OnOk result
        (header.new ≡ with_slot (spare_of header.old) (Some (next_slot header.old at)) header.old) }
    ensures err { OnErr result (header.new ≡ header.old) }
    ensures live { OnOk result (live_of header.new ≡ Some (next_slot header.old at)) }
    ensures says { IfKnown (D.known disk.old) (λ v.
        OnOk result (SaysHeader header.new (D.known disk.new).view.content)) }
    ensures same { IfKnown (D.known disk.old) (λ v.
        OnOk result (HasOtherSlot (spare_of header.old) v.content (D.known disk.new).view.content)) }
    ensures durable { OnOk result (IsSettled (D.known disk.new)) }
    ensures crash { IfKnown (D.known disk.old) (λ v.
        ViewKeeps (NamesOldOrNew header.old at v.content) v (D.known disk.new).view) }
    ensures kinds { OnErr result (IsErrOf result JournalFault.Disk ⊎ IsErrOf result JournalFault.Memory) }
    ensures cause { UsesDisk (λ e. e ≡ JournalFault.Disk) (D.known disk.old) (D.known disk.new) result }
    ensures memory { IsErrOf result JournalFault.Memory
        → Rose (D.known disk.old).counts.wants (D.known disk.new).counts.wants }
    ensures reads { (D.known disk.new).counts.reads ≡ (D.known disk.old).counts.reads }
{
    let spare = spare_slot(header);
    let slot = Slot {
        seq: number_of_next(live_slot(header)),
        at,
    };
    put_slot(disk, header, spare, &slot)?;
    set_slot(header, spare, slot);
    Ok(())
}
