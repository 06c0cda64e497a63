//! A new store in a file that is vacant.
ghost use Rattle.std.specs.Prelude.{◌≡◌, ◌≤◌, ◌<◌, ◌↔◌, ◌+◌, ◌++◌, [], IsTrue, length, take, drop, ltb, if◌then◌else◌, IfOk, OnOk};
ghost use Rattle.cp_disk.specs.Counts.{Counted};
ghost use Rattle.cp_disk.specs.Views.{Only, IsDurable, ViewKeeps, IfKnown, IsSettled, Rests, Steps, Keeps};
ghost use Rattle.cp_disk.specs.Writes.{CutShort};
ghost use Rattle.cp_journal.specs.Frames.{Frame, entry};
ghost use Rattle.cp_journal.specs.Holding.{IsLawful};
ghost use Rattle.cp_journal.specs.NewStores.{HasNoStore, HasSettled, IsVacant, IsVacantOrNew, StaysVacant, IsOldOrVacant, IsOldOrVacantOrNew, SettlesInto, new_file};

use crate::calls::put;
use crate::frame::{ENTRY, bytes_after_gate};
use cp_disk::{DISK_MAX, Disk, DiskFault};
use std::alloc::{AllocError, Global};

// Whether a file with these first bytes is vacant.
fn has_no_store(front: &[u8; 6]) -> bool
    ensures { IsTrue result ↔ HasNoStore front.now }
{
    front[0] == 0 || front[0] != 1 && &front[1..] == b"CPDB\x01".as_slice()
}

// How many of the first bytes of a file of this size say whether it is vacant.
fn front_len(size: u64) -> usize
    ensures { result ≡ (if ltb size 6 then 1 else 6) }
{
    if size < 6 { 1 } else { 6 }
}

// Whether the file is vacant. Makes one read at most.
pub(crate) fn is_vacant<D: Disk>(disk: &mut D) -> Result<bool, DiskFault>
    ensures vacant { IfKnown (D.known disk.old) (λ v. IfOk result (λ b. IsTrue b ↔ IsVacant v.content)) }
    ensures rests { Rests (D.known disk.old) (D.known disk.new) }
    ensures cause { Counted (D.known disk.old) (D.known disk.new) result }
{
    let size = disk.size()?;
    if size <= 1 {
        return Ok(true);
    }
    let mut front = [0u8; 6];
    disk.read(0, &mut front[..front_len(size)])?;
    Ok(has_no_store(&front))
}

// A vacant file that is on the disk: how many of its first bytes have to stay, and its size.
#[derive(Clone, Copy, Drop)]
struct Settled {
    start: u64,
    size: u64,
}

// How many of the first bytes of a vacant file keep it vacant, where this is its gate.
fn start_of(gate: u8) -> u64
    ensures range { (1 ≤ result) × (result ≤ 6) }
    ensures zero { gate ≡ 0 → result ≡ 1 }
    ensures other { (gate ≡ 0 → ⊥) → result ≡ 6 }
{
    if gate == 0 { 1 } else { 6 }
}

// Waits until the file is on the disk, and gives one without a second byte its closed gate.
fn settle<D: Disk>(disk: &mut D) -> Result<Settled, DiskFault>
    requires { IfKnown (D.known disk.old) (λ v. IsVacant v.content) }
    ensures range { IfOk result (λ o. (1 ≤ o.start) × (o.start ≤ 6) × (o.size ≤ DISK_MAX)) }
    ensures vacant { IfKnown (D.known disk.new) (λ v. IfOk result (λ o. StaysVacant o.start v.content
        × (o.size ≡ length v.content) × Only v.content v.images)) }
    ensures crash { Keeps (IsOldOrVacant (D.known disk.old).view) (D.known disk.old) (D.known disk.new) }
    ensures settles { IfKnown (D.known disk.old) (λ v. SettlesInto IsVacant v (D.known disk.new).view) }
    ensures settled { IfKnown (D.known disk.old) (λ v.
        OnOk result (HasSettled IsVacant v (D.known disk.new).view)) }
    ensures cause { Counted (D.known disk.old) (D.known disk.new) result }
{
    disk.sync()?;
    let size = disk.size()?;
    if size <= 1 {
        put(disk, 0, &[0])?;
        return Ok(Settled { start: 1, size: 1 });
    }
    let mut first = [0u8; 1];
    disk.read(0, &mut first)?;
    let start = start_of(first[0]);
    Ok(Settled { start, size })
}

// Cuts the file where it is longer.
fn trim<D: Disk>(disk: &mut D, size: u64, len: u64) -> Result<(), DiskFault>
    requires { IfKnown (D.known disk.old) (λ v. size ≡ length v.content) }
    ensures content { IfKnown (D.known disk.old) (λ v.
        OnOk result ((D.known disk.new).view.content ≡ take len v.content)) }
    ensures crash { Steps (CutShort len) (D.known disk.old) (D.known disk.new) }
    ensures cause { Counted (D.known disk.old) (D.known disk.new) result }
{
    if size > len {
        return disk.cut(len);
    }
    Ok(())
}

// Writes all bytes but the first `start`, cuts the file after them, and waits until it is on the disk.
fn fill<D: Disk>(disk: &mut D, start: u64, size: u64, bytes: &[u8]) -> Result<(), DiskFault>
    requires room { length bytes.now ≤ DISK_MAX }
    requires range { (start ≤ length bytes.now) × (size ≤ DISK_MAX) }
    requires vacant { IfKnown (D.known disk.old) (λ v. StaysVacant start v.content × (size ≡ length v.content)
        × Only v.content v.images) }
    ensures content { IfKnown (D.known disk.old) (λ v.
        OnOk result ((D.known disk.new).view.content ≡ take start v.content ++ drop start bytes.now)) }
    ensures durable { OnOk result (IsSettled (D.known disk.new)) }
    ensures crash { Keeps IsVacant (D.known disk.old) (D.known disk.new) }
    ensures cause { Counted (D.known disk.old) (D.known disk.new) result }
{
    let len = bytes.len() as u64;
    disk.write_at(start, &bytes[start as usize..])?;
    trim(disk, size.max(len), len)?;
    disk.sync()
}

// Makes a vacant file one of these bytes, of which the gate is opened when all others are on the disk.
pub(crate) fn put_store<D: Disk>(disk: &mut D, bytes: &[u8]) -> Result<(), DiskFault>
    requires room { length bytes.now ≤ DISK_MAX }
    requires long { 6 ≤ length bytes.now }
    requires vacant { IfKnown (D.known disk.old) (λ v. IsVacant v.content) }
    ensures durable { IfKnown (D.known disk.new) (λ v. (f : Frame) → IsLawful f → bytes.now ≡ new_file f
        → OnOk result (IsDurable (new_file f) v)) }
    ensures crash { IfKnown (D.known disk.old) (λ v. (f : Frame) → IsLawful f → bytes.now ≡ new_file f
        → ViewKeeps (IsOldOrVacantOrNew v f) v (D.known disk.new).view) }
    ensures settles { IfKnown (D.known disk.old) (λ v. (f : Frame) → IsLawful f → bytes.now ≡ new_file f
        → SettlesInto (IsVacantOrNew f) v (D.known disk.new).view) }
    ensures cause { Counted (D.known disk.old) (D.known disk.new) result }
{
    let settled = settle(disk)?;
    fill(disk, settled.start, settled.size, bytes)?;
    put(disk, 0, &[1])
}

// All bytes of a new store: the header, the first frame and the closed gate after it.
pub(crate) fn file_bytes(alloc: Global, body: &[u8]) -> Result<Vec<u8>, AllocError>
    ensures { IfOk result (λ v. v.items ≡ new_file (entry body.now)) }
{
    let mut bytes = Vec::new(alloc);
    bytes.extend_from_slice(b"\x01CPDB\x01\x01")?;
    bytes.extend_from_slice(&[0; 185])?;
    bytes.push(1)?;
    bytes.extend_from_slice(&bytes_after_gate(alloc, ENTRY, body)?)?;
    Ok(bytes)
}
