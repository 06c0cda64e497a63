//! The header of a store: its version, and two slots that name checkpoints.
ghost use Rattle.std.specs.Prelude.{◌≡◌, ◌≤◌, ◌⊎◌, ◌↔◌, ◌+◌, ◌==◌, if◌then◌else◌, IsTrue, IsErrOf, length, take, None, Some, IfOk, OnOk, IfErr, MatchOption};
ghost use Rattle.std.specs.Int.{w64, from_be_bytes};
ghost use Rattle.cp_disk.specs.Counts.{Counted, UsesDisk};
ghost use Rattle.cp_disk.specs.Views.{IfKnown, IsSettled, Rests};
ghost use Rattle.cp_journal.specs.Headers.{slot_in as slot_of, header_in, IsSlot, IsFront, HasOwnNumbers, IsHeader, HasHeader};

use crate::fault::JournalFault;
use crate::limits::{HEADER_SIZE, VERSION_AT};
use cp_disk::{Disk, DiskFault};

/// An open slot: its number, and the offset of the gate of a checkpoint.
#[derive(Clone, Copy, Drop)]
pub struct Slot {
    pub seq: u64,
    pub at: u64,
}

/// What the header of a store says. A slot that is closed is `None`.
#[derive(Clone, Copy, Drop)]
pub struct Header {
    pub version: u8,
    pub first: Option<Slot>,
    pub second: Option<Slot>,
}

// The number that eight bytes spell.
fn number(bytes: &[u8]) -> u64
    requires { 8 ≤ length bytes.now }
    ensures { result ≡ from_be_bytes w64 (take 8 bytes.now) }
{
    u64::from_be_bytes([
        bytes[0], bytes[1], bytes[2], bytes[3], bytes[4], bytes[5], bytes[6], bytes[7],
    ])
}

// The slot that 64 bytes hold, if its gate is open.
fn slot_in(bytes: &[u8]) -> Option<Slot>
    requires { length bytes.now ≡ 64 }
    ensures { result ≡ slot_of bytes.now }
{
    if bytes[0] != 1 {
        return None;
    }
    Some(Slot {
        seq: number(&bytes[1..]),
        at: number(&bytes[9..]),
    })
}

// Whether 64 bytes may be a slot.
fn is_slot(bytes: &[u8]) -> bool
    requires { length bytes.now ≡ 64 }
    ensures { IsTrue result ↔ IsSlot bytes.now }
{
    if bytes[0] != 1 {
        return true;
    }
    &bytes[17..64] == [0; 47].as_slice()
}

// Whether the bytes before the slots are those of a store.
fn is_front(bytes: &[u8; HEADER_SIZE]) -> bool
    ensures { IsTrue result ↔ IsFront bytes.now }
{
    bytes[0] == 1 && &bytes[1..6] == b"CPDB\x01".as_slice() && &bytes[7..64] == [0; 57].as_slice()
}

fn have_own_numbers(header: &Header) -> bool
    ensures { IsTrue result ↔ HasOwnNumbers header.now }
{
    match header.first {
        Some(first) => match header.second {
            Some(second) => first.seq != second.seq,
            None => true,
        },
        None => true,
    }
}

// The version, where this is its gate.
fn version_of(gate: u8) -> u8
    ensures { result ≡ (if gate == 1 then 2 else 1) }
{
    if gate == 1 { 2 } else { 1 }
}

// What these bytes say, if they are a header.
fn parse(bytes: &[u8; HEADER_SIZE]) -> Option<Header>
    ensures { MatchOption result (IsHeader bytes.now → ⊥) (λ h. IsHeader bytes.now × (h ≡ header_in bytes.now)) }
{
    if !is_front(bytes) {
        return None;
    }
    if !is_slot(&bytes[64..128]) {
        return None;
    }
    if !is_slot(&bytes[128..192]) {
        return None;
    }
    let header = Header {
        version: version_of(bytes[VERSION_AT]),
        first: slot_in(&bytes[64..128]),
        second: slot_in(&bytes[128..192]),
    };
    if have_own_numbers(&header) {
        return Some(header);
    }
    None
}

// Waits until the file is on the disk, and reads its header, if it has one.
fn look_up<D: Disk>(disk: &mut D) -> Result<Option<Header>, DiskFault>
    ensures found { IfKnown (D.known disk.old) (λ v. IfOk result (λ o. MatchOption o (HasHeader v.content
        → ⊥) (λ h. HasHeader v.content × (h ≡ header_in (take HEADER_SIZE v.content))))) }
    ensures durable { OnOk result (IsSettled (D.known disk.new)) }
    ensures rests { Rests (D.known disk.old) (D.known disk.new) }
    ensures cause { Counted (D.known disk.old) (D.known disk.new) result }
    ensures reads { (D.known disk.new).counts.reads ≤ (D.known disk.old).counts.reads + 1 }
{
    disk.sync()?;
    if disk.size()? < HEADER_SIZE as u64 {
        return Ok(None);
    }
    let mut bytes = [0u8; HEADER_SIZE];
    disk.read(0, &mut bytes)?;
    Ok(parse(&bytes))
}

// Waits until the file is on the disk, and reads its header.
pub(crate) fn read_header<D: Disk>(disk: &mut D) -> Result<Header, JournalFault>
    ensures header { IfKnown (D.known disk.old) (λ v. IfOk result (λ h. HasHeader v.content
        × (h ≡ header_in (take HEADER_SIZE v.content)))) }
    ensures no_store { IfKnown (D.known disk.old) (λ v. IsErrOf result (JournalFault.NoStore 0)
        → HasHeader v.content → ⊥) }
    ensures kinds { IfErr result
        (λ e. (e ≡ JournalFault.Disk) ⊎ ((e ≡ JournalFault.Memory) ⊎ (e ≡ JournalFault.NoStore 0))) }
    ensures durable { OnOk result (IsSettled (D.known disk.new)) }
    ensures rests { Rests (D.known disk.old) (D.known disk.new) }
    ensures cause { UsesDisk (λ e. e ≡ JournalFault.Disk) (D.known disk.old) (D.known disk.new) result }
    ensures reads { (D.known disk.new).counts.reads ≤ (D.known disk.old).counts.reads + 1 }
{
    match look_up(disk)? {
        Some(header) => Ok(header),
        None => Err(JournalFault::NoStore(0)),
    }
}
