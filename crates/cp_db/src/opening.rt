//! A file that is opened: its header, and its entries, which a walk replays one after another.
ghost use Rattle.std.specs.Prelude.{◌≡◌, ◌<◌, ◌⊎◌, ◌↔◌, [], true, false, IsTrue, ℕ, IfOk, IfErr, OnOk, None, Some};
ghost use Rattle.cp_disk.specs.Counts.{UsesDisk};
ghost use Rattle.cp_disk.specs.Views.{IfKnown, IsSettled, Rests};
ghost use Rattle.cp_journal.specs.Frames.{Frame};
ghost use Rattle.cp_frame.specs.Items.{IsOfVersion};
ghost use Rattle.cp_frame.specs.Entries.{WrittenEntry, IsEntry};
ghost use Rattle.cp_frame.specs.Sound.{IsSoundEntry};
ghost use Rattle.cp_frame.specs.Stops.{open_slot};
ghost use Rattle.cp_db.specs.Databases.{IsDatabase, IsReady, is_spent, version_in};
ghost use Rattle.cp_db.specs.FileVersions.{IsAtVersion};
ghost use Rattle.cp_db.specs.Opening.{OpensAs, IsOpenDisk, SpellsAs};

use crate::database::Db;
use crate::fault::OpenFault;
use crate::walk::HistoryWalk;
use cp_disk::Disk;
use cp_format::FormatFault;
use cp_frame::{Entry, entry_of};
use cp_journal::{HEADER_SIZE, Header, Journal};
use cp_store::MemoryStore;
use cp_tree::TreeRep;
use std::alloc::Global;

/// The offset in the file, in bytes, of the slot that names the newest checkpoint, if one is open.
pub(crate) fn open_slot(header: &Header) -> Option<u64>
    ensures { result ≡ open_slot header.now }
{
    match (header.first, header.second) {
        (None, None) => None,
        (Some(_), None) => Some(64),
        (None, Some(_)) => Some(128),
        (Some(first), Some(second)) => {
            if first.seq > second.seq {
                Some(64)
            } else {
                Some(128)
            }
        }
    }
}

/// The entry that the bytes of the frame at this offset spell; `NoStore` with the offset where they spell none. Costs the
/// bytes.
pub(crate) fn entry_in(alloc: Global, body: &[u8], at: u64) -> Result<Entry, OpenFault>
    ensures spells { (f : Frame) → f.body ≡ body.now → SpellsAs f result }
    ensures sound { IfOk result IsSoundEntry }
    ensures at { IfErr result (λ e. (n : ℕ) → e ≡ OpenFault.NoStore n → n ≡ at) }
    ensures disk { IfErr result (λ e. e ≡ OpenFault.Disk → ⊥) }
{
    match entry_of(alloc, body) {
        Ok(entry) => Ok(entry),
        Err(FormatFault::BadByte(_)) => Err(OpenFault::NoStore(at)),
        Err(FormatFault::Memory) => Err(OpenFault::Memory),
    }
}

/// Whether the entry may stand in a file of this version: a commit with a stamp stands in one of version 2 alone.
pub(crate) fn is_of_version(entry: &Entry, version: u8) -> bool
    ensures { (w : WrittenEntry) → IsEntry entry.now w → IsTrue result ↔ IsOfVersion version w }
{
    match entry {
        Entry::Stamped { .. } => version == 2,
        _ => true,
    }
}

/// The version that a header says, which is 1 or 2.
pub(crate) fn version_of(header: &Header) -> u8
    ensures either { (result ≡ 1) ⊎ (result ≡ 2) }
    ensures said { (header.now.version ≡ 1) ⊎ (header.now.version ≡ 2) → result ≡ header.now.version }
{
    if header.version == 1 { 1 } else { 2 }
}

impl<R: TreeRep, S: TreeRep> Db<R, S> {
    /// Opens a file: replays its entries over the tree, in one pass, and keeps their records. Begins with a sync, writes
    /// nothing, and reads each frame once.
    pub fn open_on<D: Disk>(alloc: Global, disk: &mut D) -> Result<Db<R, S>, OpenFault>
        ensures opened { IfKnown (D.known disk.old) (λ v.
            OpensAs R.contents S.contents v.content (D.known disk.new).view result) }
        ensures stands { IfOk result (λ d. IsDatabase R.contents S.contents d) }
        ensures ready { IfKnown (D.known disk.new) (λ v. IfOk result (λ d. IsReady d v)) }
        ensures usable { IfOk result (λ d. is_spent d ≡ false) }
        ensures version { IfOk result (λ d. (version_in d ≡ 1) ⊎ (version_in d ≡ 2)) }
        ensures gate { IfOk result (λ d. IsAtVersion (version_in d) (D.known disk.new)) }
        ensures durable { OnOk result (IsSettled (D.known disk.new)) }
        ensures rests { Rests (D.known disk.old) (D.known disk.new) }
        ensures cause { UsesDisk IsOpenDisk (D.known disk.old) (D.known disk.new) result }
    {
        let header = Journal::header(disk)?;
        if let Some(at) = open_slot(&header) {
            return Err(OpenFault::NoStore(at));
        }
        let version = version_of(&header);
        let journal = Journal::open_on(alloc, disk, HEADER_SIZE as u64)?;
        let walk: HistoryWalk<R, S, MemoryStore> = HistoryWalk::over_all(
            alloc,
            disk,
            &journal,
            HEADER_SIZE as u64,
            version,
        )?;
        if let Some(at) = journal.broken() {
            drop(walk);
            return Err(OpenFault::NoStore(at));
        }
        Ok(Db {
            committed: walk.into_committed(),
            version,
            journal,
            spent: false,
        })
    }
}
