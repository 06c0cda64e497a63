//! Frames in a file, one right after the other.
ghost use Rattle.std.specs.Prelude.{◌≡◌, ◌≤◌, ◌<◌, ◌⊎◌, ◌↔◌, ◌+◌, ◌-◌, ◌*◌, ◌++◌, ◌==◌, if◌then◌else◌, [], ◌∷◌, take, drop, List, ℕ, false, IsTrue, IsErrOf, None, Some, length, IfOk, OnOk, IfErr, OnErr};
ghost use Rattle.std.specs.List.{slice_get};
ghost use Rattle.cp_outside.specs.Causes.{Rose};
ghost use Rattle.cp_disk.specs.Counts.{UsesDisk};
ghost use Rattle.cp_disk.specs.Views.{Only, IsDurable, ViewKeeps, IfKnown, IsSettled, Rests, Steps, Keeps, Either};
ghost use Rattle.cp_journal.specs.Frames.{Frame, entry, frames_of, after_gate};
ghost use Rattle.cp_journal.specs.Holding.{HasFrames, IsAtRest, IsAdded, IsBeforeOrAfter, IsLawful, Holds, Stands};
ghost use Rattle.cp_journal.specs.Journals.{next_byte, Lists, entry_body, HasWalked, Describes};
ghost use Rattle.cp_journal.specs.Headers.{HasHeader, header_in};
ghost use Rattle.cp_journal.specs.NewStores.{IsVacant, IsVacantOrNew, SettlesInto, header, new_file, IsOldOrVacantOrNew};
ghost use Rattle.cp_journal.specs.Upgrading.{upgraded, HasOtherVersion, SaysHeader, with_version, SaysInAVersion, StandsInAVersion};
ghost use Rattle.cp_journal.specs.declared.frame.FrameAt.{FrameAt as frame_at};
ghost use Rattle.cp_journal.specs.declared.header.Header.{Header as header_state};

use crate::calls::{put, put_frame};
use crate::fault::JournalFault;
use crate::frame::{ENTRY, FrameAt, bytes_after_gate};
use crate::header::{Header, read_header};
use crate::limits::{BODY_MAX, FRAME_HEAD, HEADER_SIZE, VERSION_AT};
use crate::new_store::{file_bytes, is_vacant, put_store};
use crate::reading::read_range;
use crate::walk::{kept_gate, walk_frames};
use cp_disk::{DISK_MAX, Disk, READ_MAX};
use std::alloc::{AllocError, Global};
use std::marker::Model;

// How many bytes of its body a journal gives for a frame with this tag: of an entry all, of a checkpoint none.
fn given_len(tag: u8, len: u64) -> u64
    ensures most { result ≤ len }
    ensures given { result ≡ (if tag == ENTRY then len else 0) }
{
    if tag == ENTRY { len } else { 0 }
}

/// Where the frames of a file stand. It keeps numbers alone: each call takes the disk on which the journal was made.
///
/// A journal whose call answered `Disk` or `Memory` while it wrote is spent, and is for nothing but `spent`.
#[derive(Drop)]
pub struct Journal {
    pub(crate) frames: Vec<FrameAt>,
    pub(crate) next: u64,
    pub(crate) begun: Option<u64>,
    pub(crate) broken: Option<u64>,
    pub(crate) spent: bool,
}

impl Model for Journal {
    ghost use Rattle.std.specs.Prelude.{◌≤◌};
    ghost use Rattle.cp_disk.specs.declared.limits.TheConstants.{DISK_MAX};
    ghost use Rattle.cp_journal.specs.Journals.{JournalState, AreInRange, HasRoomFor};

    ghost Value = { JournalState };

    ghost view = { λ s. record { frames = s.frames.items; next = s.next; begun = s.begun; broken = s.broken; spent = s.spent } };

    ghost invariant = { λ s. (s.next ≤ DISK_MAX) × AreInRange s.frames.items × HasRoomFor s.next s.begun };
}

impl Journal {
    /// Whether the file is vacant, so that a store may be made in it: it has one byte at most, or its first byte is 00, or that
    /// isn't 01 and `CPDB` and the format's number 01 come next. Makes one read at most.
    pub fn vacant<D: Disk>(disk: &mut D) -> Result<bool, JournalFault>
        ensures vacant { IfKnown (D.known disk.old) (λ v. IfOk result (λ b. IsTrue b ↔ IsVacant v.content)) }
        ensures rests { Rests (D.known disk.old) (D.known disk.new) }
        ensures kinds { OnErr result (IsErrOf result JournalFault.Disk ⊎ IsErrOf result JournalFault.Memory) }
        ensures cause { UsesDisk (λ e. e ≡ JournalFault.Disk) (D.known disk.old) (D.known disk.new) result }
        ensures wants { (D.known disk.old).counts.wants ≤ (D.known disk.new).counts.wants }
    {
        Ok(is_vacant(disk)?)
    }

    /// Makes a store in a vacant file, whose first frame is an entry with this body. It is on the disk then. Takes its memory
    /// before the first call of the disk, which is a sync.
    ///
    /// Until that sync a crash leaves what it could leave before; after it, a vacant file or the store.
    pub fn create<D: Disk>(
        alloc: Global,
        disk: &mut D,
        body: &[u8],
    ) -> Result<Journal, JournalFault>
        requires short { length body.now ≤ BODY_MAX }
        requires vacant { IfKnown (D.known disk.old) (λ v. IsVacant v.content) }
        ensures described { IfKnown (D.known disk.new) (λ v.
            IfOk result (λ j. Describes header (entry body.now ∷ []) j v)) }
        ensures durable { OnOk result (IfKnown (D.known disk.new) (λ v. IsDurable (new_file (entry body.now)) v)) }
        ensures crash { Keeps (IsOldOrVacantOrNew (D.known disk.old).view (entry body.now)) (D.known disk.old) (D.known disk.new) }
        ensures settles { IfKnown (D.known disk.old) (λ v.
            SettlesInto (IsVacantOrNew (entry body.now)) v (D.known disk.new).view) }
        ensures next { IfOk result (λ j. j.next ≡ HEADER_SIZE + FRAME_HEAD + length body.now) }
        ensures usable { IfOk result (λ j. (j.broken ≡ None) × (j.spent ≡ false)) }
        ensures idle { IfOk result (λ j. j.begun ≡ None) }
        ensures kinds { OnErr result (IsErrOf result JournalFault.Disk ⊎ IsErrOf result JournalFault.Memory) }
        ensures cause { UsesDisk (λ e. e ≡ JournalFault.Disk) (D.known disk.old) (D.known disk.new) result }
        ensures memory { IsErrOf result JournalFault.Memory → (disk.new ≡ disk.old)
            ⊎ Rose (D.known disk.old).counts.wants (D.known disk.new).counts.wants }
    {
        let bytes = file_bytes(alloc, body)?;
        let journal = Journal::of_one(alloc, body.len() as u64)?;
        put_store(disk, &bytes)?;
        Ok(journal)
    }

    // The journal of a new store, whose one frame is an entry with so long a body.
    fn of_one(alloc: Global, len: u64) -> Result<Journal, AllocError>
        requires { len ≤ BODY_MAX }
        ensures { IfOk result (λ j. j ≡ record {
          frames = record { at = HEADER_SIZE; tag = ENTRY; len = len } ∷ [];
          next = HEADER_SIZE + FRAME_HEAD + len;
          begun = None;
          broken = None;
          spent = false;
        }) }
    {
        let mut frames = Vec::new(alloc);
        frames.push(FrameAt {
            at: HEADER_SIZE as u64,
            tag: ENTRY,
            len,
        })?;
        Ok(Journal {
            frames,
            next: HEADER_SIZE as u64 + FRAME_HEAD + len,
            begun: None,
            broken: None,
            spent: false,
        })
    }

    /// The header of a store. Begins with a sync, and makes one read of the first [`HEADER_SIZE`] bytes at most. Answers
    /// `NoStore(0)` where these aren't the header of a store: the gate is closed, other bytes than `CPDB` and the format's number
    /// come after it, the bytes from 7 to 63 aren't zero, an open slot doesn't end with zeros, two open slots have the same
    /// number, or there are fewer bytes.
    pub fn header<D: Disk>(disk: &mut D) -> Result<Header, JournalFault>
        ensures header { IfKnown (D.known disk.old) (λ v. IfOk result (λ h. HasHeader v.content
            × (h ≡ header_in (take HEADER_SIZE v.content)))) }
        ensures no_store { IfKnown (D.known disk.old) (λ v. IsErrOf result (JournalFault.NoStore 0)
            → HasHeader v.content → ⊥) }
        ensures kinds { IfErr result
            (λ e. (e ≡ JournalFault.Disk) ⊎ ((e ≡ JournalFault.Memory) ⊎ (e ≡ JournalFault.NoStore 0))) }
        ensures durable { OnOk result (IsSettled (D.known disk.new)) }
        ensures rests { Rests (D.known disk.old) (D.known disk.new) }
        ensures cause { UsesDisk (λ e. e ≡ JournalFault.Disk) (D.known disk.old) (D.known disk.new) result }
        ensures reads { (D.known disk.new).counts.reads ≤ (D.known disk.old).counts.reads + 1 }
    {
        read_header(disk)
    }

    /// Walks the frames from an offset on, up to a closed gate or to the first frame that is cut short, has another tag, or is
    /// an entry over the limit. It keeps the frames before. It writes nothing, and makes two reads for each frame and for the
    /// gate after them.
    pub fn open_on<D: Disk>(alloc: Global, disk: &mut D, at: u64) -> Result<Journal, JournalFault>
        ensures walked { IfKnown (D.known disk.old) (λ v.
            IfOk result (λ j. HasWalked at (frames_of (drop at v.content)) j v.content)) }
        ensures rests { Rests (D.known disk.old) (D.known disk.new) }

        // Where nothing is pending, and the walk ended at a closed gate, frames may be added.
        ensures described { IfKnown (D.known disk.old) (λ v. Only v.content v.images
            → IfOk result (λ j. j.broken ≡ None
            → Describes (take at v.content) (frames_of (drop at v.content)).frames j (D.known disk.new).view)) }
        ensures usable { IfOk result (λ j. j.spent ≡ false) }
        ensures idle { IfOk result (λ j. j.begun ≡ None) }
        ensures kinds { OnErr result (IsErrOf result JournalFault.Disk ⊎ IsErrOf result JournalFault.Memory) }
        ensures cause { UsesDisk (λ e. e ≡ JournalFault.Disk) (D.known disk.old) (D.known disk.new) result }
        ensures reads { IfOk result (λ j. (D.known disk.new).counts.reads ≤ (D.known disk.old).counts.reads + 2 * length j.frames + 2) }
        ensures most_reads { IfKnown (D.known disk.old) (λ v.
            (D.known disk.new).counts.reads ≤ (D.known disk.old).counts.reads + 2 * length (frames_of (drop at v.content)).frames + 2) }
    {
        let size = disk.size()?;
        if at > size {
            return Ok(Journal {
                frames: Vec::new(alloc),
                next: size,
                begun: None,
                broken: Some(at),
                spent: false,
            });
        }
        let walked = walk_frames(alloc, disk, size, at)?;
        Ok(Journal {
            frames: walked.frames,
            next: walked.next,
            begun: None,
            broken: kept_gate(walked.clean, walked.next),
            spent: false,
        })
    }

    /// Makes `into` the body of the frame of this number, from 0 on, if it is an entry, and empties it for a checkpoint; says
    /// where the frame stands. Makes one read for each [`cp_disk::READ_MAX`] bytes of an entry. After an error what `into` holds
    /// is not said.
    pub fn read<D: Disk>(
        &self,
        disk: &mut D,
        n: usize,
        into: &mut Vec<u8>,
    ) -> Result<FrameAt, JournalFault>
        requires within { n < length self.now.frames }
        requires listed { IfKnown (D.known disk.old) (λ v. (from : ℕ) × (fs : List Frame)
            × Lists from fs self.now v.content) }
        ensures at { IfOk result (λ f. slice_get self.now.frames n ≡ Some f) }
        ensures body { IfKnown (D.known disk.old) (λ v. (from : ℕ) (fs : List Frame) (f : Frame)
            → Lists from fs self.now v.content → slice_get fs n ≡ Some f
            → OnOk result (into.new.items ≡ entry_body f)) }
        ensures rests { Rests (D.known disk.old) (D.known disk.new) }
        ensures kinds { OnErr result (IsErrOf result JournalFault.Disk ⊎ IsErrOf result JournalFault.Memory) }
        ensures cause { UsesDisk (λ e. e ≡ JournalFault.Disk) (D.known disk.old) (D.known disk.new) result }
        ensures reads { (f : frame_at) → slice_get self.now.frames n ≡ Some f
            → READ_MAX * (D.known disk.new).counts.reads ≤ READ_MAX * (D.known disk.old).counts.reads + f.len + (READ_MAX - 1) }
    {
        let frame = self.frames[n];
        read_range(
            disk,
            frame.at + FRAME_HEAD,
            given_len(frame.tag, frame.len),
            into,
        )?;
        Ok(frame)
    }

    /// The number of frames.
    pub fn len(&self) -> usize
        ensures { result ≡ length self.now.frames }
    {
        self.frames.len()
    }

    /// Where the frame of a checkpoint is begun, the offset of its next piece; else that of the closed gate after the frames.
    /// Where no frame stands whole at an open gate there, it is not said.
    pub fn next(&self) -> u64
        ensures is { result ≡ next_byte self.now.next self.now.begun }
        ensures most { result ≤ DISK_MAX }
    {
        match self.begun {
            Some(len) => self.next + FRAME_HEAD + len,
            None => self.next,
        }
    }

    /// The offset of the gate at which the walk of [`Journal::open_on`] ended, if that wasn't closed.
    pub fn broken(&self) -> Option<u64>
        ensures { result ≡ self.now.broken }
    {
        self.broken
    }

    /// Whether a call that writes has answered `Disk` or `Memory`.
    pub fn spent(&self) -> bool
        ensures { result ≡ self.now.spent }
    {
        self.spent
    }

    /// Adds an entry with this body, and answers its offset. It is on the disk then. Takes its memory before it writes.
    ///
    /// A crash at any moment leaves the frames before, or those and the new one. `TooLarge` changes nothing.
    pub fn append<D: Disk>(
        &mut self,
        alloc: Global,
        disk: &mut D,
        body: &[u8],
    ) -> Result<u64, JournalFault>
        requires whole { self.old.broken ≡ None }
        requires usable { self.old.spent ≡ false }
        requires idle { self.old.begun ≡ None }
        requires rest { IfKnown (D.known disk.old) (λ v. IsAtRest self.old.next v) }
        ensures at { IfOk result (λ at. at ≡ self.old.next) }
        ensures added { IfKnown (D.known disk.old) (λ v.
            OnOk result (IsAdded self.old.next (entry body.now) v.content self.new.next (D.known disk.new).view)) }
        ensures frames { OnOk result (self.new.frames ≡
            self.old.frames ++ record { at = self.old.next; tag = ENTRY; len = length body.now } ∷ []) }
        ensures next { OnOk result (self.new.next ≡ self.old.next + length body.now + FRAME_HEAD) }
        ensures crash { Keeps (IsBeforeOrAfter self.old.next (D.known disk.old).view.content (entry body.now)) (D.known disk.old) (D.known disk.new) }

        // The same of the whole file, where it holds frames up to the closed gate.
        ensures described { IfKnown (D.known disk.old) (λ v. (head : List ℕ) (fs : List Frame)
            → Describes head fs self.old v
            → OnOk result (Describes head (fs ++ entry body.now ∷ []) self.new (D.known disk.new).view)) }
        ensures stands { IfKnown (D.known disk.old) (λ v. (head : List ℕ) (fs : List Frame)
            → Holds head fs self.old.next v
            → ViewKeeps (Either (Stands head fs) (Stands head (fs ++ entry body.now ∷ []))) v (D.known disk.new).view) }
        ensures too_large { IsErrOf result JournalFault.TooLarge
            ↔ ((BODY_MAX < length body.now) ⊎ (DISK_MAX < self.old.next + length body.now + FRAME_HEAD + 1)) }
        ensures unchanged { IsErrOf result JournalFault.TooLarge → (self.new ≡ self.old) × (disk.new ≡ disk.old) }
        ensures kinds { OnErr result
            (IsErrOf result JournalFault.Disk ⊎ (IsErrOf result JournalFault.Memory ⊎ IsErrOf result JournalFault.TooLarge)) }
        ensures spent { IsTrue self.new.spent ↔ (IsErrOf result JournalFault.Disk ⊎ IsErrOf result JournalFault.Memory) }
        ensures broken { self.new.broken ≡ self.old.broken }
        ensures idle { self.new.begun ≡ self.old.begun }
        ensures cause { UsesDisk (λ e. e ≡ JournalFault.Disk) (D.known disk.old) (D.known disk.new) result }
        ensures memory { IsErrOf result JournalFault.Memory → (disk.new ≡ disk.old)
            ⊎ Rose (D.known disk.old).counts.wants (D.known disk.new).counts.wants }
        ensures reads { (D.known disk.new).counts.reads ≡ (D.known disk.old).counts.reads }
    {
        if body.len() > BODY_MAX || self.next + body.len() as u64 + FRAME_HEAD + 1 > DISK_MAX {
            return Err(JournalFault::TooLarge);
        }
        let result = self.write_frame(alloc, disk, ENTRY, body);
        self.spent = result.is_err();
        result
    }

    /// Makes the file one of version 2, which it may be already: writes the gate of its version, and syncs. It is on the disk
    /// then. Takes no memory of its own.
    ///
    /// A crash at any moment leaves the file of version 1 or of version 2, with the slots and the frames that it had.
    pub fn upgrade<D: Disk>(&mut self, disk: &mut D) -> Result<(), JournalFault>
        requires whole { self.old.broken ≡ None }
        requires usable { self.old.spent ≡ false }
        requires idle { self.old.begun ≡ None }
        requires rest { IfKnown (D.known disk.old) (λ v. IsAtRest self.old.next v) }
        requires header { IfKnown (D.known disk.old) (λ v. HEADER_SIZE ≤ self.old.next) }
        ensures content { IfKnown (D.known disk.old) (λ v.
            OnOk result (IsDurable (upgraded v.content) (D.known disk.new).view)) }
        ensures at_rest { OnOk result (IfKnown (D.known disk.new) (λ v. IsAtRest self.new.next v)) }
        ensures crash { Steps HasOtherVersion (D.known disk.old) (D.known disk.new) }

        // The frames that each image has stay, and the header says the same, but for the version, which is 2 at the end.
        ensures frames { IfKnown (D.known disk.old) (λ v. (from : ℕ) (fs : List Frame) → VERSION_AT < from
            → ((c : List ℕ) → v.images c → HasFrames from fs c)
            → ViewKeeps (HasFrames from fs) v (D.known disk.new).view) }
        ensures slots { IfKnown (D.known disk.old) (λ v. (h : header_state) → SaysHeader h v.content
            → ViewKeeps (SaysInAVersion h) v (D.known disk.new).view) }
        ensures version { IfKnown (D.known disk.old) (λ v. (h : header_state) → SaysHeader h v.content
            → OnOk result (SaysHeader (with_version 2 h) (D.known disk.new).view.content)) }

        // The same of the whole file, where it holds frames up to the closed gate.
        ensures described { IfKnown (D.known disk.old) (λ v. (head : List ℕ) (fs : List Frame)
            → VERSION_AT < length head → Describes head fs self.old v
            → OnOk result (Describes (upgraded head) fs self.new (D.known disk.new).view)) }
        ensures holds { IfKnown (D.known disk.old) (λ v. (head : List ℕ) (fs : List Frame)
            → VERSION_AT < length head → Holds head fs self.old.next v
            → OnOk result (Holds (upgraded head) fs self.new.next (D.known disk.new).view)) }
        ensures stands { IfKnown (D.known disk.old) (λ v. (head : List ℕ) (fs : List Frame)
            → VERSION_AT < length head → Holds head fs self.old.next v
            → ViewKeeps (StandsInAVersion head fs) v (D.known disk.new).view) }
        ensures kinds { OnErr result (IsErrOf result JournalFault.Disk ⊎ IsErrOf result JournalFault.Memory) }
        ensures spent { IsTrue self.new.spent ↔ (IsErrOf result JournalFault.Disk ⊎ IsErrOf result JournalFault.Memory) }
        ensures same { (self.new.frames ≡ self.old.frames) × (self.new.next ≡ self.old.next)
            × (self.new.broken ≡ self.old.broken) }
        ensures idle { self.new.begun ≡ self.old.begun }
        ensures cause { UsesDisk (λ e. e ≡ JournalFault.Disk) (D.known disk.old) (D.known disk.new) result }
        ensures memory { IsErrOf result JournalFault.Memory
            → Rose (D.known disk.old).counts.wants (D.known disk.new).counts.wants }
        ensures reads { (D.known disk.new).counts.reads ≡ (D.known disk.old).counts.reads }
    {
        match put(disk, VERSION_AT as u64, &[1]) {
            Ok(()) => Ok(()),
            Err(fault) => {
                self.spent = true;
                Err(fault.into())
            }
        }
    }

    // Lists the frame that comes next, and gives what is written after its gate.
    fn list_frame(&mut self, alloc: Global, tag: u8, body: &[u8]) -> Result<Vec<u8>, AllocError>
        requires room { self.old.next + length body.now + FRAME_HEAD ≤ DISK_MAX }
        ensures bytes { IfOk result (λ v. v.items ≡ after_gate (record { tag = tag; body = body.now })) }
        ensures frames { OnOk result (self.new.frames ≡
            self.old.frames ++ record { at = self.old.next; tag = tag; len = length body.now } ∷ []) }
        ensures same { (self.new.next ≡ self.old.next) × (self.new.broken ≡ self.old.broken)
            × (self.new.begun ≡ self.old.begun) × (self.new.spent ≡ self.old.spent) }
    {
        let bytes = bytes_after_gate(alloc, tag, body)?;
        self.frames.push(FrameAt {
            at: self.next,
            tag,
            len: body.len() as u64,
        })?;
        Ok(bytes)
    }

    // Takes its memory, writes the frame after its closed gate, and opens the gate.
    fn write_frame<D: Disk>(
        &mut self,
        alloc: Global,
        disk: &mut D,
        tag: u8,
        body: &[u8],
    ) -> Result<u64, JournalFault>
        requires lawful { IsLawful (record { tag = tag; body = body.now }) }
        requires room { self.old.next + length body.now + FRAME_HEAD + 1 ≤ DISK_MAX }
        requires idle { self.old.begun ≡ None }
        requires rest { IfKnown (D.known disk.old) (λ v. IsAtRest self.old.next v) }
        ensures at { IfOk result (λ at. at ≡ self.old.next) }
        ensures added { IfKnown (D.known disk.old) (λ v.
            OnOk result (IsAdded self.old.next (record { tag = tag; body = body.now }) v.content self.new.next (D.known disk.new).view)) }
        ensures frames { OnOk result (self.new.frames ≡
            self.old.frames ++ record { at = self.old.next; tag = tag; len = length body.now } ∷ []) }
        ensures next { OnOk result (self.new.next ≡ self.old.next + length body.now + FRAME_HEAD) }
        ensures crash { Keeps (IsBeforeOrAfter self.old.next (D.known disk.old).view.content (record { tag = tag; body = body.now })) (D.known disk.old) (D.known disk.new) }
        ensures kinds { OnErr result (IsErrOf result JournalFault.Disk ⊎ IsErrOf result JournalFault.Memory) }
        ensures spent { self.new.spent ≡ self.old.spent }
        ensures broken { self.new.broken ≡ self.old.broken }
        ensures idle { self.new.begun ≡ self.old.begun }
        ensures cause { UsesDisk (λ e. e ≡ JournalFault.Disk) (D.known disk.old) (D.known disk.new) result }
        ensures memory { IsErrOf result JournalFault.Memory → (disk.new ≡ disk.old)
            ⊎ Rose (D.known disk.old).counts.wants (D.known disk.new).counts.wants }
        ensures reads { (D.known disk.new).counts.reads ≡ (D.known disk.old).counts.reads }
    {
        let at = self.next;
        let bytes = self.list_frame(alloc, tag, body)?;
        put_frame(disk, at, &bytes)?;
        self.next = at + body.len() as u64 + FRAME_HEAD;
        Ok(at)
    }
}
