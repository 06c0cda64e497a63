//! The frame of a checkpoint, written piece by piece.
ghost use Rattle.std.specs.Prelude.{◌≡◌, ◌≤◌, ◌<◌, ◌⊎◌, ◌↔◌, ◌+◌, ◌++◌, [], ◌∷◌, false, List, ℕ, IsTrue, IsErrOf, None, Some, length, take, drop, IfOk, OnOk, OnErr};
ghost use Rattle.std.specs.Int.{w64, to_be_bytes};
ghost use Rattle.cp_outside.specs.Causes.{Rose};
ghost use Rattle.cp_disk.specs.Counts.{Counted, UsesDisk};
ghost use Rattle.cp_disk.specs.Views.{ViewKeeps, IfKnown, ReachesTo, IsSettled, Either};
ghost use Rattle.cp_disk.specs.Writes.{with_bytes};
ghost use Rattle.cp_journal.specs.Begun.{checkpoint, KeepsFront, HasBegun};
ghost use Rattle.cp_journal.specs.Frames.{Frame, after_gate};
ghost use Rattle.cp_journal.specs.Holding.{IsLawful, IsAtRest, IsAdded, IsBeforeOrAfter, Holds, Stands};
ghost use Rattle.cp_journal.specs.Journals.{next_byte, Describes};

use crate::calls::put;
use crate::fault::JournalFault;
use crate::frame::{CHECKPOINT, FrameAt};
use crate::journal::Journal;
use crate::limits::FRAME_HEAD;
use cp_disk::{DISK_MAX, Disk, DiskFault};

// Writes bytes after the closed gate of a frame.
fn put_after<D: Disk>(disk: &mut D, gate: u64, at: u64, bytes: &[u8]) -> Result<(), DiskFault>
    requires after { gate < at }
    requires rest { IfKnown (D.known disk.old) (λ v. IsAtRest gate v) }
    requires within { ReachesTo at (D.known disk.old) }
    requires most { at + length bytes.now ≤ DISK_MAX }
    ensures content { IfKnown (D.known disk.old) (λ v.
        OnOk result ((D.known disk.new).view.content ≡ with_bytes v.content at bytes.now)) }
    ensures front { KeepsFront gate (D.known disk.old) (D.known disk.new) }
    ensures cause { Counted (D.known disk.old) (D.known disk.new) result }
    ensures reads { (D.known disk.new).counts.reads ≡ (D.known disk.old).counts.reads }
{
    disk.write_at(at, bytes)
}

// What stands between the gate of a frame and its body.
fn head_bytes(tag: u8, len: u64) -> [u8; 9]
    ensures { result ≡ tag ∷ to_be_bytes w64 len }
{
    let len = len.to_be_bytes();
    [
        tag, len[0], len[1], len[2], len[3], len[4], len[5], len[6], len[7],
    ]
}

// Writes the closed gate of the next frame after the body of one, which stands after its own closed gate, and then the tag and
// the length in their place, and waits until all of it is on the disk.
fn close_frame<D: Disk>(disk: &mut D, at: u64, tag: u8, len: u64) -> Result<(), DiskFault>
    requires rest { IfKnown (D.known disk.old) (λ v. IsAtRest at v) }
    requires within { ReachesTo (at + FRAME_HEAD + len) (D.known disk.old) }
    requires most { at + FRAME_HEAD + len + 1 ≤ DISK_MAX }
    ensures closed { IfKnown (D.known disk.old) (λ v. (f : Frame)
        → f.tag ≡ tag → length f.body ≡ len → take len (drop (at + FRAME_HEAD) v.content) ≡ f.body
        → OnOk result ((D.known disk.new).view.content ≡ with_bytes v.content (at + 1) (after_gate f))) }
    ensures durable { OnOk result (IsSettled (D.known disk.new)) }
    ensures front { KeepsFront at (D.known disk.old) (D.known disk.new) }
    ensures cause { Counted (D.known disk.old) (D.known disk.new) result }
    ensures reads { (D.known disk.new).counts.reads ≡ (D.known disk.old).counts.reads }
{
    put_after(disk, at, at + FRAME_HEAD + len, &[0])?;
    put_after(disk, at, at + 1, &head_bytes(tag, len))?;
    disk.sync()
}

// Ends the frame whose body stands after its closed gate, and opens the gate then.
fn end_frame<D: Disk>(disk: &mut D, at: u64, tag: u8, len: u64) -> Result<(), DiskFault>
    requires rest { IfKnown (D.known disk.old) (λ v. IsAtRest at v) }
    requires within { ReachesTo (at + FRAME_HEAD + len) (D.known disk.old) }
    requires most { at + FRAME_HEAD + len + 1 ≤ DISK_MAX }
    ensures added { IfKnown (D.known disk.old) (λ v. (f : Frame)
        → IsLawful f → f.tag ≡ tag → length f.body ≡ len → take len (drop (at + FRAME_HEAD) v.content) ≡ f.body
        → OnOk result (IsAdded at f v.content (at + FRAME_HEAD + len) (D.known disk.new).view)) }
    ensures crash { IfKnown (D.known disk.old) (λ v. (f : Frame)
        → IsLawful f → f.tag ≡ tag → length f.body ≡ len → take len (drop (at + FRAME_HEAD) v.content) ≡ f.body
        → ViewKeeps (IsBeforeOrAfter at v.content f) v (D.known disk.new).view) }
    ensures cause { Counted (D.known disk.old) (D.known disk.new) result }
    ensures reads { (D.known disk.new).counts.reads ≡ (D.known disk.old).counts.reads }
{
    close_frame(disk, at, tag, len)?;
    put(disk, at, &[1])
}

impl Journal {
    /// Begins the frame of a checkpoint after the closed gate that ends the frames: writes zeros in the place of its tag and its
    /// length. Nothing is synced before [`Journal::finish`]. Takes no memory of its own.
    ///
    /// A crash at any moment leaves the frames before. `TooLarge`, where the file would be over [`DISK_MAX`] bytes, changes
    /// nothing.
    pub fn begin<D: Disk>(&mut self, disk: &mut D) -> Result<(), JournalFault>
        requires whole { self.old.broken ≡ None }
        requires usable { self.old.spent ≡ false }
        requires idle { self.old.begun ≡ None }
        requires rest { IfKnown (D.known disk.old) (λ v. IsAtRest self.old.next v) }
        ensures begun { IfKnown (D.known disk.old) (λ v.
            OnOk result (HasBegun self.new [] (D.known disk.new).view)) }
        ensures len { OnOk result (self.new.begun ≡ Some 0) }
        ensures front { KeepsFront self.old.next (D.known disk.old) (D.known disk.new) }
        ensures too_large { IsErrOf result JournalFault.TooLarge ↔ (DISK_MAX < self.old.next + FRAME_HEAD) }
        ensures unchanged { IsErrOf result JournalFault.TooLarge → (self.new ≡ self.old) × (disk.new ≡ disk.old) }
        ensures kinds { OnErr result
            (IsErrOf result JournalFault.Disk ⊎ (IsErrOf result JournalFault.Memory ⊎ IsErrOf result JournalFault.TooLarge)) }
        ensures spent { IsTrue self.new.spent ↔ (IsErrOf result JournalFault.Disk ⊎ IsErrOf result JournalFault.Memory) }
        ensures same { (self.new.frames ≡ self.old.frames) × (self.new.next ≡ self.old.next)
            × (self.new.broken ≡ self.old.broken) }
        ensures cause { UsesDisk (λ e. e ≡ JournalFault.Disk) (D.known disk.old) (D.known disk.new) result }
        ensures memory { IsErrOf result JournalFault.Memory
            → Rose (D.known disk.old).counts.wants (D.known disk.new).counts.wants }
        ensures reads { (D.known disk.new).counts.reads ≡ (D.known disk.old).counts.reads }
    {
        let at = self.next;
        if at > DISK_MAX - FRAME_HEAD {
            return Err(JournalFault::TooLarge);
        }
        match put_after(disk, at, at + 1, &[0; 9]) {
            Ok(()) => {
                self.begun = Some(0);
                Ok(())
            }
            Err(fault) => {
                self.spent = true;
                Err(fault.into())
            }
        }
    }

    // The bytes of the body of the frame that is begun.
    fn begun_len(&self) -> u64
        requires { (len : ℕ) × (self.now.begun ≡ Some len) }
        ensures is { self.now.begun ≡ Some result }
        ensures most { self.now.next + FRAME_HEAD + result ≤ DISK_MAX }
    {
        match self.begun {
            Some(len) => len,
            None => 0,
        }
    }

    /// Writes the next bytes of the body of the frame that is begun. Takes no memory of its own.
    ///
    /// A crash at any moment leaves the frames before. `TooLarge`, where the file would be over [`DISK_MAX`] bytes, changes
    /// nothing in the file, and no frame is begun then.
    pub fn piece<D: Disk>(&mut self, disk: &mut D, bytes: &[u8]) -> Result<(), JournalFault>
        requires usable { self.old.spent ≡ false }
        requires begun { (len : ℕ) × (self.old.begun ≡ Some len) }
        requires body { IfKnown (D.known disk.old) (λ v. (body : List ℕ) × HasBegun self.old body v) }
        ensures body { IfKnown (D.known disk.old) (λ v. (body : List ℕ) → HasBegun self.old body v
            → OnOk result (HasBegun self.new (body ++ bytes.now) (D.known disk.new).view)) }
        ensures len { OnOk result ((len : ℕ) → self.old.begun ≡ Some len
            → self.new.begun ≡ Some (len + length bytes.now)) }
        ensures front { KeepsFront self.old.next (D.known disk.old) (D.known disk.new) }
        ensures too_large { IsErrOf result JournalFault.TooLarge
            ↔ (DISK_MAX < next_byte self.old.next self.old.begun + length bytes.now) }
        ensures given_up { IsErrOf result JournalFault.TooLarge
            → (self.new ≡ record self.old { begun = None }) × (disk.new ≡ disk.old) }
        ensures kinds { OnErr result
            (IsErrOf result JournalFault.Disk ⊎ (IsErrOf result JournalFault.Memory ⊎ IsErrOf result JournalFault.TooLarge)) }
        ensures spent { IsTrue self.new.spent ↔ (IsErrOf result JournalFault.Disk ⊎ IsErrOf result JournalFault.Memory) }
        ensures same { (self.new.frames ≡ self.old.frames) × (self.new.next ≡ self.old.next)
            × (self.new.broken ≡ self.old.broken) }
        ensures cause { UsesDisk (λ e. e ≡ JournalFault.Disk) (D.known disk.old) (D.known disk.new) result }
        ensures memory { IsErrOf result JournalFault.Memory
            → Rose (D.known disk.old).counts.wants (D.known disk.new).counts.wants }
        ensures reads { (D.known disk.new).counts.reads ≡ (D.known disk.old).counts.reads }
    {
        let len = self.begun_len();
        let gate = self.next;
        let at = gate + FRAME_HEAD + len;
        let more = bytes.len() as u64;
        if more > DISK_MAX - at {
            self.begun = None;
            return Err(JournalFault::TooLarge);
        }
        match put_after(disk, gate, at, bytes) {
            Ok(()) => {
                self.begun = Some(len + more);
                Ok(())
            }
            Err(fault) => {
                self.spent = true;
                Err(fault.into())
            }
        }
    }

    /// Ends the frame that is begun, and answers the offset of its gate. It is on the disk then. Takes its memory before it
    /// writes.
    ///
    /// A crash at any moment leaves the frames before, or those and this one. `TooLarge`, where the closed gate after the body
    /// would take the file over [`DISK_MAX`] bytes, changes nothing in the file, and no frame is begun then.
    pub fn finish<D: Disk>(&mut self, disk: &mut D) -> Result<u64, JournalFault>
        requires usable { self.old.spent ≡ false }
        requires begun { (len : ℕ) × (self.old.begun ≡ Some len) }
        requires body { IfKnown (D.known disk.old) (λ v. (body : List ℕ) × HasBegun self.old body v) }
        ensures at { IfOk result (λ at. at ≡ self.old.next) }
        ensures added { IfKnown (D.known disk.old) (λ v. (body : List ℕ) → HasBegun self.old body v
            → OnOk result
            (IsAdded self.old.next (checkpoint body) v.content self.new.next (D.known disk.new).view)) }
        ensures frames { (len : ℕ) → self.old.begun ≡ Some len → OnOk result (self.new.frames ≡
            self.old.frames ++ record { at = self.old.next; tag = CHECKPOINT; len = len } ∷ []) }
        ensures next { OnOk result ((self.new.begun ≡ None) × (self.new.next ≡ next_byte self.old.next self.old.begun)) }
        ensures crash { IfKnown (D.known disk.old) (λ v. (body : List ℕ) → HasBegun self.old body v
            → ViewKeeps (IsBeforeOrAfter self.old.next v.content (checkpoint body))
            v (D.known disk.new).view) }

        // The same of the whole file, where it holds frames up to the closed gate.
        ensures described { IfKnown (D.known disk.old) (λ v.
            (head : List ℕ) (fs : List Frame) (body : List ℕ)
            → Describes head fs self.old v → HasBegun self.old body v
            → OnOk result (Describes head (fs ++ checkpoint body ∷ []) self.new (D.known disk.new).view)) }
        ensures stands { IfKnown (D.known disk.old) (λ v.
            (head : List ℕ) (fs : List Frame) (body : List ℕ)
            → Holds head fs self.old.next v → HasBegun self.old body v
            → ViewKeeps (Either (Stands head fs) (Stands head (fs ++ checkpoint body ∷ []))) v
            (D.known disk.new).view) }
        ensures too_large { IsErrOf result JournalFault.TooLarge ↔ (DISK_MAX < next_byte self.old.next self.old.begun + 1) }
        ensures given_up { IsErrOf result JournalFault.TooLarge
            → (self.new ≡ record self.old { begun = None }) × (disk.new ≡ disk.old) }
        ensures kinds { OnErr result
            (IsErrOf result JournalFault.Disk ⊎ (IsErrOf result JournalFault.Memory ⊎ IsErrOf result JournalFault.TooLarge)) }
        ensures spent { IsTrue self.new.spent ↔ (IsErrOf result JournalFault.Disk ⊎ IsErrOf result JournalFault.Memory) }
        ensures broken { self.new.broken ≡ self.old.broken }
        ensures cause { UsesDisk (λ e. e ≡ JournalFault.Disk) (D.known disk.old) (D.known disk.new) result }
        ensures memory { IsErrOf result JournalFault.Memory
            → (disk.new ≡ disk.old) ⊎ Rose (D.known disk.old).counts.wants (D.known disk.new).counts.wants }
        ensures reads { (D.known disk.new).counts.reads ≡ (D.known disk.old).counts.reads }
    {
        let len = self.begun_len();
        if self.next + FRAME_HEAD + len >= DISK_MAX {
            self.begun = None;
            return Err(JournalFault::TooLarge);
        }
        let result = self.end_begun(disk, len);
        self.spent = result.is_err();
        result
    }

    // Lists the frame that is begun, and ends it.
    fn end_begun<D: Disk>(&mut self, disk: &mut D, len: u64) -> Result<u64, JournalFault>
        requires begun { self.old.begun ≡ Some len }
        requires room { self.old.next + FRAME_HEAD + len + 1 ≤ DISK_MAX }
        requires body { IfKnown (D.known disk.old) (λ v. (body : List ℕ) × HasBegun self.old body v) }
        ensures at { IfOk result (λ at. at ≡ self.old.next) }
        ensures added { IfKnown (D.known disk.old) (λ v. (body : List ℕ) → HasBegun self.old body v
            → OnOk result
            (IsAdded self.old.next (checkpoint body) v.content self.new.next (D.known disk.new).view)) }
        ensures frames { OnOk result (self.new.frames ≡
            self.old.frames ++ record { at = self.old.next; tag = CHECKPOINT; len = len } ∷ []) }
        ensures next { OnOk result ((self.new.begun ≡ None) × (self.new.next ≡ self.old.next + FRAME_HEAD + len)) }
        ensures crash { IfKnown (D.known disk.old) (λ v. (body : List ℕ) → HasBegun self.old body v
            → ViewKeeps (IsBeforeOrAfter self.old.next v.content (checkpoint body))
            v (D.known disk.new).view) }
        ensures kinds { OnErr result (IsErrOf result JournalFault.Disk ⊎ IsErrOf result JournalFault.Memory) }
        ensures same { (self.new.broken ≡ self.old.broken) × (self.new.spent ≡ self.old.spent) }
        ensures cause { UsesDisk (λ e. e ≡ JournalFault.Disk) (D.known disk.old) (D.known disk.new) result }
        ensures memory { IsErrOf result JournalFault.Memory
            → (disk.new ≡ disk.old) ⊎ Rose (D.known disk.old).counts.wants (D.known disk.new).counts.wants }
        ensures reads { (D.known disk.new).counts.reads ≡ (D.known disk.old).counts.reads }
    {
        let at = self.next;
        self.frames.push(FrameAt {
            at,
            tag: CHECKPOINT,
            len,
        })?;
        end_frame(disk, at, CHECKPOINT, len)?;
        self.next = at + FRAME_HEAD + len;
        self.begun = None;
        Ok(at)
    }
}
