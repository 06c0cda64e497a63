//! The frame of a checkpoint, written whole and made live.
ghost use Rattle.std.specs.Prelude.{◌≡◌, ◌≤◌, ◌<◌, ◌+◌, ◌^◌, ◌++◌, ◌⊎◌, ◌↔◌, [], ◌∷◌, false, List, ℕ, IsTrue, IsErrOf, None, Some, length, IfOk, OnOk, OnErr};
ghost use Rattle.cp_disk.specs.Counts.{UsesDisk};
ghost use Rattle.cp_disk.specs.Views.{IfKnown, IsSettled, ViewKeeps};
ghost use Rattle.cp_model.specs.History.{Entry as HistoryEntry};
ghost use Rattle.cp_frame.specs.Items.{a_checkpoint};
ghost use Rattle.cp_journal.specs.Begun.{checkpoint, HasBegun, KeepsFront};
ghost use Rattle.cp_journal.specs.Holding.{HasFrames, IsAtRest, Continues};
ghost use Rattle.cp_journal.specs.Journals.{next_byte};
ghost use Rattle.cp_journal.specs.Slots.{live_slot as live_of, next_slot, number_after};
ghost use Rattle.cp_journal.specs.Upgrading.{SaysHeader};
ghost use Rattle.cp_journal.specs.declared.frame.TheConstants.{CHECKPOINT};
ghost use Rattle.cp_journal.specs.declared.limits.TheConstants.{HEADER_SIZE};
ghost use Rattle.cp_check.specs.Laws.{EndsAt};
ghost use Rattle.cp_check.specs.Stands.{end_of, IsRight, IsStore};

use cp_disk::{DISK_MAX, Disk, READ_MAX};
use cp_journal::{Header, Journal, JournalFault, make_live};

/// Writes bytes into the frame that is begun, piece by piece. Takes no memory of its own.
///
/// A crash at any moment leaves the frames before. After `TooLarge`, where the file would be over [`DISK_MAX`] bytes, no frame is
/// begun, and the frames are those before.
fn put_bytes<D: Disk>(disk: &mut D, journal: &mut Journal, bytes: &[u8]) -> Result<(), JournalFault>
    requires usable { journal.old.spent ≡ false }
    requires begun { (len : ℕ) × (journal.old.begun ≡ Some len) }
    requires body { IfKnown (D.known disk.old) (λ v. (body : List ℕ) × HasBegun journal.old body v) }
    ensures body { IfKnown (D.known disk.old) (λ v. (body : List ℕ) → HasBegun journal.old body v
        → OnOk result (HasBegun journal.new (body ++ bytes.now) (D.known disk.new).view)) }
    ensures len { OnOk result ((len : ℕ) → journal.old.begun ≡ Some len
        → journal.new.begun ≡ Some (len + length bytes.now)) }
    ensures front { KeepsFront journal.old.next (D.known disk.old) (D.known disk.new) }
    ensures same { (journal.new.frames ≡ journal.old.frames) × (journal.new.next ≡ journal.old.next)
        × (journal.new.broken ≡ journal.old.broken) }
    ensures too_large { IsErrOf result JournalFault.TooLarge
        → DISK_MAX < next_byte journal.old.next journal.old.begun + length bytes.now }
    ensures given_up { IsErrOf result JournalFault.TooLarge → journal.new ≡ record journal.old { begun = None } }
    ensures kinds { OnErr result
        (IsErrOf result JournalFault.Disk ⊎ (IsErrOf result JournalFault.Memory ⊎ IsErrOf result JournalFault.TooLarge)) }
    ensures spent { IsTrue journal.new.spent ↔ (IsErrOf result JournalFault.Disk ⊎ IsErrOf result JournalFault.Memory) }
    ensures cause { UsesDisk (λ e. e ≡ JournalFault.Disk) (D.known disk.old) (D.known disk.new) result }
    ensures reads { (D.known disk.new).counts.reads ≡ (D.known disk.old).counts.reads }
{
    let mut done = 0;
    while done < bytes.len() {
        let count = (bytes.len() - done).min(READ_MAX);
        journal.piece(disk, &bytes[done..done + count])?;
        done += count;
    }
    Ok(())
}

/// Writes the frame of a checkpoint with this body, and makes it live; answers its offset. `header` is that of the file, and
/// is again.
///
/// A crash at any moment leaves a file that stands for the same history, where the checkpoint is right. `TooLarge`, where the
/// file would be over [`DISK_MAX`] bytes, leaves the journal and the header as they were.
pub fn write_body<D: Disk>(
    disk: &mut D,
    journal: &mut Journal,
    header: &mut Header,
    body: &[u8],
) -> Result<u64, JournalFault>
    requires whole { journal.old.broken ≡ None }
    requires usable { journal.old.spent ≡ false }
    requires idle { journal.old.begun ≡ None }
    requires number { number_after (live_of header.old) < 2 ^ 64 }
    requires rest { IfKnown (D.known disk.old) (λ v. IsAtRest journal.old.next v) }
    requires beyond { IfKnown (D.known disk.old) (λ v. HEADER_SIZE ≤ journal.old.next) }
    requires says { IfKnown (D.known disk.old) (λ v. SaysHeader header.old v.content) }
    ensures crash { IfKnown (D.known disk.old) (λ v. (h : List HistoryEntry) (s : IsStore h v.content)
        → EndsAt h v.content s journal.old.next
        → ((c : List ℕ) → Continues journal.old.next v.content (checkpoint body.now ∷ []) c
        → IsRight (next_slot header.old journal.old.next) (s.told.frames ++ checkpoint body.now ∷ [])
        (s.told.items ++ a_checkpoint body.now ∷ []) c)
        → ViewKeeps (IsStore h) v (D.known disk.new).view) }
    ensures at { IfOk result (λ at. at ≡ journal.old.next) }
    ensures frames { OnOk result (journal.new.frames ≡
        journal.old.frames ++ record { at = journal.old.next; tag = CHECKPOINT; len = length body.now } ∷ []) }
    ensures live { OnOk result (live_of header.new ≡ Some (next_slot header.old journal.old.next)) }
    ensures says { IfKnown (D.known disk.old) (λ v.
        OnOk result (SaysHeader header.new (D.known disk.new).view.content)) }
    ensures durable { OnOk result (IsSettled (D.known disk.new)) }
    ensures last { IfKnown (D.known disk.old) (λ v. OnOk result
        (HasFrames journal.old.next (checkpoint body.now ∷ []) (D.known disk.new).view.content)) }
    ensures ready { IfKnown (D.known disk.old) (λ v. OnOk result (IsAtRest journal.new.next (D.known disk.new).view)) }
    ensures usable { OnOk result ((journal.new.broken ≡ None) × (journal.new.spent ≡ false) × (journal.new.begun ≡ None)) }
    ensures next { OnOk result (journal.new.next ≡ end_of journal.old.next body.now) }
    ensures room { OnOk result (end_of journal.old.next body.now < DISK_MAX) }
    ensures too_large { IsErrOf result JournalFault.TooLarge → DISK_MAX ≤ end_of journal.old.next body.now }
    ensures given_up { IsErrOf result JournalFault.TooLarge
        → (journal.new ≡ journal.old) × IfKnown (D.known disk.old) (λ v. IsAtRest journal.old.next (D.known disk.new).view) }
    ensures header { OnErr result (header.new ≡ header.old) }
    ensures kinds { OnErr result
        (IsErrOf result JournalFault.Disk ⊎ (IsErrOf result JournalFault.Memory ⊎ IsErrOf result JournalFault.TooLarge)) }
    ensures cause { UsesDisk (λ e. e ≡ JournalFault.Disk) (D.known disk.old) (D.known disk.new) result }
    ensures reads { (D.known disk.new).counts.reads ≡ (D.known disk.old).counts.reads }
{
    journal.begin(disk)?;
    put_bytes(disk, journal, body)?;
    let at = journal.finish(disk)?;
    make_live(disk, header, at)?;
    Ok(at)
}
