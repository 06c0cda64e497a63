//! What the history in a file starts from: the kind and the tree of its first frame.
ghost use Rattle.std.specs.Prelude.{◌≡◌, ◌≤◌, ◌∷◌, [], List, ℕ, length, IfOk, IfErr, OnOk};
ghost use Rattle.cp_disk.specs.Counts.{UsesDisk};
ghost use Rattle.cp_disk.specs.Views.{IfKnown, Rests};
ghost use Rattle.cp_journal.specs.Frames.{Frame};
ghost use Rattle.cp_journal.specs.Journals.{Lists};
ghost use Rattle.cp_journal.specs.declared.frame.TheConstants.{ENTRY};
ghost use Rattle.cp_format.specs.Formats.{Reads};
ghost use Rattle.cp_frame.specs.Entries.{WrittenEntry, IsEntry, entry_format};
ghost use Rattle.cp_frame.specs.Items.{Item};
ghost use Rattle.cp_frame.specs.Sound.{IsSoundEntry};
ghost use Rattle.cp_db.specs.Opening.{IsOpenDisk, IsStartOf, StartsAs};

use crate::fault::OpenFault;
use crate::opening::entry_in;
use cp_disk::Disk;
use cp_frame::Entry;
use cp_journal::{ENTRY, Journal};
use cp_model::Kind;
use cp_tree::{TreeRep, tree_of};
use std::alloc::Global;

/// What a history starts from.
#[derive(Drop)]
pub(crate) struct Start<R: TreeRep> {
    pub(crate) kind: Kind,
    pub(crate) tree: R,
}

impl<R: TreeRep> Start<R> {
    /// What the first frame starts from, of those from this offset on; `NoStore` with the offset where there is none, or it
    /// holds no start. Reads the frame, and leaves its bytes in `body`. Costs the tree.
    pub(crate) fn read<D: Disk>(
        alloc: Global,
        disk: &mut D,
        journal: &Journal,
        from: u64,
        body: &mut Vec<u8>,
    ) -> Result<Start<R>, OpenFault>
        requires listed { IfKnown (D.known disk.old) (λ v. (fs : List Frame) × Lists from fs journal.now v.content) }
        ensures started { IfKnown (D.known disk.old) (λ v. (version : ℕ) (fs : List Frame)
            → Lists from fs journal.now v.content → StartsAs R.contents from version fs result) }
        ensures some { OnOk result (1 ≤ length journal.now.frames) }
        ensures tree { IfOk result (λ x. (i : Item) × IsStartOf i x.kind (R.contents x.tree)) }
        ensures rests { Rests (D.known disk.old) (D.known disk.new) }
        ensures cause { UsesDisk IsOpenDisk (D.known disk.old) (D.known disk.new) result }
    {
        if journal.len() == 0 {
            return Err(OpenFault::NoStore(from));
        }
        let frame = journal.read(disk, 0, body)?;
        if frame.tag != ENTRY {
            return Err(OpenFault::NoStore(from));
        }
        Start::of_bytes(alloc, body, from)
    }

    /// What the entry starts from that these bytes of the frame at this offset spell, if they spell a start.
    fn of_bytes(alloc: Global, body: &[u8], at: u64) -> Result<Start<R>, OpenFault>
        ensures started { (version : ℕ) (f : Frame) (rest : List Frame) → f.tag ≡ ENTRY → f.body ≡ body.now
            → StartsAs R.contents at version (f ∷ rest) result }
        ensures tree { IfOk result (λ x. (i : Item) × IsStartOf i x.kind (R.contents x.tree)) }
        ensures disk { IfErr result (λ e. e ≡ OpenFault.Disk → ⊥) }
    {
        let entry = entry_in(alloc, body, at)?;
        let start = Start::of_entry(alloc, &entry, at);
        drop(entry);
        start
    }

    /// What this entry of the frame at this offset starts from, if it is a start.
    fn of_entry(alloc: Global, entry: &Entry, at: u64) -> Result<Start<R>, OpenFault>
        requires sound { IsSoundEntry entry.now }
        requires spelled { (bytes : List ℕ) × (w : WrittenEntry) × IsEntry entry.now w × Reads entry_format bytes w [] }
        ensures started { (version : ℕ) (f : Frame) (rest : List Frame) (w : WrittenEntry) → f.tag ≡ ENTRY
            → IsEntry entry.now w → Reads entry_format f.body w []
            → StartsAs R.contents at version (f ∷ rest) result }
        ensures tree { IfOk result (λ x. (i : Item) × IsStartOf i x.kind (R.contents x.tree)) }
        ensures disk { IfErr result (λ e. e ≡ OpenFault.Disk → ⊥) }
    {
        match entry {
            Entry::Start { kind, tree } => {
                let tree = tree_of(alloc, tree)?;
                Ok(Start { kind: *kind, tree })
            }
            _ => Err(OpenFault::NoStore(at)),
        }
    }
}
