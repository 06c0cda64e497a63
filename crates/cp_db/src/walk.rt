//! A walk over the history in a file: what its entries lead to, without their records, and what is found on the way.
ghost use Rattle.std.specs.Prelude.{◌≡◌, ◌≤◌, ◌<◌, ◌∷◌, ◌++◌, [], false, Bool, IsTrue, List, ℕ, length, IfOk, IfErr, OnOk, None, Some};
ghost use Rattle.cp_model.specs.History.{State, commit as commit_entry};
ghost use Rattle.cp_model.specs.Tree.{Tree as TreeValue};
ghost use Rattle.cp_model.specs.declared.kind.Kind.{Kind as KindValue};
ghost use Rattle.cp_disk.specs.Counts.{UsesDisk};
ghost use Rattle.cp_disk.specs.Views.{IfKnown, Rests};
ghost use Rattle.cp_journal.specs.Frames.{Frame};
ghost use Rattle.cp_journal.specs.Journals.{Lists};
ghost use Rattle.cp_journal.specs.declared.frame.TheConstants.{ENTRY};
ghost use Rattle.cp_frame.specs.Entries.{WrittenEntry, IsEntry};
ghost use Rattle.cp_frame.specs.Sound.{IsSoundEntry, IsSoundBatch};
ghost use Rattle.cp_frame.specs.Items.{Item, an_entry, entry_meant, no_stamp};
ghost use Rattle.std.specs.declared.option.Option.{Option as OptionValue};
ghost use Rattle.std.specs.List.{slice_get};
ghost use Rattle.cp_db.specs.Committed.{HasTaken, HoldsBatch, KeepsState};
ghost use Rattle.cp_db.specs.Opening.{IsOpenDisk, IsStartOf};
ghost use Rattle.cp_db.specs.declared.limits.TheConstants.{TIDS_MAX};
ghost use Rattle.cp_db.specs.Walk.{CanReach, FindsAs, GoesOnAs, HasCome, HasPassed, HasReached, PassesFrameAs, RowsDone, RowsFit, TellsPassedAs, begun_at, walk_terms};
ghost use Rattle.cp_db.specs.Work.{Beginning};

use crate::committed::{Committed, load_source};
use crate::fault::OpenFault;
use crate::limits::TIDS_MAX;
use crate::opening::{entry_in, is_of_version, open_slot, version_of};
use crate::start::Start;
use crate::work::{CommitAt, Passed, Work};
use cp_disk::Disk;
use cp_frame::Entry;
use cp_journal::{ENTRY, HEADER_SIZE, Journal};
use cp_model::{Kind, Stamp};
use cp_operation::Sources;
use cp_path::Label;
use cp_store::MemoryStore;
use cp_tree::TreeRep;
use std::alloc::{AllocError, Global};

/// A walk over a history: the tree, the sources and the last Tid to which the entries up to now lead, the kind, and the work
/// that was done. It keeps no records.
#[derive(Drop)]
pub(crate) struct HistoryWalk<R: TreeRep, S: TreeRep, W: Work> {
    pub(crate) tree: R,
    pub(crate) sources: Sources<S>,
    pub(crate) kind: Kind,
    pub(crate) last: u64,
    pub(crate) commits: u64,
    pub(crate) work: W,
}

/// The stamp of a commit that was written without one.
fn no_stamp(alloc: Global) -> Result<Stamp, AllocError>
    ensures { IfOk result (λ stamp. stamp ≡ no_stamp) }
{
    let curator = Label::copy_of(alloc, "")?;
    Ok(Stamp { curator, moment: 0 })
}

impl<R: TreeRep, S: TreeRep, W: Work> HistoryWalk<R, S, W> {
    /// A walk that has come past the start.
    fn begin(alloc: Global, start: Start<R>) -> Result<HistoryWalk<R, S, W>, AllocError>
        ensures reached { IfOk result (λ w. (i : Item) → IsStartOf i start.kind (R.contents start.tree)
            → HasReached R.contents S.contents W.fits None w (i ∷ [])) }
        ensures done { IfOk result (λ w. (place : ℕ → ℕ) (i : Item) → IsStartOf i start.kind (R.contents start.tree)
            → W.done w.work None place (i ∷ [])) }
    {
        let Start { kind, tree } = start;
        let work = W::begin(alloc, kind, 0, &tree)?;
        Ok(HistoryWalk {
            tree,
            sources: Sources::new(alloc),
            kind,
            last: 0,
            commits: 0,
            work,
        })
    }

    /// Replays the entry of the frame at this offset, if it may follow those before it, and does the work at a commit; says whether
    /// it may.
    fn add(&mut self, alloc: Global, entry: Entry, at: u64) -> Result<bool, AllocError>
        requires sound { IsSoundEntry entry }
        requires reached { (first : OptionValue State) × (items : List Item) × HasReached R.contents S.contents W.fits first self.old items }
        ensures reached { (first : OptionValue State) (items : List Item) (w : WrittenEntry)
            → HasReached R.contents S.contents W.fits first self.old items → IsEntry entry w
            → IfOk result (CanReach R.contents S.contents W.fits first items w self.new) }
        ensures found { (begun : Beginning) (items : List Item) (w : WrittenEntry)
            → HasPassed (walk_terms R.contents S.contents W.fits W.done) begun self.old items
            → at ≡ begun.place (length items) → IsEntry entry w
            → IfOk result (λ b. IsTrue b
            → W.done self.new.work begun.first begun.place (items ++ an_entry w ∷ [])) }
    {
        match entry {
            Entry::Start { tree, .. } => {
                drop(tree);
                Ok(false)
            }
            Entry::Load { name, tree } => {
                let loaded = load_source(alloc, &mut self.sources, name, &tree);
                drop(tree);
                let loaded = loaded?;
                self.work.pass(Passed::Load(at));
                Ok(loaded)
            }
            Entry::Commit { ops, records } => {
                let stamp = no_stamp(alloc)?;
                let commit = CommitAt {
                    at,
                    stamp,
                    ops,
                    records,
                };
                self.add_commit(alloc, commit)
            }
            Entry::Stamped {
                stamp,
                ops,
                records,
            } => {
                let commit = CommitAt {
                    at,
                    stamp,
                    ops,
                    records,
                };
                self.add_commit(alloc, commit)
            }
        }
    }

    /// Replays a commit, if it may follow what is before it, and does the work; says whether it may.
    fn add_commit(&mut self, alloc: Global, commit: CommitAt) -> Result<bool, AllocError>
        requires sound { (trees : Bool) × IsSoundBatch trees commit.ops commit.records }
        requires reached { (first : OptionValue State) × (items : List Item) × HasReached R.contents S.contents W.fits first self.old items }
        ensures reached { (first : OptionValue State) (items : List Item) (w : WrittenEntry)
            → HasReached R.contents S.contents W.fits first self.old items → HoldsBatch w commit.ops commit.records
            → IfOk result (CanReach R.contents S.contents W.fits first items w self.new) }
        ensures found { (begun : Beginning) (items : List Item) (w : WrittenEntry)
            → HasPassed (walk_terms R.contents S.contents W.fits W.done) begun self.old items
            → commit.at ≡ begun.place (length items)
            → HoldsBatch w commit.ops commit.records → entry_meant w ≡ commit_entry commit.stamp commit.ops
            → IfOk result (λ b. IsTrue b
            → W.done self.new.work begun.first begun.place (items ++ an_entry w ∷ [])) }
    {
        let replayed = self.work.commit(
            alloc,
            self.kind,
            self.last,
            &mut self.tree,
            &self.sources,
            commit,
        )?;
        let Some(tids) = replayed else {
            return Ok(false);
        };
        if self.last + tids > TIDS_MAX {
            return Err(AllocError);
        }
        self.last += tids;
        self.commits += 1;
        Ok(true)
    }

    /// Adds the entry that these bytes of the frame at this offset spell, if they spell one that may follow.
    fn add_entry(
        &mut self,
        alloc: Global,
        body: &[u8],
        at: u64,
        version: u8,
    ) -> Result<(), OpenFault>
        requires reached { (first : OptionValue State) × (items : List Item) × HasReached R.contents S.contents W.fits first self.old items }
        ensures added { (f : Frame) (begun : Beginning) (items : List Item)
            → f.tag ≡ ENTRY → f.body ≡ body.now
            → HasPassed (walk_terms R.contents S.contents W.fits W.done) begun self.old items
            → at ≡ begun.place (length items)
            → PassesFrameAs (walk_terms R.contents S.contents W.fits W.done) begun version f items self.new result }
        ensures reached { (first : OptionValue State) (items : List Item) → HasReached R.contents S.contents W.fits first self.old items
            → OnOk result ((more : List Item) × HasReached R.contents S.contents W.fits first self.new more) }
        ensures disk { IfErr result (λ e. e ≡ OpenFault.Disk → ⊥) }
    {
        let entry = entry_in(alloc, body, at)?;
        if !is_of_version(&entry, version) {
            drop(entry);
            return Err(OpenFault::NoStore(at));
        }
        if !self.add(alloc, entry, at)? {
            return Err(OpenFault::NoStore(at));
        }
        Ok(())
    }

    /// Adds what the frame of this number holds.
    fn add_frame<D: Disk>(
        &mut self,
        alloc: Global,
        disk: &mut D,
        journal: &Journal,
        n: usize,
        version: u8,
        body: &mut Vec<u8>,
    ) -> Result<(), OpenFault>
        requires within { n < length journal.now.frames }
        requires listed { IfKnown (D.known disk.old) (λ v. (from : ℕ) × (fs : List Frame)
            × Lists from fs journal.now v.content) }
        requires reached { (first : OptionValue State) × (items : List Item) × HasReached R.contents S.contents W.fits first self.old items }
        ensures added { IfKnown (D.known disk.old) (λ v.
            (from : ℕ) (fs : List Frame) (f : Frame) (first : OptionValue State) (items : List Item)
            → Lists from fs journal.now v.content → slice_get fs n ≡ Some f → length items ≡ n
            → HasPassed (walk_terms R.contents S.contents W.fits W.done) (begun_at first from fs) self.old items
            → PassesFrameAs (walk_terms R.contents S.contents W.fits W.done) (begun_at first from fs)
            version f items self.new result) }
        ensures reached { (first : OptionValue State) (items : List Item) → HasReached R.contents S.contents W.fits first self.old items
            → OnOk result ((more : List Item) × HasReached R.contents S.contents W.fits first self.new more) }
        ensures rests { Rests (D.known disk.old) (D.known disk.new) }
        ensures cause { UsesDisk IsOpenDisk (D.known disk.old) (D.known disk.new) result }
    {
        let frame = journal.read(disk, n, body)?;
        if frame.tag != ENTRY {
            self.work.pass(Passed::Checkpoint(frame.at));
            return Ok(());
        }
        self.add_entry(alloc, body, frame.at, version)
    }

    /// The work that was done.
    fn into_work(self) -> W
        ensures { result ≡ self.work }
    {
        let HistoryWalk {
            tree,
            sources,
            work,
            ..
        } = self;
        drop(tree);
        drop(sources);
        work
    }

    /// Goes on with the frame of this number, from 0 on, up to the last that the journal lists.
    pub(crate) fn go_on<D: Disk>(
        &mut self,
        alloc: Global,
        disk: &mut D,
        journal: &Journal,
        number: usize,
        version: u8,
        body: &mut Vec<u8>,
    ) -> Result<(), OpenFault>
        requires within { number ≤ length journal.now.frames }
        requires listed { IfKnown (D.known disk.old) (λ v. (from : ℕ) × (fs : List Frame)
            × Lists from fs journal.now v.content) }
        requires reached { (first : OptionValue State) × (items : List Item) × HasReached R.contents S.contents W.fits first self.old items }
        ensures passed { IfKnown (D.known disk.old) (λ v.
            (first : OptionValue State) (from : ℕ) (fs : List Frame) → Lists from fs journal.now v.content
            → HasCome (walk_terms R.contents S.contents W.fits W.done) first version from fs number self.old
            → GoesOnAs (walk_terms R.contents S.contents W.fits W.done) first version from fs self.new result) }
        ensures reached { (first : OptionValue State) (items : List Item) → HasReached R.contents S.contents W.fits first self.old items
            → OnOk result ((more : List Item) × HasReached R.contents S.contents W.fits first self.new more) }
        ensures rests { Rests (D.known disk.old) (D.known disk.new) }
        ensures cause { UsesDisk IsOpenDisk (D.known disk.old) (D.known disk.new) result }
    {
        for n in number..journal.len() {
            self.add_frame(alloc, disk, journal, n, version, body)?;
        }
        Ok(())
    }

    /// The walk from a start on, over all frames that the journal lists, the first of which stands at this offset.
    pub(crate) fn over_all<D: Disk>(
        alloc: Global,
        disk: &mut D,
        journal: &Journal,
        from: u64,
        version: u8,
    ) -> Result<HistoryWalk<R, S, W>, OpenFault>
        requires listed { IfKnown (D.known disk.old) (λ v. (fs : List Frame) × Lists from fs journal.now v.content) }
        ensures passed { IfKnown (D.known disk.old) (λ v. (fs : List Frame)
            → Lists from fs journal.now v.content
            → TellsPassedAs (walk_terms R.contents S.contents W.fits W.done) version from fs result) }
        ensures reached { IfOk result (λ w. (items : List Item) × HasReached R.contents S.contents W.fits None w items) }
        ensures rests { Rests (D.known disk.old) (D.known disk.new) }
        ensures cause { UsesDisk IsOpenDisk (D.known disk.old) (D.known disk.new) result }
    {
        let mut body = Vec::new(alloc);
        let start = Start::read(alloc, disk, journal, from, &mut body)?;
        let mut walk: HistoryWalk<R, S, W> = HistoryWalk::begin(alloc, start)?;
        walk.go_on(alloc, disk, journal, 1, version, &mut body)?;
        Ok(walk)
    }
}

impl<R: TreeRep, S: TreeRep> HistoryWalk<R, S, MemoryStore> {
    /// What the walk leads to, with the rows that were kept on the way.
    pub(crate) fn into_committed(self) -> Committed<R, S>
        ensures keeps { (first : OptionValue State) (items : List Item)
            (g : HasReached R.contents S.contents RowsFit first self items)
            → KeepsState R.contents S.contents result g.taken.state }
        ensures taken { (begun : Beginning) (items : List Item)
            → HasPassed (walk_terms R.contents S.contents RowsFit RowsDone) begun self items
            → HasTaken R.contents S.contents begun.first result items }
    {
        let HistoryWalk {
            tree,
            sources,
            commits,
            work,
            ..
        } = self;
        Committed {
            tree,
            sources,
            store: work,
            commits,
        }
    }
}

/// The work that a walk over the history in a file does. Refuses the files that an opening refuses.
pub fn work_over<R: TreeRep, S: TreeRep, W: Work, D: Disk>(
    alloc: Global,
    disk: &mut D,
) -> Result<W, OpenFault>
    ensures found { IfKnown (D.known disk.old) (λ v. FindsAs W.done v.content result) }
    ensures fits { IfOk result (λ w. (kind : KindValue) × (last : ℕ) × (tree : TreeValue) × (last ≤ TIDS_MAX) × W.fits w kind last tree) }
    ensures rests { Rests (D.known disk.old) (D.known disk.new) }
    ensures cause { UsesDisk IsOpenDisk (D.known disk.old) (D.known disk.new) result }
{
    let header = Journal::header(disk)?;
    if let Some(at) = open_slot(&header) {
        return Err(OpenFault::NoStore(at));
    }
    let version = version_of(&header);
    let journal = Journal::open_on(alloc, disk, HEADER_SIZE as u64)?;
    let walk: HistoryWalk<R, S, W> = HistoryWalk::over_all(
        alloc,
        disk,
        &journal,
        HEADER_SIZE as u64,
        version,
    )?;
    if let Some(at) = journal.broken() {
        drop(walk);
        return Err(OpenFault::NoStore(at));
    }
    Ok(walk.into_work())
}
