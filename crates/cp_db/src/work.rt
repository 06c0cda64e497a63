//! What is done with the items of a history that is walked over, one after another.
ghost use Rattle.std.specs.Prelude.{◌≡◌, ◌≤◌, ◌+◌, ◌∷◌, ◌++◌, [], false, Bool, List, ℕ, length, fold, IfOk, IfSome};
ghost use Rattle.std.specs.declared.option.Option.{Option as OptionValue};
ghost use Rattle.std.specs.declared.option.Option.TheVariants.{Some};
ghost use Rattle.cp_model.specs.History.{State};
ghost use Rattle.cp_model.specs.Laws.{AreSources};
ghost use Rattle.cp_model.specs.Tree.{Tree as TreeValue};
ghost use Rattle.cp_model.specs.declared.kind.Kind.{Kind as KindValue};
ghost use Rattle.cp_frame.specs.Entries.{WrittenEntry};
ghost use Rattle.cp_frame.specs.Items.{Item, AllStand, CanStand, after_item, an_entry};
ghost use Rattle.cp_frame.specs.Sound.{IsSoundBatch};
ghost use Rattle.cp_operation.specs.Loaded.{sources_in};
ghost use Rattle.cp_db.specs.Committed.{ReplaysCommit};
ghost use Rattle.cp_db.specs.declared.limits.TheConstants.{TIDS_MAX};
ghost use Rattle.cp_db.specs.Work.{IsAtCommit, IsBegun, IsPassed};

use cp_model::{Kind, OpList, Stamp};
use cp_operation::Sources;
use cp_record::PackedRecords;
use cp_tree::TreeRep;
use std::alloc::{AllocError, Global};

/// A commit in a file, and the offset of its frame.
#[derive(Drop)]
pub struct CommitAt {
    pub at: u64,
    pub stamp: Stamp,
    pub ops: OpList,
    pub records: PackedRecords,
}

/// What a walk goes past that has no steps, with the offset of its frame.
#[derive(Clone, Copy, Drop)]
pub enum Passed {
    Load(u64),
    Checkpoint(u64),
}

/// Work that a walk over a history does at each commit. It is told where the walk begins, and what else it goes past.
pub trait Work: Drop {
    /// It may go on in this kind, after this Tid, from this tree.
    ghost fits: { Self → KindValue → ℕ → TreeValue → Type 0 };

    /// It has been done of these items, which come after this state, or are the first; this is the offset of each.
    ghost done: { Self → OptionValue State → (ℕ → ℕ) → List Item → Type 0 };

    /// What is done where a walk begins, in a state of this kind with this last Tid and this tree.
    fn begin<R: TreeRep>(alloc: Global, kind: Kind, last: u64, tree: &R) -> Result<Self, AllocError>
        ensures fits { IfOk result (λ w. fits w kind last (R.contents tree.now)) }
        ensures done { IfOk result (λ w. (first : OptionValue State) (place : ℕ → ℕ) (items : List Item) (s : State)
            → IsBegun first items s kind last (R.contents tree.now) → done w first place items) };

    /// Replays a commit after the Tid `last`, if it may follow, and does its work; gives the number of its Tids. After `None`,
    /// and after an error, what the tree holds and what was done aren't said.
    fn commit<R: TreeRep, S: TreeRep>(
        &mut self,
        alloc: Global,
        kind: Kind,
        last: u64,
        tree: &mut R,
        sources: &Sources<S>,
        commit: CommitAt,
    ) -> Result<Option<u64>, AllocError>
        requires few { last ≤ TIDS_MAX }
        requires sound { (trees : Bool) × IsSoundBatch trees commit.ops commit.records }
        requires sources { AreSources (sources_in S.contents sources.now) }
        requires fits { fits self.old kind last (R.contents tree.old) }
        ensures replayed { IfOk result (ReplaysCommit (sources_in S.contents sources.now)
            (R.contents tree.old) (R.contents tree.new) kind last commit.ops commit.records) }
        ensures fits { IfOk result (λ o. IfSome o (λ tids.
            fits self.new kind (last + tids) (R.contents tree.new))) }
        ensures done { (first : OptionValue State) (place : ℕ → ℕ) (items : List Item) (s : State) (x : WrittenEntry)
            → done self.old first place items
            → IsAtCommit (record { first = first; place = place }) items s x commit (record {
              kind = kind;
              last = last;
              sources = sources_in S.contents sources.now;
              tree = R.contents tree.old;
            })
            → IfOk result (λ o. IfSome o (λ tids. done self.new first place (items ++ an_entry x ∷ []))) };

    /// Goes past an item that is no commit.
    fn pass(&mut self, passed: Passed)
        ensures fits { (kind : KindValue) (last : ℕ) (tree : TreeValue)
            → fits self.old kind last tree → fits self.new kind last tree }
        ensures done { (first : OptionValue State) (place : ℕ → ℕ) (items : List Item) (i : Item) (s : State)
            → done self.old first place items → AllStand false first items → fold after_item first items ≡ Some s
            → CanStand false (Some s) i → IsPassed passed (place (length items)) i
            → done self.new first place (items ++ i ∷ []) };
}
