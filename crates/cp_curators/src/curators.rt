ghost use Rattle.std.specs.Prelude.{◌≡◌, ℕ, ◌+◌, ◌<◌, ◌^◌, List, true, false, OnOk, OnErr, IfOk};
ghost use Rattle.std.specs.Option.{option_map};
ghost use Rattle.std.specs.declared.option.Option.TheVariants.{None, Some};
ghost use Rattle.cp_model.specs.Laws.{AreSources};
ghost use Rattle.cp_model.specs.Tree.{Tree, Source};
ghost use Rattle.cp_model.specs.History.{IsWritten};
ghost use Rattle.cp_model.specs.declared.kind.Kind.{Kind as KindValue};
ghost use Rattle.cp_operation.specs.Loaded.{sources_in};
ghost use Rattle.cp_curators.specs.Curators.{IsCurrent, IsDeskOf, Stands, StandsOver, Operates, Takes};
ghost use Rattle.cp_curators.specs.Desks.{Desk, Desks, HaveBegunBy};
ghost use Rattle.cp_curators.specs.Desks.{after_unread_text, count_given_up, desk_or, new_desk, no_desks, with_desk, working_tree};

use crate::desk::OpenDesk;
use crate::fault::ShareFault;
use cp_engine::{ApplyFault, Txn};
use cp_model::{Kind, Op};
use cp_operation::Sources;
use cp_path::Name;
use cp_tree::TreeRep;
use indexmap::IndexMap;
use std::alloc::{AllocError, Global};

/// The open transactions of curators, at most one for each name, each on a copy of the tree on which it began.
///
/// A tree, a kind and a last Tid that a call is given are those of one database at that moment. A transaction that is open
/// keeps to those with which it began, whatever is committed after that; the sources stay the same while any is open.
#[derive(Drop)]
pub struct Curators<R: TreeRep> {
    desks: IndexMap<Name, OpenDesk<R>>,
}

impl<R: TreeRep> Curators<R> {
    /// No open transaction. Takes no memory.
    pub fn new(alloc: Global) -> Curators<R>
        ensures stands { (ss : List Source) → AreSources ss → Stands R.contents ss result no_desks }
        ensures over { (ss : List Source) (t : Tree) (k : KindValue) (n : ℕ) → AreSources ss
            → StandsOver R.contents ss t k n result }
    {
        Curators {
            desks: IndexMap::new(alloc),
        }
    }

    /// Whether any name has a transaction open.
    pub fn any_open(&self) -> bool
        ensures open { (ss : List Source) (desks : Desks) → Stands R.contents ss self.now desks
            → result ≡ true → (n : List ℕ) × (d : Desk) × (desks n ≡ Some d) }
        ensures idle { (ss : List Source) (desks : Desks) → Stands R.contents ss self.now desks
            → result ≡ false → (n : List ℕ) → desks n ≡ None }

        // Then a source may be loaded.
        ensures loads { (ss us : List Source) (desks : Desks) → Stands R.contents ss self.now desks
            → result ≡ false → AreSources us → Stands R.contents us self.now desks }
    {
        !self.desks.is_empty()
    }

    /// The working tree of the name's transaction, `None` where it has none or that has failed. Takes no memory.
    pub fn working(&self, name: &Name) -> Option<&R>
        ensures { (ss : List Source) (desks : Desks) → Stands R.contents ss self.now desks
            → option_map (λ t. R.contents t.now) result ≡ working_tree ss (desks name.now) }
    {
        let desk = self.desks.get(name)?;
        desk.working()
    }

    /// Applies an operation in the name's transaction, or in one that begins on the tree after the Tid `now`. A refusal fails
    /// the transaction. Costs as the operation in a transaction; a transaction that begins costs two copies of the tree and
    /// one of the name more.
    pub fn apply<S: TreeRep>(
        &mut self,
        alloc: Global,
        name: &Name,
        op: &Op,
        tree: &R,
        sources: &Sources<S>,
        kind: Kind,
        now: u64,
    ) -> Result<(), ApplyFault>
        requires written { IsWritten op.now }
        requires now { now < 2 ^ 63 }
        ensures operates { (desks : Desks) → Stands R.contents (sources_in S.contents sources.now) self.old desks
            → Operates R.contents (sources_in S.contents sources.now) desks name.now
            (desk_or (desks name.now) (new_desk (R.contents tree.now) kind now)) op.now self.new result }
        ensures over { StandsOver R.contents (sources_in S.contents sources.now) (R.contents tree.now) kind now self.old
            → StandsOver R.contents (sources_in S.contents sources.now) (R.contents tree.now) kind now self.new }
    {
        if let Some(desk) = self.desks.get_mut(name) {
            return desk.transaction.apply(alloc, op, sources);
        }
        self.begin_with(alloc, name, op, tree, sources, kind, now)
    }

    /// Begins a transaction with an operation, under a name that has none. Where memory runs out it is given up.
    fn begin_with<S: TreeRep>(
        &mut self,
        alloc: Global,
        name: &Name,
        op: &Op,
        tree: &R,
        sources: &Sources<S>,
        kind: Kind,
        now: u64,
    ) -> Result<(), ApplyFault>
        requires written { IsWritten op.now }
        requires now { now < 2 ^ 63 }
        ensures { (desks : Desks) → Stands R.contents (sources_in S.contents sources.now) self.old desks
            → desks name.now ≡ None
            → Operates R.contents (sources_in S.contents sources.now) desks name.now
            (new_desk (R.contents tree.now) kind now) op.now self.new result }
    {
        let mut transaction = Txn::begin(alloc, tree, kind, now + 1)?;
        match transaction.apply(alloc, op, sources) {
            Ok(()) => {
                self.open(name, transaction, now)?;
                Ok(())
            }
            Err(ApplyFault::Refused(why)) => {
                self.open(name, transaction, now)?;
                Err(ApplyFault::Refused(why))
            }
            Err(ApplyFault::Failed(number)) => Err(ApplyFault::Failed(number)),
            Err(ApplyFault::Memory) => Err(ApplyFault::Memory),
        }
    }

    /// Opens a transaction under a name that has none. After an error nothing has changed, and it is given up.
    fn open(&mut self, name: &Name, transaction: Txn<R>, since: u64) -> Result<(), AllocError>
        ensures ok { (ss : List Source) (desks : Desks) (d : Desk) → Stands R.contents ss self.old desks
            → IsDeskOf R.contents ss (record { transaction = transaction; since = since }) d
            → OnOk result (Stands R.contents ss self.new (with_desk name.now (Some d) desks)) }
        ensures err { (ss : List Source) (desks : Desks) → Stands R.contents ss self.old desks
            → OnErr result (Stands R.contents ss self.new desks) }
    {
        let name = name.clone()?;
        self.desks.insert(name, OpenDesk { transaction, since })?;
        Ok(())
    }

    /// Counts a text that couldn't be read as the next operation of the name's transaction, at which one that is going fails.
    /// Where the name has none, one begins on the tree after the Tid `now`, and fails. After an error nothing has changed.
    pub fn spoil(
        &mut self,
        alloc: Global,
        name: &Name,
        tree: &R,
        kind: Kind,
        now: u64,
    ) -> Result<(), AllocError>
        requires now { now < 2 ^ 63 }
        ensures ok { (ss : List Source) (desks : Desks) → Stands R.contents ss self.old desks
            → let d = desk_or (desks name.now) (new_desk (R.contents tree.now) kind now) in
            OnOk result (Stands R.contents ss self.new (with_desk name.now (Some (after_unread_text d)) desks)) }
        ensures err { (ss : List Source) (desks : Desks) → Stands R.contents ss self.old desks
            → OnErr result (Stands R.contents ss self.new desks) }
        ensures begins { (ss : List Source) (desks : Desks) → Stands R.contents ss self.old desks
            → OnErr result (desks name.now ≡ None) }
        ensures over { (ss : List Source) → StandsOver R.contents ss (R.contents tree.now) kind now self.old
            → StandsOver R.contents ss (R.contents tree.now) kind now self.new }
    {
        if let Some(desk) = self.desks.get_mut(name) {
            desk.transaction.spoil();
            return Ok(());
        }
        let mut transaction = Txn::begin(alloc, tree, kind, now + 1)?;
        transaction.spoil();
        self.open(name, transaction, now)
    }

    /// Gives the name's transaction up, and says how many accepted operations it held. Takes no memory.
    pub fn abort(&mut self, name: &Name) -> u32
        ensures count { (ss : List Source) (desks : Desks) → Stands R.contents ss self.old desks
            → result ≡ count_given_up (desks name.now) }
        ensures closed { (ss : List Source) (desks : Desks) → Stands R.contents ss self.old desks
            → Stands R.contents ss self.new (with_desk name.now None desks) }
        ensures over { (ss : List Source) (t : Tree) (k : KindValue) (n : ℕ) → StandsOver R.contents ss t k n self.old
            → StandsOver R.contents ss t k n self.new }
    {
        match self.desks.swap_remove(name) {
            Some(desk) => desk.abort(),
            None => 0,
        }
    }

    /// Hands out the name's transaction for a commit, where `now` is the last Tid; it is given up where it is refused. Takes no
    /// memory.
    pub fn take(&mut self, name: &Name, now: u64) -> Result<Txn<R>, ShareFault>
        ensures taken { (ss : List Source) (desks : Desks) → Stands R.contents ss self.old desks
            → Takes R.contents ss (desks name.now) now result }
        ensures closed { (ss : List Source) (desks : Desks) → Stands R.contents ss self.old desks
            → Stands R.contents ss self.new (with_desk name.now None desks) }

        // What is handed out stands on the tree of the last commit.
        ensures current { (ss : List Source) (desks : Desks) → Stands R.contents ss self.old desks
            → (t : Tree) (k : KindValue) → HaveBegunBy t k now desks
            → IfOk result (IsCurrent R.contents ss t k now) }
        ensures over { (ss : List Source) (t : Tree) (k : KindValue) (n : ℕ) → StandsOver R.contents ss t k n self.old
            → StandsOver R.contents ss t k n self.new }
    {
        match self.desks.swap_remove(name) {
            Some(desk) => desk.take(now),
            None => Err(ShareFault::Empty),
        }
    }
}
