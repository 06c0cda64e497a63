ghost use Rattle.std.specs.Prelude.{◌≡◌, ◌↔◌, [], List, true, IfOk, IsErrOf};
ghost use Rattle.cp_model.specs.Past.{tree_of};
ghost use Rattle.cp_model.specs.History.{Entry, State};
ghost use Rattle.cp_operation.specs.Loaded.{sources_in};
ghost use Rattle.cp_engine.specs.Transactions.{going};
ghost use Rattle.cp_query.specs.Asked.{AnswersTo, lacks_place};
ghost use Rattle.cp_query.specs.Rows.{RecordsRise};
ghost use Rattle.cp_query.specs.declared.fault.QueryFault.TheVariants.{Disk, NoPlace};
ghost use Rattle.cp_db.specs.Databases.{HoldsState, HoldsSame, Stands, IsDatabase, HasCome, IsSameFile, is_spent, version_in};

use crate::committed::Committed;
use cp_engine::Txn;
use cp_journal::Journal;
use cp_model::{Answer, Kind, Query};
use cp_operation::Sources;
use cp_query::{QueryFault, answer};
use cp_store::ProvStore;
use cp_tree::TreeRep;
use std::alloc::{AllocError, Global};

/// A curated database in a file. It keeps what the history leads to, and of the history itself only where its entries
/// stand: each call that writes takes the disk on which the database was opened or made.
///
/// After `Disk` or `Memory` in a call that writes it is spent, and the file is opened again.
#[derive(Drop)]
pub struct Db<R: TreeRep, S: TreeRep> {
    pub(crate) committed: Committed<R, S>,
    pub(crate) version: u8,
    pub(crate) journal: Journal,
    pub(crate) spent: bool,
}

/// The first and the last Tid of a commit.
#[derive(Clone, Copy, Drop)]
pub struct Tids {
    pub low: u64,
    pub high: u64,
}

impl<R: TreeRep, S: TreeRep> Db<R, S> {
    /// A transaction on the committed tree. Costs two copies of the tree.
    pub fn begin(&self, alloc: Global) -> Result<Txn<R>, AllocError>
        requires stands { IsDatabase R.contents S.contents self.now }
        ensures { IfOk result (λ x. HasCome R.contents S.contents self.now x (going [])) }
    {
        let store = &self.committed.store;
        Txn::begin(alloc, &self.committed.tree, store.kind(), store.upto() + 1)
    }

    /// The committed tree.
    pub fn tree(&self) -> &R
        ensures { (s : State) → HoldsState R.contents S.contents self.now s
            → R.contents result.now ≡ tree_of s.tree }
    {
        &self.committed.tree
    }

    /// The loaded sources.
    pub fn sources(&self) -> &Sources<S>
        ensures { (s : State) → HoldsState R.contents S.contents self.now s
            → sources_in S.contents result.now ≡ s.sources }
    {
        &self.committed.sources
    }

    /// The last Tid.
    pub fn now(&self) -> u64
        ensures { (s : State) → HoldsState R.contents S.contents self.now s
            → result ≡ s.now }
    {
        self.committed.store.upto()
    }

    pub fn kind(&self) -> Kind
        ensures { (s : State) → HoldsState R.contents S.contents self.now s
            → result ≡ s.kind }
    {
        self.committed.store.kind()
    }

    /// The version of the file: 1, or 2 where commits have stamps.
    pub fn version(&self) -> u8
        ensures { result ≡ version_in self.now }
    {
        self.version
    }

    /// Whether a call that writes has answered `Disk` or `Memory`.
    pub fn spent(&self) -> bool
        ensures { result ≡ is_spent self.now }
    {
        self.spent
    }

    /// Answers a query on the committed state, without a read of the disk. Whatever the records say, `NoPlace` comes exactly
    /// where the place isn't in the tree. Costs as the query.
    pub fn query(&mut self, alloc: Global, query: &Query) -> Result<Answer, QueryFault>
        requires stands { IsDatabase R.contents S.contents self.old }
        ensures answer { (h : List Entry) (z : Stands R.contents S.contents true self.old h)
            → AnswersTo z.state query.now result }
        ensures place { (s : State) → HoldsState R.contents S.contents self.old s
            → IsErrOf result NoPlace ↔ (lacks_place (tree_of s.tree) query.now ≡ true) }
        ensures order { IfOk result RecordsRise }
        ensures same { HoldsSame R.contents S.contents self.old self.new }
        ensures disk { IsErrOf result Disk → ⊥ }
        ensures file { IsSameFile self.old self.new }
    {
        let numbers = self.committed.stats();
        answer(
            alloc,
            &mut self.committed.store,
            &self.committed.tree,
            numbers,
            query,
        )
    }

    /// Lets the database go. Its file stays as it is.
    pub fn discard(self) {
        drop(self);
    }
}
