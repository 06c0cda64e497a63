ghost use Rattle.std.specs.Prelude.{true, List};
ghost use Rattle.cp_model.specs.History.{Entry};
ghost use Rattle.cp_query.specs.Asked.{IsStateOf};
ghost use Rattle.cp_store.specs.Stores.{in_memory};
ghost use Rattle.cp_db.specs.Databases.{Stands};

use crate::committed::Committed;
use crate::database::Db;
use cp_store::MemoryStore;
use cp_tree::TreeRep;

/// The committed tree, and the rows of all steps.
#[derive(Drop)]
pub struct Parts<R: TreeRep> {
    pub tree: R,
    pub store: MemoryStore,
}

impl<R: TreeRep, S: TreeRep> Db<R, S> {
    /// What it keeps in memory of its history, without the sources. Its file stays as it is.
    pub fn into_parts(self) -> Parts<R>
        ensures { (h : List Entry) (z : Stands R.contents S.contents true self h)
            → IsStateOf in_memory R.TreeRep result.store result.tree z.state }
    {
        let Db { committed, .. } = self;
        let Committed { tree, store, .. } = committed;
        Parts { tree, store }
    }
}
