//! A new database in memory.
ghost use Rattle.std.specs.Prelude.{◌≡◌, ◌+◌, ◌∷◌, [], Bool, true, false, IfOk};
ghost use Rattle.cp_disk.specs.MemoryDisks.{sure_view};
ghost use Rattle.cp_journal.specs.NewStores.{IsVacant};
ghost use Rattle.cp_journal.specs.declared.limits.TheConstants.{HEADER_SIZE, FRAME_HEAD};
ghost use Rattle.cp_model.specs.History.{start};
ghost use Rattle.cp_frame.specs.Sizes.{start_size};
ghost use Rattle.cp_db.specs.Databases as database;
ghost use Rattle.cp_db.specs.Databases.{IsKept, IsReady, end_in, is_spent, version_in};

use cp_db::{Db, InitFault};
use cp_disk::SureDisk;
use cp_model::Kind;
use cp_tree::TreeRep;
use std::alloc::{AllocError, Global};

/// A database of a kind on this tree, in memory.
pub fn new_db<R: TreeRep, S: TreeRep>(
    alloc: Global,
    kind: Kind,
    tree: R,
    disk: &mut SureDisk,
) -> Result<Db<R, S>, AllocError>
    requires vacant { IsVacant (sure_view disk.old).content }
    ensures stands { IfOk result (λ d. (right : Bool)
        → database.Stands R.contents S.contents right d (start kind (R.contents tree) ∷ [])) }
    ensures kept { IfOk result
        (λ d. IsKept true d (start kind (R.contents tree) ∷ []) (sure_view disk.new)) }
    ensures made { IfOk result (λ d. (version_in d ≡ 2) × (is_spent d ≡ false)
        × (end_in d ≡ HEADER_SIZE + FRAME_HEAD + start_size (R.contents tree))) }
    ensures ready { IfOk result (λ d. IsReady d (sure_view disk.new)) }
{
    match Db::init(alloc, disk, kind, tree) {
        Ok(db) => Ok(db),
        Err(InitFault::Exists) => unreachable!(),
        Err(InitFault::Disk) => unreachable!(),
        Err(InitFault::Memory) => Err(AllocError),
    }
}
