//! The newest change of a place, in any of the four kinds.
ghost use Rattle.std.specs.Prelude.{◌≡◌, ◌<◌, ◌≤◌, IfOk, IfSome};
ghost use Rattle.cp_model.specs.Changes.{change_told, change_at};

use crate::flat::newest_own;
use crate::inferring::newest_inferred;
use crate::key::key_of;
use crate::rows::Rows;
use cp_model::{Change, Kind};
use cp_path::Loc;
use std::alloc::{AllocError, Global};

/// The newest change of the place up to `t`. Costs the place's size, and what `newest_own` or `newest_inferred` costs.
pub(crate) fn last_change(
    rows: &Rows,
    kind: Kind,
    alloc: Global,
    loc: &Loc,
    t: u64,
) -> Result<Option<Change>, AllocError>
    ensures found { IfOk result (λ c. change_told c ≡ change_at kind rows.now.list t loc.now) }
    ensures within { IfOk result (λ c. IfSome c (λ d. (0 < d.tid) × (d.tid ≤ t))) }
{
    if !loc.db.is_target() {
        return Ok(None);
    }
    let labels = loc.path.labels();
    let key = key_of(alloc, labels)?;
    match kind {
        // Naive: each operation is a step, with a row for each place that it touched. Transactional: each transaction is a
        // step, with a row for each place on which it had an effect. Only a row of the place itself counts.
        Kind::N | Kind::T => newest_own(rows, alloc, key.as_slice(), t),
        // Hierarchical, and hierarchical and transactional: of the same rows a step has only those that the row of a place
        // above doesn't imply. So the row of the longest prefix of the place counts.
        Kind::H | Kind::HT => newest_inferred(rows, alloc, key.as_slice(), labels, t),
    }
}
