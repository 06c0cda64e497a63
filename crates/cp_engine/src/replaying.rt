//! The operations of a history, applied once more.
ghost use Rattle.std.specs.Prelude.{◌≡◌, ◌↔◌, ℕ, IsTrue, IfOk};
ghost use Rattle.cp_model.specs.History.{AreWritten};
ghost use Rattle.cp_model.specs.declared.kind.Kind.{Kind as KindValue};
ghost use Rattle.cp_operation.specs.Loaded.{sources_in};
ghost use Rattle.cp_operation.specs.Passed.{stage_after, tree_until, AllAccepted};

use cp_model::Op;
use cp_operation::{Sources, change_tree, check};
use cp_tree::TreeRep;
use std::alloc::{AllocError, Global};

/// Applies operations one after another with these sources, as long as they are accepted; says whether all were. After
/// an error the tree is that of the operations before it. Costs their checks and changes; takes no memory for itself.
pub fn replay<R: TreeRep, S: TreeRep>(
    alloc: Global,
    tree: &mut R,
    sources: &Sources<S>,
    ops: &[Op],
) -> Result<bool, AllocError>
    requires written { AreWritten ops.now }
    ensures accepted { IfOk result (λ b. IsTrue b ↔ AllAccepted (sources_in S.contents sources.now) (R.contents tree.old) ops.now) }
    ensures tree { (k : KindValue) (n : ℕ) → IfOk result (λ b. IsTrue b → R.contents tree.new ≡ (stage_after k (sources_in S.contents sources.now) (R.contents tree.old) n ops.now).tree) }
    ensures stops { IfOk result (λ _. R.contents tree.new ≡ tree_until (sources_in S.contents sources.now) (R.contents tree.old) ops.now) }
{
    for op in ops {
        if check(tree, sources, op).is_some() {
            return Ok(false);
        }
        change_tree(alloc, tree, sources, op)?;
    }
    Ok(true)
}
