//! What an operation does to the overlay of the open step.
ghost use Rattle.std.specs.Prelude.{◌≡◌, List, OnOk, OnErr};
ghost use Rattle.std.specs.declared.option.Option.TheVariants.{None};
ghost use Rattle.cp_model.specs.Tree.{Source, refusal, tree_after};
ghost use Rattle.cp_model.specs.History.{IsWritten};
ghost use Rattle.cp_overlay.specs.Kept.{Follows};
ghost use Rattle.cp_overlay.specs.Seen.{seen};
ghost use Rattle.cp_operation.specs.Loaded.{sources_in};

use cp_model::Op;
use cp_operation::{Sources, change_tree};
use cp_overlay::Overlay;
use cp_tree::TreeRep;
use std::alloc::{AllocError, Global};

/// Lets the overlay follow an operation of a step that began on the tree `start`. After an error it is as it was. Costs
/// the origins that are kept at and below the operation's places.
pub(crate) fn follow<R: TreeRep>(
    alloc: Global,
    overlay: &mut Overlay,
    start: &R,
    op: &Op,
) -> Result<(), AllocError>
    ensures ok { OnOk result ((ss : List Source) → Follows ss (R.contents start.now) (seen overlay.old) (seen overlay.new) op.now) }
    ensures err { OnErr result (seen overlay.new ≡ seen overlay.old) }
{
    match op {
        Op::Ins { into, label, .. } => overlay.ins(alloc, &into.path, label),
        Op::Del { label, from } => overlay.del(alloc, start, &from.path, label),
        Op::Copy { from, into } => {
            if from.db.is_target() {
                overlay.copy_within(alloc, &from.path, &into.path)
            } else {
                overlay.copy_from(alloc, from, &into.path)
            }
        }
    }
}

/// Does an operation that isn't refused in the open step, which began on the tree `start` and has come as far as `tree`; its
/// overlay follows it. After an error tree and overlay are as they were. Costs a copy of the tree and its change.
pub(crate) fn follow_op<R: TreeRep, S: TreeRep>(
    alloc: Global,
    overlay: &mut Overlay,
    start: &R,
    tree: &mut R,
    sources: &Sources<S>,
    op: &Op,
) -> Result<(), AllocError>
    requires written { IsWritten op.now }
    requires accepted { refusal (sources_in S.contents sources.now) (R.contents tree.old) op.now ≡ None }
    ensures tree { OnOk result (R.contents tree.new ≡ tree_after (sources_in S.contents sources.now) (R.contents tree.old) op.now) }
    ensures follows { OnOk result (Follows (sources_in S.contents sources.now) (R.contents start.now) (seen overlay.old) (seen overlay.new) op.now) }
    ensures same_tree { OnErr result (R.contents tree.new ≡ R.contents tree.old) }
    ensures same_overlay { OnErr result (seen overlay.new ≡ seen overlay.old) }
{
    let mut changed = tree.copy(alloc)?;
    change_tree(alloc, &mut changed, sources, op)?;
    follow(alloc, overlay, start, op)?;
    *tree = changed;
    Ok(())
}
