//! Steps that change nothing.
ghost use Rattle.std.specs.Prelude.{◌≡◌, IsTrue, List, IfOk};
ghost use Rattle.std.specs.List.{AllByRecursion};
ghost use Rattle.cp_model.specs.Tree.{Source};
ghost use Rattle.cp_operation.specs.Passed.{AllAccepted, tree_until};
ghost use Rattle.cp_archive.specs.Touching.{AreApart, Covers, IsIdle};

use crate::places::touched_places;
use cp_model::Op;
use cp_path::Path;
use cp_tree::TreeRep;
use std::alloc::{AllocError, Global};

/// Says whether an operation is known to change nothing: it copies what its destination has already. Costs at most the places that it
/// copies.
fn is_idle<R: TreeRep>(tree: &R, op: &Op) -> bool
    ensures { IsTrue result → IsIdle (R.contents tree.now) op.now }
{
    match op {
        Op::Copy { from, into } => {
            from.db.is_target() && tree.are_known_equal(&from.path, &into.path)
        }
        _ => false,
    }
}

/// Says whether none of the operations is known to change anything.
fn are_idle<R: TreeRep>(tree: &R, ops: &[Op]) -> bool
    ensures { IsTrue result → AllByRecursion (IsIdle (R.contents tree.now)) ops.now }
{
    for op in ops {
        if !is_idle(tree, op) {
            return false;
        }
    }
    true
}

/// Finds places that cover what a step of these operations changes in the tree: none, where the tree knows that it changes nothing,
/// else those that the operations touch. Costs as `touched_places`, and at most the places that it copies.
pub(crate) fn changed_places<R: TreeRep>(
    alloc: Global,
    tree: &R,
    ops: &[Op],
) -> Result<Vec<Path>, AllocError>
    ensures apart { IfOk result (λ v. AreApart v.items) }
    ensures covers { IfOk result (λ v. (ss : List Source) → AllAccepted ss (R.contents tree.now) ops.now → Covers v.items (R.contents tree.now) (tree_until ss (R.contents tree.now) ops.now)) }
{
    if are_idle(tree, ops) {
        return Ok(Vec::new(alloc));
    }
    touched_places(alloc, ops)
}
