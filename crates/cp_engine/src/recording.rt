//! The operations of a commit, applied once more with the records of their steps.
ghost use Rattle.std.specs.Prelude.{◌≡◌, ◌≤◌, ◌^◌, length, IfOk, OnOk};
ghost use Rattle.std.specs.declared.option.Option.TheVariants.{None};
ghost use Rattle.cp_model.specs.Laws.{AreSources};
ghost use Rattle.cp_model.specs.Tree.{refusal, tree_after};
ghost use Rattle.cp_model.specs.Step.{step};
ghost use Rattle.cp_model.specs.History.{IsWritten, AreWritten, with_tid};
ghost use Rattle.cp_operation.specs.Appending.{Appended};
ghost use Rattle.cp_operation.specs.Loaded.{sources_in};
ghost use Rattle.cp_operation.specs.Passed.{stage_after, outcome_records};
ghost use Rattle.cp_engine.specs.Recording.{RecordsWith, RecordsAs};
ghost use Rattle.cp_operation.specs.RowsAlone.{rows_in};

use crate::follow::follow;
use cp_model::{Kind, OPS_MAX, Op};
use cp_operation::{Sources, change_tree, check, record_op, record_top};
use cp_overlay::Overlay;
use cp_record::PackedRecords;
use cp_tree::TreeRep;
use std::alloc::{AllocError, Global};

/// Applies the operations of a commit in this kind, whose first step has the Tid `first`, as long as they are accepted with
/// these sources, and gives the records of their steps, however many; `None` where one isn't accepted. After `None`, and after an
/// error, what the tree holds isn't said. Costs the operations' checks and changes, and their records; in the kinds t and ht a
/// copy of the tree and the net effect of the overlay.
pub fn replay_recording<R: TreeRep, S: TreeRep>(
    alloc: Global,
    kind: Kind,
    first: u64,
    tree: &mut R,
    sources: &Sources<S>,
    ops: &[Op],
) -> Result<Option<PackedRecords>, AllocError>
    requires first { first ≤ 2 ^ 63 }
    requires few { length ops.now ≤ OPS_MAX }
    requires written { AreWritten ops.now }
    requires sources { AreSources (sources_in S.contents sources.now) }
    ensures recorded { IfOk result (RecordsAs (sources_in S.contents sources.now) (R.contents tree.old) (R.contents tree.new) kind first ops.now) }
{
    match kind {
        Kind::N | Kind::H => record_each(alloc, kind, first, tree, sources, ops),
        Kind::T | Kind::HT => record_whole(alloc, kind, first, tree, sources, ops),
    }
}

/// The records of the operations, each of which is a step of its own.
fn record_each<R: TreeRep, S: TreeRep>(
    alloc: Global,
    kind: Kind,
    first: u64,
    tree: &mut R,
    sources: &Sources<S>,
    ops: &[Op],
) -> Result<Option<PackedRecords>, AllocError>
    requires first { first ≤ 2 ^ 63 }
    requires few { length ops.now ≤ OPS_MAX }
    requires written { AreWritten ops.now }
    ensures { IfOk result (RecordsWith (sources_in S.contents sources.now) (R.contents tree.old) (R.contents tree.new) ops.now (stage_after kind (sources_in S.contents sources.now) (R.contents tree.old) first ops.now).records) }
{
    let mut rows = PackedRecords::new(alloc);
    let mut tid = first;
    for op in ops {
        if check(tree, sources, op).is_some() {
            return Ok(None);
        }
        record_alone(alloc, &mut rows, kind, tid, tree, sources, op)?;
        tid += 1;
    }
    Ok(Some(rows))
}

/// Does an operation that isn't refused as a step of its own with this Tid, and appends its records.
fn record_alone<R: TreeRep, S: TreeRep>(
    alloc: Global,
    rows: &mut PackedRecords,
    kind: Kind,
    tid: u64,
    tree: &mut R,
    sources: &Sources<S>,
    op: &Op,
) -> Result<(), AllocError>
    requires written { IsWritten op.now }
    requires accepted { refusal (sources_in S.contents sources.now) (R.contents tree.old) op.now ≡ None }
    ensures tree { OnOk result (R.contents tree.new ≡ tree_after (sources_in S.contents sources.now) (R.contents tree.old) op.now) }
    ensures rows { OnOk result (Appended rows.old rows.new (with_tid tid (rows_in kind (sources_in S.contents sources.now) (R.contents tree.old) op.now))) }
{
    match kind {
        Kind::N | Kind::T => record_op(alloc, rows, tid, tree, sources, op),
        Kind::H | Kind::HT => record_top(alloc, rows, tid, tree, sources, op),
    }
}

/// The records of the operations, which are one step.
fn record_whole<R: TreeRep, S: TreeRep>(
    alloc: Global,
    kind: Kind,
    first: u64,
    tree: &mut R,
    sources: &Sources<S>,
    ops: &[Op],
) -> Result<Option<PackedRecords>, AllocError>
    requires written { AreWritten ops.now }
    requires sources { AreSources (sources_in S.contents sources.now) }
    ensures { IfOk result (RecordsWith (sources_in S.contents sources.now) (R.contents tree.old) (R.contents tree.new) ops.now (outcome_records kind (R.contents tree.old) first (step (R.contents tree.old) (sources_in S.contents sources.now) ops.now))) }
{
    let start = tree.copy(alloc)?;
    let mut overlay = Overlay::new(alloc);
    for op in ops {
        if check(tree, sources, op).is_some() {
            return Ok(None);
        }
        change_tree(alloc, tree, sources, op)?;
        follow(alloc, &mut overlay, &start, op)?;
    }
    let rows = overlay.net(alloc, &start, tree, kind, first)?;
    Ok(Some(rows))
}
