//! What an operation does to the tree, with its records.
ghost use Rattle.std.specs.Prelude.{◌≡◌, List, OnOk, OnErr};
ghost use Rattle.std.specs.declared.option.Option.TheVariants.{None, Some};
ghost use Rattle.cp_model.specs.Place.{below_place};
ghost use Rattle.cp_model.specs.Subtrees.{below, with_subtree};
ghost use Rattle.cp_model.specs.History.{IsWritten, with_tid};
ghost use Rattle.cp_model.specs.Tree.{Source, database, refusal, tree_after};
ghost use Rattle.cp_model.specs.declared.op.Op.TheVariants.{Copy};
ghost use Rattle.cp_model.specs.declared.record.RowMark.TheVariants as mark;
ghost use Rattle.cp_operation.specs.Copies.{IsCopied};
ghost use Rattle.cp_operation.specs.Appending.{Appended, Grown};
ghost use Rattle.cp_operation.specs.Loaded.{sources_in};
ghost use Rattle.cp_operation.specs.RowsAlone.{marks_below, op_rows, top_rows};

use crate::rows::{push_copies, push_deleted, push_inserted, push_top, push_within};
use crate::sources::Sources;
use cp_model::Op;
use cp_path::Loc;
use cp_record::PackedRecords;
use cp_tree::{TreeRep, graft, insert_tree};
use std::alloc::{AllocError, Global};

/// Changes the tree by an operation that it doesn't refuse, and appends the operation's records. After an error the tree
/// is as it was, and there may be more records. Costs the change, and the bytes of the records' places.
fn change<R: TreeRep, S: TreeRep>(
    alloc: Global,
    rows: &mut PackedRecords,
    tid: u64,
    tree: &mut R,
    sources: &Sources<S>,
    op: &Op,
) -> Result<(), AllocError>
    requires written { IsWritten op.now }
    requires accepted { refusal (sources_in S.contents sources.now) (R.contents tree.old) op.now ≡ None }
    ensures tree { OnOk result (R.contents tree.new ≡ tree_after (sources_in S.contents sources.now) (R.contents tree.old) op.now) }
    ensures rows { OnOk result (Appended rows.old rows.new (with_tid tid (op_rows (sources_in S.contents sources.now) (R.contents tree.old) op.now))) }
    ensures err { OnErr result (R.contents tree.new ≡ R.contents tree.old) }
    ensures grown { OnErr result (Grown rows.old rows.new) }
{
    match op {
        Op::Ins {
            into,
            label,
            tree: literal,
        } => {
            push_inserted(alloc, rows, tid, into, label, literal)?;
            insert_tree(alloc, tree, &into.path, label, literal)
        }
        Op::Del { label, from } => {
            push_deleted(alloc, rows, tid, tree, label, from)?;
            tree.remove(alloc, &from.path, label)
        }
        Op::Copy { from, into } => copy_onto(alloc, rows, tid, tree, sources, from, into),
    }
}

/// The place becomes a copy of one of the tree or of a source.
fn copy_onto<R: TreeRep, S: TreeRep>(
    alloc: Global,
    rows: &mut PackedRecords,
    tid: u64,
    tree: &mut R,
    sources: &Sources<S>,
    from: &Loc,
    into: &Loc,
) -> Result<(), AllocError>
    requires accepted { refusal (sources_in S.contents sources.now) (R.contents tree.old) (Copy from.now into.now) ≡ None }
    ensures tree { OnOk result (R.contents tree.new ≡ tree_after (sources_in S.contents sources.now) (R.contents tree.old) (Copy from.now into.now)) }
    ensures rows { OnOk result (Appended rows.old rows.new (with_tid tid (op_rows (sources_in S.contents sources.now) (R.contents tree.old) (Copy from.now into.now)))) }
    ensures err { OnErr result (R.contents tree.new ≡ R.contents tree.old) }
    ensures grown { OnErr result (Grown rows.old rows.new) }
{
    if from.db.is_target() {
        return copy_within(alloc, rows, tid, tree, from, into);
    }
    match sources.get(&from.db) {
        Some(source) => copy_from(alloc, rows, tid, tree, source, from, into),
        None => unreachable!(),
    }
}

/// The place becomes a copy of one of the tree itself.
fn copy_within<R: TreeRep>(
    alloc: Global,
    rows: &mut PackedRecords,
    tid: u64,
    tree: &mut R,
    from: &Loc,
    into: &Loc,
) -> Result<(), AllocError>
    requires copied { IsCopied (R.contents tree.old) (R.contents tree.old) from.now into.now }
    ensures tree { OnOk result (R.contents tree.new ≡ with_subtree into.now.path (below from.now.path (R.contents tree.old)) (R.contents tree.old)) }
    ensures rows { (ss : List Source) → database ss (R.contents tree.old) from.now ≡ Some (R.contents tree.old)
        → OnOk result (Appended rows.old rows.new (with_tid tid (op_rows ss (R.contents tree.old) (Copy from.now into.now)))) }
    ensures err { OnErr result (R.contents tree.new ≡ R.contents tree.old) }
    ensures grown { OnErr result (Grown rows.old rows.new) }
{
    push_within(alloc, rows, tid, tree, from, into)?;
    tree.copy_inside(alloc, &from.path, &into.path)
}

/// The place becomes a copy of one of a source, whose rows are listed once.
fn copy_from<R: TreeRep, S: TreeRep>(
    alloc: Global,
    rows: &mut PackedRecords,
    tid: u64,
    tree: &mut R,
    source: &S,
    from: &Loc,
    into: &Loc,
) -> Result<(), AllocError>
    requires copied { IsCopied (R.contents tree.old) (S.contents source.now) from.now into.now }
    ensures tree { OnOk result (R.contents tree.new ≡ with_subtree into.now.path (below from.now.path (S.contents source.now)) (R.contents tree.old)) }
    ensures rows { OnOk result (Appended rows.old rows.new (with_tid tid (marks_below into.now.path (λ s. mark.Copied (below_place from.now s)) (below from.now.path (S.contents source.now))))) }
    ensures err { OnErr result (R.contents tree.new ≡ R.contents tree.old) }
    ensures grown { OnErr result (Grown rows.old rows.new) }
{
    let list = source.rows(alloc, &from.path)?;
    push_copies(rows, tid, &into.path, &list, from)?;
    tree.put_rows(alloc, &into.path, list.items.as_slice())
}

/// Changes the tree by an operation that it doesn't refuse, and keeps the operation's records, all with this Tid, behind the
/// others. Its only error is that memory runs out; tree and records are then as they were. Costs the change, and the bytes of
/// the records' places.
pub fn record_op<R: TreeRep, S: TreeRep>(
    alloc: Global,
    rows: &mut PackedRecords,
    tid: u64,
    tree: &mut R,
    sources: &Sources<S>,
    op: &Op,
) -> Result<(), AllocError>
    requires written { IsWritten op.now }
    requires accepted { refusal (sources_in S.contents sources.now) (R.contents tree.old) op.now ≡ None }
    ensures tree { OnOk result (R.contents tree.new ≡ tree_after (sources_in S.contents sources.now) (R.contents tree.old) op.now) }
    ensures rows { OnOk result (Appended rows.old rows.new (with_tid tid (op_rows (sources_in S.contents sources.now) (R.contents tree.old) op.now))) }
    ensures same_tree { OnErr result (R.contents tree.new ≡ R.contents tree.old) }
    ensures same_rows { OnErr result (rows.new ≡ rows.old) }
{
    let bytes = rows.len();
    if let Err(fault) = change(alloc, rows, tid, tree, sources, op) {
        rows.truncate(bytes);
        return Err(fault);
    }
    Ok(())
}

/// Changes the tree by an operation that it doesn't refuse, and keeps the record of the place that it writes behind the others,
/// if it has changed it. Its only error is that memory runs out; tree and records are then as they were. Costs the change, and
/// the bytes of two places.
pub fn record_top<R: TreeRep, S: TreeRep>(
    alloc: Global,
    rows: &mut PackedRecords,
    tid: u64,
    tree: &mut R,
    sources: &Sources<S>,
    op: &Op,
) -> Result<(), AllocError>
    requires written { IsWritten op.now }
    requires accepted { refusal (sources_in S.contents sources.now) (R.contents tree.old) op.now ≡ None }
    ensures tree { OnOk result (R.contents tree.new ≡ tree_after (sources_in S.contents sources.now) (R.contents tree.old) op.now) }
    ensures rows { OnOk result (Appended rows.old rows.new (with_tid tid (top_rows op.now))) }
    ensures same_tree { OnErr result (R.contents tree.new ≡ R.contents tree.old) }
    ensures same_rows { OnErr result (rows.new ≡ rows.old) }
{
    let bytes = rows.len();
    push_top(alloc, rows, tid, op)?;
    if let Err(fault) = change_tree(alloc, tree, sources, op) {
        rows.truncate(bytes);
        return Err(fault);
    }
    Ok(())
}

/// Changes the tree by an operation that it doesn't refuse. Its only error is that memory runs out; the tree is then as it was.
/// Costs the change.
pub fn change_tree<R: TreeRep, S: TreeRep>(
    alloc: Global,
    tree: &mut R,
    sources: &Sources<S>,
    op: &Op,
) -> Result<(), AllocError>
    requires written { IsWritten op.now }
    requires accepted { refusal (sources_in S.contents sources.now) (R.contents tree.old) op.now ≡ None }
    ensures tree { OnOk result (R.contents tree.new ≡ tree_after (sources_in S.contents sources.now) (R.contents tree.old) op.now) }
    ensures err { OnErr result (R.contents tree.new ≡ R.contents tree.old) }
{
    match op {
        Op::Ins {
            into,
            label,
            tree: literal,
        } => insert_tree(alloc, tree, &into.path, label, literal),
        Op::Del { label, from } => tree.remove(alloc, &from.path, label),
        Op::Copy { from, into } => copy_tree(alloc, tree, sources, from, into),
    }
}

/// The place becomes a copy of one of the tree or of a source.
fn copy_tree<R: TreeRep, S: TreeRep>(
    alloc: Global,
    tree: &mut R,
    sources: &Sources<S>,
    from: &Loc,
    into: &Loc,
) -> Result<(), AllocError>
    requires accepted { refusal (sources_in S.contents sources.now) (R.contents tree.old) (Copy from.now into.now) ≡ None }
    ensures tree { OnOk result (R.contents tree.new ≡ tree_after (sources_in S.contents sources.now) (R.contents tree.old) (Copy from.now into.now)) }
    ensures err { OnErr result (R.contents tree.new ≡ R.contents tree.old) }
{
    if from.db.is_target() {
        return tree.copy_inside(alloc, &from.path, &into.path);
    }
    match sources.get(&from.db) {
        Some(source) => graft(alloc, tree, source, &from.path, &into.path),
        None => unreachable!(),
    }
}
