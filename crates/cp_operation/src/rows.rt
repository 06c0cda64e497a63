//! The records of one operation, by its kind.
ghost use Rattle.std.specs.Prelude.{◌≡◌, true, false, ◌≤◌, ◌<◌, ◌+◌, ◌++◌, ◌∷◌, [], List, length, map, OnOk, OnErr, IfOk};
ghost use Rattle.std.specs.declared.option.Option.TheVariants.{None, Some};
ghost use Rattle.cp_model.specs.Place.{child, below_place};
ghost use Rattle.cp_model.specs.Subtrees.{below, is_there, entries_under};
ghost use Rattle.cp_model.specs.Literals.{literal_rows};
ghost use Rattle.cp_model.specs.History.{with_tid};
ghost use Rattle.cp_model.specs.Tree.{Source, database, reaches_over};
ghost use Rattle.cp_model.specs.declared.op.Op.TheVariants.{Del, Copy};
ghost use Rattle.cp_model.specs.declared.record.RecOp.TheVariants as letter;
ghost use Rattle.cp_record.specs.Bytes.{record_below};
ghost use Rattle.cp_record.specs.Kept.{is_copy};
ghost use Rattle.cp_tree.specs.Rows.{greatest};
ghost use Rattle.cp_operation.specs.Appending.{Appended, Grown};
ghost use Rattle.cp_operation.specs.RowsAlone.{HasRoom, marks_below, op_rows, top_rows};
ghost use Rattle.cp_model.specs.declared.record.RowMark.TheVariants as mark;

use cp_model::{LitList, Literal, Op, RecOp, RowList};
use cp_path::{LABELS_MAX, Label, Loc, Path};
use cp_record::PackedRecords;
use cp_tree::TreeRep;
use std::alloc::{AllocError, Global};

/// Appends the records of an insertion. After an error there may be more records.
pub(crate) fn push_inserted(
    alloc: Global,
    rows: &mut PackedRecords,
    tid: u64,
    into: &Loc,
    label: &Label,
    literal: &Literal,
) -> Result<(), AllocError>
    requires shallow { length (child into.now.path label.now) + greatest (λ e. length e.0) (literal_rows literal.now) ≤ LABELS_MAX }
    ensures ok { OnOk result (Appended rows.old rows.new (with_tid tid (marks_below (child into.now.path label.now) (λ _. mark.Made) (literal_rows literal.now)))) }
    ensures err { OnErr result (Grown rows.old rows.new) }
{
    let base = into.path.child(label)?;
    push_literal(rows, tid, &base, Path::root(alloc), literal)
}

/// Appends the records of a deletion from the tree as it was before. After an error there may be more records.
pub(crate) fn push_deleted<R: TreeRep>(
    alloc: Global,
    rows: &mut PackedRecords,
    tid: u64,
    tree: &R,
    label: &Label,
    from: &Loc,
) -> Result<(), AllocError>
    requires there { is_there (R.contents tree.now) (child from.now.path label.now) ≡ true }
    ensures ok { (ss : List Source) → OnOk result (Appended rows.old rows.new (with_tid tid (op_rows ss (R.contents tree.now) (Del label.now from.now)))) }
    ensures err { OnErr result (Grown rows.old rows.new) }
{
    let base = from.path.child(label)?;
    let list = tree.rows(alloc, &base)?;
    push_gone(rows, tid, &base, &list)
}

/// Appends the records of a copy of a place of the tree itself; one onto itself has none. After an error there may be more
/// records.
pub(crate) fn push_within<R: TreeRep>(
    alloc: Global,
    rows: &mut PackedRecords,
    tid: u64,
    tree: &R,
    from: &Loc,
    into: &Loc,
) -> Result<(), AllocError>
    requires there { is_there (R.contents tree.now) from.now.path ≡ true }
    requires places { reaches_over into.now (below from.now.path (R.contents tree.now)) ≡ false }
    ensures ok { (ss : List Source) → database ss (R.contents tree.now) from.now ≡ Some (R.contents tree.now)
        → OnOk result (Appended rows.old rows.new (with_tid tid (op_rows ss (R.contents tree.now) (Copy from.now into.now)))) }
    ensures grown { Grown rows.old rows.new }
{
    if from.is_at(into) {
        return Ok(());
    }
    let list = tree.rows(alloc, &from.path)?;
    push_copies(rows, tid, &into.path, &list, from)
}

/// Appends the record of the place that an operation writes; a copy of a place onto itself has none. After an error the records
/// are as they were. Costs the bytes of its places.
pub(crate) fn push_top(
    alloc: Global,
    rows: &mut PackedRecords,
    tid: u64,
    op: &Op,
) -> Result<(), AllocError>
    requires room { HasRoom op.now }
    ensures ok { OnOk result (Appended rows.old rows.new (with_tid tid (top_rows op.now))) }
    ensures err { OnErr result (rows.new ≡ rows.old) }
{
    match op {
        Op::Ins { into, label, .. } => push_child(alloc, rows, tid, RecOp::I, into, label),
        Op::Del { label, from } => push_child(alloc, rows, tid, RecOp::D, from, label),
        Op::Copy { from, into } => push_copied(alloc, rows, tid, from, into),
    }
}

/// Appends the record of the place at the label below another, which isn't of a copy. After an error the records are as they
/// were.
fn push_child(
    alloc: Global,
    rows: &mut PackedRecords,
    tid: u64,
    op: RecOp,
    above: &Loc,
    label: &Label,
) -> Result<(), AllocError>
    requires room { length above.now.path < LABELS_MAX }
    requires sourceless { is_copy op ≡ false }
    ensures ok { OnOk result (rows.new ≡ rows.old ++ record_below tid op (child above.now.path label.now) [] None ∷ []) }
    ensures err { OnErr result (rows.new ≡ rows.old) }
{
    let place = above.path.child(label)?;
    let root = Path::root(alloc);
    rows.push(tid, op, &place, &root, None)
}

/// Appends the record of a place that is copied, unless it is copied onto itself. After an error the records are as they were.
fn push_copied(
    alloc: Global,
    rows: &mut PackedRecords,
    tid: u64,
    from: &Loc,
    into: &Loc,
) -> Result<(), AllocError>
    ensures ok { OnOk result (Appended rows.old rows.new (with_tid tid (top_rows (Copy from.now into.now)))) }
    ensures err { OnErr result (rows.new ≡ rows.old) }
{
    if from.is_at(into) {
        return Ok(());
    }
    let _ = from.path.labels();
    let _ = into.path.labels();
    let root = Path::root(alloc);
    rows.push(tid, RecOp::C, &into.path, &root, Some(from))
}

/// Appends a record for each place of a literal tree whose root stands at `at` below the base.
#[cycle(inserting)]
fn push_literal(
    rows: &mut PackedRecords,
    tid: u64,
    base: &Path,
    at: Path,
    literal: &Literal,
) -> Result<(), AllocError>
    requires shallow { length base.now + (length at + greatest (λ e. length e.0) (literal_rows literal.now)) ≤ LABELS_MAX }
    ensures ok { OnOk result (Appended rows.old rows.new (map (λ e. record_below tid letter.I base.now e.0 None) (entries_under at (literal_rows literal.now)))) }
    ensures err { OnErr result (Grown rows.old rows.new) }
{
    rows.push(tid, RecOp::I, base, &at, None)?;
    match literal {
        Literal::Leaf(_) => Ok(()),
        Literal::Node(below) => push_edges(rows, tid, base, &at, below),
    }
}

/// Appends a record for each place below the one at `at`.
#[cycle(inserting)]
fn push_edges(
    rows: &mut PackedRecords,
    tid: u64,
    base: &Path,
    at: &Path,
    below: &LitList,
) -> Result<(), AllocError>
    requires shallow { length base.now + (length at.now + greatest (λ e. length e.0) below.now) ≤ LABELS_MAX }
    ensures ok { OnOk result (Appended rows.old rows.new (map (λ e. record_below tid letter.I base.now e.0 None) (entries_under at.now below.now))) }
    ensures err { OnErr result (Grown rows.old rows.new) }
{
    for edge in &below.items {
        let path = at.child(&edge.label)?;
        push_literal(rows, tid, base, path, &edge.tree)?;
    }
    Ok(())
}

/// Appends a record for each place of a subtree that is gone.
fn push_gone(
    rows: &mut PackedRecords,
    tid: u64,
    base: &Path,
    list: &RowList,
) -> Result<(), AllocError>
    requires shallow { length base.now + greatest (λ r. length r.path) list.now ≤ LABELS_MAX }
    ensures ok { OnOk result (Appended rows.old rows.new (map (λ r. record_below tid letter.D base.now r.path None) list.now)) }
    ensures err { OnErr result (Grown rows.old rows.new) }
{
    for row in &list.items {
        rows.push(tid, RecOp::D, base, &row.path, None)?;
    }
    Ok(())
}

/// Appends a record for each place of a subtree that is copied. After an error there may be more records.
pub(crate) fn push_copies(
    rows: &mut PackedRecords,
    tid: u64,
    base: &Path,
    list: &RowList,
    from: &Loc,
) -> Result<(), AllocError>
    requires shallow { length base.now + greatest (λ r. length r.path) list.now ≤ LABELS_MAX }
    requires source { length from.now.path + greatest (λ r. length r.path) list.now ≤ LABELS_MAX }
    ensures ok { OnOk result (Appended rows.old rows.new (map (λ r. record_below tid letter.C base.now r.path (Some from.now)) list.now)) }
    ensures err { OnErr result (Grown rows.old rows.new) }
{
    for row in &list.items {
        rows.push(tid, RecOp::C, base, &row.path, Some(from))?;
    }
    Ok(())
}
