//! Full records from reduced ones.
ghost use Rattle.std.specs.Prelude.{◌≡◌, ℕ, ◌≤◌, ◌++◌, length, List, IfOk, OnOk};
ghost use Rattle.std.specs.declared.option.Option.TheVariants.{Some};
ghost use Rattle.cp_path.specs.declared.limits.TheConstants.{LABELS_MAX};
ghost use Rattle.cp_model.specs.Place.{Path as PathValue, path_eq, below_place};
ghost use Rattle.cp_model.specs.Keyed.{look};
ghost use Rattle.cp_model.specs.Subtrees.{is_there};
ghost use Rattle.cp_model.specs.declared.op.Op.{Op};
ghost use Rattle.cp_model.specs.declared.record.RowMark.TheVariants.{Gone as D};
ghost use Rattle.cp_model.specs.Tree.{Tree, Source};
ghost use Rattle.cp_model.specs.Step.{Working, contents, step, done};
ghost use Rattle.cp_model.specs.Rows.{full_rows, reduced_rows};
ghost use Rattle.cp_model.specs.History.{AreWritten, with_tid};
ghost use Rattle.cp_model.specs.Laws.{AreSources};
ghost use Rattle.cp_model.specs.Records.{is_D};
ghost use Rattle.cp_overlay.specs.Net.{is_within, noted};
ghost use Rattle.cp_reduce.specs.Told.{RiseByPlace, any_gone, mark_in, mark_told, copy_mark};

use crate::marks::{Marks, note, records};
use crate::rows::{joined, nearest_to};
use cp_model::{RecOp, Record, RecordList, RowMark};
use cp_path::{LOC_MAX, Label, Loc, Path};
use cp_tree::TreeRep;
use std::alloc::{AllocError, Global};
use std::collections::BTreeMap;

/// The full records of a step from its reduced ones, and the trees before and after it. Costs the places of `after`, and those
/// of `before` that are gone, times their labels and a logarithm of the records.
pub fn expand<A: TreeRep, B: TreeRep>(
    alloc: Global,
    rows: &[Record],
    before: &A,
    after: &B,
) -> Result<RecordList, AllocError>
    ensures { (ss : List Source) (ops : List Op) (k n : ℕ) (w : Working) → AreSources ss → AreWritten ops → step (A.contents before.now) ss ops ≡ done k w
        → contents w ≡ B.contents after.now → rows.now ≡ with_tid n (reduced_rows (A.contents before.now) w) → IfOk result (λ l. l ≡ with_tid n (full_rows (A.contents before.now) w)) }
{
    let Some(first) = rows.first() else {
        return Ok(RecordList {
            items: Vec::new(alloc),
        });
    };
    let mut marks = BTreeMap::new(alloc);
    note_left(alloc, rows, after, &mut marks)?;
    note_gone(alloc, rows, before, &mut marks)?;
    records(alloc, first.tid, marks)
}

/// Notes the rows of the places that are left. After an error some of them are noted.
fn note_left<B: TreeRep>(
    alloc: Global,
    rows: &[Record],
    after: &B,
    marks: &mut Marks,
) -> Result<(), AllocError>
    ensures { RiseByPlace rows.now → OnOk result ((r : PathValue) → look r marks.new.entries ≡ noted (is_there (B.contents after.now) r) (mark_told rows.now r) (look r marks.old.entries)) }
{
    let root = Path::root(alloc);
    let places = after.rows(alloc, &root)?;
    for row in &places.items {
        note_place(rows, &row.path, marks)?;
    }
    Ok(())
}

/// Notes the row of a place that is left, if it has one.
fn note_place(rows: &[Record], place: &Path, marks: &mut Marks) -> Result<(), AllocError>
    ensures { RiseByPlace rows.now → OnOk result ((r : PathValue) → look r marks.new.entries ≡ noted (path_eq r place.now) (mark_told rows.now r) (look r marks.old.entries)) }
{
    if let Some(mark) = mark_told(rows, place)? {
        note(marks, place.clone()?, mark)?;
    }
    Ok(())
}

/// The row of a place that is left, if it has one: of what the record at its longest prefix gives it. Costs a look-up for each
/// label.
fn mark_told(rows: &[Record], place: &Path) -> Result<Option<RowMark>, AllocError>
    ensures { RiseByPlace rows.now → IfOk result (λ m. m ≡ mark_told rows.now place.now) }
{
    let Some((row, count)) = nearest_to(rows, place.labels()) else {
        return Ok(None);
    };
    match row.op {
        RecOp::I => Ok(Some(RowMark::Made)),
        RecOp::C => match &row.src {
            Some(from) => copy_mark(from, &place.labels()[count..]),
            None => Ok(None),
        },
        RecOp::D | RecOp::K => Ok(None),
    }
}

/// The row of what is these labels below a place that was copied, unless its own place is over a limit.
fn copy_mark(from: &Loc, labels: &[Label]) -> Result<Option<RowMark>, AllocError>
    ensures { IfOk result (λ m. m ≡ copy_mark (below_place from.now labels.now)) }
{
    let Some(path) = joined(&from.path, labels)? else {
        return Ok(None);
    };
    let db = from.db.clone()?;
    let place = Loc { db, path };
    if place.size() > LOC_MAX as u32 {
        return Ok(None);
    }
    Ok(Some(RowMark::Copied(place)))
}

/// Notes that all places at and below those of a record D are gone. After an error some of them are noted.
fn note_gone<A: TreeRep>(
    alloc: Global,
    rows: &[Record],
    before: &A,
    marks: &mut Marks,
) -> Result<(), AllocError>
    ensures { OnOk result ((r : PathValue) → look r marks.new.entries ≡ noted (any_gone (A.contents before.now) r rows.now) (Some D) (look r marks.old.entries)) }
{
    for row in rows {
        if is_gone(row) {
            note_below(alloc, before, &row.loc.path, marks)?;
        }
    }
    Ok(())
}

/// Whether a record says that its place is gone.
fn is_gone(row: &Record) -> bool
    ensures { result ≡ is_D (mark_in row.now) }
{
    row.op == RecOp::D
}

/// Notes that a place and all places below it are gone. Costs a logarithm of the rows for each of these. After an error some of
/// them are noted.
fn note_below<A: TreeRep>(
    alloc: Global,
    before: &A,
    top: &Path,
    marks: &mut Marks,
) -> Result<(), AllocError>
    ensures { OnOk result ((r : PathValue) → look r marks.new.entries ≡ noted (is_within (A.contents before.now) top.now r) (Some D) (look r marks.old.entries)) }
{
    if !before.is_there(top) {
        return Ok(());
    }
    let rows = before.rows(alloc, top)?;
    for row in &rows.items {
        let place = place_of(top, row.path.labels())?;
        note(marks, place, RowMark::Gone)?;
    }
    Ok(())
}

/// The place at these labels below another. Costs its bytes.
fn place_of(top: &Path, labels: &[Label]) -> Result<Path, AllocError>
    requires { length (top.now ++ labels.now) ≤ LABELS_MAX }
    ensures { IfOk result (λ p. p ≡ top.now ++ labels.now) }
{
    match joined(top, labels)? {
        Some(place) => Ok(place),
        None => unreachable!(),
    }
}
