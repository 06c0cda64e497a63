//! The places that a step touches.
ghost use Rattle.std.specs.Prelude.{◌≡◌, true, List, map, IfOk, OnOk};
ghost use Rattle.std.specs.List.Sorted.{IsSorted};
ghost use Rattle.cp_model.specs.Place.{Path as PathValue, path_cmp};
ghost use Rattle.cp_archive.specs.Topmost.{AreInOrder, is_below_last, kept_with};
ghost use Rattle.cp_archive.specs.Touching.{AreAmong, AreApart, AreTouched, child_within, is_covered, looked_at};

use cp_model::Op;
use cp_path::{LABELS_MAX, Label, Path};
use std::alloc::{AllocError, Global};

/// The place at the label, or the one above it, where a label more would be too many.
fn at_label(place: &Path, label: &Label) -> Result<Path, AllocError>
    ensures { IfOk result (λ p. p ≡ child_within place.now label.now) }
{
    if place.labels().len() < LABELS_MAX {
        return place.child(label);
    }
    place.clone()
}

/// The place that an operation touches, or the one above it, where a label more would be too many.
fn touched_place(op: &Op) -> Result<Path, AllocError>
    ensures { IfOk result (λ p. p ≡ looked_at op.now) }
{
    match op {
        Op::Ins { into, label, .. } => at_label(&into.path, label),
        Op::Del { label, from } => at_label(&from.path, label),
        Op::Copy { into, .. } => Ok(into.path.clone()?),
    }
}

/// Lists that place of each operation.
fn places_of(alloc: Global, ops: &[Op]) -> Result<Vec<Path>, AllocError>
    ensures { IfOk result (λ v. v.items ≡ map looked_at ops.now) }
{
    let mut places = Vec::new(alloc);
    for op in ops {
        places.push(touched_place(op)?)?;
    }
    Ok(places)
}

/// Says whether a place lies at or below the last of the others.
fn is_below_last(others: &[Path], place: &Path) -> bool
    ensures { result ≡ is_below_last others.now place.now }
{
    match others.last() {
        Some(other) => place.labels().starts_with(other.labels()),
        None => false,
    }
}

/// Keeps a place after others, unless it lies at or below the last.
fn keep(kept: &mut Vec<Path>, place: &Path) -> Result<(), AllocError>
    ensures { OnOk result (kept.new.items ≡ kept_with kept.old.items place.now) }
{
    if is_below_last(kept.as_slice(), place) {
        return Ok(());
    }
    kept.push(place.clone()?)?;
    Ok(())
}

/// Keeps those of some places in order that lie below no other.
fn topmost(alloc: Global, places: &[Path]) -> Result<Vec<Path>, AllocError>
    requires { IsSorted path_cmp places.now }
    ensures apart { IfOk result (λ v. AreApart v.items) }
    ensures order { IfOk result (λ v. AreInOrder v.items) }
    ensures among { IfOk result (λ v. AreAmong places.now v.items) }
    ensures covers { IfOk result (λ v. (p : PathValue) → is_covered places.now p ≡ true → is_covered v.items p ≡ true) }
{
    let mut kept = Vec::new(alloc);
    for place in places {
        keep(&mut kept, place)?;
    }
    Ok(kept)
}

/// Finds the places that a step of these operations touches, in order: those of the operations that lie below no other. Where a
/// label more would be too many, the place above stands for it. Costs their number with its logarithm, and their bytes.
pub fn touched_places(alloc: Global, ops: &[Op]) -> Result<Vec<Path>, AllocError>
    ensures apart { IfOk result (λ v. AreApart v.items) }
    ensures order { IfOk result (λ v. AreInOrder v.items) }
    ensures among { IfOk result (λ v. AreAmong (map looked_at ops.now) v.items) }
    ensures touched { IfOk result (λ v. AreTouched ops.now v.items) }
{
    let mut places = places_of(alloc, ops)?;
    places.sort_unstable();
    topmost(alloc, places.as_slice())
}
