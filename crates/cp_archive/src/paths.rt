//! The phases of each path that was ever there.
ghost use Rattle.std.specs.Prelude.{◌≡◌, ◌+◌, ◌++◌, ◌∷◌, [], List, map, IfOk, OnOk, OnErr, if◌then◌else◌};
ghost use Rattle.std.specs.List.{All, count_by, flat_map};
ghost use Rattle.std.specs.Option.{option_copied};
ghost use Rattle.cp_model.specs.Place.{Path as PathValue, path_eq};
ghost use Rattle.cp_model.specs.Keyed.{entries};
ghost use Rattle.cp_tree.specs.Rows.{entry_row};
ghost use Rattle.cp_archive.specs.declared.phase.Phase.{Phase as PhaseValue};
ghost use Rattle.cp_archive.specs.Phases.{Paths as PathsValue, phases_of, content_of, tree_of_version, row_of, content_at as content_of_phases, IsRising};
ghost use Rattle.cp_archive.specs.Differences.{CanDiffer, differences_at, begins};
ghost use Rattle.cp_archive.specs.Notes.{IsNoted, AreNoted, HasSamePhases};

use crate::difference::{Difference, count_begun, differences};
use crate::phase::{Phase, content_at};
use crate::touched::Touched;
use cp_model::{Row, RowList};
use cp_path::Path;
use cp_tree::SharedContent;
use std::alloc::{AllocError, Global};
use std::collections::BTreeMap;

/// The phases of each path that was ever there, in the order of the versions.
pub(crate) type Paths = BTreeMap<Path, Vec<Phase>>;

/// Notes a phase of a path after its others. Costs a logarithm of the paths, and a copy of the path where it is a new one.
fn note(paths: &mut Paths, alloc: Global, path: &Path, phase: Phase) -> Result<(), AllocError>
    ensures ok { OnOk result (IsNoted paths.old paths.new path.now phase) }
    ensures err { OnErr result (HasSamePhases paths.old paths.new) }
{
    if let Some(phases) = paths.get_mut(path) {
        phases.push(phase)?;
        return Ok(());
    }
    let mut phases = Vec::with_capacity(alloc, 1)?;
    phases.push(phase)?;
    paths.insert(path.clone()?, phases)?;
    Ok(())
}

/// Takes back the last phase that was noted of a path. Costs a logarithm of the paths.
fn forget(paths: &mut Paths, path: &Path)
    ensures { (xs : List PhaseValue) (x : PhaseValue) → phases_of paths.old path.now ≡ xs ++ x ∷ []
        → (p : PathValue) → phases_of paths.new p ≡ (if path_eq p path.now then xs else phases_of paths.old p) }
{
    if let Some(phases) = paths.get_mut(path) {
        phases.pop();
    }
}

/// Takes back what was noted of the differences last. Costs a logarithm of the paths for each.
fn forget_all(paths: &mut Paths, differences: &[Difference], since: u64)
    ensures { (m : PathsValue) → AreNoted m paths.old since differences.now → HasSamePhases m paths.new }
{
    let mut count = differences.len();
    while count > 0 {
        count -= 1;
        forget(paths, &differences[count].path);
    }
}

/// Notes what a version has at a path.
fn note_difference(
    paths: &mut Paths,
    alloc: Global,
    since: u64,
    difference: &Difference,
) -> Result<(), AllocError>
    ensures ok { OnOk result (AreNoted paths.old paths.new since (difference.now ∷ [])) }
    ensures err { OnErr result (HasSamePhases paths.old paths.new) }
{
    let phase = Phase::new(since, difference.content.as_ref())?;
    note(paths, alloc, &difference.path, phase)
}

/// Notes all that a version has at the paths of the differences. Costs a logarithm of the paths for each, and a copy of each new
/// path. After an error the phases are as they were.
pub(crate) fn note_all(
    paths: &mut Paths,
    alloc: Global,
    since: u64,
    differences: &[Difference],
) -> Result<(), AllocError>
    ensures ok { OnOk result (AreNoted paths.old paths.new since differences.now) }
    ensures err { OnErr result (HasSamePhases paths.old paths.new) }
{
    let mut count = 0;
    while count < differences.len() {
        if note_difference(paths, alloc, since, &differences[count]).is_err() {
            forget_all(paths, &differences[..count], since);
            return Err(AllocError);
        }
        count += 1;
    }
    Ok(())
}

/// Notes the version to which a step led that touched these places, and counts all ranges, of which there were so many before.
/// After an error the phases are as they were.
pub(crate) fn note_step(
    paths: &mut Paths,
    alloc: Global,
    version: u64,
    ranges: u64,
    touched: &[Touched],
) -> Result<u64, AllocError>
    requires { All CanDiffer touched.now }
    ensures ok { OnOk result (AreNoted paths.old paths.new version (flat_map differences_at touched.now)) }
    ensures ranges { IfOk result (λ n. n ≡ ranges + count_by begins (flat_map differences_at touched.now)) }
    ensures err { OnErr result (HasSamePhases paths.old paths.new) }
{
    let found = differences(alloc, touched)?;
    let Some(ranges) = ranges.checked_add(count_begun(&found) as u64) else {
        return Err(AllocError);
    };
    note_all(paths, alloc, version, &found)?;
    Ok(ranges)
}

/// Finds the content of a path in a version. Costs a logarithm of the paths, and one of its phases.
pub(crate) fn content_of<'a>(
    paths: &'a Paths,
    path: &Path,
    version: u64,
) -> Option<&'a SharedContent>
    requires { (p : PathValue) → IsRising (phases_of paths.now p) }
    ensures { option_copied result ≡ content_of paths.now version path.now }
{
    match paths.get(path) {
        Some(phases) => content_at(phases, version),
        None => None,
    }
}

/// Adds the row of a path, if it has a content in the version.
fn add_row(
    alloc: Global,
    path: &Path,
    phases: &[Phase],
    version: u64,
    rows: &mut Vec<Row>,
) -> Result<(), AllocError>
    requires { IsRising phases.now }
    ensures { OnOk result (rows.new.items ≡ rows.old.items ++ row_of path.now (content_of_phases phases.now version)) }
{
    if let Some(content) = content_at(phases, version) {
        let path = path.clone()?;
        let content = content.to_content()?;
        rows.push(Row { path, content })?;
    }
    Ok(())
}

/// Lists the rows of the tree of a version, in order. Costs a logarithm of the phases of each path that was ever there, and the
/// rows.
pub(crate) fn rows_of(paths: &Paths, alloc: Global, version: u64) -> Result<RowList, AllocError>
    requires { (p : PathValue) → IsRising (phases_of paths.now p) }
    ensures { IfOk result (λ v. v ≡ map entry_row (entries (tree_of_version paths.now version))) }
{
    let mut items = Vec::new(alloc);
    for (path, phases) in paths.iter() {
        add_row(alloc, path, phases, version, &mut items)?;
    }
    Ok(RowList { items })
}
