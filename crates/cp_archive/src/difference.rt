//! What differs at and below the places that a step touched.
ghost use Rattle.std.specs.Prelude.{◌≡◌, ◌++◌, List, length, IfOk, OnOk};
ghost use Rattle.std.proofs.Common.{T};
ghost use Rattle.std.specs.List.{All, flat_map, count_by};
ghost use Rattle.std.specs.Option.{option_copied};
ghost use Rattle.std.specs.FinMap.Entries.{is_sorted};
ghost use Rattle.cp_model.specs.Place.{path_cmp};
ghost use Rattle.cp_model.specs.Keyed.{look};
ghost use Rattle.cp_tree.specs.Rows.{entries_in};
ghost use Rattle.cp_archive.specs.Differences.{AreAfter, FitsBelow, CanDiffer, gone_at, begun_at, differences_at, begins};

use crate::same::is_same;
use crate::touched::Touched;
use cp_model::{Content, Row};
use cp_path::Path;
use cp_tree::SharedContent;
use std::alloc::{AllocError, Global};
use std::cmp::Ordering;

/// What a step left at a path where it changed something: a content, or nothing.
#[derive(Drop)]
pub struct Difference {
    pub(crate) path: Path,
    pub(crate) content: Option<SharedContent>,
}

/// Finds what rows have at a path, and which of them come after it. Costs the rows that it passes.
fn pass_to<'a>(rows: &'a [Row], path: &Path) -> (Option<&'a Content>, &'a [Row])
    requires { T (is_sorted path_cmp (entries_in rows.now)) }
    ensures content { option_copied result.0 ≡ look path.now (entries_in rows.now) }
    ensures after { AreAfter path.now rows.now result.1.now }
{
    let mut left = rows;
    while let Some((row, after)) = left.split_first() {
        match row.path.cmp(path) {
            Ordering::Less => left = after,
            Ordering::Equal => return (Some(&row.content), after),
            Ordering::Greater => break,
        }
    }
    (None, left)
}

/// Adds a row's path, unless it is still there. Gives the rows of the others that come after it.
fn add_if_gone<'a>(
    alloc: Global,
    place: &Path,
    row: &Row,
    others: &'a [Row],
    found: &mut Vec<Difference>,
) -> Result<&'a [Row], AllocError>
    requires sorted { T (is_sorted path_cmp (entries_in others.now)) }
    requires fits { FitsBelow place.now row.now }
    ensures found { OnOk result (found.new.items ≡ found.old.items ++ gone_at place.now others.now row.now) }
    ensures after { IfOk result (λ left. AreAfter row.now.path others.now left.now) }
{
    let (content, left) = pass_to(others, &row.path);
    if content.is_none() {
        let path = place.joined(row.path.labels())?;
        let content = None;
        found.push(Difference { path, content })?;
    }
    Ok(left)
}

/// Adds a row's path with its content, unless it was there with that content. Gives the rows of the others that come after it.
fn add_if_begun<'a>(
    alloc: Global,
    place: &Path,
    row: &Row,
    others: &'a [Row],
    found: &mut Vec<Difference>,
) -> Result<&'a [Row], AllocError>
    requires sorted { T (is_sorted path_cmp (entries_in others.now)) }
    requires fits { FitsBelow place.now row.now }
    ensures found { OnOk result (found.new.items ≡ found.old.items ++ begun_at place.now others.now row.now) }
    ensures after { IfOk result (λ left. AreAfter row.now.path others.now left.now) }
{
    let (content, left) = pass_to(others, &row.path);
    if let Some(content) = content {
        if is_same(content, &row.content) {
            return Ok(left);
        }
    }
    let path = place.joined(row.path.labels())?;
    let content = Some(SharedContent::of(alloc, &row.content)?);
    found.push(Difference { path, content })?;
    Ok(left)
}

/// Adds the paths of the rows that aren't there any more. Costs the rows of both.
fn add_gone(
    alloc: Global,
    place: &Path,
    before: &[Row],
    after: &[Row],
    found: &mut Vec<Difference>,
) -> Result<(), AllocError>
    requires before { T (is_sorted path_cmp (entries_in before.now)) }
    requires after { T (is_sorted path_cmp (entries_in after.now)) }
    requires fits { All (FitsBelow place.now) before.now }
    ensures { OnOk result (found.new.items ≡ found.old.items ++ flat_map (gone_at place.now after.now) before.now) }
{
    let mut left = after;
    for row in before {
        left = add_if_gone(alloc, place, row, left, found)?;
    }
    Ok(())
}

/// Adds the paths of the rows that are new or have a new content. Costs the rows of both.
fn add_begun(
    alloc: Global,
    place: &Path,
    before: &[Row],
    after: &[Row],
    found: &mut Vec<Difference>,
) -> Result<(), AllocError>
    requires before { T (is_sorted path_cmp (entries_in before.now)) }
    requires after { T (is_sorted path_cmp (entries_in after.now)) }
    requires fits { All (FitsBelow place.now) after.now }
    ensures { OnOk result (found.new.items ≡ found.old.items ++ flat_map (begun_at place.now before.now) after.now) }
{
    let mut left = before;
    for row in after {
        left = add_if_begun(alloc, place, row, left, found)?;
    }
    Ok(())
}

/// Adds what differs at and below a place.
fn add_differences(
    alloc: Global,
    touched: &Touched,
    found: &mut Vec<Difference>,
) -> Result<(), AllocError>
    requires { CanDiffer touched.now }
    ensures { OnOk result (found.new.items ≡ found.old.items ++ differences_at touched.now) }
{
    let place = &touched.place;
    let before = touched.before.items.as_slice();
    let after = touched.after.items.as_slice();
    add_gone(alloc, place, before, after, found)?;
    add_begun(alloc, place, before, after, found)
}

/// Finds what differs at and below the places. Costs their rows, and the path and the text of each difference.
pub(crate) fn differences(alloc: Global, touched: &[Touched]) -> Result<Vec<Difference>, AllocError>
    requires { All CanDiffer touched.now }
    ensures { IfOk result (λ v. v.items ≡ flat_map differences_at touched.now) }
{
    let mut found = Vec::new(alloc);
    for one in touched {
        add_differences(alloc, one, &mut found)?;
    }
    Ok(found)
}

/// Counts those with a content.
pub(crate) fn count_begun(differences: &[Difference]) -> usize
    ensures { result ≡ count_by begins differences.now }
{
    differences
        .iter()
        .filter(|one| one.content.is_some())
        .count()
}
