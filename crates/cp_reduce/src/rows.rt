//! The records of a step by place, and the one at the longest prefix of a place.
ghost use Rattle.std.specs.Prelude.{◌≡◌, ◌≤◌, ◌<◌, ◌++◌, List, length, drop, IfOk, IfSome, IfNone};
ghost use Rattle.std.proofs.Common.{T};
ghost use Rattle.std.specs.Option.{option_copied, option_map, MatchOption};
ghost use Rattle.std.specs.declared.option.Option.TheVariants.{None, Some};
ghost use Rattle.cp_path.specs.declared.limits.TheConstants.{LABELS_MAX};
ghost use Rattle.cp_model.specs.Place.{path_cmp, nearest};
ghost use Rattle.cp_model.specs.Keyed.{look};
ghost use Rattle.cp_reduce.specs.Told.{RiseByPlace, mark_in, marks_in, mark_at};

use cp_model::Record;
use cp_path::{LABELS_MAX, Label, Path};
use std::alloc::AllocError;
use std::cmp::Ordering;

/// The record of a place, among records that rise by place. Costs a logarithm of them.
fn row_at<'a>(rows: &'a [Record], place: &[Label]) -> Option<&'a Record>
    ensures { RiseByPlace rows.now → option_map mark_in (option_copied result) ≡ mark_at rows.now place.now }
{
    match rows.binary_search_by(|row| order_of(row, place)) {
        Ok(index) => Some(&rows[index]),
        Err(_) => None,
    }
}

/// How the place of a record stands to another. Costs the shorter one's bytes.
fn order_of(row: &Record, place: &[Label]) -> Ordering
    ensures { result ≡ path_cmp row.now.loc.path place.now }
{
    row.loc.path.labels().cmp(place)
}

/// The record at the longest prefix of a place that has one, with the length of that prefix. Costs a look-up for each label.
pub(crate) fn nearest_to<'a>(rows: &'a [Record], place: &[Label]) -> Option<(&'a Record, usize)>
    ensures exact { RiseByPlace rows.now → MatchOption result (nearest (mark_at rows.now) place.now ≡ None) (λ e. (e.1 ≤ length place.now) × (nearest (mark_at rows.now) place.now ≡ Some (mark_in e.0.now, drop e.1 place.now))) }
    ensures within { IfSome result (λ e. e.1 ≤ length place.now) }
{
    let mut count = place.len();
    while count > 0 {
        if let Some(row) = row_at(rows, &place[..count]) {
            return Some((row, count));
        }
        count -= 1;
    }
    match row_at(rows, &[]) {
        Some(row) => Some((row, 0)),
        None => None,
    }
}

/// The path of these labels after those of a path, or none where they are too many. Costs its bytes.
pub(crate) fn joined(path: &Path, labels: &[Label]) -> Result<Option<Path>, AllocError>
    ensures some { IfOk result (λ r. IfSome r (λ p. p ≡ path.now ++ labels.now)) }
    ensures none { IfOk result (λ r. IfNone r (LABELS_MAX < length (path.now ++ labels.now))) }
{
    if path.labels().len() + labels.len() > LABELS_MAX {
        return Ok(None);
    }
    Ok(Some(path.joined(labels)?))
}
