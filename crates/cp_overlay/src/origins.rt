//! The origins that are kept, by place.
ghost use Rattle.std.specs.Prelude.{◌≡◌, ◌↔◌, ◌≤◌, ◌<◌, ◌+◌, ◌++◌, ◌∷◌, [], true, length, drop, cond, is_some, IsTrue, OnOk, OnErr, IfOk, IfSome, IfNone};
ghost use Rattle.std.specs.declared.option.Option.TheVariants.{None, Some};
ghost use Rattle.std.specs.Option.{option_copied, MatchOption};
ghost use Rattle.std.specs.List.{list_any};
ghost use Rattle.cp_path.specs.declared.limits.TheConstants.{LABELS_MAX};
ghost use Rattle.cp_model.specs.Place.{Path as PathValue, path_eq, nearest, strip, below_place, at_target};
ghost use Rattle.cp_model.specs.Keyed.{look};
ghost use Rattle.cp_model.specs.Subtrees.{entries_under};
ghost use Rattle.cp_model.specs.declared.origin.Origin.TheVariants.{Was as was};
ghost use Rattle.cp_overlay.specs.Kept.{carry, put_below, origin_at, IsGiven};
ghost use Rattle.cp_overlay.specs.Shown.{kept, has_key, run, shown, set_or, joined, blank, paths, paths_under, AreThere};

use cp_model::Origin;
use cp_path::{LABELS_MAX, Label, Loc, Path};
use std::alloc::{AllocError, Global};
use std::collections::BTreeMap;

/// Origins by place, in the order of places. While a change is made a key may be there that keeps nothing yet, or nothing
/// any more.
pub(crate) type Origins = BTreeMap<Vec<Label>, Option<Origin>>;

/// A place and what is to be kept there.
pub(crate) type Row = (Vec<Label>, Option<Origin>);

/// The origin kept at a place. Costs a logarithm of those kept.
pub(crate) fn at<'a>(map: &'a Origins, place: &[Label]) -> Option<&'a Origin>
    ensures { option_copied result ≡ kept map.now place.now }
{
    match map.get(place) {
        Some(origin) => origin.as_ref(),
        None => None,
    }
}

/// The origin kept at the longest prefix of a place that has one, with the length of that prefix. Costs a look-up for each
/// label.
pub(crate) fn nearest_to<'a>(map: &'a Origins, place: &[Label]) -> Option<(&'a Origin, usize)>
    ensures { MatchOption result (nearest (kept map.now) place.now ≡ None) (λ e. (e.1 ≤ length place.now) × (nearest (kept map.now) place.now ≡ Some (e.0.now, drop e.1 place.now))) }
{
    let mut count = place.len();
    while count > 0 {
        if let Some(origin) = at(map, &place[..count]) {
            return Some((origin, count));
        }
        count -= 1;
    }
    match at(map, &[]) {
        Some(origin) => Some((origin, 0)),
        None => None,
    }
}

/// What of a place follows its prefix, if that is one.
pub(crate) fn rest_of<'a>(place: &'a [Label], prefix: &[Label]) -> Option<&'a [Label]>
    ensures { option_copied result ≡ strip prefix.now place.now }
{
    place.strip_prefix(prefix)
}

/// A copy of what a key keeps. Costs its size.
fn copy_of(origin: &Option<Origin>) -> Result<Option<Origin>, AllocError>
    ensures { IfOk result (λ o. o ≡ origin.now) }
{
    match origin {
        Some(origin) => Ok(Some(origin.clone()?)),
        None => Ok(None),
    }
}

/// The entries at and below a place, each with what follows that place. Costs a logarithm of those kept, and these.
pub(crate) fn entries_below(
    alloc: Global,
    map: &Origins,
    place: &[Label],
) -> Result<Vec<Row>, AllocError>
    ensures { IfOk result (λ v. shown v.items ≡ run place.now map.now.entries) }
{
    let mut rows = Vec::new(alloc);
    let from = place.to_vec(alloc)?;
    for (key, origin) in map.range(&from..) {
        let Some(rest) = rest_of(key.as_slice(), place) else {
            break;
        };
        push_row(alloc, &mut rows, rest, origin)?;
    }
    Ok(rows)
}

/// Appends a row of these labels, with a copy of what a key keeps. Costs their size.
fn push_row(
    alloc: Global,
    rows: &mut Vec<Row>,
    labels: &[Label],
    origin: &Option<Origin>,
) -> Result<(), AllocError>
    ensures { OnOk result (shown rows.new.items ≡ shown rows.old.items ++ (labels.now, origin.now) ∷ []) }
{
    let key = labels.to_vec(alloc)?;
    let value = copy_of(origin)?;
    rows.push((key, value))?;
    Ok(())
}

/// Makes room for a key; what is kept stays.
fn make_room(map: &mut Origins, key: Vec<Label>) -> Result<(), AllocError>
    ensures same { (r : PathValue) → kept map.new r ≡ kept map.old r }
    ensures grows { (r : PathValue) → has_key map.old r ≡ true → has_key map.new r ≡ true }
    ensures there { OnOk result (has_key map.new key.items ≡ true) }
{
    if map.contains_key(key.as_slice()) {
        return Ok(());
    }
    map.insert(key, None)?;
    Ok(())
}

/// Makes room for the keys of all rows; what is kept stays.
fn room_for(alloc: Global, map: &mut Origins, rows: &[Row]) -> Result<(), AllocError>
    ensures same { (r : PathValue) → kept map.new r ≡ kept map.old r }
    ensures there { OnOk result (AreThere map.new (shown rows.now)) }
{
    for row in rows {
        let key = row.0.as_slice().to_vec(alloc)?;
        make_room(map, key)?;
    }
    Ok(())
}

/// Sets what is kept at a key that is there.
fn set(map: &mut Origins, key: &[Label], origin: Option<Origin>)
    requires { has_key map.old key.now ≡ true }
    ensures value { (r : PathValue) → kept map.new r ≡ cond (path_eq r key.now) origin (kept map.old r) }
    ensures keys { (r : PathValue) → has_key map.new r ≡ has_key map.old r }
{
    if let Some(slot) = map.get_mut(key) {
        *slot = origin;
    }
}

/// Gives up a key at which nothing is kept. Costs a logarithm of those kept.
fn sweep_key(map: &mut Origins, key: &[Label])
    ensures { (r : PathValue) → kept map.new r ≡ kept map.old r }
{
    if at(map, key).is_none() {
        map.remove(key);
    }
}

/// Gives up the keys of these rows at which nothing is kept. Costs a logarithm of those kept for each row.
fn sweep(map: &mut Origins, rows: &[Row])
    ensures { (r : PathValue) → kept map.new r ≡ kept map.old r }
{
    for row in rows {
        sweep_key(map, row.0.as_slice());
    }
}

/// The labels of a place, and behind them these. Costs their bytes.
fn both(alloc: Global, place: &[Label], labels: &[Label]) -> Result<Vec<Label>, AllocError>
    ensures { IfOk result (λ v. v.items ≡ place.now ++ labels.now) }
{
    let mut all = place.to_vec(alloc)?;
    all.extend_from_slice(labels)?;
    Ok(all)
}

/// The rows with their places below a place.
fn rows_under(alloc: Global, place: &[Label], rows: Vec<Row>) -> Result<Vec<Row>, AllocError>
    ensures { IfOk result (λ v. shown v.items ≡ entries_under place.now (shown rows.items)) }
{
    let mut all = Vec::new(alloc);
    for row in rows {
        push_under(alloc, place, row, &mut all)?;
    }
    Ok(all)
}

/// Appends a row, with its place below a place.
fn push_under(
    alloc: Global,
    place: &[Label],
    row: Row,
    all: &mut Vec<Row>,
) -> Result<(), AllocError>
    ensures { OnOk result (shown all.new.items ≡ shown all.old.items ++ (place.now ++ row.0.items, row.1) ∷ []) }
{
    let (rest, origin) = row;
    let made = both(alloc, place, rest.as_slice());
    drop(rest);
    let key = made?;
    all.push((key, origin))?;
    Ok(())
}

/// Appends blank rows for what is there now below a place. After an error some of them are there.
fn add_blank(
    alloc: Global,
    place: &[Label],
    stale: &[Row],
    all: &mut Vec<Row>,
) -> Result<(), AllocError>
    ensures { OnOk result (shown all.new.items ≡ shown all.old.items ++ entries_under place.now (blank (shown stale.now))) }
{
    for row in stale {
        let key = both(alloc, place, row.0.as_slice())?;
        all.push((key, None))?;
    }
    Ok(())
}

/// The rows with their places below a place, in front of blank ones for what is there now.
fn changes(
    alloc: Global,
    place: &[Label],
    rows: Vec<Row>,
    stale: Vec<Row>,
) -> Result<Vec<Row>, AllocError>
    ensures { IfOk result (λ v. shown v.items ≡ entries_under place.now (shown rows.items) ++ entries_under place.now (blank (shown stale.items))) }
{
    let mut all = rows_under(alloc, place, rows)?;
    add_blank(alloc, place, stale.as_slice(), &mut all)?;
    Ok(all)
}

/// Sets what is kept at the keys of all rows, which are there: of two with one key the first counts. The rows keep their
/// keys alone.
fn set_all(map: &mut Origins, rows: &mut [Row])
    requires { AreThere map.old (shown rows.old) }
    ensures { (r : PathValue) → kept map.new r ≡ set_or (look r (shown rows.old)) (kept map.old r) }
{
    let mut count = rows.len();
    while count > 0 {
        count -= 1;
        let row = &mut rows[count];
        let origin = row.1.take();
        set(map, row.0.as_slice(), origin);
    }
}

/// What is kept at and below a place becomes the rows. Costs a logarithm of those kept for each of these and of what was
/// kept there. After an error what is kept is as it was.
pub(crate) fn replace(
    alloc: Global,
    map: &mut Origins,
    place: &[Label],
    rows: Vec<Row>,
) -> Result<(), AllocError>
    ensures ok { OnOk result ((r : PathValue) → kept map.new r ≡ put_below place.now (λ s. joined (look s (shown rows.items))) (kept map.old) r) }
    ensures err { OnErr result ((r : PathValue) → kept map.new r ≡ kept map.old r) }
{
    let stale = entries_below(alloc, map, place)?;
    let mut all = changes(alloc, place, rows, stale)?;
    let ready = room_for(alloc, map, all.as_slice());
    if ready.is_ok() {
        set_all(map, all.as_mut_slice());
    }
    sweep(map, all.as_slice());
    ready
}

/// The keys at and below a place. Costs a logarithm of those kept, and these.
pub(crate) fn keys_below(
    alloc: Global,
    map: &Origins,
    place: &[Label],
) -> Result<Vec<Vec<Label>>, AllocError>
    ensures { IfOk result (λ v. paths v.items ≡ paths_under place.now (run place.now map.now.entries)) }
{
    let mut keys = Vec::new(alloc);
    let from = place.to_vec(alloc)?;
    for (key, _) in map.range(&from..) {
        if rest_of(key.as_slice(), place).is_none() {
            break;
        }
        push_key(alloc, &mut keys, key.as_slice())?;
    }
    Ok(keys)
}

/// Appends a copy of a key. Costs its bytes.
fn push_key(alloc: Global, keys: &mut Vec<Vec<Label>>, key: &[Label]) -> Result<(), AllocError>
    ensures { OnOk result (paths keys.new.items ≡ paths keys.old.items ++ key.now ∷ []) }
{
    let key = key.to_vec(alloc)?;
    keys.push(key)?;
    Ok(())
}

/// Gives up what is kept at these keys. Costs a logarithm of those kept for each.
pub(crate) fn remove_all(map: &mut Origins, keys: &[Vec<Label>])
    ensures { (r : PathValue) → kept map.new r ≡ cond (list_any (path_eq r) (paths keys.now)) None (kept map.old r) }
{
    for key in keys {
        map.remove(key.as_slice());
    }
}

/// Whether an origin is that of the data which stood at this place of T.
fn is_own(origin: &Origin, place: &[Label]) -> bool
    ensures { IsTrue result ↔ (origin.now ≡ was (at_target place.now)) }
{
    match origin {
        Origin::New => false,
        Origin::Was(q) => q.db.is_target() && q.path.labels() == place,
    }
}

/// Whether an origin is another one, carried down these labels.
fn is_carried(origin: &Origin, above: &Origin, labels: &[Label]) -> bool
    ensures { IsTrue result ↔ (origin.now ≡ carry above.now labels.now) }
{
    match (origin, above) {
        (Origin::New, Origin::New) => true,
        (Origin::Was(q), Origin::Was(from)) => {
            match rest_of(q.path.labels(), from.path.labels()) {
                Some(rest) => q.db == from.db && rest == labels,
                None => false,
            }
        }
        _ => false,
    }
}

/// Whether what is kept at a place is what the place above it gives.
fn is_given(map: &Origins, place: &[Label]) -> bool
    ensures { IsTrue result ↔ IsGiven (kept map.now) place.now }
{
    let Some(origin) = at(map, place) else {
        return false;
    };
    let Some((_, above)) = place.split_last() else {
        return is_own(origin, place);
    };
    match nearest_to(map, above) {
        Some((from, count)) => is_carried(origin, from, &place[count..]),
        None => is_own(origin, place),
    }
}

/// Gives up what is kept at a place where the place above it gives as much: every place has the origin that it had. Costs
/// a look-up for each label.
pub(crate) fn settle(map: &mut Origins, place: &[Label])
    ensures same { (r : PathValue) → origin_at (kept map.new) r ≡ origin_at (kept map.old) r }
    ensures fewer { (r : PathValue) → is_some (kept map.new r) ≡ true → kept map.new r ≡ kept map.old r }
    ensures settled { IsGiven (kept map.new) place.now → ⊥ }
{
    if is_given(map, place) {
        map.remove(place);
    }
}

/// The place below another at these labels, or none where it has too many labels. Costs its size.
pub(crate) fn carried(from: &Loc, labels: &[Label]) -> Result<Option<Loc>, AllocError>
    ensures some { IfOk result (λ r. IfSome r (λ q. q ≡ below_place from.now labels.now)) }
    ensures none { IfOk result (λ r. IfNone r (LABELS_MAX < length (from.now.path ++ labels.now))) }
{
    let db = from.db.clone()?;
    match joined(&from.path, labels)? {
        Some(path) => Ok(Some(Loc { db, path })),
        None => Ok(None),
    }
}

/// The path of these labels after those of a path, or none where they are too many. Costs its bytes.
pub(crate) fn joined(path: &Path, labels: &[Label]) -> Result<Option<Path>, AllocError>
    ensures some { IfOk result (λ r. IfSome r (λ p. p ≡ path.now ++ labels.now)) }
    ensures none { IfOk result (λ r. IfNone r (LABELS_MAX < length (path.now ++ labels.now))) }
{
    if path.labels().len() + labels.len() > LABELS_MAX {
        return Ok(None);
    }
    Ok(Some(path.joined(labels)?))
}
