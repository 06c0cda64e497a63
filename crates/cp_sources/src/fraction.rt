//! The first number that isn't whole.
ghost use Rattle.std.specs.Prelude.{◌≡◌, ◌≤◌, [], ◌∷◌, ◌++◌, IfOk, IsOkAnd, OnOk, length, false, is_some};
ghost use Rattle.serde_json.specs.View.{view, items_view, members_view};
ghost use Rattle.cp_sources.specs.Places.{content_of, value_places};
ghost use Rattle.cp_model.specs.Place.{child};
ghost use Rattle.cp_sources.specs.JsonTrees.{first_fraction};
ghost use Rattle.cp_sources.specs.Growing.{earlier_of, with_place, IsWithinLimits, AreWithinLimits};
ghost use Rattle.cp_sources.specs.Walks.{walk_below, walk_items, walk_members, NeedsBelow, NeedsItems, NeedsMembers};

use crate::value::{index_label, is_whole};
use cp_path::{Label, Path};
use serde_json::{Map, Value};
use std::alloc::{AllocError, Global};

/// The earlier of two paths, kept as a path of its own.
fn keep_earlier(first: &mut Option<Path>, at: &Path) -> Result<(), AllocError>
    ensures { OnOk result (first.new ≡ Some (earlier_of first.old at.now)) }
{
    let is_earlier = match first {
        Some(found) => *at < *found,
        None => true,
    };
    if is_earlier {
        *first = Some(at.clone()?);
    }
    Ok(())
}

fn look_at(first: &mut Option<Path>, at: &Path, value: &Value) -> Result<(), AllocError>
    ensures { OnOk result (first.new ≡ with_place at.now (content_of (view value.now)) first.old) }
{
    if is_whole(value) {
        return Ok(());
    }
    keep_earlier(first, at)
}

/// The first place, in the order of places, of a number that isn't whole.
/// Costs the places, and the bytes of their paths.
#[tactic(auto, using(crate::proofs::Looking::first_is))]
pub(crate) fn first_fraction(alloc: Global, value: &Value) -> Result<Option<Path>, AllocError>
    requires near { AreWithinLimits (view value.now) }
    ensures { IfOk result (λ o. o ≡ first_fraction (value_places (view value.now))) }
{
    let mut first = None;
    let root = Path::root(alloc);
    look_at(&mut first, &root, value)?;
    look_below(alloc, &mut first, &root, value)?;
    Ok(first)
}

#[cycle(look)]
fn look_below(
    alloc: Global,
    first: &mut Option<Path>,
    at: &Path,
    value: &Value,
) -> Result<(), AllocError>
    requires near { NeedsBelow child with_place IsWithinLimits at.now (view value.now) first.old }
    ensures { OnOk result (first.new ≡ walk_below child with_place at.now (view value.now) first.old) }
{
    match value {
        Value::Array(items) => look_at_items(alloc, first, at, items),
        Value::Object(members) => look_at_members(alloc, first, at, members),
        _ => Ok(()),
    }
}

/// Looks at the value's place at a label, if that could be made, and at the places below it. The path is made only where it
/// may be kept, or where there are some.
#[cycle(look)]
fn look_at_label(
    alloc: Global,
    first: &mut Option<Path>,
    at: &Path,
    label: Result<Label, AllocError>,
    value: &Value,
) -> Result<(), AllocError>
    requires place { IfOk label (λ a. IsWithinLimits at.now a (content_of (view value.now)) first.old) }
    requires below { IfOk label (λ a. NeedsBelow child with_place IsWithinLimits (child at.now a) (view value.now)
        (with_place (child at.now a) (content_of (view value.now)) first.old)) }
    ensures { OnOk result (IsOkAnd label (λ a. first.new ≡ walk_below child with_place (child at.now a) (view value.now)
        (with_place (child at.now a) (content_of (view value.now)) first.old))) }
{
    let label = label?;
    match value {
        Value::Null | Value::Bool(_) | Value::String(_) => Ok(()),
        Value::Number(number) if !number.is_f64() => Ok(()),
        _ => {
            let below = at.child(&label)?;
            look_at(first, &below, value)?;
            look_below(alloc, first, &below, value)
        }
    }
}

#[cycle(look)]
fn look_at_items(
    alloc: Global,
    first: &mut Option<Path>,
    at: &Path,
    items: &Vec<Value>,
) -> Result<(), AllocError>
    requires near { NeedsItems child with_place IsWithinLimits at.now 0 (items_view items.now.items) first.old }
    ensures { OnOk result (first.new ≡ walk_items child with_place at.now 0 (items_view items.now.items) first.old) }
{
    let mut i = 0u64;
    for item in items {
        look_at_label(alloc, first, at, index_label(alloc, i), item)?;
        i += 1;
    }
    Ok(())
}

#[cycle(look)]
fn look_at_members(
    alloc: Global,
    first: &mut Option<Path>,
    at: &Path,
    members: &Map<String, Value>,
) -> Result<(), AllocError>
    requires near { NeedsMembers child with_place IsWithinLimits at.now (members_view members.now.entries) first.old }
    ensures { OnOk result (first.new ≡ walk_members child with_place at.now (members_view members.now.entries) first.old) }
{
    for (key, member) in members.iter() {
        look_at_label(
            alloc,
            first,
            at,
            Label::copy_of(alloc, key.as_str()),
            member,
        )?;
    }
    Ok(())
}
