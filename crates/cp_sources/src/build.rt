//! A tree grown from a value, place by place.
ghost use Rattle.std.specs.Prelude.{◌≡◌, ◌≤◌, ◌<◌, [], ◌∷◌, length, IfOk, IsOkAnd, OnOk, Some};
ghost use Rattle.serde_json.specs.View.{view, items_view, members_view};
ghost use Rattle.cp_model.specs.Tree.{text_bytes};
ghost use Rattle.cp_model.specs.Place.{child};
ghost use Rattle.cp_tree.specs.Rows.{single};
ghost use Rattle.cp_sources.specs.Places.{content_of};
ghost use Rattle.cp_sources.specs.Growing.{or_node, with_leaf, CanPut, CanGrow, grown_tree};
ghost use Rattle.cp_sources.specs.Walks.{walk_below, walk_items, walk_members, NeedsBelow, NeedsItems, NeedsMembers};

use crate::value::{content_of, index_label};
use cp_path::{LABELS_MAX, Label, Path};
use cp_tree::TreeRep;
use serde_json::{Map, Value};
use std::alloc::{AllocError, Global};

/// The tree of a value within the limits. Costs a leaf added for each place, in the order in which they are read.
pub(crate) fn tree_of<R: TreeRep>(alloc: Global, value: &Value) -> Result<R, AllocError>
    requires { CanGrow (view value.now) }
    ensures { IfOk result (λ t. R.contents t ≡ grown_tree (view value.now)) }
{
    let content = content_of(alloc, value)?;
    let mut tree = R::single(alloc, &content)?;
    let root = Path::root(alloc);
    add_below(alloc, &mut tree, &root, value)?;
    Ok(tree)
}

/// Adds the value's place as a leaf.
fn add<R: TreeRep>(
    alloc: Global,
    tree: &mut R,
    at: &Path,
    label: &Label,
    value: &Value,
) -> Result<(), AllocError>
    requires { CanPut at.now label.now (content_of (view value.now)) (R.contents tree.old) }
    ensures { OnOk result (R.contents tree.new ≡ with_leaf (child at.now label.now) (content_of (view value.now)) (R.contents tree.old)) }
{
    let content = content_of(alloc, value)?;
    tree.insert_leaf(alloc, at, label, &content)
}

/// Adds the places below that of the value.
fn add_below<R: TreeRep>(
    alloc: Global,
    tree: &mut R,
    at: &Path,
    value: &Value,
) -> Result<(), AllocError>
    requires { NeedsBelow child with_leaf CanPut at.now (view value.now) (R.contents tree.old) }
    ensures { OnOk result (R.contents tree.new ≡ walk_below child with_leaf at.now (view value.now) (R.contents tree.old)) }
{
    match value {
        Value::Array(items) => add_items(alloc, tree, at, items),
        Value::Object(members) => add_members(alloc, tree, at, members),
        _ => Ok(()),
    }
}

/// Adds the places below the value that stands at a label. Its path is made only where there are some.
#[cycle(grow)]
fn add_under<R: TreeRep>(
    alloc: Global,
    tree: &mut R,
    at: &Path,
    label: &Label,
    value: &Value,
) -> Result<(), AllocError>
    requires room { length at.now < LABELS_MAX }
    requires below { NeedsBelow child with_leaf CanPut (child at.now label.now) (view value.now) (R.contents tree.old) }
    ensures { OnOk result (R.contents tree.new ≡ walk_below child with_leaf (child at.now label.now) (view value.now) (R.contents tree.old)) }
{
    match value {
        Value::Array(items) => {
            let below = at.child(label)?;
            add_items(alloc, tree, &below, items)
        }
        Value::Object(members) => {
            let below = at.child(label)?;
            add_members(alloc, tree, &below, members)
        }
        _ => Ok(()),
    }
}

/// Adds the value's place at a label, if that could be made, and the places below it.
#[cycle(grow)]
fn add_at<R: TreeRep>(
    alloc: Global,
    tree: &mut R,
    at: &Path,
    label: Result<Label, AllocError>,
    value: &Value,
) -> Result<(), AllocError>
    requires place { IfOk label (λ a. CanPut at.now a (content_of (view value.now)) (R.contents tree.old)) }
    requires below { IfOk label (λ a. NeedsBelow child with_leaf CanPut (child at.now a) (view value.now)
        (with_leaf (child at.now a) (content_of (view value.now)) (R.contents tree.old))) }
    ensures { OnOk result (IsOkAnd label (λ a. R.contents tree.new ≡ walk_below child with_leaf (child at.now a) (view value.now)
        (with_leaf (child at.now a) (content_of (view value.now)) (R.contents tree.old)))) }
{
    let label = label?;
    add(alloc, tree, at, &label, value)?;
    add_under(alloc, tree, at, &label, value)
}

#[cycle(grow)]
fn add_items<R: TreeRep>(
    alloc: Global,
    tree: &mut R,
    at: &Path,
    items: &Vec<Value>,
) -> Result<(), AllocError>
    requires { NeedsItems child with_leaf CanPut at.now 0 (items_view items.now.items) (R.contents tree.old) }
    ensures { OnOk result (R.contents tree.new ≡ walk_items child with_leaf at.now 0 (items_view items.now.items) (R.contents tree.old)) }
{
    let mut i = 0u64;
    for item in items {
        add_at(alloc, tree, at, index_label(alloc, i), item)?;
        i += 1;
    }
    Ok(())
}

#[cycle(grow)]
fn add_members<R: TreeRep>(
    alloc: Global,
    tree: &mut R,
    at: &Path,
    members: &Map<String, Value>,
) -> Result<(), AllocError>
    requires { NeedsMembers child with_leaf CanPut at.now (members_view members.now.entries) (R.contents tree.old) }
    ensures { OnOk result (R.contents tree.new ≡ walk_members child with_leaf at.now (members_view members.now.entries) (R.contents tree.old)) }
{
    for (key, member) in members.iter() {
        add_at(alloc, tree, at, Label::copy_of(alloc, key.as_str()), member)?;
    }
    Ok(())
}
