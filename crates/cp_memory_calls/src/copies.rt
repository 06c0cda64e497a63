//! Trees made of texts, copied from form to form, and compared.
ghost use Rattle.std.specs.Prelude.{◌≡◌, IfOk};

use cp_model::Content;
use cp_path::{Label, Name, Path};
use cp_sources::{tree_of_csv, tree_of_json};
use cp_tree::{TreeRep, graft};
use std::alloc::{AllocError, Global};

/// How many trees were compared, and how many were the same.
#[derive(Clone, Copy)]
pub(crate) struct Tally {
    pub(crate) same: u32,
    pub(crate) all: u32,
}

impl Tally {
    /// Counts one more.
    pub(crate) fn note(&mut self, same: bool) {
        self.same = self.same.saturating_add(u32::from(same));
        self.all = self.all.saturating_add(1);
    }
}

/// Makes the tree of a JSON text, and that of an empty object where it is refused.
pub(crate) fn from_text<R: TreeRep>(alloc: Global, text: &str) -> Result<R, AllocError> {
    let name = Name::target(alloc)?;
    match tree_of_json::<R>(alloc, &name, text.as_bytes()) {
        Ok(tree) => Ok(tree),
        Err(_) => R::single(alloc, &Content::Node),
    }
}

/// Counts the places of the tree of a CSV text with this key column, `None` where it is refused.
pub(crate) fn count_in<R: TreeRep>(
    alloc: Global,
    text: &[u8],
    key: &Label,
) -> Result<Option<u32>, AllocError> {
    let name = Name::target(alloc)?;
    match tree_of_csv::<R>(alloc, &name, text, Some(key)) {
        Ok(tree) => Ok(Some(tree.count())),
        Err(_) => Ok(None),
    }
}

/// Copies a tree into another form.
pub(crate) fn moved<R: TreeRep, O: TreeRep>(alloc: Global, tree: &O) -> Result<R, AllocError>
    ensures { IfOk result (λ t. R.contents t ≡ O.contents tree.now) }
{
    let top = Path::root(alloc);
    let mut copy = R::single(alloc, &Content::Node)?;
    graft(alloc, &mut copy, tree, &top, &top)?;
    Ok(copy)
}

/// Says whether the trees have the same rows.
fn have_same_rows<R: TreeRep, O: TreeRep>(
    alloc: Global,
    tree: &R,
    other: &O,
) -> Result<bool, AllocError> {
    let root = Path::root(alloc);
    let rows = tree.rows(alloc, &root)?;
    let others = other.rows(alloc, &root)?;
    Ok(rows.items == others.items)
}

/// Says whether the trees have the same count, weight and reach.
fn have_same_sums<R: TreeRep, O: TreeRep>(alloc: Global, tree: &R, other: &O) -> bool {
    let root = Path::root(alloc);
    tree.count() == other.count()
        && tree.weight() == other.weight()
        && tree.reach(&root) == other.reach(&root)
}

/// Says whether the trees have the same rows, count, weight and reach.
pub(crate) fn are_same<R: TreeRep, O: TreeRep>(
    alloc: Global,
    tree: &R,
    other: &O,
) -> Result<bool, AllocError> {
    Ok(have_same_rows(alloc, tree, other)? && have_same_sums(alloc, tree, other))
}

/// Copies a tree so many times, drops each copy, and counts the places of all.
pub(crate) fn copy_often<R: TreeRep>(
    alloc: Global,
    tree: &R,
    times: u64,
) -> Result<u64, AllocError> {
    let mut places = 0u64;
    for _ in 0..times {
        let copy = tree.copy(alloc)?;
        places = places.saturating_add(u64::from(copy.count()));
    }
    Ok(places)
}
