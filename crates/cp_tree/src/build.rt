//! Whole subtrees put into a tree, for every representation.
ghost use Rattle.std.specs.Prelude.{◌≡◌, true, false, OnOk, OnErr};
ghost use Rattle.std.specs.declared.option.Option.TheVariants.{Some};
ghost use Rattle.cp_model.specs.Place.{child};
ghost use Rattle.cp_model.specs.Keyed.{get};
ghost use Rattle.cp_model.specs.Subtrees.{below, with_subtree, is_there};
ghost use Rattle.cp_model.specs.Tree.{IsTree};
ghost use Rattle.cp_model.specs.Literals.{literal_rows};
ghost use Rattle.cp_model.specs.History.{IsLiteral};
ghost use Rattle.cp_model.specs.declared.row.Content.TheVariants.{Node};

use crate::listing::list_tree;
use crate::rep::TreeRep;
use cp_model::Literal;
use cp_path::{Label, Path};
use std::alloc::{AllocError, Global};

/// Puts the subtree of `other` at `from` in the place of that of `tree` at `place`. Costs the two subtrees.
pub fn graft<R: TreeRep, O: TreeRep>(
    alloc: Global,
    tree: &mut R,
    other: &O,
    from: &Path,
    place: &Path,
) -> Result<(), AllocError>
    requires from { is_there (O.contents other.now) from.now ≡ true }
    requires there { is_there (R.contents tree.old) place.now ≡ true }
    requires fits { IsTree (with_subtree place.now (below from.now (O.contents other.now)) (R.contents tree.old)) }
    ensures ok { OnOk result (R.contents tree.new ≡ with_subtree place.now (below from.now (O.contents other.now)) (R.contents tree.old)) }
    ensures err { OnErr result (R.contents tree.new ≡ R.contents tree.old) }
{
    let rows = other.rows(alloc, from)?;
    tree.put_rows(alloc, place, rows.items.as_slice())
}

/// Adds a literal tree at the label below a node. Costs the literal's places and their paths.
pub fn insert_tree<R: TreeRep>(
    alloc: Global,
    tree: &mut R,
    place: &Path,
    label: &Label,
    literal: &Literal,
) -> Result<(), AllocError>
    requires node { get (R.contents tree.old) place.now ≡ Some Node }
    requires free { is_there (R.contents tree.old) (child place.now label.now) ≡ false }
    requires literal { IsLiteral (literal_rows literal.now) }
    requires fits { IsTree (with_subtree (child place.now label.now) (literal_rows literal.now) (R.contents tree.old)) }
    ensures ok { OnOk result (R.contents tree.new ≡ with_subtree (child place.now label.now) (literal_rows literal.now) (R.contents tree.old)) }
    ensures err { OnErr result (R.contents tree.new ≡ R.contents tree.old) }
{
    let mut rows = Vec::new(alloc);
    list_tree(Path::root(alloc), literal, &mut rows)?;
    tree.insert_rows(alloc, place, label, rows.as_slice())
}
