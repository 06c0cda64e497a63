//! The trait of the representations.
ghost use Rattle.std.specs.Prelude.{◌≡◌, ◌≤◌, true, false, IsTrue, List, map, length, IfOk, OnOk, OnErr};
ghost use Rattle.std.specs.declared.option.Option.TheVariants.{None, Some};
ghost use Rattle.cp_model.specs.Place.{child};
ghost use Rattle.cp_model.specs.Keyed.{get, len};
ghost use Rattle.cp_model.specs.Subtrees.{below, without, with_subtree, is_there};
ghost use Rattle.cp_model.specs.Tree.{Tree, IsTree, is_node, weight, text_bytes};
ghost use Rattle.cp_model.specs.History.{IsLiteral};
ghost use Rattle.cp_model.specs.declared.row.Content.TheVariants.{Node};
ghost use Rattle.cp_tree.specs.Rows.{entry_row, entries_in, root_entries, single, labels_at, reach_at};

use crate::reach::Reach;
use cp_model::{Content, Row, RowList};
use cp_path::{Label, Path, TEXT_MAX};
use std::alloc::{AllocError, Global};

/// A tree within every limit, seen as a finite map from paths to contents.
///
/// A call that allocates fails only where memory runs out; a change that fails leaves the tree as it was.
pub trait TreeRep: Drop {
    /// What stands at each place.
    ghost contents: { Self → Tree };

    /// Makes the tree of a root alone.
    fn single(alloc: Global, content: &Content) -> Result<Self, AllocError>
        requires text { text_bytes content.now ≤ TEXT_MAX }
        ensures { IfOk result (λ t. contents t ≡ single content.now) };

    /// Says whether something stands at the place.
    fn is_there(&self, place: &Path) -> bool
        ensures { result ≡ is_there (contents self.now) place.now };

    /// Says whether a node stands at the place.
    fn is_node(&self, place: &Path) -> bool
        ensures { result ≡ is_node (get (contents self.now) place.now) };

    /// Says whether something stands at the label below the place.
    fn has_child(&self, place: &Path, label: &Label) -> bool
        ensures { result ≡ is_there (contents self.now) (child place.now label.now) };

    /// Copies what stands at the place, `None` where nothing does.
    fn content_at(&self, alloc: Global, place: &Path) -> Result<Option<Content>, AllocError>
        ensures { IfOk result (λ c. c ≡ get (contents self.now) place.now) };

    /// Lists the labels below a node, in order.
    fn labels_of(&self, alloc: Global, place: &Path) -> Result<Vec<Label>, AllocError>
        requires node { get (contents self.now) place.now ≡ Some Node }
        ensures { IfOk result (λ v. v.items ≡ labels_at (contents self.now) place.now) };

    /// Measures how far the subtree at the place reaches.
    fn reach(&self, place: &Path) -> Reach
        requires there { is_there (contents self.now) place.now ≡ true }
        ensures { result ≡ reach_at (contents self.now) place.now };

    /// Says whether what stands at the two places is known to be the same, as after a copy of one to the other. `false` says
    /// nothing: a form may leave it at that. Takes no memory, and costs at most the places of one of the two.
    fn are_known_equal(&self, place: &Path, other: &Path) -> bool
        ensures { IsTrue result → below place.now (contents self.now) ≡ below other.now (contents self.now) };

    /// Adds a place without children below a node.
    fn insert_leaf(
        &mut self,
        alloc: Global,
        place: &Path,
        label: &Label,
        content: &Content,
    ) -> Result<(), AllocError>
        requires node { get (contents self.old) place.now ≡ Some Node }
        requires free { is_there (contents self.old) (child place.now label.now) ≡ false }
        requires fits { IsTree (with_subtree (child place.now label.now) (root_entries content.now) (contents self.old)) }
        ensures ok { OnOk result (contents self.new ≡ with_subtree (child place.now label.now) (root_entries content.now) (contents self.old)) }
        ensures err { OnErr result (contents self.new ≡ contents self.old) };

    /// Adds a whole tree below a node, given as its rows in order of places, from its root.
    fn insert_rows(
        &mut self,
        alloc: Global,
        place: &Path,
        label: &Label,
        rows: &[Row],
    ) -> Result<(), AllocError>
        requires node { get (contents self.old) place.now ≡ Some Node }
        requires free { is_there (contents self.old) (child place.now label.now) ≡ false }
        requires rows { IsLiteral (entries_in rows.now) }
        requires fits { IsTree (with_subtree (child place.now label.now) (entries_in rows.now) (contents self.old)) }
        ensures ok { OnOk result (contents self.new ≡ with_subtree (child place.now label.now) (entries_in rows.now) (contents self.old)) }
        ensures err { OnErr result (contents self.new ≡ contents self.old) };

    /// Takes out what stands at the label below the place, and all below it.
    fn remove(&mut self, alloc: Global, place: &Path, label: &Label) -> Result<(), AllocError>
        requires there { is_there (contents self.old) (child place.now label.now) ≡ true }
        ensures ok { OnOk result (contents self.new ≡ without (child place.now label.now) (contents self.old)) }
        ensures err { OnErr result (contents self.new ≡ contents self.old) };

    /// Replaces the subtree at the place by the tree of these rows, which come in order of places, from their root.
    fn put_rows(&mut self, alloc: Global, place: &Path, rows: &[Row]) -> Result<(), AllocError>
        requires there { is_there (contents self.old) place.now ≡ true }
        requires rows { IsLiteral (entries_in rows.now) }
        requires fits { IsTree (with_subtree place.now (entries_in rows.now) (contents self.old)) }
        ensures ok { OnOk result (contents self.new ≡ with_subtree place.now (entries_in rows.now) (contents self.old)) }
        ensures err { OnErr result (contents self.new ≡ contents self.old) };

    /// Replaces the subtree at `place` by a copy of the one at `from` as it was before. One may lie inside the other.
    fn copy_inside(&mut self, alloc: Global, from: &Path, place: &Path) -> Result<(), AllocError>
        requires from { is_there (contents self.old) from.now ≡ true }
        requires there { is_there (contents self.old) place.now ≡ true }
        requires fits { IsTree (with_subtree place.now (below from.now (contents self.old)) (contents self.old)) }
        ensures ok { OnOk result (contents self.new ≡ with_subtree place.now (below from.now (contents self.old)) (contents self.old)) }
        ensures err { OnErr result (contents self.new ≡ contents self.old) };

    /// Lists the rows of the subtree at the place, in order, with their paths taken from the place on.
    fn rows(&self, alloc: Global, place: &Path) -> Result<RowList, AllocError>
        requires there { is_there (contents self.now) place.now ≡ true }
        ensures { IfOk result (λ v. v ≡ map entry_row (below place.now (contents self.now))) };

    /// Counts the places, the root among them.
    fn count(&self) -> u32
        ensures { result ≡ len (contents self.now) };

    /// Weighs the tree: `PLACE_WEIGHT` for each place, with the bytes of its last label and of its text.
    fn weight(&self) -> u64
        ensures { result ≡ weight (contents self.now) };

    /// Makes an equal tree.
    fn copy(&self, alloc: Global) -> Result<Self, AllocError>
        ensures { IfOk result (λ t. contents t ≡ contents self.now) };

    /// Every tree is within the limits.
    ghost is_tree: { (t : Self) → IsTree (contents t) };
}
