//! The children that are lost.
ghost use Rattle.std.specs.Prelude.{◌≡◌, ◌&&◌, ◌||◌, OnOk, OnErr};
ghost use Rattle.cp_model.specs.Place.{Path, Label as LabelValue, path_eq, label_eq};
ghost use Rattle.cp_overlay.specs.Lost.{lost_in};

use cp_path::{Label, Path};
use std::alloc::AllocError;
use std::collections::BTreeSet;

/// A child that a deletion took: the place of the tree before the step whose data had it, and its label.
#[derive(PartialEq, Eq, PartialOrd, Ord, Drop)]
pub(crate) struct LostChild {
    pub(crate) parent: Path,
    pub(crate) label: Label,
}

/// Lost children in the order of their parents, and then of their labels.
pub(crate) type LostChildren = BTreeSet<LostChild>;

/// Keeps a child as lost. After an error those that are kept are as they were.
pub(crate) fn keep(set: &mut LostChildren, child: LostChild) -> Result<(), AllocError>
    ensures ok { OnOk result ((q : Path) (l : LabelValue) → lost_in set.new q l ≡ ((path_eq q child.parent && label_eq l child.label) || lost_in set.old q l)) }
    ensures err { OnErr result ((q : Path) (l : LabelValue) → lost_in set.new q l ≡ lost_in set.old q l) }
{
    set.insert(child)?;
    Ok(())
}
