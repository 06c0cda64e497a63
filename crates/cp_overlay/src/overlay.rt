//! What an overlay keeps, and how each operation changes it.
ghost use Rattle.std.specs.Prelude.{◌≡◌, ◌++◌, ◌∷◌, [], List, true, false, IfOk, IfSome, IfNone, OnOk, OnErr};
ghost use Rattle.std.specs.declared.option.Option.TheVariants.{None, Some};
ghost use Rattle.cp_model.specs.Place.{Path as PathValue, Label as LabelValue, at_target, in_target, child};
ghost use Rattle.cp_model.specs.Subtrees.{is_there};
ghost use Rattle.cp_model.specs.Tree.{Tree, Source};
ghost use Rattle.cp_model.specs.Step.{open_tree};
ghost use Rattle.cp_model.specs.declared.literal.Literal.{Literal};
ghost use Rattle.cp_model.specs.declared.op.Op.TheVariants.{Ins, Del, Copy};
ghost use Rattle.cp_model.specs.declared.origin.Origin.TheVariants.{Was as was};
ghost use Rattle.cp_overlay.specs.Kept.{Fits, Stands, Follows, IsSparse, carry, origin_at};
ghost use Rattle.cp_overlay.specs.Lost.{lost_in};
ghost use Rattle.cp_overlay.specs.Shown.{kept, shown, run};

use crate::lost::{LostChild, LostChildren, keep};
use crate::origins::{
    Origins, Row, carried, entries_below, joined, keys_below, nearest_to, remove_all, replace,
    settle,
};
use cp_model::Origin;
use cp_path::{Label, Loc, Name, Path};
use cp_tree::TreeRep;
use std::alloc::{AllocError, Global};
use std::collections::{BTreeMap, BTreeSet};

/// The net effect of an open step: where the data of each place stood when the step began.
///
/// Origins are kept sparsely, of places that carry other data than the place above them gives; what an operation replaces
/// is given up. Of deletions the children are kept that they took from a place whose data stood in the tree before the
/// step, by where it stood, so that they are the same wherever that data comes to stand.
#[derive(Drop)]
pub struct Overlay {
    pub(crate) origins: Origins,
    pub(crate) lost: LostChildren,
    ghost sparse: { IsSparse (kept origins) },
}

impl Overlay {
    ghost use Rattle.cp_overlay.specs.Seen.{seen};

    /// That of a step that has done nothing yet.
    pub fn new(alloc: Global) -> Overlay
        ensures { (t : Tree) → Stands (seen result) t (open_tree t) }
    {
        Overlay {
            origins: BTreeMap::new(alloc),
            lost: BTreeSet::new(alloc),
        }
    }

    /// Follows the insertion of any tree at the label below the place. Costs the origins that are kept there. After an
    /// error nothing has changed.
    pub fn ins(&mut self, alloc: Global, place: &Path, label: &Label) -> Result<(), AllocError>
        ensures ok { OnOk result ((ss : List Source) (t : Tree) (l : Literal) → Follows ss t (seen self.old) (seen self.new) (Ins (at_target place.now) label.now l)) }
        ensures err { OnErr result (seen self.new ≡ seen self.old) }
    {
        let key = child_key(alloc, place, label)?;
        let rows = alone(alloc, Origin::New)?;
        replace(alloc, &mut self.origins, key.as_slice(), rows)?;
        settle(&mut self.origins, key.as_slice());
        Ok(())
    }

    /// Follows the deletion of the label below the place, in a step that began on the tree `before`. Costs the origins that
    /// are kept there. After an error nothing has changed.
    pub fn del<R: TreeRep>(
        &mut self,
        alloc: Global,
        before: &R,
        place: &Path,
        label: &Label,
    ) -> Result<(), AllocError>
        ensures ok { OnOk result ((ss : List Source) → Follows ss (R.contents before.now) (seen self.old) (seen self.new) (Del label.now (at_target place.now))) }
        ensures err { OnErr result (seen self.new ≡ seen self.old) }
    {
        let key = child_key(alloc, place, label)?;
        let stale = keys_below(alloc, &self.origins, key.as_slice())?;
        let parent = self.stood_at(place)?;
        lose(&mut self.lost, before, parent, label)?;
        remove_all(&mut self.origins, stale.as_slice());
        Ok(())
    }

    /// Follows the copy of the place `from` of T onto the place `into`. Costs the origins that are kept at and below both.
    /// After an error nothing has changed, and so where the origin of `from` would have too many labels: then the copy isn't
    /// accepted.
    pub fn copy_within(&mut self, alloc: Global, from: &Path, into: &Path) -> Result<(), AllocError>
        ensures ok { OnOk result ((ss : List Source) (t : Tree) → Follows ss t (seen self.old) (seen self.new) (Copy (at_target from.now) (at_target into.now))) }
        ensures err { OnErr result (seen self.new ≡ seen self.old) }
    {
        let Some(origin) = self.origin_of(alloc, from)? else {
            return Ok(());
        };
        let rows = rows_to_copy(alloc, &self.origins, from.labels(), origin)?;
        replace(alloc, &mut self.origins, into.labels(), rows)?;
        settle(&mut self.origins, into.labels());
        Ok(())
    }

    /// Follows the copy of a place of a source onto the place `into`. Costs the origins that are kept there. After an error
    /// nothing has changed.
    pub fn copy_from(&mut self, alloc: Global, from: &Loc, into: &Path) -> Result<(), AllocError>
        ensures ok { OnOk result ((ss : List Source) (t : Tree) → in_target from.now ≡ false → Follows ss t (seen self.old) (seen self.new) (Copy from.now (at_target into.now))) }
        ensures err { OnErr result (seen self.new ≡ seen self.old) }
    {
        let rows = alone(alloc, Origin::Was(from.clone()?))?;
        replace(alloc, &mut self.origins, into.labels(), rows)?;
        settle(&mut self.origins, into.labels());
        Ok(())
    }

    /// The origin of a place, or none where it would have too many labels. Costs a look-up for each label.
    fn origin_of(&self, alloc: Global, place: &Path) -> Result<Option<Origin>, AllocError>
        ensures some { IfOk result (λ r. IfSome r (λ o. o ≡ origin_at (seen self.now).origins place.now)) }
        ensures none { IfOk result (λ r. IfNone r (Fits (origin_at (seen self.now).origins place.now) → ⊥)) }
    {
        let all = place.labels();
        match nearest_to(&self.origins, all) {
            None => {
                let db = Name::target(alloc)?;
                let path = place.clone()?;
                Ok(Some(Origin::Was(Loc { db, path })))
            }
            Some((origin, count)) => carry(origin, &all[count..]),
        }
    }

    /// The place of T at which the data of a place stood when the step began, if it stood in T. Costs as `origin_of`.
    fn stood_at(&self, place: &Path) -> Result<Option<Path>, AllocError>
        ensures { IfOk result (λ r. (q : PathValue) → Fits (origin_at (seen self.now).origins place.now) → origin_at (seen self.now).origins place.now ≡ was (at_target q) → r ≡ Some q) }
    {
        let all = place.labels();
        match nearest_to(&self.origins, all) {
            None => Ok(Some(place.clone()?)),
            Some((origin, count)) => in_tree(origin, &all[count..]),
        }
    }
}

/// An origin, carried down these labels, or none where it would have too many. Costs its size.
fn carry(origin: &Origin, labels: &[Label]) -> Result<Option<Origin>, AllocError>
    ensures some { IfOk result (λ r. IfSome r (λ o. o ≡ carry origin.now labels.now)) }
    ensures none { IfOk result (λ r. IfNone r (Fits (carry origin.now labels.now) → ⊥)) }
{
    match origin {
        Origin::New => Ok(Some(Origin::New)),
        Origin::Was(from) => match carried(from, labels)? {
            Some(place) => Ok(Some(Origin::Was(place))),
            None => Ok(None),
        },
    }
}

/// The place of T that an origin, carried down these labels, is, if it is one. Costs its size.
fn in_tree(origin: &Origin, labels: &[Label]) -> Result<Option<Path>, AllocError>
    ensures { IfOk result (λ r. (q : PathValue) → Fits (carry origin.now labels.now) → carry origin.now labels.now ≡ was (at_target q) → r ≡ Some q) }
{
    match origin {
        Origin::New => Ok(None),
        Origin::Was(from) => {
            if !from.db.is_target() {
                return Ok(None);
            }
            joined(&from.path, labels)
        }
    }
}

/// Keeps the label below a place of the tree before the step as lost, if there is such a place and it has that child. After
/// an error those that are kept are as they were.
fn lose<R: TreeRep>(
    lost: &mut LostChildren,
    before: &R,
    parent: Option<Path>,
    label: &Label,
) -> Result<(), AllocError>
    ensures ok { OnOk result ((q : PathValue) → parent ≡ Some q → is_there (R.contents before.now) (child q label.now) ≡ true → lost_in lost.new q label.now ≡ true) }
    ensures grows { (q : PathValue) (l : LabelValue) → lost_in lost.old q l ≡ true → lost_in lost.new q l ≡ true }
    ensures err { OnErr result ((q : PathValue) (l : LabelValue) → lost_in lost.new q l ≡ lost_in lost.old q l) }
{
    let Some(parent) = parent else {
        return Ok(());
    };
    if !before.has_child(&parent, label) {
        return Ok(());
    }
    let label = label.clone()?;
    keep(lost, LostChild { parent, label })
}

/// The key of the place one label further down.
fn child_key(alloc: Global, place: &Path, label: &Label) -> Result<Vec<Label>, AllocError>
    ensures { IfOk result (λ v. v.items ≡ child place.now label.now) }
{
    let mut key = place.labels().to_vec(alloc)?;
    key.push(label.clone()?)?;
    Ok(key)
}

/// One row, at the place itself.
fn alone(alloc: Global, origin: Origin) -> Result<Vec<Row>, AllocError>
    ensures { IfOk result (λ v. shown v.items ≡ ([], Some origin) ∷ []) }
{
    let mut rows = Vec::with_capacity(alloc, 1)?;
    rows.push((Vec::new(alloc), Some(origin)))?;
    Ok(rows)
}

/// The rows that a copy of a place takes along: its origin, and those that are kept at and below it behind that.
fn rows_to_copy(
    alloc: Global,
    map: &Origins,
    place: &[Label],
    origin: Origin,
) -> Result<Vec<Row>, AllocError>
    ensures { IfOk result (λ v. shown v.items ≡ ([], Some origin) ∷ run place.now map.now.entries) }
{
    let mut rows = alone(alloc, origin)?;
    let below = entries_below(alloc, map, place)?;
    join(&mut rows, below)?;
    Ok(rows)
}

/// The rows, and those of another list behind them.
fn join(rows: &mut Vec<Row>, more: Vec<Row>) -> Result<(), AllocError>
    ensures { OnOk result (rows.new.items ≡ rows.old.items ++ more.items) }
{
    let mut more = more;
    rows.append(&mut more)
}
