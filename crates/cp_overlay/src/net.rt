//! The records of the step.
ghost use Rattle.std.specs.Prelude.{◌≡◌, ◌<◌, ◌≤◌, ◌++◌, ◌&&◌, length, IfOk, IfSome, IfNone, OnOk};
ghost use Rattle.std.specs.declared.option.Option.TheVariants.{Some};
ghost use Rattle.cp_path.specs.declared.limits.TheConstants.{LABELS_MAX};
ghost use Rattle.cp_model.specs.Place.{Path as PathValue, path_eq, child};
ghost use Rattle.cp_model.specs.Keyed.{look};
ghost use Rattle.cp_model.specs.Subtrees.{is_there};
ghost use Rattle.cp_model.specs.Step.{Working, contents};
ghost use Rattle.cp_model.specs.declared.record.RowMark.TheVariants.{Gone as D};
ghost use Rattle.std.specs.BTreeMap.{IsOrdered};
ghost use Rattle.cp_model.specs.Place.{path_cmp};
ghost use Rattle.cp_model.specs.Rows.{effect, reduced_mark, full_rows, reduced_rows};
ghost use Rattle.cp_model.specs.History.{rows_of, with_tid};
ghost use Rattle.cp_overlay.specs.Kept.{IsWorking, Stands};
ghost use Rattle.cp_overlay.specs.Seen.{seen};
ghost use Rattle.cp_overlay.specs.Net.{ChildrenNoted, LossesNoted, is_lost, is_short, is_topmost, is_within, mark_kept, noted, top_mark};

use crate::effect::{Tag, is_own};
use crate::lost::LostChild;
use crate::marks::{Marks, note, records};
use crate::origins::{joined, nearest_to};
use crate::overlay::Overlay;
use cp_model::{Kind, Origin, RowMark};
use cp_path::{LABELS_MAX, Label, LocRoom, Path, PathFault};
use cp_record::PackedRecords;
use cp_tree::TreeRep;
use std::alloc::{AllocError, Global};
use std::collections::BTreeMap;

impl Overlay {
    /// The records that a kind keeps of a step that led from the tree `before` to the tree `after`, by place. Full ones cost
    /// the places at and below those of which an origin is kept, the places that are lost, and a logarithm of all these for
    /// each. Reduced ones cost a look-up for each label of each origin and each lost child that is kept, whatever lies below
    /// them. Nothing else of the trees is walked.
    pub fn net<A: TreeRep, B: TreeRep>(
        &self,
        alloc: Global,
        before: &A,
        after: &B,
        kind: Kind,
        tid: u64,
    ) -> Result<PackedRecords, AllocError>
        ensures { (w : Working) → IsWorking w → Stands (seen self.now) (A.contents before.now) w → contents w ≡ B.contents after.now
            → IfOk result (λ rs. rs ≡ with_tid tid (rows_of kind (A.contents before.now) w)) }
    {
        let marks = match kind {
            Kind::N | Kind::T => self.full(alloc, before, after)?,
            Kind::H | Kind::HT => self.reduced(alloc, before, after)?,
        };
        records(alloc, tid, marks)
    }

    /// The full rows of the step.
    fn full<A: TreeRep, B: TreeRep>(
        &self,
        alloc: Global,
        before: &A,
        after: &B,
    ) -> Result<Marks, AllocError>
        ensures { (w : Working) → IsWorking w → Stands (seen self.now) (A.contents before.now) w → contents w ≡ B.contents after.now
            → IfOk result (λ m. IsOrdered path_cmp m → m.entries ≡ full_rows (A.contents before.now) w) }
    {
        let mut marks = BTreeMap::new(alloc);
        let mut room = LocRoom::new();
        self.note_changes(alloc, after, &mut room, &mut marks)?;
        self.note_losses(alloc, before, after, &mut room, &mut marks)?;
        Ok(marks)
    }

    /// The reduced rows of the step.
    fn reduced<A: TreeRep, B: TreeRep>(
        &self,
        alloc: Global,
        before: &A,
        after: &B,
    ) -> Result<Marks, AllocError>
        ensures { (w : Working) → IsWorking w → Stands (seen self.now) (A.contents before.now) w → contents w ≡ B.contents after.now
            → IfOk result (λ m. IsOrdered path_cmp m → m.entries ≡ reduced_rows (A.contents before.now) w) }
    {
        let mut marks = BTreeMap::new(alloc);
        let mut room = LocRoom::new();
        self.note_origins(alloc, &mut marks)?;
        self.note_lost(before, after, &mut room, &mut marks)?;
        Ok(marks)
    }

    /// Notes the row of each place of which an origin is kept; as no origin is kept that the place above gives anyway, each has
    /// one. After an error some of them are noted.
    fn note_origins(&self, alloc: Global, marks: &mut Marks) -> Result<(), AllocError>
        ensures { OnOk result ((r : PathValue) → look r marks.new.entries ≡ noted (is_short r) (top_mark (seen self.now) r) (look r marks.old.entries)) }
    {
        for (key, origin) in &self.origins {
            let Some(origin) = origin else {
                continue;
            };
            note_origin(alloc, key.as_slice(), origin, marks)?;
        }
        Ok(())
    }

    /// Notes the lost children whose parents are the same. After an error some of them are noted.
    fn note_lost<A: TreeRep, B: TreeRep>(
        &self,
        before: &A,
        after: &B,
        room: &mut LocRoom,
        marks: &mut Marks,
    ) -> Result<(), AllocError>
        ensures { OnOk result (ChildrenNoted (seen self.now) (A.contents before.now) (B.contents after.now) marks.old.entries marks.new.entries) }
    {
        for lost in &self.lost {
            self.note_lost_child(before, after, lost, room, marks)?;
        }
        Ok(())
    }

    /// Notes that a lost child is gone, if its parent is the same.
    fn note_lost_child<A: TreeRep, B: TreeRep>(
        &self,
        before: &A,
        after: &B,
        lost: &LostChild,
        room: &mut LocRoom,
        marks: &mut Marks,
    ) -> Result<(), AllocError>
        ensures { OnOk result ((r : PathValue) → look r marks.new.entries ≡ noted (is_lost (seen self.now) (B.contents after.now) lost.now.parent lost.now.label && (is_there (A.contents before.now) (child lost.now.parent lost.now.label) && path_eq r (child lost.now.parent lost.now.label))) (Some D) (look r marks.old.entries)) }
    {
        if self.is_lost(after, lost, room) {
            return note_child(before, lost, marks);
        }
        Ok(())
    }

    /// Notes the rows of the places that carry other data than before. After an error some of them are noted.
    fn note_changes<B: TreeRep>(
        &self,
        alloc: Global,
        after: &B,
        room: &mut LocRoom,
        marks: &mut Marks,
    ) -> Result<(), AllocError>
        ensures { OnOk result ((r : PathValue) → look r marks.new.entries ≡ noted (is_there (B.contents after.now) r) (mark_kept (seen self.now) r) (look r marks.old.entries)) }
    {
        for (key, _) in &self.origins {
            self.note_key(alloc, after, key.as_slice(), room, marks)?;
        }
        Ok(())
    }

    /// Notes the rows of the places at and below a key, if no origin is kept above it.
    fn note_key<B: TreeRep>(
        &self,
        alloc: Global,
        after: &B,
        key: &[Label],
        room: &mut LocRoom,
        marks: &mut Marks,
    ) -> Result<(), AllocError>
        ensures { OnOk result ((r : PathValue) → look r marks.new.entries ≡ noted (is_topmost (seen self.now).origins key.now && is_within (B.contents after.now) key.now r) (mark_kept (seen self.now) r) (look r marks.old.entries)) }
    {
        if !self.is_topmost(key) {
            return Ok(());
        }
        self.note_subtree(alloc, after, key, room, marks)
    }

    /// Whether no origin is kept above a place. Costs a look-up for each label.
    fn is_topmost(&self, key: &[Label]) -> bool
        ensures { result ≡ is_topmost (seen self.now).origins key.now }
    {
        match key.split_last() {
            Some((_, above)) => nearest_to(&self.origins, above).is_none(),
            None => true,
        }
    }

    /// Notes the rows of the places at and below one. Costs a look-up for each label of each of these. After an error some of
    /// them are noted.
    fn note_subtree<B: TreeRep>(
        &self,
        alloc: Global,
        after: &B,
        key: &[Label],
        room: &mut LocRoom,
        marks: &mut Marks,
    ) -> Result<(), AllocError>
        ensures { OnOk result ((r : PathValue) → look r marks.new.entries ≡ noted (is_within (B.contents after.now) key.now r) (mark_kept (seen self.now) r) (look r marks.old.entries)) }
    {
        let Some(top) = path_of(alloc, key)? else {
            return Ok(());
        };
        if !after.is_there(&top) {
            return Ok(());
        }
        let rows = after.rows(alloc, &top)?;
        for row in &rows.items {
            let place = place_of(&top, row.path.labels())?;
            self.note_change(alloc, place, room, marks)?;
        }
        Ok(())
    }

    /// Notes the row of a place, if it carries other data than before.
    fn note_change(
        &self,
        alloc: Global,
        place: Path,
        room: &mut LocRoom,
        marks: &mut Marks,
    ) -> Result<(), AllocError>
        ensures { OnOk result ((r : PathValue) → look r marks.new.entries ≡ noted (path_eq r place) (mark_kept (seen self.now) r) (look r marks.old.entries)) }
    {
        match self.effect_at(&place, room) {
            Tag::Same => Ok(()),
            Tag::New => note(marks, place, RowMark::Made),
            Tag::From => {
                let from = room.to_loc(alloc)?;
                note(marks, place, RowMark::Copied(from))
            }
        }
    }

    /// Notes the rows of the places that are gone below one that is the same. After an error some of them are noted.
    fn note_losses<A: TreeRep, B: TreeRep>(
        &self,
        alloc: Global,
        before: &A,
        after: &B,
        room: &mut LocRoom,
        marks: &mut Marks,
    ) -> Result<(), AllocError>
        ensures { OnOk result (LossesNoted (seen self.now) (A.contents before.now) (B.contents after.now) marks.old.entries marks.new.entries) }
    {
        for lost in &self.lost {
            self.note_loss(alloc, before, after, lost, room, marks)?;
        }
        Ok(())
    }

    /// Notes that a lost child and all places below it are gone, if the place that lost it is the same.
    fn note_loss<A: TreeRep, B: TreeRep>(
        &self,
        alloc: Global,
        before: &A,
        after: &B,
        lost: &LostChild,
        room: &mut LocRoom,
        marks: &mut Marks,
    ) -> Result<(), AllocError>
        ensures { OnOk result ((r : PathValue) → look r marks.new.entries ≡ noted (is_lost (seen self.now) (B.contents after.now) lost.now.parent lost.now.label && is_within (A.contents before.now) (child lost.now.parent lost.now.label) r) (Some D) (look r marks.old.entries)) }
    {
        if !self.is_lost(after, lost, room) {
            return Ok(());
        }
        note_gone(alloc, before, lost, marks)
    }

    /// Whether the parent of a lost child is the same, and the child isn't there.
    fn is_lost<B: TreeRep>(&self, after: &B, lost: &LostChild, room: &mut LocRoom) -> bool
        ensures { result ≡ is_lost (seen self.now) (B.contents after.now) lost.now.parent lost.now.label }
    {
        after.is_there(&lost.parent)
            && !after.has_child(&lost.parent, &lost.label)
            && self.effect_at(&lost.parent, room) == Tag::Same
    }
}

/// Notes the row of a place by the origin that is kept of it.
fn note_origin(
    alloc: Global,
    key: &[Label],
    origin: &Origin,
    marks: &mut Marks,
) -> Result<(), AllocError>
    ensures { OnOk result ((r : PathValue) → look r marks.new.entries ≡ noted (is_short r && path_eq r key.now) (Some (reduced_mark (effect key.now origin.now))) (look r marks.old.entries)) }
{
    let Some(place) = path_of(alloc, key)? else {
        return Ok(());
    };
    let mark = mark_of(key, origin)?;
    note(marks, place, mark)
}

/// The row of a place with such an origin; K where it is its own.
fn mark_of(key: &[Label], origin: &Origin) -> Result<RowMark, AllocError>
    ensures { IfOk result (λ m. m ≡ reduced_mark (effect key.now origin.now)) }
{
    match origin {
        Origin::New => Ok(RowMark::Made),
        Origin::Was(from) if is_own(from, key) => Ok(RowMark::Kept),
        Origin::Was(from) => Ok(RowMark::Copied(from.clone()?)),
    }
}

/// Notes that a child is gone, if it was there before.
fn note_child<A: TreeRep>(before: &A, lost: &LostChild, marks: &mut Marks) -> Result<(), AllocError>
    ensures { OnOk result ((r : PathValue) → look r marks.new.entries ≡ noted (is_there (A.contents before.now) (child lost.now.parent lost.now.label) && path_eq r (child lost.now.parent lost.now.label)) (Some D) (look r marks.old.entries)) }
{
    if !before.has_child(&lost.parent, &lost.label) {
        return Ok(());
    }
    let place = lost.parent.child(&lost.label)?;
    note(marks, place, RowMark::Gone)
}

/// Notes that a child and all places below it are gone. Costs a logarithm of the rows for each of these. After an error some
/// of them are noted.
fn note_gone<A: TreeRep>(
    alloc: Global,
    before: &A,
    lost: &LostChild,
    marks: &mut Marks,
) -> Result<(), AllocError>
    ensures { OnOk result ((r : PathValue) → look r marks.new.entries ≡ noted (is_within (A.contents before.now) (child lost.now.parent lost.now.label) r) (Some D) (look r marks.old.entries)) }
{
    if !before.has_child(&lost.parent, &lost.label) {
        return Ok(());
    }
    let top = lost.parent.child(&lost.label)?;
    let rows = before.rows(alloc, &top)?;
    for row in &rows.items {
        let place = place_of(&top, row.path.labels())?;
        note(marks, place, RowMark::Gone)?;
    }
    Ok(())
}

/// The path of these labels, or none where they are too many.
fn path_of(alloc: Global, labels: &[Label]) -> Result<Option<Path>, AllocError>
    ensures some { IfOk result (λ r. IfSome r (λ p. p ≡ labels.now)) }
    ensures none { IfOk result (λ r. IfNone r (LABELS_MAX < length labels.now)) }
{
    match Path::of(alloc, labels) {
        Ok(path) => Ok(Some(path)),
        Err(PathFault::Memory) => Err(AllocError),
        Err(_) => Ok(None),
    }
}

/// The place at these labels below another. Costs its bytes.
fn place_of(top: &Path, labels: &[Label]) -> Result<Path, AllocError>
    requires { length (top.now ++ labels.now) ≤ LABELS_MAX }
    ensures { IfOk result (λ p. p ≡ top.now ++ labels.now) }
{
    match joined(top, labels)? {
        Some(place) => Ok(place),
        None => unreachable!(),
    }
}
