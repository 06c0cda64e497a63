ghost use Rattle.std.specs.Prelude.{◌≡◌, ◌≤◌, ◌<◌, ◌↔◌, ◌⊎◌, ◌+◌, ◌*◌, [], length, sum_by, true, IfOk, IfErr, IsTrue};
ghost use Rattle.std.specs.Option.{unwrap_or};
ghost use Rattle.cp_path.specs.Place.{size, child_place, lies_below, at_target, parent_place, moved_place, below_place, strip};

use crate::fault::PathFault;
use crate::label::Label;
use crate::limits::{LABEL_MAX, LABELS_MAX, LOC_MAX, NAME_MAX};
use crate::name::Name;
use crate::path::Path;
use std::alloc::{AllocError, Global};

/// A place of a database. Places are ordered by name, then label by label, and a place comes before those below it.
#[derive(Clone, PartialEq, Eq, PartialOrd, Ord, Drop)]
pub struct Loc {
    pub db: Name,
    pub path: Path,
}

impl Loc {
    /// The root of the database that curators change.
    pub fn target(alloc: Global) -> Result<Loc, AllocError>
        ensures { IfOk result (λ q. q ≡ at_target []) }
    {
        Ok(Loc {
            db: Name::target(alloc)?,
            path: Path::root(alloc),
        })
    }

    /// Whether two places are the same. Costs the shorter one's size.
    pub fn is_at(&self, other: &Loc) -> bool
        ensures { IsTrue result ↔ (self.now ≡ other.now) }
    {
        self == other
    }

    /// The bytes of the name, plus 1 plus its bytes for each label. Costs the number of labels.
    pub fn size(&self) -> u32
        ensures size { result ≡ size self.now }
        ensures bound { size self.now ≤ NAME_MAX + LABELS_MAX * (LABEL_MAX + 1) }
    {
        let mut total = self.db.as_str().len() as u32;
        for label in self.path.labels() {
            total += label.as_str().len() as u32 + 1;
        }
        total
    }

    /// The place one label further down. `TooDeep` goes before `PathTooLong`. Costs the place's size.
    pub fn join(&self, a: &Label) -> Result<Loc, PathFault>
        ensures value { IfOk result (λ q. q ≡ child_place self.now a.now) }
        ensures deep { (result ≡ Err PathFault.TooDeep) ↔ (length self.now.path ≡ LABELS_MAX) }
        ensures long { (result ≡ Err PathFault.PathTooLong) ↔ ((length self.now.path < LABELS_MAX) × (LOC_MAX < size self.now + (length a.now + 1))) }
        ensures faults { IfErr result (λ e. (e ≡ PathFault.TooDeep) ⊎ (e ≡ PathFault.PathTooLong) ⊎ (e ≡ PathFault.Memory)) }
    {
        if self.path.labels().len() >= LABELS_MAX {
            return Err(PathFault::TooDeep);
        }
        let longer = self.size() + (a.as_str().len() as u32 + 1);
        if longer > LOC_MAX as u32 {
            return Err(PathFault::PathTooLong);
        }
        let db = self.db.clone()?;
        let path = self.path.child(a)?;
        Ok(Loc { db, path })
    }

    /// Whether this place lies at or below the other. Costs the other's size.
    #[tactic(auto, using(crate::proofs::Relating::starts_with_lists))]
    pub fn starts_with(&self, other: &Loc) -> bool
        ensures { result ≡ lies_below self.now other.now }
    {
        self.db == other.db && self.path.labels().starts_with(other.path.labels())
    }

    /// The place without its last label, or none at a root. Costs the place's size.
    #[tactic(auto, using(crate::proofs::Relating::parent_last))]
    pub fn parent(&self) -> Result<Option<Loc>, AllocError>
        ensures { IfOk result (λ place. place ≡ parent_place self.now) }
    {
        let mut path = self.path.clone()?;
        match path.pop() {
            None => Ok(None),
            Some(_) => {
                let db = self.db.clone()?;
                Ok(Some(Loc { db, path }))
            }
        }
    }

    /// The place that this one becomes where `old`, at or above it, becomes `to`. `TooDeep` goes before
    /// `PathTooLong`. Costs the sizes of the three.
    pub fn rebase(&self, old: &Loc, to: &Loc) -> Result<Loc, PathFault>
        requires { lies_below self.now old.now ≡ true }
        ensures value { IfOk result (λ q. q ≡ moved_place self.now old.now to.now) }
        ensures deep { (result ≡ Err PathFault.TooDeep) ↔ (LABELS_MAX < length (moved_place self.now old.now to.now).path) }
        ensures long { (result ≡ Err PathFault.PathTooLong) ↔ ((length (moved_place self.now old.now to.now).path ≤ LABELS_MAX) × (LOC_MAX < size (moved_place self.now old.now to.now))) }
        ensures faults { IfErr result (λ e. (e ≡ PathFault.TooDeep) ⊎ (e ≡ PathFault.PathTooLong) ⊎ (e ≡ PathFault.Memory)) }
    {
        to.below(self.after(old))
    }

    /// The labels that follow those of `old`.
    #[tactic(auto, using(crate::proofs::Relating::starts_with_length, crate::proofs::Relating::below_starts, crate::proofs::Relating::strip_drop))]
    fn after<'a>(&'a self, old: &Loc) -> &'a [Label]
        requires { lies_below self.now old.now ≡ true }
        ensures { result.now ≡ unwrap_or (strip old.now.path self.now.path) [] }
    {
        self.path.labels().split_at(old.path.labels().len()).1
    }

    /// The place below this one at these labels.
    #[tactic(auto, using(crate::proofs::Relating::size_below, std::proofs::lemmas::Grind::common_steps))]
    fn below(&self, labels: &[Label]) -> Result<Loc, PathFault>
        ensures value { IfOk result (λ q. q ≡ below_place self.now labels.now) }
        ensures deep { (result ≡ Err PathFault.TooDeep) ↔ (LABELS_MAX < length (below_place self.now labels.now).path) }
        ensures long { (result ≡ Err PathFault.PathTooLong) ↔ ((length (below_place self.now labels.now).path ≤ LABELS_MAX) × (LOC_MAX < size (below_place self.now labels.now))) }
        ensures faults { IfErr result (λ e. (e ≡ PathFault.TooDeep) ⊎ (e ≡ PathFault.PathTooLong) ⊎ (e ≡ PathFault.Memory)) }
    {
        if labels.len() > LABELS_MAX - self.path.labels().len() {
            return Err(PathFault::TooDeep);
        }
        if self.size() + bytes_of(labels) > LOC_MAX as u32 {
            return Err(PathFault::PathTooLong);
        }
        let db = self.db.clone()?;
        let path = self.path.joined(labels)?;
        Ok(Loc { db, path })
    }
}

/// What these labels add to a place's size.
fn bytes_of(labels: &[Label]) -> u32
    requires { length labels.now ≤ LABELS_MAX }
    ensures bytes { result ≡ sum_by (λ a. length a + 1) labels.now }
    ensures bound { result ≤ LABELS_MAX * (LABEL_MAX + 1) }
{
    let mut total = 0;
    for label in labels {
        total += label.as_str().len() as u32 + 1;
    }
    total
}
