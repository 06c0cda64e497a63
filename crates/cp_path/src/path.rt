ghost use Rattle.std.specs.Prelude.{◌≡◌, ◌≤◌, ◌<◌, ◌+◌, ◌↔◌, ◌⊎◌, ℕ, List, [], ◌∷◌, ◌++◌, length, IfOk, IfErr, IfNone, OnOk, OnErr};
ghost use Rattle.std.specs.declared.option.Option.TheVariants.{Some};
ghost use Rattle.std.specs.Option.{option_to_list};

use crate::fault::PathFault;
use crate::label::Label;
use crate::limits::LABELS_MAX;
use std::alloc::{AllocError, Global};
use std::cmp::Ordering;
use std::marker::Model;

/// The labels from a root down to a place, at most [`LABELS_MAX`].
#[derive(Drop)]
pub struct Path {
    labels: Vec<Label>,
}

impl Model for Path {
    ghost use Rattle.cp_path.specs.declared.limits.TheConstants.{LABELS_MAX};
    ghost use Rattle.std.specs.Prelude.{ℕ, ◌≤◌, List, length};

    ghost Value = { List (List ℕ) };

    ghost view = { λ a. a.labels.items };

    ghost invariant = { λ a. length a.labels.items ≤ LABELS_MAX };
}

impl Path {
    /// The path of a root, which has no label.
    pub fn root(alloc: Global) -> Path
        ensures { result ≡ [] }
    {
        Path {
            labels: Vec::new(alloc),
        }
    }

    /// The path of these labels. Costs their bytes.
    pub fn of(alloc: Global, labels: &[Label]) -> Result<Path, PathFault>
        ensures value { IfOk result (λ p. p ≡ labels.now) }
        ensures deep { (result ≡ Err PathFault.TooDeep) ↔ (LABELS_MAX < length labels.now) }
        ensures faults { IfErr result (λ e. (e ≡ PathFault.TooDeep) ⊎ (e ≡ PathFault.Memory)) }
    {
        if labels.len() > LABELS_MAX {
            return Err(PathFault::TooDeep);
        }
        Ok(Path {
            labels: labels.to_vec(alloc)?,
        })
    }

    pub fn labels(&self) -> &[Label]
        ensures labels { result.now ≡ self.now }
        ensures few { length self.now ≤ LABELS_MAX }
    {
        self.labels.as_slice()
    }

    /// Goes one label further down. After an error the path is as it was.
    pub fn push(&mut self, a: Label) -> Result<(), PathFault>
        ensures ok { OnOk result (self.new ≡ self.old ++ a ∷ []) }
        ensures err { OnErr result (self.new ≡ self.old) }
        ensures deep { (result ≡ Err PathFault.TooDeep) ↔ (length self.old ≡ LABELS_MAX) }
        ensures faults { IfErr result (λ e. (e ≡ PathFault.TooDeep) ⊎ (e ≡ PathFault.Memory)) }
    {
        if self.labels.len() >= LABELS_MAX {
            return Err(PathFault::TooDeep);
        }
        self.labels.push(a)?;
        Ok(())
    }

    /// The path one label further down. Costs its bytes.
    pub fn child(&self, a: &Label) -> Result<Path, AllocError>
        requires room { length self.now < LABELS_MAX }
        ensures { IfOk result (λ p. p ≡ self.now ++ a.now ∷ []) }
    {
        let Path { mut labels } = self.clone()?;
        labels.push(a.clone()?)?;
        Ok(Path { labels })
    }

    /// These labels, and below them those. Costs their bytes.
    #[tactic(auto, using(crate::proofs::Relating::none_more))]
    pub fn joined(&self, labels: &[Label]) -> Result<Path, AllocError>
        requires { length self.now + length labels.now ≤ LABELS_MAX }
        ensures { IfOk result (λ p. p ≡ self.now ++ labels.now) }
    {
        let Path { labels: mut all } = self.clone()?;
        for label in labels {
            all.push(label.clone()?)?;
        }
        Ok(Path { labels: all })
    }

    /// Takes the last label off, if there is one.
    pub(crate) fn pop(&mut self) -> Option<Label>
        ensures last { self.old ≡ self.new ++ option_to_list result }
        ensures none { IfNone result (self.old ≡ []) }
    {
        self.labels.pop()
    }
}

impl Clone for Path {
    ghost is_clone = { λ p q. q ≡ p };

    fn clone(&self) -> Result<Path, AllocError> {
        Ok(Path {
            labels: self.labels.clone()?,
        })
    }
}

impl PartialEq for Path {
    ghost use Rattle.cp_path.specs.Place.{path_eq};
    ghost use Rattle.cp_path.specs.PathOrder.{path_eq_equiv};
    ghost use Rattle.std.specs.Cmp.{partial_equiv_from_equiv};

    ghost eq = { path_eq };

    ghost laws = { partial_equiv_from_equiv path_eq_equiv };

    fn eq(&self, other: &Path) -> bool {
        self.labels == other.labels
    }
}

impl Eq for Path {
    ghost use Rattle.cp_path.specs.PathOrder.{path_eq_equiv};

    ghost laws = { path_eq_equiv };
}

impl PartialOrd for Path {
    ghost use Rattle.cp_path.specs.Place.{path_cmp};
    ghost use Rattle.cp_path.specs.PathOrder.{path_po};
    ghost use Rattle.std.specs.declared.option.Option.TheVariants.{Some};

    ghost partial_cmp = { λ x y. Some (path_cmp x y) };

    ghost laws = { path_po };

    fn partial_cmp(&self, other: &Path) -> Option<Ordering> {
        Some(self.cmp(other))
    }
}

impl Ord for Path {
    ghost use Rattle.cp_path.specs.Place.{path_cmp};
    ghost use Rattle.cp_path.specs.PathOrder.{path_total, path_ties};
    ghost use Rattle.std.proofs.Common.{refl};

    ghost cmp = { path_cmp };

    ghost total = { path_total };

    ghost matches_partial_cmp = { λ x y. refl };

    ghost matches_eq = { path_ties };

    fn cmp(&self, other: &Path) -> Ordering {
        self.labels.cmp(&other.labels)
    }
}
