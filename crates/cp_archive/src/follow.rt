//! The versions of a history, one step after another.
ghost use Rattle.std.specs.Prelude.{◌≡◌, ◌+◌, ◌<◌, ◌^◌, ◌++◌, ◌∷◌, ◌↔◌, [], true, false, IsTrue, length, map, IfOk, OnOk, OnErr};
ghost use Rattle.cp_model.specs.History.{AreWritten};
ghost use Rattle.cp_model.specs.Subtrees.{below};
ghost use Rattle.cp_operation.specs.Loaded.{sources_in};
ghost use Rattle.cp_operation.specs.Passed.{AllAccepted, tree_until};
ghost use Rattle.cp_tree.specs.Rows.{entry_row};
ghost use Rattle.cp_archive.specs.Touching.{touched_before, with_after};
ghost use Rattle.cp_archive.specs.Histories.{trees_alone, trees_of_steps};
ghost use Rattle.cp_archive.specs.Trees.{newest};

use crate::archive::Archive;
use crate::idle::changed_places;
use crate::touched::Touched;
use cp_engine::replay;
use cp_model::{Kind, Op, RowList};
use cp_operation::Sources;
use cp_path::Path;
use cp_tree::TreeRep;
use std::alloc::{AllocError, Global};

/// Lists the rows of the subtree at a place, and none where it isn't there.
fn rows_below<R: TreeRep>(alloc: Global, tree: &R, place: &Path) -> Result<RowList, AllocError>
    ensures { IfOk result (λ v. v ≡ map entry_row (below place.now (R.contents tree.now))) }
{
    if !tree.is_there(place) {
        let items = Vec::new(alloc);
        return Ok(RowList { items });
    }
    tree.rows(alloc, place)
}

/// Lists the rows at a place before a step.
fn place_before<R: TreeRep>(alloc: Global, tree: &R, place: &Path) -> Result<Touched, AllocError>
    ensures { IfOk result (λ x. x ≡ touched_before (R.contents tree.now) place.now) }
{
    let before = rows_below(alloc, tree, place)?;
    let after = RowList {
        items: Vec::new(alloc),
    };
    match place.clone() {
        Ok(place) => Ok(Touched {
            place,
            before,
            after,
        }),
        Err(fault) => {
            drop(before);
            drop(after);
            Err(fault)
        }
    }
}

/// Lists the rows at the places before a step.
fn rows_before<R: TreeRep>(
    alloc: Global,
    tree: &R,
    places: &[Path],
) -> Result<Vec<Touched>, AllocError>
    ensures { IfOk result (λ v. v.items ≡ map (touched_before (R.contents tree.now)) places.now) }
{
    let mut touched = Vec::new(alloc);
    for place in places {
        touched.push(place_before(alloc, tree, place)?)?;
    }
    Ok(touched)
}

/// Adds the rows at a place after the step.
fn add_after<R: TreeRep>(alloc: Global, tree: &R, touched: &mut Touched) -> Result<(), AllocError>
    ensures { OnOk result (touched.new ≡ with_after (R.contents tree.now) touched.old) }
{
    touched.after = rows_below(alloc, tree, &touched.place)?;
    Ok(())
}

/// Adds the rows at the places after the step.
fn add_rows_after<R: TreeRep>(
    alloc: Global,
    tree: &R,
    touched: &mut [Touched],
) -> Result<(), AllocError>
    ensures { OnOk result (touched.new ≡ map (with_after (R.contents tree.now)) touched.old) }
{
    for one in touched.iter_mut() {
        add_after(alloc, tree, one)?;
    }
    Ok(())
}

impl Archive {
    /// Applies the operations of a step to the tree of the last version, as long as they are accepted, and adds the version to which
    /// they lead; says whether all were. Costs their checks and changes, the rows at and below the places that they touch, before and
    /// after, and what `add_step` costs; where all are copies over what the tree knows to be the same, the places that they copy at
    /// most, without rows. After an error, and where one isn't accepted, the archive is as it was; what the tree holds
    /// after an error isn't said.
    pub fn replay_step<R: TreeRep, S: TreeRep>(
        &mut self,
        alloc: Global,
        tree: &mut R,
        sources: &Sources<S>,
        ops: &[Op],
    ) -> Result<bool, AllocError>
        requires few { length self.old < 2 ^ 63 }
        requires newest { newest self.old ≡ R.contents tree.old }
        requires written { AreWritten ops.now }
        ensures accepted { IfOk result (λ b. IsTrue b ↔ AllAccepted (sources_in S.contents sources.now) (R.contents tree.old) ops.now) }
        ensures tree { IfOk result (λ _. R.contents tree.new ≡ tree_until (sources_in S.contents sources.now) (R.contents tree.old) ops.now) }
        ensures added { IfOk result (λ b. IsTrue b → self.new ≡ self.old ++ R.contents tree.new ∷ []) }
        ensures refused { IfOk result (λ b. b ≡ false → self.new ≡ self.old) }
        ensures err { OnErr result (self.new ≡ self.old) }
    {
        let places = changed_places(alloc, tree, ops)?;
        let mut touched = rows_before(alloc, tree, places.as_slice())?;
        if !replay(alloc, tree, sources, ops)? {
            return Ok(false);
        }
        add_rows_after(alloc, tree, touched.as_mut_slice())?;
        self.add_step(alloc, touched.as_slice())?;
        Ok(true)
    }

    /// Replays operations each as a step of its own, as long as they are accepted; says whether all were. Costs as `replay_step` for
    /// each. Where one isn't accepted, and after an error, what the archive and the tree hold isn't said.
    fn replay_each<R: TreeRep, S: TreeRep>(
        &mut self,
        alloc: Global,
        tree: &mut R,
        sources: &Sources<S>,
        ops: &[Op],
    ) -> Result<bool, AllocError>
        requires few { length self.old + length ops.now < 2 ^ 63 }
        requires newest { newest self.old ≡ R.contents tree.old }
        requires written { AreWritten ops.now }
        ensures accepted { IfOk result (λ b. IsTrue b ↔ AllAccepted (sources_in S.contents sources.now) (R.contents tree.old) ops.now) }
        ensures tree { IfOk result (λ b. IsTrue b → R.contents tree.new ≡ tree_until (sources_in S.contents sources.now) (R.contents tree.old) ops.now) }
        ensures added { IfOk result (λ b. IsTrue b → self.new ≡ self.old ++ trees_alone (sources_in S.contents sources.now) (R.contents tree.old) ops.now) }
        ensures newest { IfOk result (λ b. IsTrue b → newest self.new ≡ R.contents tree.new) }
    {
        for op in ops {
            if !self.replay_step(alloc, tree, sources, std::slice::from_ref(op))? {
                return Ok(false);
            }
        }
        Ok(true)
    }

    /// Replays the operations of a commit in a store of this kind, and adds the version after each of its steps; says whether all were
    /// accepted. Costs as `replay_step` for each step. Where one isn't accepted, and after an error, what the archive and the tree hold
    /// isn't said.
    pub fn replay_commit<R: TreeRep, S: TreeRep>(
        &mut self,
        alloc: Global,
        kind: Kind,
        tree: &mut R,
        sources: &Sources<S>,
        ops: &[Op],
    ) -> Result<bool, AllocError>
        requires few { length self.old + length ops.now < 2 ^ 63 }
        requires newest { newest self.old ≡ R.contents tree.old }
        requires written { AreWritten ops.now }
        ensures accepted { IfOk result (λ b. IsTrue b ↔ AllAccepted (sources_in S.contents sources.now) (R.contents tree.old) ops.now) }
        ensures tree { IfOk result (λ b. IsTrue b → R.contents tree.new ≡ tree_until (sources_in S.contents sources.now) (R.contents tree.old) ops.now) }
        ensures added { IfOk result (λ b. IsTrue b → self.new ≡ self.old ++ trees_of_steps kind (sources_in S.contents sources.now) (R.contents tree.old) ops.now) }
        ensures newest { IfOk result (λ b. IsTrue b → newest self.new ≡ R.contents tree.new) }
    {
        match kind {
            Kind::N | Kind::H => self.replay_each(alloc, tree, sources, ops),
            Kind::T | Kind::HT => self.replay_step(alloc, tree, sources, ops),
        }
    }
}
