ghost use Rattle.std.specs.Prelude.{◌≡◌, ◌==◌, ◌≤◌, ◌<◌, ◌+◌, ◌^◌, ◌⊎◌, ℕ, min, List, Ok, Err, [], ◌∷◌, ◌++◌, length, if◌then◌else◌, IfOk, IfErr, OnOk, OnErr};
ghost use Rattle.std.specs.declared.option.Option.TheVariants.{None, Some};
ghost use Rattle.cp_model.specs.Laws.{AreSources};
ghost use Rattle.cp_model.specs.Tree.{Tree, Source, refusal, tree_after};
ghost use Rattle.cp_model.specs.History.{IsWritten, steps_of};
ghost use Rattle.cp_model.specs.declared.kind.Kind.{Kind as KindValue};
ghost use Rattle.cp_model.specs.declared.op.Op.{Op};
ghost use Rattle.cp_model.specs.declared.refusal.Cause.{Cause};
ghost use Rattle.cp_model.specs.declared.refusal.Refusal.TheVariants.{TooManyOps};
ghost use Rattle.cp_model.specs.declared.record.Record.{Record};
ghost use Rattle.cp_engine.specs.declared.fault.FinishFault.TheVariants.{TooLarge, Memory};
ghost use Rattle.cp_record.specs.Bytes.{commit_length};
ghost use Rattle.cp_overlay.specs.Seen.{seen};
ghost use Rattle.cp_operation.specs.Loaded.{sources_in};
ghost use Rattle.cp_operation.specs.Passed.{stage_after};
ghost use Rattle.cp_engine.specs.Transactions.{Progress, going, IsFailed, Stands, Applies, Adds, Packs, PacksNothing, Finishes, IsGoing, state_of, after_unread, held_count};

use crate::fault::{ApplyFault, FinishFault};
use crate::follow::follow_op;
use crate::held::{FirstTid, HeldOps};
use crate::kept::{StepRecords, keep_op, keep_top};
use crate::state::{Failure, TxnState};
use cp_model::{Cause, ENTRY_MAX, Kind, OPS_MAX, Op, OpList, Refusal};
use cp_operation::{Sources, check, copy_op};
use cp_overlay::Overlay;
use cp_record::PackedRecords;
use cp_tree::TreeRep;
use std::alloc::{AllocError, Global};

/// Operations on a working tree of their own. In the kinds n and h each of them is a step with a Tid of its own, whose records
/// are kept. Once these take more bytes than an entry may have, no commit can be made of them, and none are kept any more. In
/// the kinds t and ht the operations are one step, whose effects an overlay keeps.
#[derive(Drop)]
pub struct Txn<R: TreeRep> {
    kind: Kind,
    /// The tree on which the transaction began.
    start: R,
    tree: R,
    first: FirstTid,
    ops: HeldOps,
    rows: StepRecords,
    /// That of the open step.
    overlay: Overlay,
    failure: Option<Failure>,
}

/// What a transaction makes: its operations, the tree to which they lead, their records, and the number of their Tids.
#[derive(Drop)]
pub struct Step<R: TreeRep> {
    pub ops: OpList,
    pub tree: R,
    pub rows: PackedRecords,
    pub tids: u64,
}

impl<R: TreeRep> Txn<R> {
    /// A transaction on a copy of the tree, whose first step gets the Tid `first`. Costs two copies.
    pub fn begin(alloc: Global, tree: &R, kind: Kind, first: u64) -> Result<Txn<R>, AllocError>
        requires first { first ≤ 2 ^ 63 }
        ensures { IfOk result (λ x. (ss : List Source) → AreSources ss → Stands R.contents x kind ss (R.contents tree.now) first (going [])) }
    {
        Ok(Txn {
            kind,
            start: tree.copy(alloc)?,
            tree: tree.copy(alloc)?,
            first: FirstTid::new(first),
            ops: HeldOps::new(alloc),
            rows: StepRecords::new(alloc),
            overlay: Overlay::new(alloc),
            failure: None,
        })
    }

    /// Applies the operation with these sources, unless it is refused; a refusal fails the transaction. Costs its check,
    /// its change of the tree and, as long as the records of the transaction take no more bytes than an entry may have, its
    /// own ones, of which the kind h has at most one.
    pub fn apply<S: TreeRep>(
        &mut self,
        alloc: Global,
        op: &Op,
        sources: &Sources<S>,
    ) -> Result<(), ApplyFault>
        requires written { IsWritten op.now }
        ensures { (k : KindValue) (t : Tree) (n : ℕ) (p : Progress) → Stands R.contents self.old k (sources_in S.contents sources.now) t n p → Applies R.contents k (sources_in S.contents sources.now) t n p op.now self.new result }
    {
        if let Some(failure) = self.failure {
            return Err(ApplyFault::Failed(failure.number));
        }
        if let Some(why) = self.refusal(op, sources) {
            self.fail(Cause::Refused(why));
            return Err(ApplyFault::Refused(why));
        }
        match self.hold(alloc, op, sources) {
            Ok(()) => Ok(()),
            Err(_) => Err(ApplyFault::Memory),
        }
    }

    /// The first case that refuses the operation behind the held ones, if there is one.
    fn refusal<S: TreeRep>(&self, op: &Op, sources: &Sources<S>) -> Option<Refusal>
        requires written { IsWritten op.now }
        ensures case { result ≡ (if length self.now.ops == OPS_MAX then Some TooManyOps else refusal (sources_in S.contents sources.now) (R.contents self.now.tree) op.now) }
        ensures few { length self.now.ops ≤ OPS_MAX }
    {
        if self.ops.is_full() {
            return Some(Refusal::TooManyOps);
        }
        check(&self.tree, sources, op)
    }

    /// Holds an operation that isn't refused, with its records and its change of the tree. After an error the
    /// transaction is as it was.
    fn hold<S: TreeRep>(
        &mut self,
        alloc: Global,
        op: &Op,
        sources: &Sources<S>,
    ) -> Result<(), AllocError>
        requires written { IsWritten op.now }
        requires few { length self.old.ops < OPS_MAX }
        requires accepted { refusal (sources_in S.contents sources.now) (R.contents self.old.tree) op.now ≡ None }
        ensures ok { (k : KindValue) (t : Tree) (n : ℕ) (ops : List Op) → IsGoing R.contents self.old k (sources_in S.contents sources.now) t n ops → OnOk result (IsGoing R.contents self.new k (sources_in S.contents sources.now) t n (ops ++ op.now ∷ [])) }
        ensures err { (k : KindValue) (t : Tree) (n : ℕ) (ops : List Op) → IsGoing R.contents self.old k (sources_in S.contents sources.now) t n ops → OnErr result (IsGoing R.contents self.new k (sources_in S.contents sources.now) t n ops) }
    {
        let held = copy_op(alloc, op)?;
        let tid = self.first.after(self.ops.len());
        self.ops.push(held)?;
        if let Err(fault) = self.advance(alloc, tid, op, sources) {
            self.ops.pop();
            return Err(fault);
        }
        Ok(())
    }

    /// Does an operation that isn't refused: as a step of its own with this Tid, or in the open step. After an error the
    /// transaction is as it was.
    fn advance<S: TreeRep>(
        &mut self,
        alloc: Global,
        tid: u64,
        op: &Op,
        sources: &Sources<S>,
    ) -> Result<(), AllocError>
        requires written { IsWritten op.now }
        requires accepted { refusal (sources_in S.contents sources.now) (R.contents self.old.tree) op.now ≡ None }
        ensures rest { self.new ≡ record self.old { tree = self.new.tree; rows = self.new.rows; overlay = self.new.overlay } }
        ensures tree { OnOk result (R.contents self.new.tree ≡ tree_after (sources_in S.contents sources.now) (R.contents self.old.tree) op.now) }
        ensures adds { OnOk result (Adds self.old.kind self.old.rows (seen self.old.overlay) self.new.rows (seen self.new.overlay) (sources_in S.contents sources.now) (R.contents self.old.start) (R.contents self.old.tree) tid op.now) }
        ensures err { OnErr result ((R.contents self.new.tree ≡ R.contents self.old.tree) × (self.new.rows ≡ self.old.rows) × (seen self.new.overlay ≡ seen self.old.overlay)) }
    {
        match self.kind {
            Kind::N => keep_op(alloc, &mut self.rows, tid, &mut self.tree, sources, op),
            Kind::H => keep_top(alloc, &mut self.rows, tid, &mut self.tree, sources, op),
            Kind::T | Kind::HT => {
                follow_op(
                    alloc,
                    &mut self.overlay,
                    &self.start,
                    &mut self.tree,
                    sources,
                    op,
                )
            }
        }
    }

    /// Lets the transaction fail at the operation behind the held ones.
    fn fail(&mut self, cause: Cause)
        ensures failure { self.new.failure ≡ Some (record { number = length self.old.ops + 1; cause = cause }) }
        ensures tree { self.new.tree ≡ self.old.tree }
    {
        self.failure = Some(Failure {
            number: self.ops.len() + 1,
            cause,
        });
    }

    /// Counts a text that couldn't be read as the next operation, at which a going transaction fails.
    pub fn spoil(&mut self)
        ensures { (k : KindValue) (ss : List Source) (t : Tree) (n : ℕ) (p : Progress) → Stands R.contents self.old k ss t n p → Stands R.contents self.new k ss t n (after_unread p) }
    {
        if self.failure.is_none() {
            self.fail(Cause::Unread);
        }
    }

    /// The working tree. Of a failed transaction it is the tree to which the operations before the failure lead.
    pub fn tree(&self) -> &R
        ensures failed { (k : KindValue) (ss : List Source) (t : Tree) (n j : ℕ) (c : Cause) → (h : IsFailed R.contents self.now k ss t n j c) → R.contents result.now ≡ (stage_after k ss t n h.ops).tree }
        ensures going { (k : KindValue) (ss : List Source) (t : Tree) (n : ℕ) (ops : List Op) → Stands R.contents self.now k ss t n (going ops) → R.contents result.now ≡ (stage_after k ss t n ops).tree }
    {
        &self.tree
    }

    /// How far the transaction has come.
    pub fn state(&self) -> TxnState
        ensures { (k : KindValue) (ss : List Source) (t : Tree) (n : ℕ) (p : Progress) → Stands R.contents self.now k ss t n p → result ≡ state_of p }
    {
        match self.failure {
            Some(failure) => TxnState::Failed(failure.number, failure.cause),
            None => TxnState::Going(self.ops.len()),
        }
    }

    /// Ends the transaction with what it makes, whose bytes in a commit are at most `limit`, and in any case at most those
    /// of an entry. The transaction is given up where it makes nothing. Costs the places of its operations; in the kinds t
    /// and ht also what the overlay's net effect costs.
    pub fn finish(mut self, alloc: Global, limit: u64) -> Result<Step<R>, FinishFault>
        ensures { (k : KindValue) (ss : List Source) (t : Tree) (n : ℕ) (p : Progress) → Stands R.contents self k ss t n p
            → Finishes R.contents k ss t n p (min limit ENTRY_MAX) result }
    {
        match self.packed(alloc, limit.min(ENTRY_MAX)) {
            Ok(rows) => Ok(self.into_step(rows)),
            Err(fault) => {
                drop(self);
                Err(fault)
            }
        }
    }

    /// Takes out the records of the step that the transaction makes, if it makes one, whose bytes in a commit are at most `limit`.
    fn packed(&mut self, alloc: Global, limit: u64) -> Result<PackedRecords, FinishFault>
        requires within { limit ≤ ENTRY_MAX }
        ensures step { (k : KindValue) (ss : List Source) (t : Tree) (n : ℕ) (p : Progress) → Stands R.contents self.old k ss t n p
            → IfOk result (λ rs. Finishes R.contents k ss t n p limit (Ok (record { ops = self.old.ops; tree = self.old.tree; rows = rs; tids = length (steps_of self.old.kind self.old.ops) }))) }
        ensures nothing { (k : KindValue) (ss : List Source) (t : Tree) (n : ℕ) (p : Progress) → Stands R.contents self.old k ss t n p
            → IfErr result (λ e. Finishes R.contents k ss t n p limit (Err e)) }
        ensures rest { self.new ≡ record self.old { rows = self.new.rows } }
    {
        if let Some(failure) = self.failure {
            return Err(FinishFault::Failed(failure.number, failure.cause));
        }
        if self.ops.len() == 0 {
            return Err(FinishFault::Empty);
        }
        let first = self.first.after(0);
        let rows = self.take_rows(alloc, first)?;
        within(&self.ops, rows, limit)
    }

    /// Takes out the records of a commit, whose first step has the Tid `first`: those of the steps, unless they were given up, or
    /// those of the overlay's net effect between the two trees.
    fn take_rows(&mut self, alloc: Global, first: u64) -> Result<PackedRecords, FinishFault>
        ensures packed { IfOk result (λ rs. Packs self.old.kind self.old.rows (seen self.old.overlay) (R.contents self.old.start) (R.contents self.old.tree) first rs) }
        ensures nothing { IfErr result (PacksNothing self.old.kind self.old.rows) }
        ensures rest { self.new ≡ record self.old { rows = self.new.rows } }
    {
        match self.kind {
            Kind::N | Kind::H => match self.rows.take() {
                Some(held) => Ok(held),
                None => Err(FinishFault::TooLarge),
            },
            Kind::T | Kind::HT => {
                let net = self
                    .overlay
                    .net(alloc, &self.start, &self.tree, self.kind, first)?;
                Ok(net)
            }
        }
    }

    /// What the transaction makes, with these records.
    fn into_step(self, rows: PackedRecords) -> Step<R>
        ensures { result ≡ record { ops = self.ops; tree = self.tree; rows = rows; tids = length (steps_of self.kind self.ops) } }
    {
        let tids = steps_of(self.kind, self.ops.len());
        let Txn {
            start,
            tree,
            ops,
            rows: kept,
            overlay,
            ..
        } = self;
        drop(start);
        drop(kept);
        drop(overlay);
        Step {
            ops: ops.into_list(),
            tree,
            rows,
            tids,
        }
    }

    /// Gives the transaction up, and says how many accepted operations it held.
    pub fn abort(self) -> u32
        ensures { (k : KindValue) (ss : List Source) (t : Tree) (n : ℕ) (p : Progress) → Stands R.contents self k ss t n p → result ≡ held_count p }
    {
        match self.failure {
            Some(failure) => failure.number.saturating_sub(1),
            None => self.ops.len(),
        }
    }
}

/// The records, if their commit with these operations has at most `limit` bytes. Costs the places of the operations.
fn within(ops: &HeldOps, rows: PackedRecords, limit: u64) -> Result<PackedRecords, FinishFault>
    ensures within { IfOk result (λ rs. (rs ≡ rows) × (commit_length ops.now rows ≤ limit)) }
    ensures over { IfErr result (λ e. (e ≡ TooLarge) × (limit < commit_length ops.now rows)) }
{
    if commit_length(ops, &rows) > limit {
        return Err(FinishFault::TooLarge);
    }
    Ok(rows)
}

/// The bytes of the commit. Costs the places of its operations.
fn commit_length(ops: &HeldOps, rows: &PackedRecords) -> u64
    ensures { result ≡ commit_length ops.now rows.now }
{
    9 + ops.bytes() + rows.len() as u64
}

/// The number of steps that so many operations are in a kind.
pub fn steps_of(kind: Kind, count: u32) -> u64
    ensures { (ops : List Op) → length ops ≡ count → result ≡ length (steps_of kind ops) }
{
    match kind {
        Kind::N | Kind::H => count as u64,
        Kind::T | Kind::HT => 1,
    }
}
