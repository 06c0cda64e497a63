//! What is kept of the records of a transaction's steps.
ghost use Rattle.std.specs.Prelude.{◌≡◌, [], List, OnOk, OnErr, IfSome, IfNone};
ghost use Rattle.std.specs.declared.option.Option.TheVariants.{None};
ghost use Rattle.cp_model.specs.History.{IsWritten, with_tid};
ghost use Rattle.cp_model.specs.Tree.{refusal, tree_after};
ghost use Rattle.cp_model.specs.declared.record.Record.{Record};
ghost use Rattle.cp_engine.specs.Held.{AreKept, AreKeptBehind};
ghost use Rattle.cp_operation.specs.Loaded.{sources_in};
ghost use Rattle.cp_operation.specs.RowsAlone.{op_rows, top_rows};
ghost use Rattle.cp_engine.specs.declared.kept.StepRecords.TheVariants.{Held, GivenUp};

use cp_model::{ENTRY_MAX, Op};
use cp_operation::{Sources, change_tree, record_op, record_top};
use cp_record::PackedRecords;
use cp_tree::TreeRep;
use std::alloc::{AllocError, Global};
use std::mem;

/// The records of the steps that are done, as long as an entry can hold them. So between two steps these are no more bytes than
/// an entry may have; while a step is done, its own come to them.
#[derive(Drop)]
pub(crate) enum StepRecords {
    Held(PackedRecords),
    /// They take more bytes than an entry may have, and none of them is kept.
    GivenUp,
}

impl StepRecords {
    /// No records.
    pub(crate) fn new(alloc: Global) -> StepRecords
        ensures { AreKept result [] }
    {
        StepRecords::Held(PackedRecords::new(alloc))
    }

    /// Takes out the records that are held, unless they were given up.
    pub(crate) fn take(&mut self) -> Option<PackedRecords>
        ensures held { IfSome result (λ rs. self.old ≡ Held rs) }
        ensures given_up { IfNone result (self.old ≡ GivenUp) }
    {
        match mem::replace(self, StepRecords::GivenUp) {
            StepRecords::Held(held) => Some(held),
            StepRecords::GivenUp => None,
        }
    }

    /// Gives up the records that are held, if they take more bytes than an entry may have.
    fn drop_too_large(&mut self)
        ensures { (rs : List Record) → self.old ≡ Held rs → AreKept self.new rs }
    {
        if let StepRecords::Held(held) = self {
            if held.len() as u64 > ENTRY_MAX {
                *self = StepRecords::GivenUp;
            }
        }
    }
}

/// Changes the tree by an operation that it doesn't refuse, and keeps the operation's records behind the others, as long as an
/// entry can hold them all. After an error tree and records are as they were. Costs the change, and the bytes of the records'
/// places if they are kept.
pub(crate) fn keep_op<R: TreeRep, S: TreeRep>(
    alloc: Global,
    rows: &mut StepRecords,
    tid: u64,
    tree: &mut R,
    sources: &Sources<S>,
    op: &Op,
) -> Result<(), AllocError>
    requires written { IsWritten op.now }
    requires accepted { refusal (sources_in S.contents sources.now) (R.contents tree.old) op.now ≡ None }
    ensures tree { OnOk result (R.contents tree.new ≡ tree_after (sources_in S.contents sources.now) (R.contents tree.old) op.now) }
    ensures rows { OnOk result (AreKeptBehind rows.old rows.new (with_tid tid (op_rows (sources_in S.contents sources.now) (R.contents tree.old) op.now))) }
    ensures same_tree { OnErr result (R.contents tree.new ≡ R.contents tree.old) }
    ensures same_rows { OnErr result (rows.new ≡ rows.old) }
{
    let StepRecords::Held(held) = rows else {
        return change_tree(alloc, tree, sources, op);
    };
    record_op(alloc, held, tid, tree, sources, op)?;
    rows.drop_too_large();
    Ok(())
}

/// Changes the tree by an operation that it doesn't refuse, and keeps the record of the place that it writes behind the others,
/// if it has changed it and as long as an entry can hold them all. After an error tree and records are as they were. Costs the
/// change, and the bytes of two places.
pub(crate) fn keep_top<R: TreeRep, S: TreeRep>(
    alloc: Global,
    rows: &mut StepRecords,
    tid: u64,
    tree: &mut R,
    sources: &Sources<S>,
    op: &Op,
) -> Result<(), AllocError>
    requires written { IsWritten op.now }
    requires accepted { refusal (sources_in S.contents sources.now) (R.contents tree.old) op.now ≡ None }
    ensures tree { OnOk result (R.contents tree.new ≡ tree_after (sources_in S.contents sources.now) (R.contents tree.old) op.now) }
    ensures rows { OnOk result (AreKeptBehind rows.old rows.new (with_tid tid (top_rows op.now))) }
    ensures same_tree { OnErr result (R.contents tree.new ≡ R.contents tree.old) }
    ensures same_rows { OnErr result (rows.new ≡ rows.old) }
{
    let StepRecords::Held(held) = rows else {
        return change_tree(alloc, tree, sources, op);
    };
    record_top(alloc, held, tid, tree, sources, op)?;
    rows.drop_too_large();
    Ok(())
}
