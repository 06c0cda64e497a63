use cp_model::{ENTRY_MAX, OPS_MAX, Op, OpList};
use cp_record::op_length;
use std::alloc::{AllocError, Global};
use std::marker::Model;

/// The Tid of the first operation of a transaction. The Tids of all that it may hold are below 2^64.
#[derive(Drop)]
pub(crate) struct FirstTid {
    tid: u64,
}

impl Model for FirstTid {
    ghost use Rattle.std.specs.Prelude.{ℕ, ◌≤◌, ◌^◌};

    ghost Value = { ℕ };

    ghost view = { λ a. a.tid };

    ghost invariant = { λ a. a.tid ≤ 2 ^ 63 };
}

impl FirstTid {
    ghost use Rattle.std.specs.Prelude.{◌≡◌, ◌≤◌, ◌+◌, ◌^◌};

    pub(crate) fn new(tid: u64) -> FirstTid
        requires { tid ≤ 2 ^ 63 }
        ensures { result ≡ tid }
    {
        FirstTid { tid }
    }

    /// The Tid of the operation that so many go before.
    pub(crate) fn after(&self, count: u32) -> u64
        ensures { result ≡ self.now + count }
    {
        self.tid + count as u64
    }
}

/// Operations in order, no more of them than a commit may have.
#[derive(Drop)]
pub(crate) struct HeldOps {
    list: Vec<Op>,
}

impl Model for HeldOps {
    ghost use Rattle.std.specs.Prelude.{List};
    ghost use Rattle.cp_model.specs.declared.op.Op.{Op};
    ghost use Rattle.cp_engine.specs.Held.{AreHeld};

    ghost Value = { List Op };

    ghost view = { λ a. a.list.items };

    ghost invariant = { λ a. AreHeld a.list.items };
}

impl HeldOps {
    ghost use Rattle.std.specs.Prelude.{◌≡◌, ◌≤◌, ◌<◌, ◌+◌, ◌*◌, ◌==◌, [], ◌∷◌, ◌++◌, List, length, sum_by, OnOk, OnErr};
    ghost use Rattle.cp_record.specs.Bytes as bytes;
    ghost use Rattle.cp_record.specs.Packed.{IsSmall};
    ghost use Rattle.cp_model.specs.declared.op.Op.{Op};

    pub(crate) fn new(alloc: Global) -> HeldOps
        ensures { result ≡ [] }
    {
        HeldOps {
            list: Vec::new(alloc),
        }
    }

    pub(crate) fn len(&self) -> u32
        ensures count { result ≡ length self.now }
        ensures few { length self.now ≤ OPS_MAX }
    {
        self.list.len() as u32
    }

    /// Whether it holds as many as a commit may have.
    pub(crate) fn is_full(&self) -> bool
        ensures full { result ≡ length self.now == OPS_MAX }
        ensures few { length self.now ≤ OPS_MAX }
    {
        self.list.len() == OPS_MAX
    }

    /// After an error the operations are as they were.
    pub(crate) fn push(&mut self, op: Op) -> Result<(), AllocError>
        requires few { length self.old < OPS_MAX }
        requires small { IsSmall op }
        ensures ok { OnOk result (self.new ≡ self.old ++ op ∷ []) }
        ensures err { OnErr result (self.new ≡ self.old) }
    {
        self.list.push(op)?;
        Ok(())
    }

    /// Gives up the last operation.
    pub(crate) fn pop(&mut self)
        ensures { (ops : List Op) (op : Op) → self.old ≡ ops ++ op ∷ [] → self.new ≡ ops }
    {
        drop(self.list.pop());
    }

    /// The bytes of the operations in a commit. Costs their places.
    pub(crate) fn bytes(&self) -> u64
        ensures sum { result ≡ sum_by bytes.op_length self.now }
        ensures bound { sum_by bytes.op_length self.now ≤ ENTRY_MAX * OPS_MAX }
    {
        let mut total = 0;
        for op in &self.list {
            total += op_length(op);
        }
        total
    }

    pub(crate) fn into_list(self) -> OpList
        ensures { result ≡ self }
    {
        OpList { items: self.list }
    }
}
