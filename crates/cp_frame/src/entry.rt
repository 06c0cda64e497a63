//! Entries of a store's history.
ghost use Rattle.std.specs.Prelude.{◌≡◌, ◌≤◌, ◌<◌, ◌^◌, ◌++◌, [], Bool, true, List, map, length, IfErr, IfOk, OnErr, OnOk};
ghost use Rattle.std.specs.List.{AllByRecursion};
ghost use Rattle.cp_format.specs.Faults.{FaultAt};
ghost use Rattle.cp_format.specs.Formats.{Reads, ReadsAt};
ghost use Rattle.cp_frame.specs.Entries.{Batch, IsBatchOf, IsEntry, IsStamp, IsWellFormedBatch, IsWellFormedEntry, batch_bytes, batch_format, entry_format, kind_number, ops_bytes, stamp_bytes, written_entry, WrittenEntry};
ghost use Rattle.cp_frame.specs.EntryReading.{HasReadBatch, HasReadEntry, entry_behind, kind_format, stamp_format};
ghost use Rattle.cp_frame.specs.Faults.{FaultOf};
ghost use Rattle.cp_frame.specs.Operations.{HasTakenOps, IsWellFormed, WrittenOp, op_of, ops_format_of};
ghost use Rattle.cp_frame.specs.Sound.{IsSoundBatch, IsSoundEntry, IsSoundOp};

use crate::operation::{put_op, take_op};
use crate::record::{put_records, records_at};
use crate::tree::{put_number, put_tree, take_tree};
use cp_format::{FormatFault, bounded_at, count_at, label_at, name_at, number_at, put_counted};
use cp_model::{Kind, Literal, OPS_MAX, Op, OpList, Stamp};
use cp_path::{LABEL_MAX, Name};
use cp_record::PackedRecords;
use std::alloc::{AllocError, Global};

/// An entry of a store's history. Its records stand in it as they are packed, which is how its bytes have them.
#[derive(Drop)]
pub enum Entry {
    /// The kind of the store, and the tree that it starts from.
    Start {
        kind: Kind,
        tree: Literal,
    },
    /// A source, and the name under which it was loaded.
    Load {
        name: Name,
        tree: Literal,
    },
    /// The operations of a commit and its records, in a file of version 1.
    Commit {
        ops: OpList,
        records: PackedRecords,
    },
    /// The same with the commit's stamp, in a file of version 2.
    Stamped {
        stamp: Stamp,
        ops: OpList,
        records: PackedRecords,
    },
}

/// The kind of the next byte.
fn kind_at(bytes: &[u8], at: usize) -> Result<(Kind, usize), FormatFault>
    requires { at ≤ length bytes.now }
    ensures read { IfOk result (λ x. ReadsAt kind_format bytes.now at x.0 x.1) }
    ensures fault { IfErr result (FaultAt kind_format bytes.now at) }
{
    let (number, at) = count_at(bytes, at, 0, 3)?;
    let kind = match number {
        0 => Kind::N,
        1 => Kind::T,
        2 => Kind::H,
        _ => Kind::HT,
    };
    Ok((kind, at))
}

/// So many operations in the next bytes. Costs them.
fn ops_at(
    alloc: Global,
    bytes: &[u8],
    at: usize,
    trees: bool,
    count: usize,
) -> Result<(OpList, usize), FormatFault>
    requires { at ≤ length bytes.now }
    ensures read { IfOk result (λ x. HasTakenOps trees count bytes.now at x.0 x.1) }
    ensures fault { IfErr result (FaultAt (ops_format_of trees count) bytes.now at) }
{
    let mut items: Vec<Op> = Vec::new(alloc);
    let mut next = at;
    for _ in 0..count {
        let (op, behind) = take_op(alloc, bytes, next, trees)?;
        items.push(op)?;
        next = behind;
    }
    Ok((OpList { items }, next))
}

/// Operations and records.
struct Changes {
    ops: OpList,
    records: PackedRecords,
}

/// The operations and the records of a commit.
fn batch_at(
    alloc: Global,
    bytes: &[u8],
    at: usize,
    trees: bool,
) -> Result<(Changes, usize), FormatFault>
    requires { at ≤ length bytes.now }
    ensures read { IfOk result (λ x. HasReadBatch trees bytes.now at x.0.ops x.0.records x.1) }
    ensures fault { IfErr result (FaultAt (batch_format trees) bytes.now at) }
{
    let (count, at) = bounded_at(bytes, at, 1, OPS_MAX)?;
    let (ops, at) = ops_at(alloc, bytes, at, trees, count)?;
    let (records, at) = records_at(alloc, bytes, at)?;
    Ok((Changes { ops, records }, at))
}

/// The stamp of a commit.
fn stamp_at(alloc: Global, bytes: &[u8], at: usize) -> Result<(Stamp, usize), FormatFault>
    requires { at ≤ length bytes.now }
    ensures read { IfOk result (λ x. ReadsAt stamp_format bytes.now at x.0 x.1) }
    ensures fault { IfErr result (FaultAt stamp_format bytes.now at) }
{
    let (curator, at) = label_at(alloc, bytes, at, LABEL_MAX)?;
    let (moment, at) = number_at(bytes, at)?;
    Ok((Stamp { curator, moment }, at))
}

fn start_at(alloc: Global, bytes: &[u8], at: usize) -> Result<(Entry, usize), FormatFault>
    requires { at ≤ length bytes.now }
    ensures read { IfOk result (λ x. HasReadEntry 1 bytes.now at x.0 x.1) }
    ensures fault { IfErr result (FaultAt (entry_behind 1) bytes.now at) }
{
    let (kind, at) = kind_at(bytes, at)?;
    let (tree, at) = take_tree(alloc, bytes, at, 1)?;
    Ok((Entry::Start { kind, tree }, at))
}

fn load_at(alloc: Global, bytes: &[u8], at: usize) -> Result<(Entry, usize), FormatFault>
    requires { at ≤ length bytes.now }
    ensures read { IfOk result (λ x. HasReadEntry 2 bytes.now at x.0 x.1) }
    ensures fault { IfErr result (FaultAt (entry_behind 2) bytes.now at) }
{
    let (name, at) = name_at(alloc, bytes, at)?;
    let (tree, at) = take_tree(alloc, bytes, at, name.as_str().len())?;
    Ok((Entry::Load { name, tree }, at))
}

fn commit_at(alloc: Global, bytes: &[u8], at: usize) -> Result<(Entry, usize), FormatFault>
    requires { at ≤ length bytes.now }
    ensures read { IfOk result (λ x. HasReadEntry 3 bytes.now at x.0 x.1) }
    ensures fault { IfErr result (FaultAt (entry_behind 3) bytes.now at) }
{
    let (Changes { ops, records }, at) = batch_at(alloc, bytes, at, false)?;
    Ok((Entry::Commit { ops, records }, at))
}

fn stamped_at(alloc: Global, bytes: &[u8], at: usize) -> Result<(Entry, usize), FormatFault>
    requires { at ≤ length bytes.now }
    ensures read { IfOk result (λ x. HasReadEntry 4 bytes.now at x.0 x.1) }
    ensures fault { IfErr result (FaultAt (entry_behind 4) bytes.now at) }
{
    let (stamp, at) = stamp_at(alloc, bytes, at)?;
    let (Changes { ops, records }, at) = batch_at(alloc, bytes, at, true)?;
    Ok((
        Entry::Stamped {
            stamp,
            ops,
            records,
        },
        at,
    ))
}

/// The entry at the front of the bytes, and the offset after it.
fn entry_in_front(alloc: Global, bytes: &[u8]) -> Result<(Entry, usize), FormatFault>
    ensures read { IfOk result (λ x. (w : WrittenEntry) × ReadsAt entry_format bytes.now 0 w x.1 × IsEntry x.0 w) }
    ensures fault { IfErr result (FaultAt entry_format bytes.now 0) }
{
    let (form, at) = count_at(bytes, 0, 1, 4)?;
    match form {
        1 => start_at(alloc, bytes, at),
        2 => load_at(alloc, bytes, at),
        3 => commit_at(alloc, bytes, at),
        _ => stamped_at(alloc, bytes, at),
    }
}

/// The entry that the bytes are. Costs them; reads them once.
///
/// A fault names the first byte with which no spelling of an entry goes on, the number of the bytes where they end too
/// early, and the first one too many where they go on after an entry. A label or a record that doesn't rise is refused at
/// the byte that decides how it compares with the one before; what may still come is not looked at.
pub fn entry_of(alloc: Global, bytes: &[u8]) -> Result<Entry, FormatFault>
    ensures read { IfOk result (λ e. (w : WrittenEntry) × IsEntry e w × Reads entry_format bytes.now w []) }
    ensures sound { IfOk result IsSoundEntry }
    ensures fault { IfErr result (FaultOf entry_format bytes.now) }
{
    let (entry, end) = entry_in_front(alloc, bytes)?;
    if end < bytes.len() {
        return Err(FormatFault::BadByte(end));
    }
    Ok(entry)
}

/// The number of a kind.
fn kind_number(kind: Kind) -> u8
    ensures { result ≡ kind_number kind }
{
    match kind {
        Kind::N => 0,
        Kind::T => 1,
        Kind::H => 2,
        Kind::HT => 3,
    }
}

/// Appends the number of operations, and these.
fn put_ops(ops: &OpList, out: &mut Vec<u8>) -> Result<(), AllocError>
    requires sound { AllByRecursion (IsSoundOp true) ops.now }
    requires few { length ops.now ≤ OPS_MAX }
    ensures { OnOk result ((ws : List WrittenOp) × (map op_of ws ≡ ops.now) × (out.new.items ≡ out.old.items ++ ops_bytes ws)
        × AllByRecursion IsWellFormed ws) }
{
    put_number(ops.items.len(), out)?;
    for op in &ops.items {
        put_op(op, out)?;
    }
    Ok(())
}

/// Appends the operations and the records of a commit.
fn put_batch(ops: &OpList, records: &PackedRecords, out: &mut Vec<u8>) -> Result<(), AllocError>
    requires { IsSoundBatch true ops.now records.now }
    ensures { OnOk result ((b : Batch) × IsBatchOf b ops.now records.now × (out.new.items ≡ out.old.items ++ batch_bytes b)
        × IsWellFormedBatch b) }
{
    put_ops(ops, out)?;
    put_records(records, out)
}

/// Appends the curator and the moment.
fn put_stamp(stamp: &Stamp, out: &mut Vec<u8>) -> Result<(), AllocError>
    ensures ok { OnOk result (out.new.items ≡ out.old.items ++ stamp_bytes stamp.now) }
    ensures stamp { OnOk result (IsStamp stamp.now) }
{
    put_counted(stamp.curator.as_str().as_bytes(), out)?;
    out.extend_from_slice(&stamp.moment.to_be_bytes())
}

/// Appends the bytes of an entry.
fn put_entry(entry: &Entry, out: &mut Vec<u8>) -> Result<(), AllocError>
    requires { IsSoundEntry entry.now }
    ensures { OnOk result ((w : WrittenEntry) × IsEntry entry.now w × (out.new.items ≡ out.old.items ++ written_entry w)
        × IsWellFormedEntry w) }
{
    match entry {
        Entry::Start { kind, tree } => {
            out.push(1)?;
            out.push(kind_number(*kind))?;
            put_tree(tree, out)
        }
        Entry::Load { name, tree } => {
            out.push(2)?;
            put_counted(name.as_str().as_bytes(), out)?;
            put_tree(tree, out)
        }
        Entry::Commit { ops, records } => {
            out.push(3)?;
            put_batch(ops, records, out)
        }
        Entry::Stamped {
            stamp,
            ops,
            records,
        } => {
            out.push(4)?;
            put_stamp(stamp, out)?;
            put_batch(ops, records, out)
        }
    }
}

/// The bytes of an entry, which are read back. Costs them.
pub fn entry_bytes(alloc: Global, entry: &Entry) -> Result<Vec<u8>, AllocError>
    requires { IsSoundEntry entry.now }
    ensures { IfOk result (λ v. (w : WrittenEntry) × IsEntry entry.now w × Reads entry_format v.items w []) }
{
    let mut out = Vec::new(alloc);
    put_entry(entry, &mut out)?;
    Ok(out)
}
