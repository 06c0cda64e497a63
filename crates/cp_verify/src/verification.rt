//! Whether the records of a file are those that its operations make.
ghost use Rattle.std.specs.Prelude.{◌≡◌, ◌↔◌, IsTrue, IfOk, OnOk, ⊤};
ghost use Rattle.std.specs.List.{slice_get};
ghost use Rattle.std.specs.declared.option.Option.TheVariants.{None, Some};
ghost use Rattle.cp_model.specs.declared.record.Verdict.TheVariants.{Agrees};
ghost use Rattle.cp_disk.specs.Counts.{UsesDisk};
ghost use Rattle.cp_disk.specs.Views.{IfKnown, Rests};
ghost use Rattle.cp_db.specs.Opening.{IsOpenDisk};
ghost use Rattle.cp_verify.specs.Verify.{IsDifference, VerifiesAs};
ghost use Rattle.cp_verify.specs.Verdicts.{IsVerdict, Judges};

use cp_db::{CommitAt, OpenFault, Passed, Work, tids_lie_between, work_over};
use cp_disk::Disk;
use cp_engine::{replay_recording, steps_of};
use cp_model::{Kind, Record, Verdict};
use cp_operation::Sources;
use cp_record::{PackedRecord, PackedRecords};
use cp_tree::TreeRep;
use std::alloc::{AllocError, Global};

/// Whether two records are the same, or both are lacking.
fn is_same(one: &Option<PackedRecord<'_>>, other: &Option<PackedRecord<'_>>) -> bool
    ensures { IsTrue result ↔ (one.now ≡ other.now) }
{
    match (one, other) {
        (None, None) => true,
        (Some(record), Some(there)) => record.is_same(there),
        _ => false,
    }
}

/// The first position at which two lists of records differ; one that has ended differs from one that hasn't. Costs the labels
/// of the first list, and the records up to that position.
fn first_difference(stored: &PackedRecords, expected: &PackedRecords) -> Option<usize>
    ensures { IsDifference stored.now expected.now result }
{
    let count = stored.count();
    let mut ours = stored.iter();
    let mut theirs = expected.iter();
    for n in 0..count {
        if !is_same(&ours.next(), &theirs.next()) {
            return Some(n);
        }
    }
    if theirs.next().is_some() {
        return Some(count);
    }
    None
}

/// The record at a position by itself, if there is one.
fn record_at(alloc: Global, records: &PackedRecords, n: usize) -> Result<Option<Record>, AllocError>
    ensures { IfOk result (λ found. found ≡ slice_get records.now n) }
{
    if n >= records.count() {
        return Ok(None);
    }
    let record = records.record(alloc, n)?;
    Ok(Some(record))
}

/// The verdict on records that differ first at a position.
fn differing(
    alloc: Global,
    at: u64,
    stored: &PackedRecords,
    expected: &PackedRecords,
    n: usize,
) -> Result<Verdict, AllocError>
    requires differ { IsDifference stored.now expected.now (Some n) }
    ensures { IfOk result (Judges at stored.now expected.now (Agrees 0)) }
{
    Ok(Verdict::Differs {
        at,
        stored: record_at(alloc, stored, n)?,
        expected: record_at(alloc, expected, n)?,
    })
}

/// The verdict after the records of one commit more, where so many agreed before.
fn judged(
    alloc: Global,
    at: u64,
    stored: &PackedRecords,
    expected: &PackedRecords,
    count: u64,
) -> Result<Verdict, AllocError>
    ensures { IfOk result (Judges at stored.now expected.now (Agrees count)) }
{
    match first_difference(stored, expected) {
        None => match count.checked_add(stored.count() as u64) {
            Some(more) => Ok(Verdict::Agrees(more)),
            None => Err(AllocError),
        },
        Some(n) => differing(alloc, at, stored, expected, n),
    }
}

/// Judges the records of one commit more, whose frame is at this offset. Costs the records up to the first that differs.
fn judge(
    alloc: Global,
    at: u64,
    stored: &PackedRecords,
    expected: &PackedRecords,
    verdict: &mut Verdict,
) -> Result<(), AllocError>
    ensures { OnOk result (Judges at stored.now expected.now verdict.old verdict.new) }
{
    if let Verdict::Agrees(count) = verdict {
        let judged = judged(alloc, at, stored, expected, *count)?;
        drop(std::mem::replace(verdict, judged));
    }
    Ok(())
}

/// The verdict on what a walk has come past.
#[derive(Drop)]
struct Verifying {
    verdict: Verdict,
}

/// A walk that verifies compares the records of each commit with those that its operations make.
impl Work for Verifying {
    ghost fits = { λ work kind last tree. ⊤ };

    ghost done = { λ work first place items. first ≡ None → IsVerdict place items work.verdict };

    fn begin<R: TreeRep>(
        _alloc: Global,
        _kind: Kind,
        _last: u64,
        _tree: &R,
    ) -> Result<Verifying, AllocError> {
        Ok(Verifying {
            verdict: Verdict::Agrees(0),
        })
    }

    fn commit<R: TreeRep, S: TreeRep>(
        &mut self,
        alloc: Global,
        kind: Kind,
        last: u64,
        tree: &mut R,
        sources: &Sources<S>,
        commit: CommitAt,
    ) -> Result<Option<u64>, AllocError> {
        let tids = steps_of(kind, commit.ops.items.len() as u32);
        if !tids_lie_between(&commit.records, last, last + tids) {
            return Ok(None);
        }
        let recorded = replay_recording(alloc, kind, last + 1, tree, sources, &commit.ops.items)?;
        let Some(expected) = recorded else {
            return Ok(None);
        };
        judge(
            alloc,
            commit.at,
            &commit.records,
            &expected,
            &mut self.verdict,
        )?;
        Ok(Some(tids))
    }

    fn pass(&mut self, _passed: Passed) {}
}

/// Compares each record of a file with the one that a replay of its operations makes, in order, and gives the number of
/// records where all agree, else the first two that differ, with the offset of their frame. Refuses the same files as
/// an opening. Begins with a sync, writes nothing, and reads each frame once; beside the tree and the sources it has one
/// entry and its records at a time in memory. Costs the bytes of the file, the operations and their records.
pub fn verify<R: TreeRep, S: TreeRep, D: Disk>(
    alloc: Global,
    disk: &mut D,
) -> Result<Verdict, OpenFault>
    ensures verified { IfKnown (D.known disk.old) (λ v. VerifiesAs v.content result) }
    ensures rests { Rests (D.known disk.old) (D.known disk.new) }
    ensures cause { UsesDisk IsOpenDisk (D.known disk.old) (D.known disk.new) result }
{
    let work = work_over::<R, S, Verifying, D>(alloc, disk)?;
    Ok(work.verdict)
}
