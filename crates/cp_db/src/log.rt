//! The log of a file: a line for each commit of its history.
ghost use Rattle.std.specs.Prelude.{◌≡◌, ◌≤◌, length, ⊤};
ghost use Rattle.std.specs.List.{flat_map};
ghost use Rattle.std.specs.declared.option.Option.TheVariants.{None};
ghost use Rattle.cp_model.specs.History.{log_line, log_of};
ghost use Rattle.cp_model.specs.declared.limits.TheConstants.{OPS_MAX};
ghost use Rattle.cp_disk.specs.Counts.{UsesDisk};
ghost use Rattle.cp_disk.specs.Views.{IfKnown, Rests};
ghost use Rattle.cp_frame.specs.Items.{entries_in};
ghost use Rattle.cp_db.specs.Opening.{IsOpenDisk};
ghost use Rattle.cp_db.specs.Log.{LogsAs};
ghost use Rattle.cp_db.specs.declared.limits.TheConstants.{TIDS_MAX};

use crate::committed::replay_commit;
use crate::fault::OpenFault;
use crate::walk::work_over;
use crate::work::{CommitAt, Passed, Work};
use cp_disk::Disk;
use cp_engine::steps_of;
use cp_model::{Kind, LogLine, LogList, OpList, Stamp};
use cp_operation::Sources;
use cp_tree::TreeRep;
use std::alloc::{AllocError, Global};

/// The line of a commit after the Tid `last`.
fn commit_line(kind: Kind, last: u64, stamp: Stamp, ops: &OpList) -> LogLine
    requires few { last ≤ TIDS_MAX }
    requires counted { length ops.now ≤ OPS_MAX }
    ensures { result ≡ log_line kind last stamp ops.now }
{
    let operations = ops.items.len() as u32;
    LogLine {
        low: last + 1,
        high: last + steps_of(kind, operations),
        curator: stamp.curator,
        moment: stamp.moment,
        operations,
    }
}

/// The log of what a walk has come past.
#[derive(Drop)]
struct Logging {
    lines: LogList,
}

/// A walk that lists commits adds a line for each.
impl Work for Logging {
    ghost fits = { λ work kind last tree. ⊤ };

    ghost done = { λ work first place items. first ≡ None → work.lines ≡ log_of (flat_map entries_in items) };

    fn begin<R: TreeRep>(
        alloc: Global,
        _kind: Kind,
        _last: u64,
        _tree: &R,
    ) -> Result<Logging, AllocError> {
        Ok(Logging {
            lines: LogList {
                items: Vec::new(alloc),
            },
        })
    }

    fn commit<R: TreeRep, S: TreeRep>(
        &mut self,
        alloc: Global,
        kind: Kind,
        last: u64,
        tree: &mut R,
        sources: &Sources<S>,
        commit: CommitAt,
    ) -> Result<Option<u64>, AllocError> {
        let line = commit_line(kind, last, commit.stamp, &commit.ops);
        self.lines.items.push(line)?;
        replay_commit(
            alloc,
            kind,
            last,
            tree,
            sources,
            &commit.ops,
            &commit.records,
        )
    }

    fn pass(&mut self, _passed: Passed) {}
}

/// The commits of the history in a file, in their order. Replays its entries as an opening does, and refuses the same
/// files; but it keeps no records, so that beside the tree and the sources it has one entry at a time in memory and a line
/// for each commit. Begins with a sync, writes nothing, and reads each frame once. Costs the bytes of the file and the
/// operations; of a record it compares the Tid, once it is read.
pub fn log_of<R: TreeRep, S: TreeRep, D: Disk>(
    alloc: Global,
    disk: &mut D,
) -> Result<LogList, OpenFault>
    ensures logged { IfKnown (D.known disk.old) (λ v. LogsAs v.content result) }
    ensures rests { Rests (D.known disk.old) (D.known disk.new) }
    ensures cause { UsesDisk IsOpenDisk (D.known disk.old) (D.known disk.new) result }
{
    let work = work_over::<R, S, Logging, D>(alloc, disk)?;
    Ok(work.lines)
}
