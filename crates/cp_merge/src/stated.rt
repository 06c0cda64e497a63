//! Laws, as the contract of a function.
ghost use Rattle.cp_merge.specs.Counting.{RunsCountWhole, CountedRowsRise};
ghost use Rattle.cp_merge.specs.Merging.{NewRunsHoldEach, MergesHoldEach, MergedRunsHoldEach};
ghost use Rattle.cp_merge.specs.Orders.{OrdersSplit, EachOrderHolds};

/// States that a new run, or a merge of runs with it, holds each row once, old and new ones, and does nothing when it runs.
///
/// So it is for rows of any kind, and in each of the three orders for the rows of the records of a store. Of a run of rows each row
/// counts; of other pages those that count rise.
pub fn laws()
    ensures new { NewRunsHoldEach }
    ensures merge { MergesHoldEach }
    ensures merged { MergedRunsHoldEach }
    ensures split { OrdersSplit }
    ensures orders { EachOrderHolds }
    ensures whole { RunsCountWhole }
    ensures rise { CountedRowsRise }
{}
