ghost use Rattle.cp_curators.specs.Laws.{TransactionsHaveBegun};

/// States laws of the definitions, and does nothing when it runs: transactions have begun by the last Tid, whichever of them
/// begins, goes on or ends, and after each later commit.
pub fn laws()
    ensures { TransactionsHaveBegun }
{}
