ghost use Rattle.std.specs.Prelude.{IsTrue, ◌↔◌};
ghost use Rattle.cp_run.specs.Sets.{Fits, Fit};

use cp_page::PAGE_SIZE;

/// Pages that lie one right after the other on a disk, with rows of one order that rise from page to page.
#[derive(Clone, Copy, Debug, PartialEq, Eq, Drop)]
pub struct Run {
    /// Which of the orders of rows: 0, 1 or 2.
    pub order: u8,
    /// The offset of the first page.
    pub at: u64,
    /// How many pages there are.
    pub pages: u64,
}

/// Whether the end of the run is a number of 64 bits.
fn fits(run: &Run) -> bool
    ensures { IsTrue result ↔ Fits run.now }
{
    run.pages <= (u64::MAX - run.at) / PAGE_SIZE as u64
}

/// Whether the end of each run is a number of 64 bits.
pub fn fit(runs: &[Run]) -> bool
    ensures { IsTrue result ↔ Fit runs.now }
{
    for run in runs {
        if !fits(run) {
            return false;
        }
    }
    true
}
