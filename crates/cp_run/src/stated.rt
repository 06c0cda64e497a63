//! Laws, as the contract of a function.
ghost use Rattle.cp_run.specs.Bad.{NoneIsBad};
ghost use Rattle.cp_run.specs.Looks.{KeepsTheLast, ReadsOnce};

/// States what a cache of the pages looked at last promises, and does nothing when it runs.
///
/// The last so many pages looked at are kept, as many as it has room for; in so many looks no page is read twice. A run of rows
/// has no page that isn't one of rows.
pub fn laws()
    ensures last { KeepsTheLast }
    ensures once { ReadsOnce }
    ensures bad { NoneIsBad }
{}
