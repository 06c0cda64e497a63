//! How long what was reached stood at its place.
ghost use Rattle.std.specs.Prelude.{◌≡◌, ◌≤◌, ◌+◌, true, List, IfOk};
ghost use Rattle.std.specs.declared.option.Option.TheVariants.{None};
ghost use Rattle.cp_model.specs.declared.kind.Kind.{Kind};
ghost use Rattle.cp_model.specs.declared.record.Record.{Record as Row};
ghost use Rattle.cp_store.specs.Calls.{Asks};
ghost use Rattle.cp_store.specs.Counts.{store_in, calls_in, counted};
ghost use Rattle.cp_model.specs.Changes.{change_at};
ghost use Rattle.cp_uses.specs.InTime.{calls_to_tell};
ghost use Rattle.cp_uses.specs.Following.{Tells};
ghost use Rattle.cp_uses.specs.Stays.{is_over, step_of, IsKnown};

use crate::reached::Reached;
use cp_store::{Counted, ProvStore, StoreFault};
use std::alloc::Global;

/// What is known of how long what was reached stood at its place.
#[derive(Clone, Copy)]
pub(crate) struct Stay {
    /// It stood there up to this version at least.
    still: u64,
    /// A step by which the place had changed, if one is known.
    changed: Option<u64>,
}

impl Stay {
    /// What is known before the store is asked: a place stands from the step of what was reached on, that of a source always.
    pub(crate) fn of(reached: &Reached) -> Stay
        ensures known { (k : Kind) (rs : List Row) → IsKnown k rs reached.now result }
        ensures changed { result.changed ≡ None }
    {
        let changed = None;
        if reached.place.db.is_target() {
            let still = reached.tid;
            Stay { still, changed }
        } else {
            let still = u64::MAX;
            Stay { still, changed }
        }
    }

    /// Whether the place is known to have changed by this version.
    fn is_over(&self, version: u64) -> bool
        ensures { result ≡ is_over version self.now.changed }
    {
        match self.changed {
            Some(step) => step <= version,
            None => false,
        }
    }
}

/// The step that changed the place last up to this version, or 0. Costs a look-up.
fn last_step<P: ProvStore>(
    alloc: Global,
    store: &mut Counted<P>,
    reached: &Reached,
    version: u64,
) -> Result<u64, StoreFault>
    ensures step { (rs : List Row) → P.keeps (store_in store.old) rs
        → IfOk result (λ n. n ≡ step_of (change_at (P.kept_kind (store_in store.old)) rs version reached.now.place)) }
    ensures within { IfOk result (λ n. n ≤ version) }
    ensures calls { calls_in store.new ≤ calls_in store.old + 1 }
    ensures asks { Asks (counted P.ProvStore) (λ e. e ≡ StoreFault.Disk) store.old store.new result }
{
    match store.last_change(alloc, &reached.place, version)? {
        Some(change) => Ok(change.tid),
        None => Ok(0),
    }
}

/// Whether what was reached stood at its place up to this version. Costs a look-up at most, and none where it is known, as it is of
/// its own step.
pub(crate) fn stands<P: ProvStore>(
    alloc: Global,
    store: &mut Counted<P>,
    reached: &Reached,
    version: u64,
    stay: &mut Stay,
) -> Result<bool, StoreFault>
    ensures tells { (rs : List Row) → P.keeps (store_in store.old) rs
        → IsKnown (P.kept_kind (store_in store.old)) rs reached.now stay.old
        → IfOk result (λ b. Tells (P.kept_kind (store_in store.old)) rs reached.now version
        (calls_to_tell reached.now version) b stay.old stay.new (calls_in store.old) (calls_in store.new)) }
    ensures calls { calls_in store.new ≤ calls_in store.old + 1 }
    ensures known { is_over version stay.old.changed ≡ true → calls_in store.new ≡ calls_in store.old }
    ensures asks { Asks (counted P.ProvStore) (λ e. e ≡ StoreFault.Disk) store.old store.new result }
{
    if stay.is_over(version) {
        return Ok(false);
    }
    if version <= stay.still {
        return Ok(true);
    }
    let last = last_step(alloc, store, reached, version)?;
    if last > reached.tid {
        stay.changed = Some(last);
        return Ok(false);
    }
    stay.still = version;
    Ok(true)
}
