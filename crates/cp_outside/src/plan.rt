//! Which calls of a source or a sink in memory fail.
ghost use Rattle.std.specs.Prelude.{◌≡◌, ◌≤◌, ◌↔◌, IfOk, IsTrue, IsFalse, Contains};
ghost use Rattle.cp_outside.specs.Causes.{one_more};

use std::alloc::{AllocError, Global};

// The numbers of the calls that fail, how many calls there were, and how many of them failed.
#[derive(Drop)]
pub(crate) struct Plan {
    pub(crate) fails: Vec<u64>,
    pub(crate) calls: u64,
    pub(crate) faults: u64,
}

impl Plan {
    pub(crate) fn new(alloc: Global, fails: &[u64]) -> Result<Plan, AllocError>
        ensures fails { IfOk result (λ p. p.fails.items ≡ fails.now) }
        ensures calls { IfOk result (λ p. p.calls ≡ 0) }
        ensures faults { IfOk result (λ p. p.faults ≡ 0) }
    {
        Ok(Plan {
            fails: fails.to_vec(alloc)?,
            calls: 0,
            faults: 0,
        })
    }

    // Counts a call, and a fault where it is one that fails.
    pub(crate) fn fails_now(&mut self) -> bool
        ensures listed { IsTrue result ↔ Contains self.old.fails.items (one_more self.old.calls) }
        ensures same { self.new.fails.items ≡ self.old.fails.items }
        ensures calls { self.new.calls ≡ one_more self.old.calls }
        ensures fault { IsTrue result → self.new.faults ≡ one_more self.old.faults }
        ensures none { IsFalse result → self.new.faults ≡ self.old.faults }
        ensures later { self.old.faults ≤ self.new.faults }
    {
        self.calls = self.calls.saturating_add(1);
        let fails = self.fails.contains(&self.calls);
        if fails {
            self.faults = self.faults.saturating_add(1);
        }
        fails
    }
}
