//! Which calls of a disk in memory fail.
ghost use Rattle.std.specs.Prelude.{◌≡◌, ◌≤◌, ◌⊎◌, ◌↔◌, IfOk, IsTrue, IsFalse, Contains};
ghost use Rattle.cp_outside.specs.Causes.{one_more};
ghost use Rattle.cp_disk.specs.MemoryDisks.{IsBurnt};

use std::alloc::{AllocError, Global};

// The numbers of the calls that fail, how many calls pass before each later one fails, where there is such a number, how many
// calls there were, and how many of them failed.
#[derive(Drop)]
pub(crate) struct Plan {
    pub(crate) fails: Vec<u64>,
    pub(crate) fuse: Option<u64>,
    pub(crate) called: u64,
    pub(crate) faults: u64,
}

impl Plan {
    pub(crate) fn new(alloc: Global, fails: &[u64], fuse: Option<u64>) -> Result<Plan, AllocError>
        ensures fails { IfOk result (λ p. p.fails.items ≡ fails.now) }
        ensures fuse { IfOk result (λ p. p.fuse ≡ fuse) }
        ensures called { IfOk result (λ p. p.called ≡ 0) }
        ensures faults { IfOk result (λ p. p.faults ≡ 0) }
    {
        Ok(Plan {
            fails: fails.to_vec(alloc)?,
            fuse,
            called: 0,
            faults: 0,
        })
    }

    // Counts a call, and a fault where it is one that fails.
    pub(crate) fn fails_now(&mut self) -> bool
        ensures listed { IsTrue result ↔ (Contains self.old.fails.items (one_more self.old.called)
            ⊎ IsBurnt self.old.fuse (one_more self.old.called)) }
        ensures fails { self.new.fails.items ≡ self.old.fails.items }
        ensures fuse { self.new.fuse ≡ self.old.fuse }
        ensures called { self.new.called ≡ one_more self.old.called }
        ensures fault { IsTrue result → self.new.faults ≡ one_more self.old.faults }
        ensures none { IsFalse result → self.new.faults ≡ self.old.faults }
        ensures later { self.old.faults ≤ self.new.faults }
    {
        self.called = self.called.saturating_add(1);
        let fails = is_burnt(self.fuse, self.called) || self.fails.contains(&self.called);
        if fails {
            self.faults = self.faults.saturating_add(1);
        }
        fails
    }
}

// Whether the call of this number comes after those that the fuse lets pass.
fn is_burnt(fuse: Option<u64>, number: u64) -> bool
    ensures { IsTrue result ↔ IsBurnt fuse number }
{
    match fuse {
        Some(passes) => passes < number,
        None => false,
    }
}
