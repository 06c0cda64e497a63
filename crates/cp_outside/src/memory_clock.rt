//! A clock over moments in memory.
ghost use Rattle.std.specs.Prelude.{◌≡◌, [], ◌↔◌, Some, IsErr, IfOk, OnErr, Contains};
ghost use Rattle.cp_outside.specs.Causes.{Accounts, AnyError, one_more};
ghost use Rattle.cp_outside.specs.Moments.{Tells, first_of};
ghost use Rattle.cp_outside.specs.MemoryClocks.{new_clock, after_moment, after_failed_call};

use crate::clock::Clock;
use crate::fault::Failed;
use std::alloc::{AllocError, Global};
use std::marker::Model;

/// A clock that tells moments of its own, and 0 after the last of them. The calls whose numbers a list names fail, and no
/// others do.
#[derive(Drop)]
pub struct MemClock {
    moments: Vec<u64>,
    at: usize,
    fails: Vec<u64>,
    calls: u64,
    faults: u64,
}

impl Model for MemClock {
    ghost use Rattle.std.specs.Prelude.{◌≤◌, length, drop};
    ghost use Rattle.cp_outside.specs.MemoryClocks.{ClockState};

    ghost Value = { ClockState };

    ghost view = { λ s. record {
      left = drop s.at s.moments.items;
      fails = s.fails.items;
      calls = s.calls;
      faults = s.faults;
    } };

    ghost invariant = { λ s. s.at ≤ length s.moments.items };
}

impl MemClock {
    /// A clock that tells a copy of these moments, of which no call fails.
    pub fn new(alloc: Global, moments: &[u64]) -> Result<MemClock, AllocError>
        ensures { IfOk result (λ s. s ≡ new_clock moments.now []) }
    {
        MemClock::with_faults(alloc, moments, &[])
    }

    /// A clock that tells a copy of these moments, of which the calls whose numbers stand in `fails` fail. The first call
    /// has the number 1, and from the last number of a `u64` on the number stays.
    pub fn with_faults(
        alloc: Global,
        moments: &[u64],
        fails: &[u64],
    ) -> Result<MemClock, AllocError>
        ensures { IfOk result (λ s. s ≡ new_clock moments.now fails.now) }
    {
        Ok(MemClock {
            moments: moments.to_vec(alloc)?,
            at: 0,
            fails: fails.to_vec(alloc)?,
            calls: 0,
            faults: 0,
        })
    }
}

impl Clock for MemClock {
    ghost left = { λ s. Some s.left };

    ghost faults = { λ s. s.faults };

    ghost asked = { λ s. s.calls };

    fn now(&mut self) -> Result<u64, Failed>
        ensures told { Tells (Some self.old.left) (Some self.new.left) result }
        ensures counted { self.new.calls ≡ one_more self.old.calls }
        ensures cause { Accounts AnyError self.old.faults self.new.faults result }

        // The calls that the list names fail, and the others tell the next moment.
        ensures listed { IsErr result ↔ Contains self.old.fails (one_more self.old.calls) }
        ensures moment { IfOk result (λ m. (m ≡ first_of self.old.left) × (self.new ≡ after_moment self.old)) }
        ensures failed { OnErr result (self.new ≡ after_failed_call self.old) }
    {
        self.calls = self.calls.saturating_add(1);
        if self.fails.contains(&self.calls) {
            self.faults = self.faults.saturating_add(1);
            return Err(Failed);
        }
        let Some(moment) = self.moments.get(self.at) else {
            return Ok(0);
        };
        self.at += 1;
        Ok(*moment)
    }
}
