//! A source over bytes in memory.
ghost use Rattle.std.specs.Prelude.{◌≡◌, [], ◌<◌, ◌↔◌, min, length, Some, IsErr, IfOk, OnErr, Contains};
ghost use Rattle.std.specs.Io.{ReadsAtMost};
ghost use Rattle.std.specs.Io.KnownBytes.{ReadConsumes};
ghost use Rattle.cp_outside.specs.Causes.{Accounts, AnyError, CountsBytes, one_more};
ghost use Rattle.cp_outside.specs.MemoryStates.{new_source, after_read, after_failed_read};

use crate::fault::Failed;
use crate::plan::Plan;
use crate::source::Source;
use std::alloc::{AllocError, Global};
use std::marker::Model;

/// A source over bytes of its own, which tells what is left. The reads whose numbers a list names
/// fail, and no others do.
#[derive(Drop)]
pub struct MemSource {
    bytes: Vec<u8>,
    at: usize,
    plan: Plan,
}

impl Model for MemSource {
    ghost use Rattle.std.specs.Prelude.{◌≤◌, length, drop};
    ghost use Rattle.cp_outside.specs.MemoryStates.{SourceState};

    ghost Value = { SourceState };

    ghost view = { λ s. record {
      left = drop s.at s.bytes.items;
      given = s.at;
      fails = s.plan.fails.items;
      calls = s.plan.calls;
      faults = s.plan.faults;
    } };

    ghost invariant = { λ s. s.at ≤ length s.bytes.items };
}

impl MemSource {
    /// A source over a copy of `bytes`, of which no read fails.
    pub fn new(alloc: Global, bytes: &[u8]) -> Result<MemSource, AllocError>
        ensures { IfOk result (λ s. s ≡ new_source bytes.now []) }
    {
        MemSource::with_faults(alloc, bytes, &[])
    }

    /// A source over a copy of `bytes`, of which the reads whose numbers stand in `fails` fail. The
    /// first read has the number 1, and from the last number of a `u64` on the number stays.
    pub fn with_faults(alloc: Global, bytes: &[u8], fails: &[u64]) -> Result<MemSource, AllocError>
        ensures { IfOk result (λ s. s ≡ new_source bytes.now fails.now) }
    {
        Ok(MemSource {
            bytes: bytes.to_vec(alloc)?,
            at: 0,
            plan: Plan::new(alloc, fails)?,
        })
    }
}

impl Source for MemSource {
    ghost left = { λ s. Some s.left };

    ghost given = { λ s. s.given };

    ghost faults = { λ s. s.faults };

    fn read(&mut self, into: &mut [u8]) -> Result<usize, Failed>
        requires { 0 < length into.old }
        ensures bound { ReadsAtMost result into.new }
        ensures bytes { ReadConsumes (Some self.old.left) (Some self.new.left) result into.new }
        ensures counted { CountsBytes self.old.given self.new.given result }
        ensures cause { Accounts AnyError self.old.faults self.new.faults result }

        // The reads that the list names fail, and the others move all that there is room for.
        ensures listed { IsErr result ↔ Contains self.old.fails (one_more self.old.calls) }
        ensures count { IfOk result (λ n. n ≡ min (length into.old) (length self.old.left)) }
        ensures moved { IfOk result (λ n. self.new ≡ after_read self.old n) }
        ensures failed { OnErr result (self.new ≡ after_failed_read self.old) }
    {
        if self.plan.fails_now() {
            return Err(Failed);
        }
        let count = into.len().min(self.bytes.len() - self.at);
        into[..count].copy_from_slice(&self.bytes[self.at..self.at + count]);
        self.at += count;
        Ok(count)
    }
}
