//! A sink in memory.
ghost use Rattle.std.specs.Prelude.{◌≡◌, [], ◌<◌, ◌↔◌, length, Some, IfOk, OnOk, IsErrOf, Contains};
ghost use Rattle.std.specs.Io.KnownBytes.{WriteAppends};
ghost use Rattle.cp_outside.specs.Causes.{Accounts, one_more};
ghost use Rattle.cp_outside.specs.MemoryStates.{new_sink, after_refusal, after_write, after_failed_write, after_refused_write};
ghost use Rattle.cp_outside.specs.Sinks.{CountsRefusal, CountsSince, TakesSome};

use crate::plan::Plan;
use crate::sink::{Sink, SinkFault};
use std::alloc::{AllocError, Global};
use std::marker::Model;

/// A sink that keeps what it took. The writes whose numbers a list names fail, and no others do;
/// any may run out of memory.
#[derive(Drop)]
pub struct MemSink {
    bytes: Vec<u8>,
    plan: Plan,
    refusals: u64,
    since_refusal: u64,
}

impl Model for MemSink {
    ghost use Rattle.cp_outside.specs.MemoryStates.{SinkState};

    ghost Value = { SinkState };

    ghost view = { λ s. record {
      bytes = s.bytes.items;
      fails = s.plan.fails.items;
      calls = s.plan.calls;
      faults = s.plan.faults;
      refusals = s.refusals;
      since_refusal = s.since_refusal;
    } };
}

impl MemSink {
    /// An empty sink, of which no write fails.
    pub fn new(alloc: Global) -> Result<MemSink, AllocError>
        ensures { IfOk result (λ s. s ≡ new_sink []) }
    {
        MemSink::with_faults(alloc, &[])
    }

    /// An empty sink, of which the writes whose numbers stand in `fails` fail. The first write has
    /// the number 1, and from the last number of a `u64` on the number stays.
    pub fn with_faults(alloc: Global, fails: &[u64]) -> Result<MemSink, AllocError>
        ensures { IfOk result (λ s. s ≡ new_sink fails.now) }
    {
        Ok(MemSink {
            bytes: Vec::new(alloc),
            plan: Plan::new(alloc, fails)?,
            refusals: 0,
            since_refusal: 0,
        })
    }

    // Counts a refusal, after which nothing was taken yet.
    fn refuse(&mut self)
        ensures { self.new ≡ after_refusal self.old }
    {
        self.refusals = self.refusals.saturating_add(1);
        self.since_refusal = 0;
    }

    /// All that it took.
    pub fn bytes(&self) -> &[u8]
        ensures { result.now ≡ self.now.bytes }
    {
        &self.bytes
    }
}

impl Sink for MemSink {
    ghost contents = { λ s. Some s.bytes };

    ghost faults = { λ s. s.faults };

    ghost refusals = { λ s. s.refusals };

    ghost since_refusal = { λ s. s.since_refusal };

    fn write(&mut self, bytes: &[u8]) -> Result<usize, SinkFault>
        requires { 0 < length bytes.now }
        ensures some { TakesSome result bytes.now }
        ensures bytes { WriteAppends (Some self.old.bytes) (Some self.new.bytes) result bytes.now }
        ensures cause { Accounts (λ e. e ≡ SinkFault.Failed) self.old.faults self.new.faults result }
        ensures refused { CountsRefusal self.old.refusals self.new.refusals result }
        ensures since { CountsSince self.old.since_refusal self.new.since_refusal result }

        // The writes that the list names fail, and the others take all, where there is memory.
        ensures listed { IsErrOf result SinkFault.Failed
            ↔ Contains self.old.fails (one_more self.old.calls) }
        ensures count { IfOk result (λ n. n ≡ length bytes.now) }
        ensures taken { OnOk result (self.new ≡ after_write self.old bytes.now) }
        ensures failed { IsErrOf result SinkFault.Failed → self.new ≡ after_failed_write self.old }
        ensures memory { IsErrOf result SinkFault.Memory → self.new ≡ after_refused_write self.old }
    {
        if self.plan.fails_now() {
            self.refuse();
            return Err(SinkFault::Failed);
        }
        if self.bytes.extend_from_slice(bytes).is_err() {
            self.refuse();
            return Err(SinkFault::Memory);
        }
        self.since_refusal = self.since_refusal.saturating_add(bytes.len() as u64);
        Ok(bytes.len())
    }
}
