//! The real clock.
ghost use Rattle.std.specs.Prelude.{◌≡◌, None, OnErr};
ghost use Rattle.cp_outside.specs.Causes.{Accounts, AnyError, one_more};
ghost use Rattle.cp_outside.specs.Moments.{Tells};
ghost use Rattle.cp_host.specs.Adapters.{clock_faults, clock_asked};

use cp_outside::{Clock, Failed};
use std::rt;
use std::time::{SystemTime, UNIX_EPOCH};

/// The clock of the operating system. It tells nothing of the moments to come; that a moment is the time no clause says.
///
/// Every error of the system is `Failed`, and is counted, and so is a time before 1970.
#[derive(Drop)]
pub struct HostClock<R> {
    runtime: R,
    faults: u64,
    asked: u64,
}

impl<R> HostClock<R> {
    /// The clock of this runtime, as `&rt` in `main`. It has not failed, and was not asked yet.
    pub fn new(runtime: R) -> HostClock<R>
        ensures faults { clock_faults result ≡ 0 }
        ensures asked { clock_asked result ≡ 0 }
    {
        HostClock {
            runtime,
            faults: 0,
            asked: 0,
        }
    }
}

impl<R: rt::Clock> Clock for HostClock<R> {
    ghost left = { λ _. None };

    ghost faults = { clock_faults };

    ghost asked = { clock_asked };

    fn now(&mut self) -> Result<u64, Failed>
        ensures told { Tells None None result }
        ensures counted { clock_asked self.new ≡ one_more (clock_asked self.old) }
        ensures cause { Accounts AnyError (clock_faults self.old) (clock_faults self.new) result }

        // Each fault is counted once.
        ensures failed { OnErr result (clock_faults self.new ≡ one_more (clock_faults self.old)) }
    {
        self.asked = self.asked.saturating_add(1);
        if let Ok(time) = SystemTime::now(&self.runtime) {
            if let Ok(since) = time.duration_since(UNIX_EPOCH) {
                return Ok(since.as_secs());
            }
        }
        self.faults = self.faults.saturating_add(1);
        Err(Failed)
    }
}
