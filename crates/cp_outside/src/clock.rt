//! What time it is.
ghost use Rattle.std.specs.Prelude.{◌≡◌, ℕ, List};
ghost use Rattle.std.specs.declared.option.Option.{Option};
ghost use Rattle.cp_outside.specs.Causes.{Accounts, AnyError, one_more};
ghost use Rattle.cp_outside.specs.Moments.{Tells};

use crate::fault::Failed;

/// A clock, as of the operating system or in memory. A moment is the number of seconds since 1970-01-01 00:00 UTC.
pub trait Clock {
    /// The moments that are still to come, where the object tells.
    ghost left: { Self → Option (List ℕ) };

    /// How often it has failed, up to the end of a `u64`.
    ghost faults: { Self → ℕ };

    /// How often it was asked, up to the end of a `u64`.
    ghost asked: { Self → ℕ };

    /// The next moment. A clock whose moments are known tells 0 after the last of them. After `Failed` none is lost.
    fn now(&mut self) -> Result<u64, Failed>
        ensures told { Tells (left self.old) (left self.new) result }
        ensures counted { asked self.new ≡ one_more (asked self.old) }
        ensures cause { Accounts AnyError (faults self.old) (faults self.new) result };
}
