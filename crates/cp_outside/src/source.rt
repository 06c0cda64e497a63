//! Bytes that come in.
ghost use Rattle.std.specs.Prelude.{◌<◌, ℕ, List, length};
ghost use Rattle.std.specs.declared.option.Option.{Option};
ghost use Rattle.std.specs.Io.{ReadsAtMost};
ghost use Rattle.std.specs.Io.KnownBytes.{ReadConsumes};
ghost use Rattle.cp_outside.specs.Causes.{Accounts, AnyError, CountsBytes};

use crate::fault::Failed;

/// Bytes that come in, as from a file, a pipe or memory.
pub trait Source {
    /// The bytes that are left, where the object tells.
    ghost left: { Self → Option (List ℕ) };

    /// How many bytes it has given.
    ghost given: { Self → ℕ };

    /// How often it has failed, up to the end of a `u64`.
    ghost faults: { Self → ℕ };

    /// Moves the next bytes to the front of `into`, and says how many: at most `into.len()`, and
    /// maybe fewer before the end. `Ok(0)` is the end of the input, and comes nowhere else.
    ///
    /// After `Failed` no byte is lost, so that a later read goes on where this one stood. What
    /// `into` holds behind the bytes read, or after `Failed`, is not said.
    fn read(&mut self, into: &mut [u8]) -> Result<usize, Failed>
        requires { 0 < length into.old }
        ensures bound { ReadsAtMost result into.new }
        ensures bytes { ReadConsumes (left self.old) (left self.new) result into.new }
        ensures counted { CountsBytes (given self.old) (given self.new) result }
        ensures cause { Accounts AnyError (faults self.old) (faults self.new) result };
}
