//! Bytes that go out.
ghost use Rattle.std.specs.Prelude.{◌≡◌, ◌<◌, ℕ, List, length, OnOk, OnErr};
ghost use Rattle.std.specs.declared.option.Option.{Option};
ghost use Rattle.std.specs.Io.KnownBytes.{WriteAppends, Appends};
ghost use Rattle.cp_outside.specs.Causes.{Accounts};
ghost use Rattle.cp_outside.specs.Sinks.{CountsRefusal, CountsSince, TakesSome, TakesLess};

use std::alloc::{AllocError, AllocFailed};
use thiserror::Error;

/// Why a sink refused a write. It took none of the bytes.
#[derive(Clone, Copy, Debug, Drop, Error)]
pub enum SinkFault {
    /// The output failed; its count of faults has risen.
    #[error("the output failed")]
    Failed,
    /// The sink found no memory to keep the bytes in. No fault is counted.
    #[error("out of memory")]
    Memory,
}

impl From<AllocError> for SinkFault {
    ghost use Rattle.std.specs.Prelude.{◌≡◌};
    ghost use Rattle.cp_outside.specs.declared.sink.SinkFault.TheVariants.{Memory};

    ghost from_gives = { λ _ e. e ≡ Memory };

    fn from(_refused: AllocError) -> SinkFault {
        SinkFault::Memory
    }
}

impl<T: Drop> From<AllocFailed<T>> for SinkFault {
    ghost use Rattle.std.specs.Prelude.{◌≡◌};
    ghost use Rattle.cp_outside.specs.declared.sink.SinkFault.TheVariants.{Memory};

    ghost from_gives = { λ _ e. e ≡ Memory };

    fn from(_refused: AllocFailed<T>) -> SinkFault {
        SinkFault::Memory
    }
}

/// Bytes that go out, as to a file, a pipe or memory.
pub trait Sink {
    /// The bytes that it took, in order, where the object tells.
    ghost contents: { Self → Option (List ℕ) };

    /// How often it has failed, up to the end of a `u64`.
    ghost faults: { Self → ℕ };

    /// How often it has refused a write, for a failure or for memory, up to the end of a `u64`.
    ghost refusals: { Self → ℕ };

    /// How many bytes it took since it last refused a write, or since it was made, up to the end of a `u64`.
    ghost since_refusal: { Self → ℕ };

    /// Takes bytes off the front of `bytes`, and says how many: at least one, and maybe not all.
    /// After an error it has taken none, and a later write may still succeed.
    fn write(&mut self, bytes: &[u8]) -> Result<usize, SinkFault>
        requires { 0 < length bytes.now }
        ensures some { TakesSome result bytes.now }
        ensures bytes { WriteAppends (contents self.old) (contents self.new) result bytes.now }
        ensures cause { Accounts (λ e. e ≡ SinkFault.Failed) (faults self.old) (faults self.new) result }
        ensures refused { CountsRefusal (refusals self.old) (refusals self.new) result }
        ensures since { CountsSince (since_refusal self.old) (since_refusal self.new) result };
}

/// Writes all of `bytes`, in as many writes as the sink wants, and gives up at the first that it
/// refuses. After an error a front part of the bytes was taken, which may be none, and isn't all of
/// them.
pub fn write_all<O: Sink>(output: &mut O, bytes: &[u8]) -> Result<(), SinkFault>
    ensures all { OnOk result (Appends (O.contents output.old) (O.contents output.new) bytes.now) }
    ensures part { OnErr result
        (TakesLess (O.contents output.old) (O.contents output.new) bytes.now) }
    ensures cause { Accounts (λ e. e ≡ SinkFault.Failed) (O.faults output.old) (O.faults output.new) result }
    ensures refused { CountsRefusal (O.refusals output.old) (O.refusals output.new) result }
    ensures since { OnErr result (O.since_refusal output.new ≡ 0) }
{
    let mut at = 0;
    while at < bytes.len() {
        at += output.write(&bytes[at..])?;
    }
    Ok(())
}
